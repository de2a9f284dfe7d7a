//! Whether two replies are the same.

ghost use Rattle.std.specs.Prelude.{◌≡◌, ◌↔◌, true, IfOk, IsTrue};
ghost use Rattle.mx_request.specs.ReplyTexts.{fits_reply};

use mx_request::{Reply, each_reply_has_its_own_text};
use std::alloc::{AllocError, Global};

/// Whether two replies that a text can say are the same. Takes memory for their texts.
pub(crate) fn is_same_reply(alloc: Global, one: &Reply, other: &Reply) -> Result<bool, AllocError>
    requires one { fits_reply one.now ≡ true }
    requires other { fits_reply other.now ≡ true }
    ensures { IfOk result (λ same. IsTrue same ↔ (one.now ≡ other.now)) }
{
    each_reply_has_its_own_text();
    let mut text = Vec::new(alloc);
    one.append_to(&mut text)?;
    let mut other_text = Vec::new(alloc);
    other.append_to(&mut other_text)?;
    Ok(is_same_text(text.as_slice(), other_text.as_slice()))
}

fn is_same_text(one: &[u8], other: &[u8]) -> bool
    ensures { IsTrue result ↔ (one.now ≡ other.now) }
{
    one == other
}
