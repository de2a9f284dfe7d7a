//! Texts of any length, the short ones held in the value itself.
ghost use Rattle.std.specs.Prelude.{◌≡◌, ◌==◌, ◌<◌, ◌++◌, IfOk, OnErr, OnOk, length};
ghost use Rattle.std.specs.Cmp.{partial_equiv_from_equiv};
ghost use Rattle.std.specs.Cmp.Lexicographic.{pointwise, nat_list_eq_equiv};

use crate::texts::Text;
use mx_list::Bytes;
use std::alloc::{AllocError, Global};
use std::marker::Model;

/// A text, seen as the list of its bytes. Where it has at most 30 of them it is held in the value, and reading or copying it
/// takes no memory; a longer one takes one piece.
#[derive(Debug, Drop)]
pub(crate) struct HeldText {
    held: Held,
}

#[derive(Debug, Drop)]
enum Held {
    Short(Text<30>),
    Long(Bytes),
}

impl Model for HeldText {
    ghost use Rattle.std.specs.Prelude.{List, ℕ};
    ghost use Rattle.mx_name.specs.Held.{text_of};

    ghost Value = { List ℕ };

    ghost view = { λ a. text_of a.held };
}

impl HeldText {
    /// The text of these bytes. Memory can be wanting for a long one alone.
    pub(crate) fn of_slice(alloc: Global, text: &[u8]) -> Result<HeldText, AllocError>
        ensures ok { IfOk result (λ held. held ≡ text.now) }
        ensures err { OnErr result (30 < length text.now) }
    {
        let held = if text.len() <= 30 {
            Held::Short(Text::of(text))
        } else {
            Held::Long(Bytes::of_slice(alloc, text)?)
        };
        Ok(HeldText { held })
    }

    /// The bytes of the text.
    #[inline(always)]
    pub(crate) fn bytes(&self) -> &[u8]
        ensures { result.now ≡ self.now }
    {
        match &self.held {
            Held::Short(text) => text.bytes(),
            Held::Long(text) => text.items(),
        }
    }

    /// Appends the bytes of the text; want of memory leaves the output as it was.
    #[inline(always)]
    pub(crate) fn append_to(&self, out: &mut Vec<u8>) -> Result<(), AllocError>
        ensures ok { OnOk result (out.new.items ≡ out.old.items ++ self.now) }
        ensures err { OnErr result (out.new.items ≡ out.old.items) }
    {
        match &self.held {
            Held::Short(text) => text.append_to(out),
            Held::Long(text) => out.extend_from_slice(text.items()),
        }
    }
}

impl Clone for HeldText {
    ghost is_clone = { λ a b. b ≡ a };

    fn clone(&self) -> Result<HeldText, AllocError> {
        let held = match &self.held {
            Held::Short(text) => Held::Short(*text),
            Held::Long(text) => Held::Long(text.clone()?),
        };
        Ok(HeldText { held })
    }
}

impl PartialEq for HeldText {
    ghost eq = { pointwise ◌==◌ };

    ghost laws = { partial_equiv_from_equiv nat_list_eq_equiv };

    fn eq(&self, other: &Self) -> bool {
        self.bytes() == other.bytes()
    }
}

impl Eq for HeldText {
    ghost laws = { nat_list_eq_equiv };
}
