//! Fields, each added with a blank before it.

ghost use Rattle.std.specs.Prelude.{◌≡◌, ◌++◌, [], ◌∷◌, map, OnOk, OnErr};
ghost use Rattle.std.specs.Fmt.{decimal};
ghost use Rattle.mx_sdw.specs.Octal.{octal};
ghost use Rattle.mx_request.specs.Fields.{line_of, ring_text, address_text};
ghost use Rattle.mx_request.specs.Growth.{IsGrown, blank_before};

use itoa::Buffer;
use mx_sdw::{Ring, Word, write_octal};
use std::alloc::AllocError;

pub(super) fn push_field(out: &mut Vec<u8>, field: &[u8]) -> Result<(), AllocError>
    ensures ok { OnOk result (out.new.items ≡ out.old.items ++ 32 ∷ field.now) }
    ensures err { OnErr result (IsGrown out.old.items out.new.items) }
{
    out.push(b' ')?;
    out.extend_from_slice(field)
}

/// The number in decimal.
pub(super) fn push_number(out: &mut Vec<u8>, n: u64) -> Result<(), AllocError>
    ensures ok { OnOk result (out.new.items ≡ out.old.items ++ 32 ∷ decimal n) }
    ensures err { OnErr result (IsGrown out.old.items out.new.items) }
{
    let mut buffer = Buffer::new();
    push_field(out, buffer.format(n).as_bytes())
}

pub(super) fn push_ring(out: &mut Vec<u8>, ring: Ring) -> Result<(), AllocError>
    ensures ok { OnOk result (out.new.items ≡ out.old.items ++ 32 ∷ ring_text ring) }
    ensures err { OnErr result (IsGrown out.old.items out.new.items) }
{
    push_field(out, &[b'0' + ring.number()])
}

pub(super) fn push_rings(out: &mut Vec<u8>, brackets: &[Ring; 3]) -> Result<(), AllocError>
    ensures ok { OnOk result (out.new.items ≡ out.old.items ++ blank_before (map ring_text brackets.now)) }
    ensures err { OnErr result (IsGrown out.old.items out.new.items) }
{
    let [r1, r2, r3] = brackets;
    push_ring(out, *r1)?;
    push_ring(out, *r2)?;
    push_ring(out, *r3)
}

/// The label, a process's number and a word.
pub(super) fn push_message(
    out: &mut Vec<u8>,
    label: &[u8],
    process: u8,
    word: Word,
) -> Result<(), AllocError>
    ensures ok { OnOk result (out.new.items
        ≡ out.old.items ++ line_of (label.now ∷ decimal process ∷ octal word ∷ [])) }
    ensures err { OnErr result (IsGrown out.old.items out.new.items) }
{
    out.extend_from_slice(label)?;
    push_number(out, u64::from(process))?;
    out.extend_from_slice(b" ")?;
    write_octal(out, word.value())
}

/// The label and the address `S|W`.
pub(super) fn push_address(
    out: &mut Vec<u8>,
    label: &[u8],
    segno: u16,
    word: u16,
) -> Result<(), AllocError>
    ensures ok { OnOk result (out.new.items ≡ out.old.items ++ line_of (label.now ∷ address_text segno word ∷ [])) }
    ensures err { OnErr result (IsGrown out.old.items out.new.items) }
{
    out.extend_from_slice(label)?;
    out.extend_from_slice(b" ")?;
    write_octal(out, u64::from(segno))?;
    out.extend_from_slice(b"|")?;
    write_octal(out, u64::from(word))
}
