//! The writer of script lines: from the line to its text.

ghost use Rattle.std.specs.Prelude.{◌≡◌, ◌++◌, codes, OnOk};
ghost use Rattle.mx_sdw.specs.Octal.{octal};
ghost use Rattle.mx_script.specs.SessionTexts.{base_text, operand_text, line_text};

use crate::lines::{Base, Line, Operand};
use mx_sdw::write_octal;
use std::alloc::AllocError;

impl Line {
    /// Appends the line's text, without a newline. Where memory is wanting, a part of it may have been appended.
    pub fn append_to(&self, out: &mut Vec<u8>) -> Result<(), AllocError>
        ensures { OnOk result (out.new.items ≡ out.old.items ++ line_text self.now) }
    {
        match self {
            Line::Ask(request) => request.request().append_to(out),
            Line::Set { word } => {
                out.extend_from_slice(b"set ")?;
                write_octal(out, word.value())
            }
            Line::Epp { n, operand } => add_register_operand(out, b"epp ", *n, operand),
            Line::Lda { operand } => add_labelled_operand(out, b"lda ", operand),
            Line::Sta { operand } => add_labelled_operand(out, b"sta ", operand),
            Line::Spri { n, operand } => add_register_operand(out, b"spri ", *n, operand),
            Line::Fetch => out.extend_from_slice(b"fetch"),
            Line::Call { operand } => add_labelled_operand(out, b"call ", operand),
            Line::Return { operand } => add_labelled_operand(out, b"return ", operand),
        }
    }
}

fn add_register_operand(
    out: &mut Vec<u8>,
    label: &[u8],
    n: u8,
    operand: &Operand,
) -> Result<(), AllocError>
    ensures { OnOk result (out.new.items ≡ out.old.items ++ (label.now ++ octal n ++ codes " " ++ operand_text operand.now)) }
{
    out.extend_from_slice(label)?;
    write_octal(out, u64::from(n))?;
    out.extend_from_slice(b" ")?;
    add_operand(out, operand)
}

fn add_labelled_operand(
    out: &mut Vec<u8>,
    label: &[u8],
    operand: &Operand,
) -> Result<(), AllocError>
    ensures { OnOk result (out.new.items ≡ out.old.items ++ (label.now ++ operand_text operand.now)) }
{
    out.extend_from_slice(label)?;
    add_operand(out, operand)
}

// `S|W` or `prN|W`, with `,*` or without.
fn add_operand(out: &mut Vec<u8>, operand: &Operand) -> Result<(), AllocError>
    ensures { OnOk result (out.new.items ≡ out.old.items ++ operand_text operand.now) }
{
    add_base(out, operand.base)?;
    out.extend_from_slice(b"|")?;
    write_octal(out, u64::from(operand.word))?;
    if operand.indirect {
        out.extend_from_slice(b",*")?;
    }
    Ok(())
}

fn add_base(out: &mut Vec<u8>, base: Base) -> Result<(), AllocError>
    ensures { OnOk result (out.new.items ≡ out.old.items ++ base_text base) }
{
    match base {
        Base::Segment(segno) => write_octal(out, u64::from(segno)),
        Base::Register(n) => {
            out.extend_from_slice(b"pr")?;
            write_octal(out, u64::from(n))
        }
    }
}
