//! The writer of session texts: from the session to its text.

ghost use Rattle.std.specs.Prelude.{◌≡◌, ◌++◌, ◌∷◌, [], map, length, IfOk, OnOk};
ghost use Rattle.mx_script.specs.SessionTexts.{asked, class_part, history_rows, process_rows, session_text};
ghost use Rattle.mx_drill.specs.Writing.{rows_text};
ghost use Rattle.mx_request.specs.RequestTexts.{request_text};
ghost use Rattle.mx_script.specs.declared.rows.Row.TheVariants.{Header as HeaderRow, Line as LineRow, Process as ProcessRow};

use itoa::Buffer;
use mx_aim::Class;
use mx_list::Bytes;
use mx_request::{Entrant, SharedRequest};
use mx_script::{Line, Script, Session};
use mx_sdw::write_octal;
use std::alloc::{AllocError, Global};

/// The text of a session, line by line. Takes time linear in the text, and memory for it alone. The only error is want of memory.
pub fn session_text(alloc: Global, session: &Session) -> Result<Bytes, AllocError>
    ensures { IfOk result (λ text. text ≡ session_text session.now) }
{
    let mut out = Vec::new(alloc);
    add_header(&mut out, session.version())?;
    add_history(&mut out, session.history())?;
    add_setup(&mut out, session.setup().items())?;
    add_processes(
        &mut out,
        session.principals().items(),
        session.scripts().items(),
    )?;
    out.extend_from_slice(b"end\n")?;
    Ok(Bytes::of(out))
}

fn add_header(out: &mut Vec<u8>, version: u8) -> Result<(), AllocError>
    ensures { OnOk result (out.new.items ≡ out.old.items ++ rows_text (HeaderRow version ∷ [])) }
{
    let mut buffer = Buffer::new();
    out.extend_from_slice(b"multics ")?;
    out.extend_from_slice(buffer.format(version).as_bytes())?;
    out.extend_from_slice(b"\n")
}

fn add_history(out: &mut Vec<u8>, history: Option<u32>) -> Result<(), AllocError>
    ensures { OnOk result (out.new.items ≡ out.old.items ++ rows_text (history_rows history)) }
{
    if let Some(limit) = history {
        let mut buffer = Buffer::new();
        out.extend_from_slice(b"history ")?;
        out.extend_from_slice(buffer.format(limit).as_bytes())?;
        out.extend_from_slice(b"\n")?;
    }
    Ok(())
}

fn add_setup(out: &mut Vec<u8>, setup: &[SharedRequest]) -> Result<(), AllocError>
    ensures { OnOk result (out.new.items ≡ out.old.items ++ rows_text (map asked setup.now)) }
{
    for request in setup {
        add_request(out, request)?;
        out.extend_from_slice(b"\n")?;
    }
    Ok(())
}

fn add_request(out: &mut Vec<u8>, request: &SharedRequest) -> Result<(), AllocError>
    ensures { OnOk result (out.new.items ≡ out.old.items ++ request_text request.now) }
{
    request.request().append_to(out)?;
    Ok(())
}

// Each process's line, and then its script.
fn add_processes(
    out: &mut Vec<u8>,
    entrants: &[Entrant],
    scripts: &[Script],
) -> Result<(), AllocError>
    requires { length scripts.now ≡ length entrants.now }
    ensures { OnOk result (out.new.items ≡ out.old.items ++ rows_text (process_rows entrants.now scripts.now)) }
{
    for (i, entrant) in entrants.iter().enumerate() {
        add_process(out, entrant)?;
        add_script(out, scripts[i].items())?;
    }
    Ok(())
}

fn add_process(out: &mut Vec<u8>, entrant: &Entrant) -> Result<(), AllocError>
    ensures { OnOk result (out.new.items ≡ out.old.items ++ rows_text (ProcessRow entrant.now ∷ [])) }
{
    out.extend_from_slice(b"process ")?;
    entrant.who.append_to(out)?;
    add_class(out, entrant.authorization)?;
    out.extend_from_slice(b"\n")
}

// The class, which is left out where it is the lowest.
fn add_class(out: &mut Vec<u8>, class: Class) -> Result<(), AllocError>
    ensures { OnOk result (out.new.items ≡ out.old.items ++ class_part class) }
{
    if class.equals(&Class::lowest()) {
        return Ok(());
    }
    out.extend_from_slice(b" ")?;
    write_octal(out, u64::from(class.level()))?;
    out.extend_from_slice(b":")?;
    write_octal(out, u64::from(class.categories()))
}

fn add_script(out: &mut Vec<u8>, script: &[Line]) -> Result<(), AllocError>
    ensures { OnOk result (out.new.items ≡ out.old.items ++ rows_text (map LineRow script.now)) }
{
    for line in script {
        line.append_to(out)?;
        out.extend_from_slice(b"\n")?;
    }
    Ok(())
}
