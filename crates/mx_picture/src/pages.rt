//! A run as a page.

ghost use Rattle.std.specs.Prelude.{◌≡◌, ◌≤◌, IsErrOf, OnOk};
ghost use Rattle.mx_io.specs.Faults.{Rose};
ghost use Rattle.mx_transcript.specs.Legal.{IsLegal};
ghost use Rattle.mx_picture.specs.Pages.{GainsPage};

use crate::heads::{send_bottom, send_top};
use crate::lines::send_lines;
use crate::pictures::show_picture;
use crate::tables::send_table;
use mx_io::Sink;
use mx_script::Session;
use mx_show::ShowError;
use mx_state::Journal;
use mx_transcript::Transcripts;
use std::alloc::Global;

/// Shows a legal run of a session as one page of HTML that needs nothing beside it: the drawing, the lines in words, each an
/// element that is named by its process and its number, and a slider over the journal with a table of what each entry leaves
/// each process by each of its segment numbers. On an error a part was sent: `Fault` where the sink failed, `Memory` where
/// memory was wanting.
pub fn show_page<K: Sink>(
    alloc: Global,
    session: &Session,
    journal: &Journal,
    transcripts: &Transcripts,
    sink: &mut K,
) -> Result<(), ShowError>
    requires legal { IsLegal session.now journal.now transcripts.now }
    ensures shown { OnOk result (GainsPage (K.out sink.old) (K.out sink.new) session.now journal.now transcripts.now) }
    ensures cause { IsErrOf result ShowError.Fault → Rose (K.faults sink.old) (K.faults sink.new) }
    ensures only { (IsErrOf result ShowError.Fault → ⊥) → K.faults sink.new ≡ K.faults sink.old }
    ensures later { K.faults sink.old ≤ K.faults sink.new }
{
    send_top(alloc, session, journal, sink)?;
    show_picture(alloc, session, journal, transcripts, sink)?;
    send_lines(alloc, session, journal, transcripts, sink)?;
    send_table(alloc, session, journal, transcripts, sink)?;
    send_bottom(sink)?;
    Ok(())
}
