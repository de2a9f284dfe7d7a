//! A run as a drawing.

ghost use Rattle.std.specs.Prelude.{◌≡◌, ◌≤◌, map, OnOk, IsErrOf};
ghost use Rattle.mx_io.specs.Faults.{Rose};
ghost use Rattle.mx_transcript.specs.Legal.{IsLegal};
ghost use Rattle.mx_picture.specs.Boxes.{DrawsBoxes, GainsBoxes};
ghost use Rattle.mx_picture.specs.Drawings.{Draws, GainsDrawing};

mod arrows;
mod boxes;
mod changes;
mod entries;
mod lanes;
mod layers;
mod legends;
mod sentences;
mod titles;

use crate::layout::{Layout, Placed};
use boxes::add_box;
use layers::{ABOVE, BEHIND, Drawing, Layer};
use mx_io::{Sink, write_all};
use mx_judging::judge_all;
use mx_script::Session;
use mx_show::{ShowError, send_when_long};
use mx_state::Journal;
use mx_transcript::Transcripts;
use std::alloc::Global;

/// Draws a legal run of a session as one SVG of at most 1,200 units in width: the journal as columns, in as many rows as they take, and in
/// each row a lane for each process in the colours of its rings; each reference in a box of its own at its point with its outcome, an
/// arrow from each read to the store that it stands for and from each message to the entry that took it, and each entry that changed
/// access with whose. On an error a part was sent: `Fault` where the sink failed, `Memory` where memory was wanting. About 32 KiB of the
/// text are held at a time, beside the layout.
pub fn show_picture<K: Sink>(
    alloc: Global,
    session: &Session,
    journal: &Journal,
    transcripts: &Transcripts,
    sink: &mut K,
) -> Result<(), ShowError>
    requires legal { IsLegal session.now journal.now transcripts.now }
    // One box for each reference of the run, in the lane of its process; each reference has the access that it was judged on,
    // and those of a process are in its order.
    ensures drawn { OnOk result (GainsDrawing (K.out sink.old) (K.out sink.new) session.now journal.now transcripts.now) }
    ensures cause { IsErrOf result ShowError.Fault → Rose (K.faults sink.old) (K.faults sink.new) }
    ensures only { (IsErrOf result ShowError.Fault → ⊥) → K.faults sink.new ≡ K.faults sink.old }
    ensures later { K.faults sink.old ≤ K.faults sink.new }
{
    let accesses = judge_all(alloc, session, journal, transcripts)?;
    let layout = Layout::new(alloc, session, journal, transcripts, &accesses)?;
    let drawing = Drawing {
        session,
        journal,
        layout: &layout,
    };
    draw(alloc, &drawing, sink)
}

// Draws what was laid out, within its frame.
fn draw<K: Sink>(alloc: Global, drawing: &Drawing, sink: &mut K) -> Result<(), ShowError>
    ensures drawn { OnOk result (GainsBoxes (K.out sink.old) (K.out sink.new) drawing.now.layout.now) }
    ensures cause { IsErrOf result ShowError.Fault → Rose (K.faults sink.old) (K.faults sink.new) }
    ensures only { (IsErrOf result ShowError.Fault → ⊥) → K.faults sink.new ≡ K.faults sink.old }
    ensures later { K.faults sink.old ≤ K.faults sink.new }
{
    let mut out = Vec::new(alloc);
    out.extend_from_slice(b"<svg")?;
    draw_layers(alloc, drawing, &BEHIND, &mut out, sink)?;
    draw_boxes(
        alloc,
        drawing.layout,
        &drawing.layout.placed,
        &mut out,
        sink,
    )?;
    draw_layers(alloc, drawing, &ABOVE, &mut out, sink)?;
    out.extend_from_slice(b"</svg>\n")?;
    write_all(sink, &out)?;
    Ok(())
}

// Draws the boxes of these references, one behind another.
fn draw_boxes<K: Sink>(
    alloc: Global,
    layout: &Layout,
    placed: &[Placed],
    out: &mut Vec<u8>,
    sink: &mut K,
) -> Result<(), ShowError>
    ensures drawn { OnOk result (DrawsBoxes layout.now placed.now (K.out sink.old) (K.out sink.new) out.old.items out.new.items) }
    ensures cause { IsErrOf result ShowError.Fault → Rose (K.faults sink.old) (K.faults sink.new) }
    ensures only { (IsErrOf result ShowError.Fault → ⊥) → K.faults sink.new ≡ K.faults sink.old }
    ensures later { K.faults sink.old ≤ K.faults sink.new }
{
    for reference in placed {
        add_box(alloc, out, layout, reference)?;
        send_when_long(out, sink)?;
    }
    Ok(())
}

// Draws layers, each upon those before it.
fn draw_layers<K: Sink>(
    alloc: Global,
    drawing: &Drawing,
    layers: &[Layer],
    out: &mut Vec<u8>,
    sink: &mut K,
) -> Result<(), ShowError>
    ensures drawn { OnOk result (Draws (K.out sink.old) (K.out sink.new) out.old.items out.new.items) }
    ensures cause { IsErrOf result ShowError.Fault → Rose (K.faults sink.old) (K.faults sink.new) }
    ensures only { (IsErrOf result ShowError.Fault → ⊥) → K.faults sink.new ≡ K.faults sink.old }
    ensures later { K.faults sink.old ≤ K.faults sink.new }
{
    for layer in layers {
        draw_layer(alloc, drawing, *layer, out, sink)?;
    }
    Ok(())
}

// Draws the marks of a layer, one behind another.
fn draw_layer<K: Sink>(
    alloc: Global,
    drawing: &Drawing,
    layer: Layer,
    out: &mut Vec<u8>,
    sink: &mut K,
) -> Result<(), ShowError>
    ensures drawn { OnOk result (Draws (K.out sink.old) (K.out sink.new) out.old.items out.new.items) }
    ensures cause { IsErrOf result ShowError.Fault → Rose (K.faults sink.old) (K.faults sink.new) }
    ensures only { (IsErrOf result ShowError.Fault → ⊥) → K.faults sink.new ≡ K.faults sink.old }
    ensures later { K.faults sink.old ≤ K.faults sink.new }
{
    for place in 0..drawing.count(layer) {
        let mark = drawing.mark(alloc, layer, place)?;
        out.extend_from_slice(mark.as_bytes())?;
        send_when_long(out, sink)?;
    }
    Ok(())
}
