//! What the supervisor tells a process, and the process the supervisor.

ghost use Rattle.std.specs.Prelude.{◌≡◌, ◌≤◌};
ghost use Rattle.mx_rule.specs.Fronts.{IsFront};
ghost use Rattle.mx_rule.specs.Notes.{joined_view, reporting_view};
ghost use Rattle.mx_rule.specs.Seats.{report_seen};
ghost use Rattle.mx_rule.specs.Telling.{AreOwnMarks};

use crate::naming::Naming;
use crate::passes::Pass;
use mx_rule::{Board, NoteSeat, ReportSeat};
use std::marker::{Model, PhantomData};

/// A note of the supervisor in the run that `B` names: which entries are answered, and which words are settled.
#[derive(Drop)]
pub struct Note<E, B: Naming> {
    pub(crate) seat: NoteSeat<E>,
    pub(crate) run: PhantomData<B>,
}

impl<E, B: Naming> Model for Note<E, B> {
    ghost use Rattle.mx_desc.specs.Notes.{IsNote};
    ghost use Rattle.mx_rule.specs.Seats.{note_seen};
    ghost use Rattle.mx_rule.specs.declared.views.NoteView.{NoteView};

    ghost Value = { NoteView E };

    ghost view = { λ a. note_seen a.seat.seat.me.0 };

    ghost invariant = { λ a. IsNote B.table a.seat.seat.table_id B.start (note_seen a.seat.seat.me.0) };
}

impl<E, B: Naming> Pass<E, B> {
    /// Takes a note. The process is then told of the entries that were answered when it was made, or of those of an
    /// earlier note that were more; no own entry of them has a mark beyond the trace.
    pub fn join(&mut self, shared: &Board<E>, note: Note<E, B>)
        requires fits { shared.now.table_id ≡ B.table }
        requires layout { shared.now.key.layout ≡ B.layout }
        ensures view { self.new ≡ record self.old { view = joined_view note self.old.view } }
        ensures later { self.old.view.floor ≤ note.floor → self.new.view.history ≡ note.history }
        ensures marks { AreOwnMarks self.new.view }
        ensures longer { IsFront self.new.view.earlier self.new.view.history }
    {
        let Note { seat, run: _ } = note;
        self.seat.join(shared, seat);
    }

    /// Makes a report: how far the process was told, how long its trace is, and the miss that it ends with.
    pub(crate) fn report(&mut self, shared: &Board<E>) -> ReportSeat<E>
        requires fits { shared.now.table_id ≡ B.table }
        requires layout { shared.now.key.layout ≡ B.layout }
        ensures same { self.new ≡ self.old }
        ensures report { report_seen result.seat.me.0 ≡ reporting_view self.old.view }
        ensures place { result.seat.table_id ≡ B.table }
    {
        self.seat.split(shared)
    }
}
