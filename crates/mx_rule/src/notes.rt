//! Seats that are split off another and joined to one: notes, reports, and the processes' own seats.

ghost use Rattle.std.specs.Prelude.{◌≡◌, ◌≤◌, []};
ghost use Rattle.mx_rule.specs.Fronts.{IsFront};
ghost use Rattle.mx_rule.specs.Dealing.{dealing_view, retired_view};
ghost use Rattle.mx_rule.specs.Notes.{noting_view, noted_view, joined_view, reporting_view, reported_view};
ghost use Rattle.mx_rule.specs.Seats.{pass_of, super_of, note_seen, report_seen};
ghost use Rattle.mx_rule.specs.Shown.{fresh_view};
ghost use Rattle.mx_rule.specs.Telling.{AreOwnMarks, IsTold};
ghost use Rattle.mx_rule.specs.declared.views.View.TheVariants.{Super, Pass, Note as Noted, Report, Spent};

use crate::office::SuperSeat;
use crate::passes::PassSeat;
use crate::rule::Board;
use crate::views::View;
use atomic_table::{Join, Play, Seat, Split};

/// The supervisor makes a note.
pub struct Noting;

impl<E> Split<View<E>> for Noting {
    ghost left = { λ v. Super (noting_view (super_of v)) };

    ghost right = { λ v. Noted (noted_view (super_of v)) };
}

/// A process takes a note.
pub struct Hearing;

impl<E> Join<View<E>> for Hearing {
    ghost both = { λ v u. Pass (joined_view (note_seen u) (pass_of v)) };

    ghost spent = { Spent };
}

/// A process makes a report.
pub struct Reporting;

impl<E> Split<View<E>> for Reporting {
    ghost left = { λ v. Pass (pass_of v) };

    ghost right = { λ v. Report (reporting_view (pass_of v)) };
}

/// The supervisor takes a report.
pub struct Reported;

impl<E> Join<View<E>> for Reported {
    ghost both = { λ v u. Super (reported_view (report_seen u) (super_of v)) };

    ghost spent = { Spent };
}

/// The supervisor deals the seat of the next process.
pub struct Dealing;

impl<E> Split<View<E>> for Dealing {
    ghost left = { λ v. Super (dealing_view (super_of v)) };

    ghost right = { λ v. Pass (fresh_view (super_of v).start (super_of v).next) };
}

/// The seat of a process comes back.
pub struct Retiring;

impl<E> Join<View<E>> for Retiring {
    ghost both = { λ v u. Super (retired_view (pass_of u) (super_of v)) };

    ghost spent = { Spent };
}

/// The supervisor hears what the rule says of what it knows.
pub struct Hears;

impl<E> Play<E, View<E>> for Hears {
    ghost then = { λ st me n after. (after ≡ (Super (super_of me.0), [])) × IsTold (super_of me.0) };
}

/// A process hears what the rule says of what it was told.
pub struct Listens;

impl<E> Play<E, View<E>> for Listens {
    ghost then = { λ st me n after. (after ≡ (Pass (pass_of me.0), []))
        × (AreOwnMarks (pass_of me.0) × IsFront (pass_of me.0).earlier (pass_of me.0).history) };
}

/// A note that waits to be taken by a process.
#[derive(Drop)]
pub struct NoteSeat<E> {
    pub seat: Seat<E, View<E>>,
    /// How many entries were answered when it was made.
    pub floor: u32,
    pub ghost posed: { seat.me ≡ (Noted (note_seen seat.me.0), []) },
    pub ghost floor_is: { (note_seen seat.me.0).floor ≡ floor },
    pub ghost limit: { floor ≤ 262143 },
}

/// A report that waits to be taken by the supervisor.
#[derive(Drop)]
pub struct ReportSeat<E> {
    pub seat: Seat<E, View<E>>,
    pub ghost posed: { seat.me ≡ (Report (report_seen seat.me.0), []) },
}

impl<E> SuperSeat<E> {
    /// Makes a note of what is answered and settled. Condition: nothing is pending. What the supervisor knows of words
    /// and reports is right.
    pub fn split(&mut self, shared: &Board<E>) -> NoteSeat<E>
        requires fits { self.old.seat.table_id ≡ shared.now.table_id }
        requires layout { shared.now.key.layout ≡ self.old.layout }
        requires rest { (super_of self.old.seat.me.0).length ≤ (super_of self.old.seat.me.0).answered }
        ensures view { super_of self.new.seat.me.0 ≡ noting_view (super_of self.old.seat.me.0) }
        ensures note { note_seen result.seat.me.0 ≡ noted_view (super_of self.old.seat.me.0) }
        ensures note_place { result.seat.table_id ≡ self.old.seat.table_id }
        ensures told { IsTold (super_of self.new.seat.me.0) }
        ensures place { self.new.seat.table_id ≡ self.old.seat.table_id }
        ensures layout { self.new.layout ≡ self.old.layout }
    {
        let seat = shared.split_seat::<Noting>(&mut self.seat);
        let floor = self.answered;
        self.hear(shared);
        NoteSeat { seat, floor }
    }

    /// Takes a report: its process was told of answered entries alone, and the word that it missed has at least the
    /// number of that miss.
    pub fn report(&mut self, shared: &Board<E>, report: ReportSeat<E>)
        requires fits { self.old.seat.table_id ≡ shared.now.table_id }
        requires also { report.seat.table_id ≡ shared.now.table_id }
        requires layout { shared.now.key.layout ≡ self.old.layout }
        ensures view { super_of self.new.seat.me.0
            ≡ reported_view (report_seen report.seat.me.0) (super_of self.old.seat.me.0) }
        ensures told { IsTold (super_of self.new.seat.me.0) }
        ensures place { self.new.seat.table_id ≡ self.old.seat.table_id }
        ensures layout { self.new.layout ≡ self.old.layout }
    {
        let ReportSeat { seat } = report;
        shared.join_seat::<Reported>(&mut self.seat, seat);
        self.hear(shared);
    }

    /// Hears what the rule says of what the supervisor knows: a load of the count, which changes nothing.
    fn hear(&mut self, shared: &Board<E>)
        requires fits { self.old.seat.table_id ≡ shared.now.table_id }
        requires layout { shared.now.key.layout ≡ self.old.layout }
        ensures view { super_of self.new.seat.me.0 ≡ super_of self.old.seat.me.0 }
        ensures told { IsTold (super_of self.new.seat.me.0) }
        ensures place { self.new.seat.table_id ≡ self.old.seat.table_id }
        ensures layout { self.new.layout ≡ self.old.layout }
    {
        let word = self.layout.count();
        shared.load::<Hears>(&mut self.seat, word);
    }

    /// The seat of the next process. Condition: there is one more.
    pub fn deal(&mut self, shared: &Board<E>) -> PassSeat<E>
        requires fits { self.old.seat.table_id ≡ shared.now.table_id }
        requires layout { shared.now.key.layout ≡ self.old.layout }
        requires more { (super_of self.old.seat.me.0).next ≤ self.old.layout.processes }
        ensures view { super_of self.new.seat.me.0 ≡ dealing_view (super_of self.old.seat.me.0) }
        ensures pass { pass_of result.seat.me.0
            ≡ fresh_view (super_of self.old.seat.me.0).start (super_of self.old.seat.me.0).next }
        ensures pass_layout { result.layout ≡ self.old.layout }
        ensures pass_place { result.seat.table_id ≡ self.old.seat.table_id }
        ensures place { self.new.seat.table_id ≡ self.old.seat.table_id }
        ensures layout { self.new.layout ≡ self.old.layout }
    {
        let seat = shared.split_seat::<Dealing>(&mut self.seat);
        let process = self.next;
        self.next = process + 1;
        PassSeat {
            seat,
            layout: self.layout,
            process,
            start: self.start,
            floor: self.start,
            turn: 0,
            cleared: u64::from(self.start),
            cell: None,
        }
    }

    /// Takes the seat of a process back, with all that it knows.
    pub fn retire(&mut self, shared: &Board<E>, pass: PassSeat<E>)
        requires also { pass.seat.table_id ≡ shared.now.table_id }
        requires fits { self.old.seat.table_id ≡ shared.now.table_id }
        requires layout { shared.now.key.layout ≡ self.old.layout }
        ensures view { super_of self.new.seat.me.0
            ≡ retired_view (pass_of pass.seat.me.0) (super_of self.old.seat.me.0) }
        ensures place { self.new.seat.table_id ≡ self.old.seat.table_id }
        ensures layout { self.new.layout ≡ self.old.layout }
    {
        let PassSeat {
            seat,
            layout: _,
            process: _,
            start: _,
            floor: _,
            turn: _,
            cleared: _,
            cell: _,
        } = pass;
        shared.join_seat::<Retiring>(&mut self.seat, seat);
    }
}

impl<E> PassSeat<E> {
    /// Takes a note. The history that the process was told of has then grown at its end, and no own entry of it has a
    /// mark beyond the trace.
    pub fn join(&mut self, shared: &Board<E>, note: NoteSeat<E>)
        requires fits { self.old.seat.table_id ≡ shared.now.table_id }
        requires also { note.seat.table_id ≡ shared.now.table_id }
        requires layout { shared.now.key.layout ≡ self.old.layout }
        ensures view { pass_of self.new.seat.me.0
            ≡ joined_view (note_seen note.seat.me.0) (pass_of self.old.seat.me.0) }
        ensures marks { AreOwnMarks (pass_of self.new.seat.me.0) }
        ensures longer { IsFront (pass_of self.new.seat.me.0).earlier (pass_of self.new.seat.me.0).history }
        ensures place { self.new.seat.table_id ≡ self.old.seat.table_id }
        ensures layout { self.new.layout ≡ self.old.layout }
    {
        let NoteSeat { seat, floor } = note;
        shared.join_seat::<Hearing>(&mut self.seat, seat);
        self.floor = self.floor.max(floor);
        self.listen(shared);
    }

    /// Hears what the rule says of what the process was told: a load of the count, which changes nothing.
    fn listen(&mut self, shared: &Board<E>)
        requires fits { self.old.seat.table_id ≡ shared.now.table_id }
        requires layout { shared.now.key.layout ≡ self.old.layout }
        ensures view { pass_of self.new.seat.me.0 ≡ pass_of self.old.seat.me.0 }
        ensures marks { AreOwnMarks (pass_of self.new.seat.me.0) }
        ensures longer { IsFront (pass_of self.new.seat.me.0).earlier (pass_of self.new.seat.me.0).history }
        ensures place { self.new.seat.table_id ≡ self.old.seat.table_id }
        ensures layout { self.new.layout ≡ self.old.layout }
    {
        let word = self.layout.count();
        shared.load::<Listens>(&mut self.seat, word);
    }

    /// Makes a report: how far it was told, how long its trace is, and the miss that it ends with.
    pub fn split(&mut self, shared: &Board<E>) -> ReportSeat<E>
        requires fits { self.old.seat.table_id ≡ shared.now.table_id }
        requires layout { shared.now.key.layout ≡ self.old.layout }
        ensures view { pass_of self.new.seat.me.0 ≡ pass_of self.old.seat.me.0 }
        ensures report { report_seen result.seat.me.0 ≡ reporting_view (pass_of self.old.seat.me.0) }
        ensures report_place { result.seat.table_id ≡ self.old.seat.table_id }
        ensures place { self.new.seat.table_id ≡ self.old.seat.table_id }
        ensures layout { self.new.layout ≡ self.old.layout }
    {
        let seat = shared.split_seat::<Reporting>(&mut self.seat);
        ReportSeat { seat }
    }
}
