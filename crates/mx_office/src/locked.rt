//! What the office keeps under its lock.

ghost use Rattle.std.specs.Prelude.{◌≡◌, ◌+◌, ◌<◌, ◌≤◌, ℕ, false, true, Ok, Err, IsErr, IsFalse, IsOk, IsTrue, OnErr, OnOk, length};
ghost use Rattle.mx_closing.specs.Closing.{AreOfAll};
ghost use Rattle.mx_office.specs.Blocking.{IsStuck};
ghost use Rattle.mx_office.specs.Ends.{HasFinished};
ghost use Rattle.mx_office.specs.Locked.{IsLocked};
ghost use Rattle.mx_office.specs.Serving.{HasEntered, HasMetLimit, HasSettled, IsServed};
ghost use Rattle.mx_office.specs.declared.answers.Answer.TheVariants.{Waiting};
ghost use Rattle.mx_office.specs.declared.answers.EnterError.TheVariants.{HistoryFull, Memory};
ghost use Rattle.mx_office.specs.declared.answers.Served.{Served as ServedValue};
ghost use Rattle.mx_request.specs.declared.requests.Request.TheVariants.{Block, Resume};
ghost use Rattle.mx_script.specs.Sessions.{limit_of};

use crate::answers::{EnterError, Served};
use crate::finishing::finish;
use crate::naming::Sitting;
use crate::serving::{serve, settle_for};
use mx_core::Runs;
use mx_desc::{Pass, Passes, Super};
use mx_list::Sequence;
use mx_request::SharedRequest;
use mx_rule::{Board, Words};
use mx_sdw::Ring;
use mx_state::{Entry, Journal};
use mx_sup::Supervisor;
use std::alloc::{AllocError, Global};
use std::marker::Model;
use std::sync::Wait;
use std::sync::ledger::{Book, Share};

/// The supervisor of a run: the plain one with its journal, the one at the shared words, the book of the processes' own
/// entries, and whether the run is to end. Whenever the lock is free these say the same of the journal.
#[derive(Drop)]
pub struct Locked<'a, B: Sitting> {
    supervisor: Supervisor<'a>,
    chief: Super<Entry, B>,
    book: Book<B>,
    stopped: bool,
    // Room for the run of pages that an entry gives out, so that it is taken once.
    given: Runs,
}

impl<'a, B: Sitting> Model for Locked<'a, B> {
    ghost use Rattle.mx_office.specs.Holding.{LockedValue};
    ghost use Rattle.mx_office.specs.Locked.{IsLocked};

    ghost Value = { LockedValue };

    ghost view = { λ a. record {
      supervised = a.supervisor;
      chief = a.chief;
      total = a.book.total;
      stopped = a.stopped;
    } };

    ghost invariant = { λ a. IsLocked B.session B.setup B.layout a.supervisor a.chief a.book.total };
}

impl<'a, B: Sitting> Locked<'a, B> {
    /// A run that is not to end, of these. It takes no memory. Condition: they say the same of the journal.
    pub fn new(
        alloc: Global,
        supervisor: Supervisor<'a>,
        chief: Super<Entry, B>,
        book: Book<B>,
    ) -> Locked<'a, B>
        requires { IsLocked B.session B.setup B.layout supervisor chief book.total }
        ensures { result ≡ record { supervised = supervisor.entry; chief = chief; total = book.total; stopped = false } }
    {
        Locked {
            supervisor,
            chief,
            book,
            stopped: false,
            given: Sequence::new(alloc),
        }
    }

    /// A request of a process, from the limit to its being told of its entry, in one hold of the lock. Once the run is to
    /// end every request is answered with `Memory`. Waits for the processes whose access the entry changed.
    pub fn serve<R: Wait>(
        &mut self,
        rt: &R,
        alloc: Global,
        pass: &mut Pass<Entry, B>,
        shared: &Board<Entry>,
        ring: Ring,
        request: &SharedRequest,
    ) -> Result<Served, EnterError>
        requires fits { shared.now.table_id ≡ B.table }
        requires layout { shared.now.key.layout ≡ B.layout }
        ensures entered { (served : ServedValue) → result ≡ Ok served
            → HasEntered B.session B.setup ring request.now served pass.old pass.new }
        ensures full { (length : ℕ) → result ≡ Err (HistoryFull length)
            → HasMetLimit B.session length pass.old pass.new }
        ensures below { (served : ServedValue) → result ≡ Ok served
            → length self.old.supervised.journal < limit_of B.session }
        ensures at_limit { self.old.stopped ≡ false → length self.old.supervised.journal ≡ limit_of B.session
            → result ≡ Err (HistoryFull (limit_of B.session)) }
        ensures memory { result ≡ Err Memory → pass.new ≡ pass.old }
        ensures over { self.old.stopped ≡ true → result ≡ Err Memory }
        ensures longer { (served : ServedValue) → result ≡ Ok served
            → length self.new.supervised.journal ≡ length self.old.supervised.journal + 1 }
        ensures served { (served : ServedValue) → result ≡ Ok served → IsServed self.old.supervised
            pass.old.view.process ring request.now served self.new.supervised }
        ensures still { OnErr result (self.new.supervised ≡ self.old.supervised) }
        ensures stopped { self.new.stopped ≡ self.old.stopped }
    {
        if self.stopped {
            return Err(EnterError::Memory);
        }
        serve(
            rt,
            alloc,
            &mut self.supervisor,
            &mut self.chief,
            &mut self.book,
            pass,
            shared,
            &mut self.given,
            ring,
            request,
        )
    }

    /// The `block` of a process, in one hold of the lock.
    pub(crate) fn block<R: Wait>(
        &mut self,
        rt: &R,
        alloc: Global,
        pass: &mut Pass<Entry, B>,
        shared: &Board<Entry>,
        ring: Ring,
        request: &SharedRequest,
    ) -> Result<Served, EnterError>
        requires request { request.now ≡ Block }
        requires fits { shared.now.table_id ≡ B.table }
        requires layout { shared.now.key.layout ≡ B.layout }
        ensures entered { (served : ServedValue) → result ≡ Ok served
            → HasEntered B.session B.setup ring Block served pass.old pass.new }
        ensures full { (length : ℕ) → result ≡ Err (HistoryFull length)
            → HasMetLimit B.session length pass.old pass.new }
        ensures memory { result ≡ Err Memory → pass.new ≡ pass.old }
    {
        self.serve(rt, alloc, pass, shared, ring, request)
    }

    /// The `resume` of a process that waited, in one hold of the lock. Condition: nothing keeps it asleep any more. Its
    /// answer is then not `waiting`.
    pub(crate) fn resume<R: Wait>(
        &mut self,
        rt: &R,
        alloc: Global,
        pass: &mut Pass<Entry, B>,
        shared: &Board<Entry>,
        ring: Ring,
        request: &SharedRequest,
    ) -> Result<Served, EnterError>
        requires request { request.now ≡ Resume }
        requires fits { shared.now.table_id ≡ B.table }
        requires layout { shared.now.key.layout ≡ B.layout }
        requires awake { IsStuck B.session self.old pass.old.view.process → ⊥ }
        ensures entered { (served : ServedValue) → result ≡ Ok served
            → HasEntered B.session B.setup ring Resume served pass.old pass.new }
        ensures given { (served : ServedValue) → result ≡ Ok served → served.answer ≡ Waiting → ⊥ }
        ensures full { (length : ℕ) → result ≡ Err (HistoryFull length)
            → HasMetLimit B.session length pass.old pass.new }
        ensures memory { result ≡ Err Memory → pass.new ≡ pass.old }
    {
        self.serve(rt, alloc, pass, shared, ring, request)
    }

    /// Whether a process that waits has to sleep: the run goes on, the journal has room, and `resume` would be answered
    /// `waiting`. Of a number that is no process's it says no.
    pub(crate) fn is_stuck(&self, p: u8) -> bool
        ensures yes { IsTrue result → IsStuck B.session self.now p }
        ensures no { IsFalse result → 1 ≤ p → p ≤ B.layout.processes → IsStuck B.session self.now p → ⊥ }
    {
        1 <= p
            && p <= self.chief.layout().processes
            && !self.stopped
            && self.supervisor.length() < self.supervisor.limit()
            && !self.supervisor.ready(p)
    }

    /// Whether the journal is at its limit.
    pub(crate) fn is_full(&self) -> bool
        ensures yes { IsTrue result → length self.now.supervised.journal ≡ limit_of B.session }
        ensures no { IsFalse result → length self.now.supervised.journal < limit_of B.session }
    {
        self.supervisor.length() >= self.supervisor.limit()
    }

    /// Settles the word of this number of a process, where it is a fault, and tells the process of all entries, in one hold
    /// of the lock. Once the run is to end it refuses, and changes nothing.
    pub fn settle_for(
        &mut self,
        pass: &mut Pass<Entry, B>,
        shared: &Board<Entry>,
        segno: u16,
    ) -> Result<(), AllocError>
        requires fits { shared.now.table_id ≡ B.table }
        requires layout { shared.now.key.layout ≡ B.layout }
        ensures settled { OnOk result (HasSettled segno pass.old pass.new) }
        ensures err { OnErr result (pass.new ≡ pass.old) }
        ensures over { self.old.stopped ≡ true → IsErr result }
        ensures running { self.old.stopped ≡ false → IsOk result }
        ensures journal { self.new.supervised ≡ self.old.supervised }
        ensures stopped { self.new.stopped ≡ self.old.stopped }
    {
        if !self.stopped {
            settle_for(&mut self.chief, pass, shared, segno);
            return Ok(());
        }
        Err(AllocError)
    }

    /// The end of the run: takes back the passes of all processes, with which it is closed, and gives the journal. It takes
    /// no memory. Conditions: the words are those of the run, the passes are those of all its processes in order, and with
    /// the rest of the ledger, in which no entry is counted, they have all its parts.
    pub fn finish(self, words: Words<Entry>, share: Share<B>, passes: Passes<Entry, B>) -> Journal
        requires fits { words.shared.table_id ≡ B.table }
        requires slots { words.shared.table_id.slots ≡ 0 }
        requires layout { words.shared.key.layout ≡ B.layout }
        requires all { AreOfAll (length B.session.principals) passes }
        requires parts { share.parts + length passes ≡ B.parts }
        requires amount { share.amount ≡ 0 }
        ensures journal { result ≡ self.entry.supervised.journal }
        ensures finished { HasFinished B.session B.setup passes result }
    {
        let Locked {
            supervisor,
            chief,
            book,
            stopped: _,
            given: _given,
        } = self;
        finish(supervisor, chief, book, words, share, passes)
    }

    /// The run is to end: from now on every request is answered with `Memory`.
    pub fn stop(&mut self)
        ensures { self.new ≡ record self.old { stopped = true } }
    {
        self.stopped = true;
    }
}
