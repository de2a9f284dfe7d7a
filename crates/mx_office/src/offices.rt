//! The office: what is locked, the bells of those who sleep, and the shared words, which need no lock.

ghost use Rattle.std.specs.Prelude.{◌≡◌, ◌+◌, ℕ, Ok, Err, OnErr, OnOk, length};
ghost use Rattle.mx_closing.specs.Closing.{AreOfAll};
ghost use Rattle.mx_office.specs.Ends.{HasFinished};
ghost use Rattle.mx_office.specs.Serving.{HasEntered, HasMetLimit, HasSettled};
ghost use Rattle.mx_office.specs.declared.answers.EnterError.TheVariants.{HistoryFull, Memory};
ghost use Rattle.mx_office.specs.declared.answers.Served.{Served as ServedValue};
ghost use Rattle.mx_request.specs.declared.requests.Request.TheVariants.{Block, Resume};

use crate::answers::{EnterError, Served};
use crate::locked::Locked;
use crate::naming::Sitting;
use crate::waking::{Bells, Woken};
use mx_desc::{Pass, Passes};
use mx_request::{Request, SharedRequest};
use mx_rule::{Board, Words};
use mx_sdw::Ring;
use mx_state::{Entry, Journal};
use std::alloc::{AllocError, Global};
use std::sync::ledger::Share;
use std::sync::{Mutex, MutexGuard, Wait};

/// Where the processes of a run make their requests, each on a thread of its own, one at a time; to what they refer
/// without a lock are the shared words. A process that makes a request should be outside: an entry that changes its own
/// access waits for it too.
#[derive(Drop)]
pub struct Office<'a, B: Sitting> {
    pub(crate) lock: Mutex<Locked<'a, B>>,
    pub(crate) bells: Bells,
    pub(crate) words: Words<Entry>,
    /// The `block` and the `resume` of all processes: their entries in the journal hold these two.
    block: SharedRequest,
    resume: SharedRequest,
    ghost blocks: { block ≡ Block },
    ghost resumes: { resume ≡ Resume },
    ghost here: { words.shared.table_id ≡ B.table },
    ghost laid: { words.shared.key.layout ≡ B.layout },
    ghost bare: { words.shared.table_id.slots ≡ 0 },
}

impl<'a, B: Sitting> Office<'a, B> {
    /// The office of a run. Conditions: the words are those of the run. The only error is want of memory.
    pub fn new(
        alloc: Global,
        locked: Locked<'a, B>,
        words: Words<Entry>,
    ) -> Result<Office<'a, B>, AllocError>
        requires fits { words.shared.table_id ≡ B.table }
        requires layout { words.shared.key.layout ≡ B.layout }
        requires slots { words.shared.table_id.slots ≡ 0 }
    {
        let block = SharedRequest::new(alloc, Request::Block)?;
        let resume = SharedRequest::new(alloc, Request::Resume)?;
        Ok(Office {
            lock: Mutex::new(locked),
            bells: Bells::new(),
            words,
            block,
            resume,
        })
    }

    /// The shared words, which all use without a lock.
    pub fn shared(&self) -> &Board<Entry>
        ensures fits { result.now.table_id ≡ B.table }
        ensures layout { result.now.key.layout ≡ B.layout }
    {
        &self.words.shared
    }

    /// The `block` that all processes hold together.
    pub fn block_request(&self) -> &SharedRequest
        ensures { result.now ≡ Block }
    {
        &self.block
    }

    /// The `resume` that all processes hold together.
    pub(crate) fn resume_request(&self) -> &SharedRequest
        ensures { result.now ≡ Resume }
    {
        &self.resume
    }

    /// A request of a process, in one hold of the lock; then those are woken whose wait it ended. Waits for the lock, and
    /// for the processes whose access the entry changed. `HistoryFull` comes where the journal is at its limit, and
    /// `Memory` where memory was wanting or the run is to end: nothing was entered then, and the process is as it was.
    pub fn enter<R: Wait>(
        &self,
        rt: &R,
        alloc: Global,
        pass: &mut Pass<Entry, B>,
        ring: Ring,
        request: &SharedRequest,
    ) -> Result<Served, EnterError>
        ensures entered { (served : ServedValue) → result ≡ Ok served
            → HasEntered B.session B.setup ring request.now served pass.old pass.new }
        ensures full { (length : ℕ) → result ≡ Err (HistoryFull length)
            → HasMetLimit B.session length pass.old pass.new }
        ensures memory { result ≡ Err Memory → pass.new ≡ pass.old }
    {
        let mut locked = self.lock.lock(rt);
        let served = locked.serve(rt, alloc, pass, self.shared(), ring, request)?;
        self.let_go(locked, request.request());
        Ok(served)
    }

    /// Settles the word of this number of the process, where it is a fault, and tells the process of all entries, in one
    /// hold of the lock. Refuses once the run is to end; the process is then as it was. Takes no memory.
    pub fn settle_for<R: Wait>(
        &self,
        rt: &R,
        pass: &mut Pass<Entry, B>,
        segno: u16,
    ) -> Result<(), AllocError>
        ensures settled { OnOk result (HasSettled segno pass.old pass.new) }
        ensures err { OnErr result (pass.new ≡ pass.old) }
    {
        self.lock.lock(rt).settle_for(pass, self.shared(), segno)
    }

    /// The run is to end: whoever sleeps is woken, and every request from now on is answered with `Memory`. Who meets want
    /// of memory calls it, and then makes no request any more.
    pub fn stop<R: Wait>(&self, rt: &R) {
        self.lock.lock(rt).stop();
        self.bells.ring(Woken::All);
    }

    /// The end of the run: takes back the passes of all processes, with which it is closed, and gives the journal. It takes
    /// no memory. Conditions: the passes are those of all processes in order, and with the rest of the ledger, in which no
    /// entry is counted, they have all its parts.
    pub fn finish(self, share: Share<B>, passes: Passes<Entry, B>) -> Journal
        requires all { AreOfAll (length B.session.principals) passes }
        requires parts { share.parts + length passes ≡ B.parts }
        requires amount { share.amount ≡ 0 }
        ensures { HasFinished B.session B.setup passes result }
    {
        let Office {
            lock,
            bells: _,
            words,
            block: _,
            resume: _,
        } = self;
        lock.into_inner().finish(words, share, passes)
    }

    /// Gives the lock back after a request was entered, and wakes those whose wait it ended.
    pub(crate) fn let_go(&self, locked: MutexGuard<'_, Locked<'a, B>>, request: &Request) {
        let woken = Woken::by(request, locked.is_full());
        drop(locked);
        self.bells.ring(woken);
    }
}
