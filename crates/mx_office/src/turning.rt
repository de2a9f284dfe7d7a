//! Processes that take turns on one thread: each is asked at its turn whether it goes on, and the thread sleeps only where
//! none of them can.
//!
//! [`Office::block`] puts its thread to sleep. That is of no use where several processes have one thread: where no other
//! thread can be had, and in a run whose order is chosen. There a process makes its `block` by [`Office::enter`]. Told to
//! wait, it tries its `resume` at each of its turns; where all that are left were told to wait, the thread sleeps for them.

ghost use Rattle.std.specs.Prelude.{◌≡◌, ℕ, Ok, Err, IsFalse, IsTrue, None, Some};
ghost use Rattle.std.specs.Sync.Mutex.{mutex_guard_value};
ghost use Rattle.mx_office.specs.Blocking.{IsStuck};
ghost use Rattle.mx_office.specs.Serving.{HasEntered, HasMetLimit};
ghost use Rattle.mx_office.specs.Turning.{AreStuck, IsOneAwake};
ghost use Rattle.mx_office.specs.declared.answers.Answer.TheVariants.{Waiting};
ghost use Rattle.mx_office.specs.declared.answers.EnterError.TheVariants.{HistoryFull, Memory};
ghost use Rattle.mx_office.specs.declared.answers.Served.{Served as ServedValue};
ghost use Rattle.mx_request.specs.declared.requests.Request.TheVariants.{Resume};

use crate::answers::{EnterError, Served};
use crate::locked::Locked;
use crate::naming::Sitting;
use crate::offices::Office;
use mx_desc::Pass;
use mx_request::{Request, SharedRequest};
use mx_rule::Board;
use mx_sdw::Ring;
use mx_state::Entry;
use std::alloc::Global;
use std::sync::{MutexGuard, Wait};

impl<'a, B: Sitting> Office<'a, B> {
    /// The turn of a process that was told to wait, in one hold of the lock: its `resume`, an entry as `enter` makes it, whose
    /// answer is not `waiting`; then those are woken whose wait it ended. None where `resume` would be answered `waiting`:
    /// nothing changed then. `HistoryFull` comes where the journal is at its limit, and `Memory` where memory was wanting or
    /// the run is to end: nothing was entered then.
    pub fn try_resume<R: Wait>(
        &self,
        rt: &R,
        alloc: Global,
        pass: &mut Pass<Entry, B>,
        ring: Ring,
    ) -> Result<Option<Served>, EnterError>
        ensures entered { (served : ServedValue) → result ≡ Ok (Some served)
            → HasEntered B.session B.setup ring Resume served pass.old pass.new }
        ensures given { (served : ServedValue) → result ≡ Ok (Some served) → served.answer ≡ Waiting → ⊥ }
        ensures none { result ≡ Ok None → pass.new ≡ pass.old }
        ensures full { (length : ℕ) → result ≡ Err (HistoryFull length)
            → HasMetLimit B.session length pass.old pass.new }
        ensures memory { result ≡ Err Memory → pass.new ≡ pass.old }
    {
        let mut locked = self.lock.lock(rt);
        let resumed = locked.try_resume(
            rt,
            alloc,
            pass,
            self.shared(),
            ring,
            self.resume_request(),
        )?;
        if resumed.is_some() {
            self.let_go(locked, &Request::Resume);
        }
        Ok(resumed)
    }

    /// Sleeps until one of these processes, which were told to wait, could go on: `try_resume` would give what it is not
    /// given now. It looks with the lock held, whenever an entry may have ended a wait. A number that is no process's counts
    /// as one that could go on; where there is none at all it returns at once.
    pub fn sleep_for<R: Wait>(&self, rt: &R, waiting: &[u8]) {
        if !waiting.is_empty() {
            drop(self.sleep_while_stuck(rt, self.lock.lock(rt), waiting));
        }
    }

    // Sleeps at the common bell until one of these can go on. Of none at all it never returns.
    fn sleep_while_stuck<'b, R: Wait>(
        &self,
        rt: &R,
        locked: MutexGuard<'b, Locked<'a, B>>,
        waiting: &[u8],
    ) -> MutexGuard<'b, Locked<'a, B>>
        ensures { IsOneAwake B.session B.layout.processes (mutex_guard_value result) waiting.now }
    {
        let mut locked = locked;
        for _ in rt.forever() {
            if !locked.are_stuck(waiting) {
                return locked;
            }
            locked = self.bells.common().wait(rt, locked);
        }
        unreachable!()
    }
}

impl<'a, B: Sitting> Locked<'a, B> {
    /// The `resume` of a process that was told to wait, unless it has to wait on: then nothing changes.
    fn try_resume<R: Wait>(
        &mut self,
        rt: &R,
        alloc: Global,
        pass: &mut Pass<Entry, B>,
        shared: &Board<Entry>,
        ring: Ring,
        request: &SharedRequest,
    ) -> Result<Option<Served>, EnterError>
        requires request { request.now ≡ Resume }
        requires fits { shared.now.table_id ≡ B.table }
        requires layout { shared.now.key.layout ≡ B.layout }
        ensures entered { (served : ServedValue) → result ≡ Ok (Some served)
            → HasEntered B.session B.setup ring Resume served pass.old pass.new }
        ensures given { (served : ServedValue) → result ≡ Ok (Some served) → served.answer ≡ Waiting → ⊥ }
        ensures stuck { result ≡ Ok None → IsStuck B.session self.old pass.old.view.process }
        ensures waits { IsStuck B.session self.old pass.old.view.process → result ≡ Ok None }
        ensures none { result ≡ Ok None → pass.new ≡ pass.old }
        ensures still { result ≡ Ok None → self.new ≡ self.old }
        ensures full { (length : ℕ) → result ≡ Err (HistoryFull length)
            → HasMetLimit B.session length pass.old pass.new }
        ensures memory { result ≡ Err Memory → pass.new ≡ pass.old }
    {
        if self.is_stuck(pass.process()) {
            return Ok(None);
        }
        let served = self.resume(rt, alloc, pass, shared, ring, request)?;
        Ok(Some(served))
    }

    /// Whether each of these processes, which were told to wait, has to wait on. Of none at all it says yes.
    fn are_stuck(&self, waiting: &[u8]) -> bool
        ensures yes { IsTrue result → AreStuck B.session self.now waiting.now }
        ensures no { IsFalse result → IsOneAwake B.session B.layout.processes self.now waiting.now }
    {
        waiting.iter().all(|p| self.is_stuck(*p))
    }
}
