//! A process that asks for a message sleeps until there is one, or nobody who could send one.

ghost use Rattle.std.specs.Prelude.{◌≡◌, ◌≤◌, ℕ, Err, IfOk};
ghost use Rattle.std.specs.Sync.Mutex.{mutex_guard_value};
ghost use Rattle.mx_office.specs.Blocking.{HasBlocked, HasWaited, IsStuck};
ghost use Rattle.mx_office.specs.declared.answers.BlockError.TheVariants as blocking;

use crate::answers::{BlockError, Blocked, EnterError};
use crate::locked::Locked;
use crate::naming::Sitting;
use crate::offices::Office;
use crate::waking::Woken;
use mx_desc::Pass;
use mx_request::Request;
use mx_sdw::Ring;
use mx_state::Entry;
use std::alloc::Global;
use std::sync::{MutexGuard, Wait};

impl<'a, B: Sitting> Office<'a, B> {
    /// The `block` of a process. Where it is answered `waiting` the process sleeps, with the lock given back, until
    /// `resume` would be answered otherwise or the journal is full, and then makes that `resume` in the same hold in which
    /// it woke. Each of the two is an entry as `enter` makes it. The error comes where memory was wanting or the run is to
    /// end: `Memory` where the process is as it was, and `Waiting` where it was told to wait.
    pub fn block<R: Wait>(
        &self,
        rt: &R,
        alloc: Global,
        pass: &mut Pass<Entry, B>,
        ring: Ring,
    ) -> Result<Blocked, BlockError>
        ensures blocked { IfOk result (λ blocked. HasBlocked B.session B.setup ring blocked pass.old pass.new) }
        ensures memory { result ≡ Err blocking.Memory → pass.new ≡ pass.old }
        ensures waiting { (entry : ℕ) → result ≡ Err (blocking.Waiting entry)
            → HasWaited B.session B.setup ring entry pass.old pass.new }
    {
        let p = pass.process();
        let mut locked = self.lock.lock(rt);
        let request = self.block_request();
        let entry = match locked.block(rt, alloc, pass, self.shared(), ring, request) {
            Ok(served) if served.answer.is_waiting() => served.number,
            Ok(served) => {
                self.let_go(locked, &Request::Block);
                return Ok(Blocked::Answered(served));
            }
            Err(EnterError::HistoryFull { .. }) => return Ok(Blocked::Shut),
            Err(EnterError::Memory) => return Err(BlockError::Memory),
        };
        // The entry may have filled the journal.
        self.bells
            .ring(Woken::by(&Request::Block, locked.is_full()));
        let mut locked = self.sleep(rt, locked, p);
        match locked.resume(rt, alloc, pass, self.shared(), ring, self.resume_request()) {
            Ok(resume) => {
                self.let_go(locked, &Request::Resume);
                Ok(Blocked::Resumed { entry, resume })
            }
            Err(EnterError::HistoryFull { .. }) => Ok(Blocked::CutShort { entry }),
            Err(EnterError::Memory) => Err(BlockError::Waiting { entry }),
        }
    }
    // Sleeps at the bell of a process until nothing keeps it asleep: it looks whenever it is woken, with the lock held.
    fn sleep<'b, R: Wait>(
        &self,
        rt: &R,
        locked: MutexGuard<'b, Locked<'a, B>>,
        p: u8,
    ) -> MutexGuard<'b, Locked<'a, B>>
        requires low { 1 ≤ p }
        requires high { p ≤ B.layout.processes }
        ensures { IsStuck B.session (mutex_guard_value result) p → ⊥ }
    {
        let mut locked = locked;
        for _ in rt.forever() {
            if !locked.is_stuck(p) {
                return locked;
            }
            locked = self.bells.of(p).wait(rt, locked);
        }
        unreachable!()
    }
}
