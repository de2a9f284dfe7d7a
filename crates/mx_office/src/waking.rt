//! Who is woken: each process that sleeps has a bell of its own, and a thread that sleeps for several has a common one.

ghost use Rattle.std.specs.Prelude.{◌≡◌, true};
ghost use Rattle.mx_office.specs.Waking.{WakesAll, woken_by};
ghost use Rattle.mx_office.specs.declared.waking.Woken.TheVariants.{All};

use mx_request::Request;
use std::sync::Condvar;

/// Whom of those who sleep an entry wakes.
#[derive(Clone, Copy, Debug)]
pub(crate) enum Woken {
    Nobody,
    /// This process alone.
    One(u8),
    All,
}

impl Woken {
    /// Whose wait a request ended that was entered, and has filled the journal or not. A process that waits goes on with a
    /// message, with `nobody`, or at a full journal. A message comes to its receiver alone. That nobody is left who could
    /// send one comes only with the end of a process: a `block` that is answered `waiting` leaves another awake, for whom
    /// it waits. A full journal lets all go on. So whoever is not woken has to go on waiting.
    pub(crate) fn by(request: &Request, full: bool) -> Woken
        ensures wakes { WakesAll result request.now }
        ensures full { full ≡ true → result ≡ All }
    {
        if full {
            return Woken::All;
        }
        Woken::of(request)
    }

    // Whose wait a request ends below the limit.
    fn of(request: &Request) -> Woken
        ensures { result ≡ woken_by request.now }
    {
        match request {
            Request::Wakeup { to, .. } => Woken::One(*to),
            Request::Logout => Woken::All,
            Request::CreateDir { .. }
            | Request::CreateSeg { .. }
            | Request::CreateObject { .. }
            | Request::CreateLink { .. }
            | Request::Rename { .. }
            | Request::Delete { .. }
            | Request::SetAcl { .. }
            | Request::DelAcl { .. }
            | Request::SetIacl { .. }
            | Request::DelIacl { .. }
            | Request::SetBrackets { .. }
            | Request::SetDirBrackets { .. }
            | Request::SetClass { .. }
            | Request::Status { .. }
            | Request::List { .. }
            | Request::ChangeWdir { .. }
            | Request::SetRules { .. }
            | Request::Initiate { .. }
            | Request::Terminate { .. }
            | Request::Block
            | Request::Link { .. }
            | Request::Resume => Woken::Nobody,
        }
    }
}

/// The bells of the processes: that of a process is at its number. At 0, which is no process's number, is the common bell,
/// which rings whenever another does. They take no memory, and to ring one at which nobody sleeps costs a count.
#[derive(Drop)]
pub(crate) struct Bells {
    bells: [Condvar; 16],
}

impl Bells {
    pub(crate) fn new() -> Bells {
        Bells {
            bells: [
                Condvar::new(),
                Condvar::new(),
                Condvar::new(),
                Condvar::new(),
                Condvar::new(),
                Condvar::new(),
                Condvar::new(),
                Condvar::new(),
                Condvar::new(),
                Condvar::new(),
                Condvar::new(),
                Condvar::new(),
                Condvar::new(),
                Condvar::new(),
                Condvar::new(),
                Condvar::new(),
            ],
        }
    }

    /// The bell of a process. A number that is no process's has that of another.
    pub(crate) fn of(&self, p: u8) -> &Condvar {
        &self.bells[usize::from(p % 16)]
    }

    /// The bell of a thread that sleeps for several processes.
    pub(crate) fn common(&self) -> &Condvar {
        &self.bells[0]
    }

    /// Wakes those who sleep at the bells of these, and at the common bell where there are any of these.
    pub(crate) fn ring(&self, woken: Woken) {
        match woken {
            Woken::Nobody => {}
            Woken::One(p) => {
                self.of(p).notify_all();
                self.common().notify_all();
            }
            Woken::All => {
                for bell in &self.bells {
                    bell.notify_all();
                }
            }
        }
    }
}
