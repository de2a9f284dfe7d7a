//! The office: whoever keeps the journal for all processes, behind one lock, so that references need none.
//!
//! [`Office`] is the lock, the bells of those who sleep, and the shared words. [`Locked`] is what lies behind the lock: a
//! request of a process, the settling of a word that it missed, and the end of the run are each one hold of it. [`open`]
//! makes it of a prepared session, with the passes of all processes; once they have come back the run is closed, and its
//! journal given out. An entry of a process is announced by the supervisor at the shared words: the pairs that it changed
//! are revoked (`Revoking`), the cells of pages that it freed are cleared (`Clearing`), and its own process's words are
//! settled (`Settling`) before that process is told of it (`Announcing`). Stands on `mx_desc` (the supervisor and passes at
//! the shared words), `mx_sup` (the plain supervisor with its journal) and `mx_closing` (how a history is the journal).
#![tactic(auto)]

mod announcing;
mod answers;
mod blocking;
mod clearing;
mod finishing;
mod locked;
mod naming;
mod offices;
mod opening;
mod revoking;
mod serving;
mod settling;
mod turning;
mod waking;

pub use announcing::announce;
pub use answers::{Answer, BlockError, Blocked, EnterError, Served};
pub use clearing::clear_pages;
pub use locked::Locked;
pub use naming::Sitting;
pub use offices::Office;
pub use opening::{Opening, open};
pub use revoking::revoke;
pub use settling::settle_own;
