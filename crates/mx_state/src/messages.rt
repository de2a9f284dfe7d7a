//! Requests on messages, and on who runs, waits or has ended. Only a message that is sent takes memory.

ghost use Rattle.std.specs.Prelude.{◌≡◌, ◌≤◌, length, None, IfOk, OnErr};
ghost use Rattle.mx_hier.specs.Rules.{first_of};
ghost use Rattle.mx_mail.specs.Processes.{process_at};
ghost use Rattle.mx_request.specs.declared.requests.Request.TheVariants as ask;
ghost use Rattle.mx_state.specs.Messages.{taken_reply, wakeup_refusals};
ghost use Rattle.mx_state.specs.Replies.{SaysSent};
ghost use Rattle.mx_state.specs.Requests.{plain};
ghost use Rattle.mx_state.specs.Serving.{Serves};

use crate::applied::Applied;
use crate::states::State;
use mx_hier::Refusal;
use mx_mail::{MailError, Taken};
use mx_request::Reply;
use mx_sdw::{Ring, Word};
use std::alloc::{AllocError, Global};

impl State {
    /// Sends a word to a process, which may be the sender.
    pub(crate) fn wakeup(
        &mut self,
        alloc: Global,
        p: u8,
        ring: Ring,
        to: u8,
        word: Word,
    ) -> Result<Applied, AllocError>
        requires some { 1 ≤ p }
        requires process { p ≤ length self.old.processes }
        ensures served { IfOk result (Serves self.old self.new (plain self.old p ring (ask.Wakeup to word))) }
        ensures told { OnErr result (first_of (wakeup_refusals (process_at self.old.mail to)) ≡ None) }
        ensures err { OnErr result (self.new ≡ self.old) }
    {
        let given = self.mail.send(p, to, word);
        let reply = sent(given)?;
        Ok(Applied::unchanged(alloc, reply))
    }

    /// Takes the oldest message of the process. Without one it waits, unless there is nobody else who could send one.
    pub(crate) fn block(&mut self, alloc: Global, p: u8, ring: Ring) -> Applied
        requires some { 1 ≤ p }
        requires process { p ≤ length self.old.processes }
        ensures served { Serves self.old self.new (plain self.old p ring ask.Block) result }
        ensures resumed { Serves self.old self.new (plain self.old p ring ask.Resume) result }
    {
        let taken = self.mail.take(p);
        Applied::unchanged(alloc, taken_reply(taken))
    }

    /// Ends the process and drops its messages; its known segments stay as they were.
    pub(crate) fn logout(&mut self, alloc: Global, p: u8, ring: Ring) -> Applied
        requires some { 1 ≤ p }
        requires process { p ≤ length self.old.processes }
        ensures { Serves self.old self.new (plain self.old p ring ask.Logout) result }
    {
        self.mail.end(p);
        Applied::unchanged(alloc, Reply::Done)
    }
}

// The reply to the sender of a message.
fn sent(given: Result<(), MailError>) -> Result<Reply, AllocError>
    ensures { SaysSent given result }
{
    match given {
        Ok(()) => Ok(Reply::Sent),
        Err(MailError::NoProcess) => Ok(Reply::Refused(Refusal::NoProcess)),
        Err(MailError::Ended) => Ok(Reply::Refused(Refusal::Ended)),
        Err(MailError::Full) => Ok(Reply::Refused(Refusal::MailFull)),
        Err(MailError::Memory) => Err(AllocError),
    }
}

// The reply to who asked for a message.
fn taken_reply(taken: Taken) -> Reply
    ensures { result ≡ taken_reply taken }
{
    match taken {
        Taken::Message { sender, word } => Reply::Message { sender, word },
        Taken::Nobody => Reply::Nobody,
        Taken::Waiting => Reply::Waiting,
    }
}
