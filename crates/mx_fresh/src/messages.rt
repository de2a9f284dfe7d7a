//! Requests on messages, and on who runs, waits or has ended.

ghost use Rattle.std.specs.Prelude.{◌≡◌, ◌≤◌, length, IfOk, OnErr};
ghost use Rattle.mx_request.specs.declared.requests.Request.TheVariants as ask;
ghost use Rattle.mx_state.specs.Messages.{taken_reply};
ghost use Rattle.mx_state.specs.Plain.{answer};
ghost use Rattle.mx_state.specs.Requests.{plain};
ghost use Rattle.mx_fresh.specs.Told.{IsUndecided};

use crate::mail::{end, send, take};
use crate::processes::own_process;
use crate::supervisor::FreshState;
use mx_mail::Taken;
use mx_request::Reply;
use mx_sdw::{Ring, Word};
use std::alloc::AllocError;

impl FreshState {
    /// Sends a word to a process.
    pub(crate) fn wakeup(
        &mut self,
        p: u8,
        ring: Ring,
        to: u8,
        word: Word,
    ) -> Result<Reply, AllocError>
        requires some { 1 ≤ p }
        requires process { p ≤ length self.old.processes }
        ensures answer { IfOk result (λ given. plain self.old p ring (ask.Wakeup to word) ≡ answer given self.new) }
        ensures hierarchy { self.new.hierarchy ≡ self.old.hierarchy }
        ensures processes { length self.new.processes ≡ length self.old.processes }
        ensures err { OnErr result (self.new ≡ self.old) }
        ensures told { OnErr result (IsUndecided self.old p ring (ask.Wakeup to word)) }
    {
        let _process = own_process(self.processes.as_slice(), p);
        match send(&mut self.mail, p, to, word)? {
            Ok(()) => Ok(Reply::Sent),
            Err(why) => Ok(Reply::Refused(why)),
        }
    }

    /// Takes the oldest message.
    pub(crate) fn block(&mut self, p: u8, ring: Ring) -> Reply
        requires some { 1 ≤ p }
        requires process { p ≤ length self.old.processes }
        ensures block { plain self.old p ring ask.Block ≡ answer result self.new }
        ensures resume { plain self.old p ring ask.Resume ≡ answer result self.new }
        ensures hierarchy { self.new.hierarchy ≡ self.old.hierarchy }
        ensures processes { length self.new.processes ≡ length self.old.processes }
    {
        let _process = own_process(self.processes.as_slice(), p);
        let taken = take(&mut self.mail, p);
        taken_reply(taken)
    }

    /// Ends the process; its known segments stay as they were.
    pub(crate) fn logout(&mut self, p: u8, ring: Ring) -> Reply
        requires some { 1 ≤ p }
        requires process { p ≤ length self.old.processes }
        ensures answer { plain self.old p ring ask.Logout ≡ answer result self.new }
        ensures hierarchy { self.new.hierarchy ≡ self.old.hierarchy }
        ensures processes { length self.new.processes ≡ length self.old.processes }
    {
        let _process = own_process(self.processes.as_slice(), p);
        end(&mut self.mail, p);
        Reply::Done
    }
}

/// The reply to who asked for a message.
fn taken_reply(taken: Taken) -> Reply
    ensures { result ≡ taken_reply taken }
{
    match taken {
        Taken::Message { sender, word } => Reply::Message { sender, word },
        Taken::Nobody => Reply::Nobody,
        Taken::Waiting => Reply::Waiting,
    }
}
