//! A process as the mail knows it.

ghost use Rattle.std.specs.Prelude.{◌≡◌, ℕ, ◌==◌, not, List, [], ◌∷◌, ◌++◌, length, Some, OnOk, OnErr};
ghost use Rattle.mx_mail.specs.Processes.{process_in};
ghost use Rattle.mx_mail.specs.Sending.{send_refusal};
ghost use Rattle.mx_mail.specs.Taking.{is_asleep, taken_from, process_after};

use crate::mail::{MailError, Taken};
use mx_sdw::Word;
use std::alloc::{AllocError, Global};
use std::collections::VecDeque;
use std::marker::Model;

/// Whether a process runs, waits for a message or has ended.
#[derive(Clone, Copy, Debug, PartialEq, Eq)]
pub enum ExecutionState {
    Running,
    Waiting,
    Ended,
}

/// A word on its way, and who sent it.
#[derive(Debug, Drop)]
pub(crate) struct Message {
    pub(crate) sender: u8,
    pub(crate) word: Word,
}

impl Model for Message {
    ghost use Rattle.std.specs.Prelude.{ℕ};

    ghost Value = { ℕ × ℕ };

    ghost view = { λ a. (a.sender, a.word) };
}

/// A process, and the messages that wait for it in the order sent.
#[derive(Debug, Drop)]
pub(crate) struct Process {
    state: ExecutionState,
    messages: VecDeque<Message>,
}

impl Model for Process {
    ghost use Rattle.mx_mail.specs.Processes.{PlainProcess, process_in};

    ghost Value = { PlainProcess };

    ghost view = { λ a. process_in a.state a.messages.items };
}

impl Process {
    pub(crate) fn new(alloc: Global) -> Process
        ensures { result ≡ process_in ExecutionState.Running [] }
    {
        Process {
            state: ExecutionState::Running,
            messages: VecDeque::new(alloc),
        }
    }

    /// Why a message to the process would be refused now.
    pub(crate) fn refusal(&self) -> Option<MailError>
        ensures { result ≡ send_refusal (Some self.now) }
    {
        if matches!(self.state, ExecutionState::Ended) {
            Some(MailError::Ended)
        } else if self.messages.len() >= 64 {
            Some(MailError::Full)
        } else {
            None
        }
    }

    /// The message waits behind the others; want of memory leaves them as they were.
    pub(crate) fn send(&mut self, message: Message) -> Result<(), AllocError>
        ensures ok { OnOk result (self.new ≡ process_in self.old.state (self.old.messages ++ message ∷ [])) }
        ensures err { OnErr result (self.new ≡ self.old) }
    {
        self.messages.push_back(message)?;
        Ok(())
    }

    pub(crate) fn has_mail(&self) -> bool
        ensures { result ≡ not (length self.now.messages == 0) }
    {
        !self.messages.is_empty()
    }

    pub(crate) fn is_asleep(&self) -> bool
        ensures { result ≡ is_asleep self.now }
    {
        match self.state {
            ExecutionState::Running => false,
            ExecutionState::Waiting => self.messages.is_empty(),
            ExecutionState::Ended => true,
        }
    }

    /// The oldest message; without one, whether there is nobody else or the process waits.
    pub(crate) fn take(&mut self, nobody_else: bool) -> Taken
        ensures taken { result ≡ taken_from nobody_else self.old.messages }
        ensures after { self.new ≡ process_after nobody_else self.old.messages }
    {
        match self.messages.pop_front() {
            Some(Message { sender, word }) => {
                self.state = ExecutionState::Running;
                Taken::Message { sender, word }
            }
            None if nobody_else => {
                self.state = ExecutionState::Running;
                Taken::Nobody
            }
            None => {
                self.state = ExecutionState::Waiting;
                Taken::Waiting
            }
        }
    }

    /// The process has ended, and its messages are dropped.
    pub(crate) fn end(&mut self)
        ensures { self.new ≡ process_in ExecutionState.Ended [] }
    {
        self.state = ExecutionState::Ended;
        self.messages.clear();
    }
}
