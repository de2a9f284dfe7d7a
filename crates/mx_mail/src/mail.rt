//! The mail of all processes.

ghost use Rattle.std.specs.Prelude.{◌≡◌, ◌≤◌, ◌↔◌, ◌⊎◌, length, Ok, Err, IsOk, IfOk, OnOk, IfErr, OnErr, IsTrue};
ghost use Rattle.std.specs.List.{list_all};
ghost use Rattle.std.specs.Option.{option_map};
ghost use Rattle.mx_mail.specs.Processes.{AreProcesses, all_running, process_at, end_process};
ghost use Rattle.mx_mail.specs.Sending.{send_refusal, send_message};
ghost use Rattle.mx_mail.specs.Taking.{is_asleep, nobody_else, take_answer, take_message, is_ready};

use crate::processes::{Message, Process};
use mx_sdw::Word;
use std::alloc::{AllocError, Global};
use std::marker::Model;
use thiserror::Error;

/// Why a message is not sent. The variants are tested in this order.
#[derive(Clone, Copy, Debug, PartialEq, Eq, Error)]
pub enum MailError {
    /// There is no process of this number.
    #[error("no such process")]
    NoProcess,
    /// The process has ended.
    #[error("the process has ended")]
    Ended,
    /// 64 messages wait for the process.
    #[error("mailbox full")]
    Full,
    /// Memory was wanting; the message may be sent.
    #[error("out of memory")]
    Memory,
}

impl From<AllocError> for MailError {
    ghost use Rattle.mx_mail.specs.declared.mail.MailError.TheVariants.{Memory};

    ghost from_gives = { λ _ e. e ≡ Memory };

    fn from(_error: AllocError) -> MailError {
        MailError::Memory
    }
}

/// What a process gets that asks for a message.
#[derive(Clone, Copy, Debug, PartialEq, Eq)]
pub enum Taken {
    /// The oldest message that waited for it.
    Message { sender: u8, word: Word },
    /// No message waits, and no other process could send one.
    Nobody,
    /// No message waits, and the process waits for one.
    Waiting,
}

/// The mail of 1 to 15 processes, numbered from 1. At most 64 messages wait for each.
#[derive(Debug, Drop)]
pub struct Mail {
    processes: Vec<Process>,
}

impl Model for Mail {
    ghost use Rattle.std.specs.Prelude.{List};
    ghost use Rattle.mx_mail.specs.Processes.{PlainProcess, AreProcesses};

    ghost Value = { List PlainProcess };

    ghost view = { λ a. a.processes.items };

    ghost invariant = { λ a. AreProcesses a.processes.items };
}

impl Mail {
    /// The mail of so many processes, each running, without messages.
    pub fn new(alloc: Global, processes: u8) -> Result<Mail, AllocError>
        requires some { 1 ≤ processes }
        requires most { processes ≤ 15 }
        ensures { IfOk result (λ mail. mail ≡ all_running processes) }
    {
        let processes = running_processes(alloc, processes)?;
        Ok(Mail { processes })
    }

    /// How many processes there are.
    pub fn processes(&self) -> u8
        ensures count { result ≡ length self.now }
        ensures sound { AreProcesses self.now }
    {
        self.processes.len() as u8
    }

    /// Sends a word to process `to`, behind the messages that wait for it; a process may send to itself. `NoProcess`
    /// exactly where there is no such process, then `Ended` exactly where it has ended, then `Full` exactly where 64
    /// messages wait for it. A refusal, and the want of memory, change nothing.
    pub fn send(&mut self, sender: u8, to: u8, word: Word) -> Result<(), MailError>
        requires some { 1 ≤ sender }
        requires process { sender ≤ length self.old }
        ensures ok { OnOk result (send_message self.old sender to word ≡ Ok self.new) }
        ensures refused { IfErr result (λ error. (send_message self.old sender to word ≡ Err error)
            ⊎ ((error ≡ MailError.Memory) × IsOk (send_message self.old sender to word))) }
        ensures err { OnErr result (self.new ≡ self.old) }
        ensures count { length self.new ≡ length self.old }
    {
        if let Some(refusal) = self.refusal(to) {
            return Err(refusal);
        }
        self.processes[usize::from(to) - 1].send(Message { sender, word })?;
        Ok(())
    }

    /// Why a message to process `to` would be refused now.
    fn refusal(&self, to: u8) -> Option<MailError>
        ensures { result ≡ send_refusal (process_at self.now to) }
    {
        match self.process(to) {
            None => Some(MailError::NoProcess),
            Some(process) => process.refusal(),
        }
    }

    /// Process `p`, if there is one.
    fn process(&self, p: u8) -> Option<&Process>
        ensures { option_map (λ process. process.now) result ≡ process_at self.now p }
    {
        self.processes.get(usize::from(p).checked_sub(1)?)
    }

    /// Takes the oldest message that waits for process `p`. Without one the answer is `Nobody` exactly where every
    /// other process has ended or waits without a message, else `Waiting`, and then `p` waits. After a message and
    /// after `Nobody` it is running, also where it had ended. Takes no memory.
    pub fn take(&mut self, p: u8) -> Taken
        requires some { 1 ≤ p }
        requires process { p ≤ length self.old }
        ensures answer { take_message self.old p ≡ take_answer result self.new }
        ensures count { length self.new ≡ length self.old }
    {
        let nobody_else = nobody_else(self.processes.as_slice(), p);
        self.processes[usize::from(p) - 1].take(nobody_else)
    }

    /// Whether `take` would not answer `Waiting`. Takes no memory.
    pub fn ready(&self, p: u8) -> bool
        requires some { 1 ≤ p }
        requires process { p ≤ length self.now }
        ensures value { result ≡ is_ready self.now p }
        ensures exactly { IsTrue result ↔ ((take_message self.now p).taken ≡ Taken.Waiting → ⊥) }
    {
        self.processes[usize::from(p) - 1].has_mail() || nobody_else(self.processes.as_slice(), p)
    }

    /// Process `p` has ended, and the messages that waited for it are dropped. Takes no memory.
    pub fn end(&mut self, p: u8)
        requires some { 1 ≤ p }
        requires process { p ≤ length self.old }
        ensures after { self.new ≡ end_process self.old p }
        ensures count { length self.new ≡ length self.old }
    {
        self.processes[usize::from(p) - 1].end();
    }
}

/// So many processes that run.
fn running_processes(alloc: Global, count: u8) -> Result<Vec<Process>, AllocError>
    ensures { IfOk result (λ processes. processes.items ≡ all_running count) }
{
    let mut processes = Vec::new(alloc);
    for _ in 0..count {
        processes.push(Process::new(alloc))?;
    }
    Ok(processes)
}

/// Whether every process but `p` is asleep.
fn nobody_else(processes: &[Process], p: u8) -> bool
    requires some { 1 ≤ p }
    requires process { p ≤ length processes.now }
    ensures { result ≡ nobody_else processes.now p }
{
    let p = usize::from(p);
    all_asleep(&processes[..p - 1]) && all_asleep(&processes[p..])
}

/// Whether each of these processes is asleep.
fn all_asleep(processes: &[Process]) -> bool
    ensures { result ≡ list_all is_asleep processes.now }
{
    for process in processes {
        if !process.is_asleep() {
            return false;
        }
    }
    true
}
