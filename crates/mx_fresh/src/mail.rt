//! The messages that wait for each process, as lists.

ghost use Rattle.std.specs.Prelude.{◌≡◌, ◌≤◌, [], None, length, vec_len, IfOk, OnOk, OnErr};
ghost use Rattle.std.specs.List.{list_all};
ghost use Rattle.std.specs.Option.{option_copied, option_map};
ghost use Rattle.mx_hier.specs.Rules.{first_of};
ghost use Rattle.mx_mail.specs.Processes.{process_at, process_in, all_running, end_process};
ghost use Rattle.mx_mail.specs.Sending.{deliver, with_message};
ghost use Rattle.mx_mail.specs.Taking.{is_asleep, nobody_else, taken_from, process_after, take_answer, take_message};
ghost use Rattle.mx_mail.specs.declared.processes.ExecutionState.TheVariants as state;
ghost use Rattle.mx_state.specs.Messages.{wakeup_refusals};
ghost use Rattle.mx_fresh.specs.Sent.{Sends};

use mx_hier::Refusal;
use mx_mail::{ExecutionState, Taken};
use mx_sdw::Word;
use std::alloc::{AllocError, Global};
use std::marker::Model;

/// A process as the mail knows it: what it is about, and the messages that wait for it, each with its sender.
#[derive(Drop)]
pub(crate) struct Mailbox {
    state: ExecutionState,
    messages: Vec<(u8, Word)>,
}

impl Model for Mailbox {
    ghost use Rattle.mx_mail.specs.Processes.{PlainProcess, process_in};

    ghost Value = { PlainProcess };

    ghost view = { λ a. process_in a.state a.messages.items };
}

/// So many processes, each running, without messages.
pub(crate) fn all_running(alloc: Global, count: usize) -> Result<Vec<Mailbox>, AllocError>
    ensures { IfOk result (λ mail. mail.items ≡ all_running count) }
{
    let mut mail = Vec::new(alloc);
    for _process in 0..count {
        mail.push(running(alloc))?;
    }
    Ok(mail)
}

fn running(alloc: Global) -> Mailbox
    ensures { result ≡ process_in state.Running [] }
{
    Mailbox {
        state: ExecutionState::Running,
        messages: Vec::new(alloc),
    }
}

/// Process `p`; there is no process 0.
fn process_at(mail: &[Mailbox], p: u8) -> Option<&Mailbox>
    ensures { option_map (λ process. process.now) result ≡ process_at mail.now p }
{
    if p == 0 {
        None
    } else {
        mail.get(usize::from(p) - 1)
    }
}

/// Why no message is taken in for a process: there is none; it has ended; 64 messages wait for it.
fn wakeup_refusal(receiver: Option<&Mailbox>) -> Option<Refusal>
    ensures { result ≡ first_of (wakeup_refusals (option_copied receiver.entry)) }
{
    let Some(process) = receiver else {
        return Some(Refusal::NoProcess);
    };
    if matches!(process.state, ExecutionState::Ended) {
        return Some(Refusal::Ended);
    }
    if process.messages.len() >= 64 {
        return Some(Refusal::MailFull);
    }
    None
}

/// Sends a word to process `to`, or tells why not.
pub(crate) fn send(
    mail: &mut Vec<Mailbox>,
    sender: u8,
    to: u8,
    word: Word,
) -> Result<Result<(), Refusal>, AllocError>
    ensures sent { IfOk result (λ given. Sends mail.old.items sender to word given mail.new.items) }
    ensures count { vec_len mail.new ≡ vec_len mail.old }
    ensures err { OnErr result (mail.new.items ≡ mail.old.items) }
    ensures told { OnErr result (first_of (wakeup_refusals (process_at mail.old.items to)) ≡ None) }
{
    match wakeup_refusal(process_at(mail.as_slice(), to)) {
        Some(why) => Ok(Err(why)),
        None => {
            deliver(mail, to, sender, word)?;
            Ok(Ok(()))
        }
    }
}

/// A message waits behind the others of a process, if there is one.
fn deliver(mail: &mut Vec<Mailbox>, to: u8, sender: u8, word: Word) -> Result<(), AllocError>
    ensures ok { OnOk result
        (mail.new.items ≡ deliver mail.old.items to (process_at mail.old.items to) (sender, word)) }
    ensures count { vec_len mail.new ≡ vec_len mail.old }
    ensures err { OnErr result (mail.new.items ≡ mail.old.items) }
{
    if to == 0 {
        return Ok(());
    }
    if let Some(process) = mail.get_mut(usize::from(to) - 1) {
        add_message(process, sender, word)?;
    }
    Ok(())
}

fn add_message(process: &mut Mailbox, sender: u8, word: Word) -> Result<(), AllocError>
    ensures ok { OnOk result (process.new ≡ with_message process.old (sender, word)) }
    ensures err { OnErr result (process.new ≡ process.old) }
{
    process.messages.push((sender, word))?;
    Ok(())
}

/// Process `p` takes its oldest message; without one there is nobody else, or it waits.
pub(crate) fn take(mail: &mut Vec<Mailbox>, p: u8) -> Taken
    requires some { 1 ≤ p }
    requires process { p ≤ vec_len mail.old }
    ensures answer { take_message mail.old.items p ≡ take_answer result mail.new.items }
    ensures count { vec_len mail.new ≡ vec_len mail.old }
{
    let i = usize::from(p) - 1;
    let nobody = nobody_else(mail.as_slice(), p);
    take_from(&mut mail[i], nobody)
}

/// Whether every other process is asleep.
fn nobody_else(mail: &[Mailbox], p: u8) -> bool
    requires some { 1 ≤ p }
    requires process { p ≤ length mail.now }
    ensures { result ≡ nobody_else mail.now p }
{
    let i = usize::from(p);
    all_asleep(&mail[..i - 1]) && all_asleep(&mail[i..])
}

fn all_asleep(mail: &[Mailbox]) -> bool
    ensures { result ≡ list_all is_asleep mail.now }
{
    mail.iter().all(
        |process: &Mailbox| -> bool
            ensures { result ≡ is_asleep process.now }
        { is_asleep(process) },
    )
}

fn is_asleep(process: &Mailbox) -> bool
    ensures { result ≡ is_asleep process.now }
{
    match process.state {
        ExecutionState::Running => false,
        ExecutionState::Waiting => process.messages.is_empty(),
        ExecutionState::Ended => true,
    }
}

fn take_from(process: &mut Mailbox, nobody: bool) -> Taken
    ensures taken { result ≡ taken_from nobody process.old.messages }
    ensures after { process.new ≡ process_after nobody process.old.messages }
{
    if !process.messages.is_empty() {
        let (sender, word) = process.messages.remove(0);
        process.state = ExecutionState::Running;
        return Taken::Message { sender, word };
    }
    if nobody {
        process.state = ExecutionState::Running;
        Taken::Nobody
    } else {
        process.state = ExecutionState::Waiting;
        Taken::Waiting
    }
}

/// Process `p` has ended, and its messages are dropped.
pub(crate) fn end(mail: &mut Vec<Mailbox>, p: u8)
    requires some { 1 ≤ p }
    requires process { p ≤ vec_len mail.old }
    ensures after { mail.new.items ≡ end_process mail.old.items p }
    ensures count { vec_len mail.new ≡ vec_len mail.old }
{
    end_in(&mut mail[usize::from(p) - 1]);
}

fn end_in(process: &mut Mailbox)
    ensures { process.new ≡ process_in state.Ended [] }
{
    process.state = ExecutionState::Ended;
    process.messages.clear();
}
