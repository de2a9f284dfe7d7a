//! Which entry took which message.

use mx_request::{Reply, Request};
use mx_state::Entry;
use std::alloc::{AllocError, Global};

/// A message: the number of the entry that sent it, and that of the one that took it.
#[derive(Clone, Copy)]
pub(crate) struct Message {
    pub(crate) sent: u32,
    pub(crate) taken: u32,
}

// An entry that sent a message to a process, or with which that process took one.
#[derive(Clone, Copy)]
struct Half {
    receiver: u8,
    number: u32,
}

/// The messages that were taken: the k-th that a process takes is the k-th that was sent to it.
pub(super) fn messages_of(alloc: Global, entries: &[Entry]) -> Result<Vec<Message>, AllocError> {
    let (mut sent, mut taken) = (Vec::new(alloc), Vec::new(alloc));
    let mut number = 0u32;
    for entry in entries {
        number = number.saturating_add(1);
        match (entry.request(), &entry.reply) {
            (Request::Wakeup { to, .. }, Reply::Sent) => {
                sent.push(Half {
                    receiver: *to,
                    number,
                })?;
            }
            (_, Reply::Message { .. }) => {
                taken.push(Half {
                    receiver: entry.process,
                    number,
                })?;
            }
            _ => {}
        }
    }
    paired(alloc, sent.as_slice(), taken.as_slice())
}

// Pairs what was sent to each process with what it took.
fn paired(alloc: Global, sent: &[Half], taken: &[Half]) -> Result<Vec<Message>, AllocError> {
    let mut messages = Vec::new(alloc);
    for receiver in 1..=15u8 {
        let mut next = 0usize;
        for half in taken {
            if half.receiver == receiver {
                next = next_to(sent, receiver, next);
                if let Some(first) = sent.get(next) {
                    messages.push(Message {
                        sent: first.number,
                        taken: half.number,
                    })?;
                }
                next = next.saturating_add(1);
            }
        }
    }
    Ok(messages)
}

// The place of the first that was sent to a process, from this place on.
fn next_to(sent: &[Half], receiver: u8, from: usize) -> usize {
    for place in from..sent.len() {
        if sent[place].receiver == receiver {
            return place;
        }
    }
    sent.len()
}
