use crate::calls::Calls;
use crate::{Put, Sink};
use std::alloc::{AllocError, Global};
use std::marker::Model;
use thiserror::Error;

/// Want of memory.
#[derive(Clone, Copy, Debug, PartialEq, Eq, Error)]
#[error("out of memory")]
pub struct Memory;

impl From<AllocError> for Memory {
    fn from(_: AllocError) -> Memory {
        Memory
    }
}

/// A sink in memory, which tells its bytes. It takes all its memory when it is made, takes bytes in pieces, and faults
/// where no room is left and at calls that its maker named.
#[derive(Debug, Drop)]
pub struct MemorySink {
    bytes: Vec<u8>,
    room: usize,
    piece: usize,
    calls: Calls,
}

impl Model for MemorySink {
    ghost use Rattle.std.specs.Prelude.{ℕ, ◌+◌, ◌≤◌, vec_len, vec_capacity};
    ghost use Rattle.mx_io.specs.Memory.{SinkState};

    ghost Value = { SinkState };

    ghost view = { λ a. record { out = a.bytes.items; room = a.room; piece = a.piece; calls = a.calls } };

    ghost invariant = { λ a. (vec_len a.bytes + a.room ≤ vec_capacity a.bytes) × (1 ≤ a.piece) };
}

impl MemorySink {
    ghost use Rattle.std.specs.Prelude.{◌≡◌, ◌≤◌, [], IfOk};

    /// An empty sink with room for so many bytes. A write takes at most `piece` bytes and at most the room that is
    /// left. Call number i, counted from 0, faults where i is in `fails`, and so does each call made when no room is
    /// left.
    pub fn new(
        alloc: Global,
        room: usize,
        fails: Vec<u32>,
        piece: usize,
    ) -> Result<MemorySink, Memory>
        requires { 1 ≤ piece }
        ensures bytes { IfOk result (λ sink. sink.out ≡ []) }
        ensures room { IfOk result (λ sink. sink.room ≡ room) }
        ensures piece { IfOk result (λ sink. sink.piece ≡ piece) }
        ensures calls { IfOk result (λ sink. sink.calls ≡ record { fails = fails.items; made = 0; faults = 0 }) }
    {
        let bytes = Vec::with_capacity(alloc, room)?;
        Ok(MemorySink {
            bytes,
            room,
            piece,
            calls: Calls::new(fails),
        })
    }

    /// The bytes taken so far.
    pub fn bytes(&self) -> &[u8]
        ensures { result.now ≡ self.now.out }
    {
        self.bytes.as_slice()
    }
}

impl Sink for MemorySink {
    ghost use Rattle.std.specs.Prelude.{◌≡◌, ◌≢◌, ℕ, ◌<◌, ◌≤◌, length, Some};
    ghost use Rattle.mx_io.specs.Bytes.{Appends};
    ghost use Rattle.mx_io.specs.Faults.{Rose};
    ghost use Rattle.mx_io.specs.Writing.{IsWithinOffer, taken};
    ghost use Rattle.mx_io.specs.Memory.{write_answer, after_write};

    ghost out = { λ sink. Some sink.out };

    ghost faults = { λ sink. sink.calls.faults };

    fn write(&mut self, bytes: &[u8]) -> Put
        requires { 0 < length bytes.now }
        ensures answer { result ≡ write_answer self.old (length bytes.now) }
        ensures after { self.new ≡ after_write self.old bytes.now result }
        ensures count { IsWithinOffer (length bytes.now) result }
        ensures bytes { Appends (Some self.old.out) (Some self.new.out) (taken result bytes.now) }
        ensures cause { result ≡ Put.Fault → Rose self.old.calls.faults self.new.calls.faults }
        ensures only { result ≢ Put.Fault → self.new.calls.faults ≡ self.old.calls.faults }
        ensures later { self.old.calls.faults ≤ self.new.calls.faults }
    {
        if self.calls.is_failing() || self.room == 0 {
            self.calls.count_fault();
            return Put::Fault;
        }
        self.calls.count();
        let count = self.piece.min(self.room).min(bytes.len());
        self.bytes.extend_from_slice(&bytes[..count]).unwrap();
        self.room -= count;
        Put::Bytes(count)
    }
}
