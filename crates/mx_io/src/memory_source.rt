use crate::calls::Calls;
use crate::{Got, Source};
use std::marker::Model;

/// A source in memory, which tells its bytes. It gives them in pieces, and faults at calls that its maker named.
#[derive(Debug, Drop)]
pub struct MemorySource {
    bytes: Vec<u8>,
    at: usize,
    piece: usize,
    calls: Calls,
}

impl Model for MemorySource {
    ghost use Rattle.std.specs.Prelude.{ℕ, ◌≤◌, drop, vec_len};
    ghost use Rattle.mx_io.specs.Memory.{SourceState};

    ghost Value = { SourceState };

    ghost view = { λ a. record { left = drop a.at a.bytes.items; piece = a.piece; calls = a.calls } };

    ghost invariant = { λ a. (a.at ≤ vec_len a.bytes) × (1 ≤ a.piece) };
}

impl MemorySource {
    ghost use Rattle.std.specs.Prelude.{◌≡◌, ◌≤◌};

    /// A source of these bytes. A call gives at most `piece` of them, and call number i, counted from 0, faults where i
    /// is in `fails`.
    pub fn new(bytes: Vec<u8>, fails: Vec<u32>, piece: usize) -> MemorySource
        requires { 1 ≤ piece }
        ensures bytes { result.left ≡ bytes.items }
        ensures piece { result.piece ≡ piece }
        ensures calls { result.calls ≡ record { fails = fails.items; made = 0; faults = 0 } }
    {
        MemorySource {
            bytes,
            at: 0,
            piece,
            calls: Calls::new(fails),
        }
    }
}

impl Source for MemorySource {
    ghost use Rattle.std.specs.Prelude.{◌≡◌, ◌≢◌, ℕ, ◌<◌, ◌≤◌, ◌++◌, drop, length, Some};
    ghost use Rattle.mx_io.specs.Bytes.{Takes, IsAtEnd};
    ghost use Rattle.mx_io.specs.Faults.{Rose};
    ghost use Rattle.mx_io.specs.Reading.{IsWithinRoom, given};
    ghost use Rattle.mx_io.specs.Memory.{read_answer, after_read};

    ghost left = { λ source. Some source.left };

    ghost faults = { λ source. source.calls.faults };

    fn read(&mut self, buf: &mut [u8]) -> Got
        requires { 0 < length buf.old }
        ensures answer { result ≡ read_answer self.old (length buf.old) }
        ensures after { self.new ≡ after_read self.old result }
        ensures buffer { buf.new ≡ given result self.old.left ++ drop (length (given result self.old.left)) buf.old }
        ensures count { IsWithinRoom (length buf.old) result }
        ensures bytes { Takes (Some self.old.left) (Some self.new.left) (given result buf.new) }
        ensures end { result ≡ Got.End → IsAtEnd (Some self.old.left) }
        ensures cause { result ≡ Got.Fault → Rose self.old.calls.faults self.new.calls.faults }
        ensures only { result ≢ Got.Fault → self.new.calls.faults ≡ self.old.calls.faults }
        ensures later { self.old.calls.faults ≤ self.new.calls.faults }
    {
        if self.calls.is_failing() {
            self.calls.count_fault();
            return Got::Fault;
        }
        self.calls.count();
        let left = self.bytes.len() - self.at;
        if left == 0 {
            return Got::End;
        }
        let count = self.piece.min(buf.len()).min(left);
        buf[..count].copy_from_slice(&self.bytes[self.at..self.at + count]);
        self.at += count;
        Got::Bytes(count)
    }
}
