ghost use Rattle.std.specs.Prelude.{◌≡◌, ◌≢◌, ℕ, ◌<◌, ◌≤◌, List, Option, length};
ghost use Rattle.mx_io.specs.Bytes.{Takes, IsAtEnd};
ghost use Rattle.mx_io.specs.Faults.{Rose};
ghost use Rattle.mx_io.specs.Reading.{IsWithinRoom, given};

/// What one read gave.
#[derive(Clone, Copy, Debug, PartialEq, Eq)]
pub enum Got {
    /// So many bytes, at least one, at the front of the buffer.
    Bytes(usize),
    /// Nothing, since no byte is left.
    End,
    /// Nothing, since the source failed; a later read may succeed.
    Fault,
}

/// Where bytes come from.
pub trait Source {
    /// The bytes still to come, where the source tells them.
    ghost left: { Self → Option (List ℕ) };

    /// How often a read has failed: a count that rises where a read is a fault, and there only.
    ghost faults: { Self → ℕ };

    /// Reads some bytes into a buffer that is not empty. The bytes that are left lose exactly the bytes that it gave.
    fn read(&mut self, buf: &mut [u8]) -> Got
        requires { 0 < length buf.old }
        ensures count { IsWithinRoom (length buf.old) result }
        ensures bytes { Takes (left self.old) (left self.new) (given result buf.new) }
        ensures end { result ≡ Got.End → IsAtEnd (left self.old) }
        ensures cause { result ≡ Got.Fault → Rose (faults self.old) (faults self.new) }
        ensures only { result ≢ Got.Fault → faults self.new ≡ faults self.old }
        ensures later { faults self.old ≤ faults self.new };
}
