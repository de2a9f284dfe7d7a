ghost use Rattle.std.specs.Prelude.{◌≡◌, ◌≢◌, ℕ, ◌<◌, ◌≤◌, List, Option, length};
ghost use Rattle.mx_io.specs.Bytes.{Appends};
ghost use Rattle.mx_io.specs.Faults.{Rose};
ghost use Rattle.mx_io.specs.Writing.{IsWithinOffer, taken};

/// What one write took.
#[derive(Clone, Copy, Debug, PartialEq, Eq)]
pub enum Put {
    /// So many bytes, at least one, from the front of those offered.
    Bytes(usize),
    /// Nothing, since the sink failed; a later write may succeed.
    Fault,
}

/// Where bytes go.
pub trait Sink {
    /// The bytes taken so far, where the sink tells them.
    ghost out: { Self → Option (List ℕ) };

    /// How often a write has failed: a count that rises where a write is a fault, and there only.
    ghost faults: { Self → ℕ };

    /// Offers some bytes, at least one. The bytes taken grow by exactly those that it took, from the front of the
    /// offer.
    fn write(&mut self, bytes: &[u8]) -> Put
        requires { 0 < length bytes.now }
        ensures count { IsWithinOffer (length bytes.now) result }
        ensures bytes { Appends (out self.old) (out self.new) (taken result bytes.now) }
        ensures cause { result ≡ Put.Fault → Rose (faults self.old) (faults self.new) }
        ensures only { result ≢ Put.Fault → faults self.new ≡ faults self.old }
        ensures later { faults self.old ≤ faults self.new };
}
