//! Rings of protection and the three brackets of a segment.

ghost use Rattle.std.specs.Prelude.{◌≡◌, ◌≤◌};
ghost use Rattle.mx_sdw.specs.Rings.{ring_of, brackets_of, lowest_brackets};

use std::marker::Model;

/// A ring of protection, 0 to 7. Ring 0 is the most privileged (Schroeder and Saltzer).
#[derive(Clone, Copy, Debug, PartialEq, Eq)]
pub struct Ring {
    number: u8,
}

impl Model for Ring {
    ghost use Rattle.std.specs.Prelude.{ℕ, ◌≤◌};

    ghost Value = { ℕ };

    ghost view = { λ ring. ring.number };

    ghost invariant = { λ ring. ring.number ≤ 7 };

    ghost inverse = { λ n. record { number = n } };
}

impl Ring {
    /// The ring of a number, `None` exactly above 7.
    pub fn new(n: u8) -> Option<Ring>
        ensures { result ≡ ring_of n }
    {
        if n <= 7 {
            Some(Ring { number: n })
        } else {
            None
        }
    }

    /// Its number, at most 7.
    pub fn number(self) -> u8
        ensures number { result ≡ self }
        ensures bound { result ≤ 7 }
    {
        self.number
    }
}

/// The brackets of a segment, `r1 <= r2 <= r3` (Schroeder and Saltzer): it is written in rings up to `r1`, read up to
/// `r2`, executed from `r1` to `r2`, and entered by its gates from above `r2` up to `r3`.
#[derive(Clone, Copy, Debug, PartialEq, Eq)]
pub struct Brackets {
    r1: Ring,
    r2: Ring,
    r3: Ring,
}

impl Model for Brackets {
    ghost use Rattle.mx_sdw.specs.Rings.{Bracketing, IsOrdered};

    ghost Value = { Bracketing };

    ghost view = { λ b. record { r1 = b.r1; r2 = b.r2; r3 = b.r3 } };

    ghost invariant = { λ b. IsOrdered b.r1 b.r2 b.r3 };

    ghost inverse = { λ b. record { r1 = b.r1; r2 = b.r2; r3 = b.r3 } };
}

impl Brackets {
    /// The three brackets, `None` exactly where they are not in order.
    pub fn new(r1: Ring, r2: Ring, r3: Ring) -> Option<Brackets>
        ensures { result ≡ brackets_of r1 r2 r3 }
    {
        if r1.number() <= r2.number() && r2.number() <= r3.number() {
            Some(Brackets { r1, r2, r3 })
        } else {
            None
        }
    }

    /// The brackets 0, 0, 0.
    pub(crate) fn lowest() -> Brackets
        ensures { result ≡ lowest_brackets }
    {
        let ring = Ring { number: 0 };
        Brackets {
            r1: ring,
            r2: ring,
            r3: ring,
        }
    }

    /// The write bracket, and the lowest ring that executes.
    pub fn r1(&self) -> Ring
        ensures { result ≡ self.now.r1 }
    {
        self.r1
    }

    /// The read bracket, and the highest ring that executes without a gate.
    pub fn r2(&self) -> Ring
        ensures value { result ≡ self.now.r2 }
        ensures order { self.now.r1 ≤ result }
    {
        self.r2
    }

    /// The gate bracket.
    pub fn r3(&self) -> Ring
        ensures value { result ≡ self.now.r3 }
        ensures order { self.now.r2 ≤ result }
    {
        self.r3
    }
}
