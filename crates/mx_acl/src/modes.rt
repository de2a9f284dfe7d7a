//! Access modes.
ghost use Rattle.std.specs.Prelude.{◌≡◌, ◌==◌, Some, IfSome};
ghost use Rattle.std.specs.List.{find};
ghost use Rattle.std.specs.Cmp.Lexicographic.{pointwise};
ghost use Rattle.mx_acl.specs.Modes.{modes_text, modes_of_text, has_r, has_e, has_w, has_s, has_m, has_a, suits};

/// What an access list is of, which says which modes it takes.
#[derive(Clone, Copy, Debug, PartialEq, Eq)]
pub enum AclKind {
    /// Of a segment: r, e and w, in any combination.
    Segment,
    /// Of a directory: s, m and a, but no m without s.
    Directory,
}

/// Access modes: none, or letters of `rew` (read, execute, write), or letters of `sma` (status, modify, append).
#[derive(Clone, Copy, Debug, PartialEq, Eq)]
pub enum Modes {
    Null,
    R,
    E,
    W,
    Re,
    Rw,
    Ew,
    Rew,
    S,
    M,
    A,
    Sm,
    Sa,
    Ma,
    Sma,
}

use Modes::{A, E, Ew, M, Ma, Null, R, Re, Rew, Rw, S, Sa, Sm, Sma, W};

const ALL: [Modes; 15] = [Null, R, E, W, Re, Rw, Ew, Rew, S, M, A, Sm, Sa, Ma, Sma];

impl Modes {
    /// The modes that a text spells: `null`, or one or more letters of `rew`, or of `sma`, in this order. None for any
    /// other.
    #[tactic(auto, using(crate::proofs::ModesLaws::modes_takes))]
    pub fn read(text: &[u8]) -> Option<Modes>
        ensures value { result ≡ modes_of_text text.now }
        ensures spelled { IfSome result (λ modes. modes_text modes ≡ text.now) }
    {
        with_text(&ALL, text)
    }

    /// The text of the modes, which is read as these modes.
    pub fn text(&self) -> &'static str
        ensures text { result.now ≡ modes_text self.now }
        ensures again { modes_of_text (modes_text self.now) ≡ Some self.now }
    {
        match self {
            Null => "null",
            R => "r",
            E => "e",
            W => "w",
            Re => "re",
            Rw => "rw",
            Ew => "ew",
            Rew => "rew",
            S => "s",
            M => "m",
            A => "a",
            Sm => "sm",
            Sa => "sa",
            Ma => "ma",
            Sma => "sma",
        }
    }

    /// Whether a segment may be read.
    pub fn r(&self) -> bool
        ensures { result ≡ has_r self.now }
    {
        matches!(self, R | Re | Rw | Rew)
    }

    /// Whether a segment may be executed.
    pub fn e(&self) -> bool
        ensures { result ≡ has_e self.now }
    {
        matches!(self, E | Re | Ew | Rew)
    }

    /// Whether a segment may be written.
    pub fn w(&self) -> bool
        ensures { result ≡ has_w self.now }
    {
        matches!(self, W | Rw | Ew | Rew)
    }

    /// Whether a directory's entries may be listed and asked for.
    pub fn s(&self) -> bool
        ensures { result ≡ has_s self.now }
    {
        matches!(self, S | Sm | Sa | Sma)
    }

    /// Whether a directory's entries may be changed.
    pub fn m(&self) -> bool
        ensures { result ≡ has_m self.now }
    {
        matches!(self, M | Sm | Ma | Sma)
    }

    /// Whether a directory may get new entries.
    pub fn a(&self) -> bool
        ensures { result ≡ has_a self.now }
    {
        matches!(self, A | Sa | Ma | Sma)
    }

    /// Whether a list of the kind takes the modes: no letter is of the other kind, and m does not stand without s.
    pub fn suits(&self, kind: AclKind) -> bool
        ensures { result ≡ suits kind self.now }
    {
        match kind {
            AclKind::Segment => !(self.s() || self.m() || self.a()),
            AclKind::Directory => { !(self.r() || self.e() || self.w()) && (self.s() || !self.m()) }
        }
    }
}

/// The first of these modes that has the text.
fn with_text(all: &[Modes], text: &[u8]) -> Option<Modes>
    ensures { result ≡ find (λ modes. pointwise ◌==◌ text.now (modes_text modes)) all.now }
{
    for modes in all {
        if text == modes.text().as_bytes() {
            return Some(*modes);
        }
    }
    None
}
