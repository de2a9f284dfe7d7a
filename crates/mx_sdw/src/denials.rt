//! The denials.

ghost use Rattle.std.specs.Prelude.{◌≡◌};
ghost use Rattle.mx_sdw.specs.Denials.{denial_number, denial_text};

/// Why a reference is denied. All but two come from the judging rule, in the order in which it tries them, and those two
/// from the walk of an operand. Names, numbers and order are this model's own choice.
#[derive(Clone, Copy, Debug, PartialEq, Eq)]
pub enum Denial {
    /// The segment number is not known.
    UnknownSegment,
    /// The segment was deleted.
    NoSegment,
    /// The word is not below the bound.
    OutOfBounds,
    /// Another operation than a write, of a class that the authorization does not dominate.
    AimRead,
    /// A write of a class that the authorization does not equal.
    AimWrite,
    /// A read without flag r.
    NotReadable,
    /// A read from above the second bracket.
    ReadBracket,
    /// A write without flag w.
    NotWritable,
    /// A write from above the first bracket.
    WriteBracket,
    /// A fetch, call or return without flag e.
    NotExecutable,
    /// A fetch from outside the first two brackets.
    ExecuteBracket,
    /// A call from above the third bracket.
    CallBracket,
    /// A call from below the first bracket, where such calls are off.
    UpwardCall,
    /// A call at a word that is no gate, from outside the first two brackets or from another segment.
    Gate,
    /// A call from the first bracket or above that would raise the current ring.
    RaisedRing,
    /// A return from outside the first two brackets.
    BadReturn,
    /// An indirect word that is neither a pointer nor a link; the walk of an operand alone answers it.
    NotPointer,
    /// An eighth indirect word that asks for a further one; the walk of an operand alone answers it.
    IndirectLimit,
}

impl Denial {
    /// Its number, 1 to 18.
    pub fn number(&self) -> u8
        ensures { result ≡ denial_number self.now }
    {
        match self {
            Denial::UnknownSegment => 1,
            Denial::NoSegment => 2,
            Denial::OutOfBounds => 3,
            Denial::NotReadable => 4,
            Denial::ReadBracket => 5,
            Denial::NotWritable => 6,
            Denial::WriteBracket => 7,
            Denial::NotExecutable => 8,
            Denial::ExecuteBracket => 9,
            Denial::CallBracket => 10,
            Denial::UpwardCall => 11,
            Denial::Gate => 12,
            Denial::RaisedRing => 13,
            Denial::BadReturn => 14,
            Denial::NotPointer => 15,
            Denial::IndirectLimit => 16,
            Denial::AimRead => 17,
            Denial::AimWrite => 18,
        }
    }

    /// Its name, as a run prints it.
    pub fn text(&self) -> &'static str
        ensures { result.now ≡ denial_text self.now }
    {
        match self {
            Denial::UnknownSegment => "unknown_segment",
            Denial::NoSegment => "no_segment",
            Denial::OutOfBounds => "out_of_bounds",
            Denial::NotReadable => "not_readable",
            Denial::ReadBracket => "read_bracket",
            Denial::NotWritable => "not_writable",
            Denial::WriteBracket => "write_bracket",
            Denial::NotExecutable => "not_executable",
            Denial::ExecuteBracket => "execute_bracket",
            Denial::CallBracket => "call_bracket",
            Denial::UpwardCall => "upward_call",
            Denial::Gate => "gate",
            Denial::RaisedRing => "raised_ring",
            Denial::BadReturn => "bad_return",
            Denial::NotPointer => "not_pointer",
            Denial::IndirectLimit => "indirect_limit",
            Denial::AimRead => "aim_read",
            Denial::AimWrite => "aim_write",
        }
    }
}
