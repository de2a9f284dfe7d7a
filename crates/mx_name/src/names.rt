//! Entry names, and the faults of texts that are none.
ghost use Rattle.std.specs.Prelude.{◌≡◌, ◌++◌, ℕ, Bool, Some, None, OnOk, OnErr, length};
ghost use Rattle.std.specs.List.{list_all};
ghost use Rattle.mx_name.specs.Names.{is_name_byte, fault_of, name_fault, name_reading};
ghost use Rattle.mx_name.specs.declared.names.NameError.TheVariants.{Memory};

use crate::borrowed::BorrowedName;
use crate::texts::Text;
use std::alloc::AllocError;
use std::marker::Model;
use thiserror::Error;

/// Why a text is no name, pathname, principal or identifier. The variants are tested in this order.
#[derive(Clone, Copy, Debug, PartialEq, Eq, Error)]
pub enum NameError {
    /// The text, or one of its names or components, is empty.
    #[error("empty")]
    Empty,
    /// It is longer than its kind allows.
    #[error("too long")]
    TooLong,
    /// It has a byte that its kind does not allow, or not three components.
    #[error("bad character")]
    BadChar,
    /// Out of memory; the text itself has no fault. Only a pathname of more than 30 bytes takes memory.
    #[error("out of memory")]
    Memory,
}

impl From<AllocError> for NameError {
    ghost from_gives = { λ _ e. e ≡ Memory };

    fn from(_error: AllocError) -> NameError {
        NameError::Memory
    }
}

/// The name of an entry in a directory: 1 to 32 bytes of printable ASCII, without the space and `> < * ? $ , | : =`
/// (the characters are this model's choice). Also the form of reference names and of symbols.
#[derive(Clone, Copy, Debug, PartialEq, Eq, PartialOrd, Ord, Hash)]
pub struct EntryName {
    text: Text<32>,
}

impl Model for EntryName {
    ghost use Rattle.std.specs.Prelude.{◌≡◌, List, ℕ, None};
    ghost use Rattle.mx_name.specs.Names.{name_fault};

    ghost Value = { List ℕ };

    ghost view = { λ a. a.text };

    ghost inverse = { λ d. record { text = d } };

    ghost invariant = { λ a. name_fault a.text ≡ None };
}

impl EntryName {
    /// The name that a text is. `Empty`, `TooLong` and `BadChar` are tested in this order over the whole text. Takes no
    /// memory.
    pub fn read(text: &[u8]) -> Result<EntryName, NameError>
        ensures { result ≡ name_reading text.now }
    {
        match name_fault(text) {
            Some(fault) => Err(fault),
            None => Ok(EntryName::of(text)),
        }
    }

    /// The name of a text that has no fault.
    #[tactic(auto, using(crate::proofs::TextLaws::faultless_within))]
    pub(crate) fn of(text: &[u8]) -> EntryName
        requires { name_fault text.now ≡ None }
        ensures { result ≡ text.now }
    {
        EntryName {
            text: Text::of(text),
        }
    }

    /// Appends the bytes of the name; want of memory leaves the output as it was.
    #[inline(always)]
    pub fn append_to(&self, out: &mut Vec<u8>) -> Result<(), AllocError>
        ensures ok { OnOk result (out.new.items ≡ out.old.items ++ self.now) }
        ensures err { OnErr result (out.new.items ≡ out.old.items) }
        ensures name { name_fault self.now ≡ None }
    {
        self.text.append_to(out)
    }

    /// The name in place.
    #[inline(always)]
    pub fn borrowed(&self) -> BorrowedName<'_>
        ensures { result ≡ self.now }
    {
        BorrowedName::of(self.bytes())
    }

    /// The bytes of the name.
    pub fn bytes(&self) -> &[u8]
        ensures value { result.now ≡ self.now }
        ensures name { name_fault self.now ≡ None }
    {
        self.text.bytes()
    }
}

/// The first fault of a text as an entry name.
pub(crate) fn name_fault(text: &[u8]) -> Option<NameError>
    ensures { result ≡ name_fault text.now }
{
    if text.is_empty() {
        Some(NameError::Empty)
    } else if text.len() > 32 {
        Some(NameError::TooLong)
    } else if all_name_bytes(text) {
        None
    } else {
        Some(NameError::BadChar)
    }
}

fn all_name_bytes(text: &[u8]) -> bool
    ensures { result ≡ list_all is_name_byte text.now }
{
    text.iter().all(
        |byte: &u8| -> bool
            ensures { result ≡ is_name_byte byte.now }
        { is_name_byte(*byte) },
    )
}

/// Whether a name may hold the byte.
#[inline(always)]
pub(crate) fn is_name_byte(byte: u8) -> bool
    ensures { result ≡ is_name_byte byte }
{
    NAME_BYTES[usize::from(byte)] != b','
}

// Each byte that a name may hold stands at its own place, and a comma, which none may hold, at every other place.
static NAME_BYTES: [u8; 256] = *b"\
    ,,,,,,,,,,,,,,,,,,,,,,,,,,,,,,,,\
    ,!\"#,%&'(),+,-./0123456789,;,,,,\
    @ABCDEFGHIJKLMNOPQRSTUVWXYZ[\\]^_\
    `abcdefghijklmnopqrstuvwxyz{,}~,\
    ,,,,,,,,,,,,,,,,,,,,,,,,,,,,,,,,\
    ,,,,,,,,,,,,,,,,,,,,,,,,,,,,,,,,\
    ,,,,,,,,,,,,,,,,,,,,,,,,,,,,,,,,\
    ,,,,,,,,,,,,,,,,,,,,,,,,,,,,,,,,";
