//! Why a request is refused.

ghost use Rattle.std.specs.Prelude.{◌≡◌};
ghost use Rattle.mx_hier.specs.Refusals.{refusal_number, refusal_text};

use std::alloc::AllocError;
use thiserror::Error;

/// Why a request was refused: this model's own table of refusals.
#[derive(Clone, Copy, Debug, PartialEq, Eq)]
pub enum Refusal {
    BadPath,
    NoEntry,
    NoInfo,
    NotADir,
    LinkLoop,
    IncorrectAccess,
    NameDup,
    NotASeg,
    DirNotEmpty,
    DirFull,
    BadLength,
    BadBrackets,
    InvalidMode,
    AclFull,
    NoAclEntry,
    NoPages,
    KstFull,
    UnknownSegno,
    NotLinkage,
    SegmentNotFound,
    NotObject,
    NoDefinition,
    NoProcess,
    MailFull,
    Ended,
    BadClass,
}

impl Refusal {
    /// Its number in the table.
    pub fn number(&self) -> u8
        ensures { result ≡ refusal_number self.now }
    {
        match self {
            Refusal::BadPath => 1,
            Refusal::NoEntry => 2,
            Refusal::NoInfo => 3,
            Refusal::NotADir => 4,
            Refusal::LinkLoop => 5,
            Refusal::IncorrectAccess => 6,
            Refusal::NameDup => 7,
            Refusal::NotASeg => 8,
            Refusal::DirNotEmpty => 9,
            Refusal::DirFull => 10,
            Refusal::BadLength => 11,
            Refusal::BadBrackets => 12,
            Refusal::InvalidMode => 13,
            Refusal::AclFull => 14,
            Refusal::NoAclEntry => 15,
            Refusal::NoPages => 16,
            Refusal::KstFull => 17,
            Refusal::UnknownSegno => 18,
            Refusal::NotLinkage => 19,
            Refusal::SegmentNotFound => 20,
            Refusal::NotObject => 21,
            Refusal::NoDefinition => 22,
            Refusal::NoProcess => 23,
            Refusal::MailFull => 24,
            Refusal::Ended => 25,
            Refusal::BadClass => 26,
        }
    }

    /// Its name in the table, as replies print it.
    pub fn text(&self) -> &'static str
        ensures { result.now ≡ refusal_text self.now }
    {
        match self {
            Refusal::BadPath => "bad_path",
            Refusal::NoEntry => "noentry",
            Refusal::NoInfo => "no_info",
            Refusal::NotADir => "notadir",
            Refusal::LinkLoop => "link_loop",
            Refusal::IncorrectAccess => "incorrect_access",
            Refusal::NameDup => "namedup",
            Refusal::NotASeg => "notaseg",
            Refusal::DirNotEmpty => "dir_not_empty",
            Refusal::DirFull => "dir_full",
            Refusal::BadLength => "bad_length",
            Refusal::BadBrackets => "bad_brackets",
            Refusal::InvalidMode => "invalid_mode",
            Refusal::AclFull => "acl_full",
            Refusal::NoAclEntry => "no_acl_entry",
            Refusal::NoPages => "no_pages",
            Refusal::KstFull => "kst_full",
            Refusal::UnknownSegno => "unknown_segno",
            Refusal::NotLinkage => "not_linkage",
            Refusal::SegmentNotFound => "segment_not_found",
            Refusal::NotObject => "not_object",
            Refusal::NoDefinition => "no_definition",
            Refusal::NoProcess => "no_process",
            Refusal::MailFull => "mail_full",
            Refusal::Ended => "ended",
            Refusal::BadClass => "bad_class",
        }
    }
}

/// Why a call on the hierarchy came to nothing.
#[derive(Clone, Copy, Debug, Error)]
pub enum HierError {
    /// The request is refused: the first refusal of its table that applies.
    #[error("refused")]
    Refused(Refusal),
    /// Memory was wanting, or uids.
    #[error("out of memory")]
    Memory,
}

impl From<AllocError> for HierError {
    ghost use Rattle.mx_hier.specs.declared.refusals.HierError.TheVariants.{Memory};

    ghost from_gives = { λ _ e. e ≡ Memory };

    fn from(_error: AllocError) -> HierError {
        HierError::Memory
    }
}

impl From<Refusal> for HierError {
    ghost use Rattle.mx_hier.specs.declared.refusals.HierError.TheVariants.{Refused};

    ghost from_gives = { λ why e. e ≡ Refused why };

    fn from(why: Refusal) -> HierError {
        HierError::Refused(why)
    }
}
