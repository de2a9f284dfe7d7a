//! The kinds of lines that have fields.

ghost use Rattle.std.specs.Prelude.{◌≡◌, ◌==◌};
ghost use Rattle.std.specs.List.{find};
ghost use Rattle.std.specs.Cmp.Lexicographic.{pointwise};
ghost use Rattle.mx_request.specs.Kinds.{kind_of, kind_word};

/// What a line asks, by its first word.
#[derive(Clone, Copy)]
pub(crate) enum Kind {
    CreateDir,
    CreateSeg,
    CreateObject,
    CreateLink,
    Rename,
    Delete,
    SetAcl,
    DelAcl,
    SetIaclSeg,
    SetIaclDir,
    DelIaclSeg,
    DelIaclDir,
    SetBrackets,
    SetDirBrackets,
    SetClass,
    Status,
    List,
    ChangeWdir,
    SetRules,
    Initiate,
    Terminate,
    Wakeup,
    Link,
}

impl Kind {
    /// The kind that a word names: it is looked for among the kinds whose word is as long.
    pub(super) fn read(word: &[u8]) -> Option<Kind>
        ensures { result ≡ kind_of word.now }
    {
        match word.len() {
            4 => with_word(&[Kind::Link, Kind::List], word),
            6 => with_word(
                &[Kind::Wakeup, Kind::Status, Kind::Rename, Kind::Delete],
                word,
            ),
            7 => with_word(&[Kind::SetAcl, Kind::DelAcl], word),
            8 => with_word(&[Kind::Initiate], word),
            9 => with_word(&[Kind::Terminate, Kind::SetClass, Kind::SetRules], word),
            10 => with_word(&[Kind::CreateDir, Kind::CreateSeg], word),
            11 => with_word(&[Kind::CreateLink, Kind::ChangeWdir], word),
            12 => with_word(
                &[
                    Kind::SetIaclSeg,
                    Kind::SetIaclDir,
                    Kind::DelIaclSeg,
                    Kind::DelIaclDir,
                    Kind::SetBrackets,
                ],
                word,
            ),
            13 => with_word(&[Kind::CreateObject], word),
            16 => with_word(&[Kind::SetDirBrackets], word),
            _ => None,
        }
    }

    fn word(&self) -> &'static str
        ensures { result.now ≡ kind_word self.now }
    {
        match self {
            Kind::CreateDir => "create_dir",
            Kind::CreateSeg => "create_seg",
            Kind::CreateObject => "create_object",
            Kind::CreateLink => "create_link",
            Kind::Rename => "rename",
            Kind::Delete => "delete",
            Kind::SetAcl => "set_acl",
            Kind::DelAcl => "del_acl",
            Kind::SetIaclSeg => "set_iacl_seg",
            Kind::SetIaclDir => "set_iacl_dir",
            Kind::DelIaclSeg => "del_iacl_seg",
            Kind::DelIaclDir => "del_iacl_dir",
            Kind::SetBrackets => "set_brackets",
            Kind::SetDirBrackets => "set_dir_brackets",
            Kind::SetClass => "set_class",
            Kind::Status => "status",
            Kind::List => "list",
            Kind::ChangeWdir => "change_wdir",
            Kind::SetRules => "set_rules",
            Kind::Initiate => "initiate",
            Kind::Terminate => "terminate",
            Kind::Wakeup => "wakeup",
            Kind::Link => "link",
        }
    }
}

/// The first of these kinds that has the word.
#[inline(always)]
fn with_word(all: &[Kind], word: &[u8]) -> Option<Kind>
    ensures { result ≡ find (λ kind. pointwise ◌==◌ word.now (kind_word kind)) all.now }
{
    for kind in all {
        if word == kind.word().as_bytes() {
            return Some(*kind);
        }
    }
    None
}
