//! The kinds of lines of a session text: the word that each begins with, and the fields that follow.

ghost use Rattle.std.specs.Prelude.{◌≡◌, ◌==◌, ◌≤◌, length, MatchOption};
ghost use Rattle.std.specs.List.{find};
ghost use Rattle.std.specs.Cmp.Lexicographic.{pointwise};
ghost use Rattle.mx_lint.specs.Orders.{is_process};
ghost use Rattle.mx_lint.specs.Forms.{word_of, fields_of, least_of, group_of, since_of, form_named, IsNoWord};

use crate::fields::Field;

/// Whose lines they are: each of the five that hold a session together stands for itself.
#[derive(Clone, Copy)]
pub(crate) enum Group {
    /// The line of the version.
    Header,
    /// The limit of the journal.
    Limit,
    /// The line with which a script begins.
    Process,
    /// The line with which a script ends.
    Logout,
    /// The last line.
    End,
    /// Path requests: in the setup and in scripts.
    OfPath,
    /// What a process alone can do: in scripts.
    OfProcess,
    /// What the supervisor enters for a process: in no session.
    OfSupervisor,
}

impl Group {
    /// Whether it is the line with which a script begins.
    pub(crate) fn is_process(self) -> bool
        ensures { result ≡ is_process self }
    {
        match self {
            Group::Process => true,
            Group::Header
            | Group::Limit
            | Group::Logout
            | Group::End
            | Group::OfPath
            | Group::OfProcess
            | Group::OfSupervisor => false,
        }
    }
}

/// A kind of line.
#[derive(Clone, Copy)]
pub enum Form {
    Header,
    History,
    Process,
    Logout,
    End,
    CreateDir,
    CreateSeg,
    CreateObject,
    CreateLink,
    Rename,
    Delete,
    SetAcl,
    DelAcl,
    SetIaclSeg,
    SetIaclDir,
    DelIaclSeg,
    DelIaclDir,
    SetBrackets,
    SetDirBrackets,
    SetClass,
    Status,
    List,
    ChangeWdir,
    SetRules,
    Initiate,
    Terminate,
    Wakeup,
    Block,
    Set,
    Epp,
    Lda,
    Sta,
    Spri,
    Fetch,
    Call,
    Return,
    Link,
    Resume,
}

const ALL: [Form; 38] = [
    Form::Header,
    Form::History,
    Form::Process,
    Form::Logout,
    Form::End,
    Form::CreateDir,
    Form::CreateSeg,
    Form::CreateObject,
    Form::CreateLink,
    Form::Rename,
    Form::Delete,
    Form::SetAcl,
    Form::DelAcl,
    Form::SetIaclSeg,
    Form::SetIaclDir,
    Form::DelIaclSeg,
    Form::DelIaclDir,
    Form::SetBrackets,
    Form::SetDirBrackets,
    Form::SetClass,
    Form::Status,
    Form::List,
    Form::ChangeWdir,
    Form::SetRules,
    Form::Initiate,
    Form::Terminate,
    Form::Wakeup,
    Form::Block,
    Form::Set,
    Form::Epp,
    Form::Lda,
    Form::Sta,
    Form::Spri,
    Form::Fetch,
    Form::Call,
    Form::Return,
    Form::Link,
    Form::Resume,
];

impl Form {
    /// The kind whose lines begin with this word.
    pub(crate) fn read(word: &[u8]) -> Option<Form>
        ensures named { result ≡ form_named word.now }
        ensures known { MatchOption result (IsNoWord word.now) (λ form. word.now ≡ word_of form) }
    {
        with_word(&ALL, word)
    }

    /// The first word of its lines.
    pub(crate) fn word(self) -> &'static str
        ensures { result.now ≡ word_of self }
    {
        match self {
            Form::Header => "multics",
            Form::History => "history",
            Form::Process => "process",
            Form::Logout => "logout",
            Form::End => "end",
            Form::CreateDir => "create_dir",
            Form::CreateSeg => "create_seg",
            Form::CreateObject => "create_object",
            Form::CreateLink => "create_link",
            Form::Rename => "rename",
            Form::Delete => "delete",
            Form::SetAcl => "set_acl",
            Form::DelAcl => "del_acl",
            Form::SetIaclSeg => "set_iacl_seg",
            Form::SetIaclDir => "set_iacl_dir",
            Form::DelIaclSeg => "del_iacl_seg",
            Form::DelIaclDir => "del_iacl_dir",
            Form::SetBrackets => "set_brackets",
            Form::SetDirBrackets => "set_dir_brackets",
            Form::SetClass => "set_class",
            Form::Status => "status",
            Form::List => "list",
            Form::ChangeWdir => "change_wdir",
            Form::SetRules => "set_rules",
            Form::Initiate => "initiate",
            Form::Terminate => "terminate",
            Form::Wakeup => "wakeup",
            Form::Block => "block",
            Form::Set => "set",
            Form::Epp => "epp",
            Form::Lda => "lda",
            Form::Sta => "sta",
            Form::Spri => "spri",
            Form::Fetch => "fetch",
            Form::Call => "call",
            Form::Return => "return",
            Form::Link => "link",
            Form::Resume => "resume",
        }
    }

    /// The fields behind the word, in order; the last of them may be left out where `least` says so. Behind those of an
    /// object come its definitions and links.
    pub(crate) fn fields(self) -> &'static [Field]
        ensures { result.now ≡ fields_of self }
    {
        match self {
            Form::Header => &[Field::Version],
            Form::History => &[Field::Limit],
            Form::Process => &[Field::Principal, Field::Authorization],
            Form::CreateDir | Form::SetDirBrackets => &[Field::Path, Field::D1, Field::D2],
            Form::CreateSeg => &[Field::Path, Field::Words, Field::R1, Field::R2, Field::R3],
            Form::CreateObject => &[
                Field::Path,
                Field::Words,
                Field::R1,
                Field::R2,
                Field::R3,
                Field::Gate,
            ],
            Form::CreateLink => &[Field::Path, Field::Target],
            Form::Rename | Form::Initiate => &[Field::Path, Field::Name],
            Form::Delete | Form::Status | Form::List | Form::ChangeWdir => &[Field::Path],
            Form::SetAcl | Form::SetIaclSeg | Form::SetIaclDir => {
                &[Field::Path, Field::Id, Field::Modes]
            }
            Form::DelAcl | Form::DelIaclSeg | Form::DelIaclDir => &[Field::Path, Field::Id],
            Form::SetClass => &[Field::Path, Field::Class],
            Form::SetBrackets => &[Field::Path, Field::R1, Field::R2, Field::R3],
            Form::SetRules => &[Field::Rule; 16],
            Form::Terminate => &[Field::Segno],
            Form::Wakeup => &[Field::Receiver, Field::Word],
            Form::Set => &[Field::Word],
            Form::Epp | Form::Spri => &[Field::Register, Field::Operand],
            Form::Lda | Form::Sta | Form::Call | Form::Return => &[Field::Operand],
            Form::Link => &[Field::Operand],
            Form::Logout | Form::End | Form::Block | Form::Fetch | Form::Resume => &[],
        }
    }

    /// How many of its fields a line must have.
    pub(crate) fn least(self) -> usize
        ensures least { result ≡ least_of self }
        ensures within { result ≤ length (fields_of self) }
    {
        match self {
            Form::Process | Form::Initiate | Form::SetRules => 1,
            _ => self.fields().len(),
        }
    }

    /// Its fields, as they are written behind its word.
    pub(crate) fn shape(self) -> &'static str {
        match self {
            Form::Header => "VERSION",
            Form::History => "H",
            Form::Process => "PRINCIPAL [CLASS]",
            Form::CreateDir | Form::SetDirBrackets => "PATH D1 D2",
            Form::CreateSeg => "PATH WORDS R1 R2 R3",
            Form::CreateObject => {
                "PATH WORDS R1 R2 R3 GATE {d:SYMBOL:W} {l:NAME$SYMBOL}, at most 64 of either"
            }
            Form::CreateLink => "PATH TARGET",
            Form::Rename => "PATH NAME",
            Form::Initiate => "PATH [NAME]",
            Form::Delete | Form::Status | Form::List | Form::ChangeWdir => "PATH",
            Form::SetAcl | Form::SetIaclSeg | Form::SetIaclDir => "PATH ID MODES",
            Form::DelAcl | Form::DelIaclSeg | Form::DelIaclDir => "PATH ID",
            Form::SetClass => "PATH CLASS",
            Form::SetBrackets => "PATH R1 R2 R3",
            Form::SetRules => "RULE {RULE}, 1 to 16 of them",
            Form::Terminate => "S",
            Form::Wakeup => "P WORD",
            Form::Set => "WORD",
            Form::Epp | Form::Spri => "N OPERAND",
            Form::Lda | Form::Sta | Form::Call | Form::Return => "OPERAND",
            Form::Link => "S|W",
            Form::Logout | Form::End | Form::Block | Form::Fetch | Form::Resume => "nothing",
        }
    }

    /// A line of its kind.
    pub(crate) fn example(self) -> &'static str {
        match self {
            Form::Header => "multics 1",
            Form::History => "history 100",
            Form::Process => "process Jones.Faculty.a",
            Form::Logout => "logout",
            Form::End => "end",
            Form::CreateDir => "create_dir >udd 7 7",
            Form::CreateSeg => "create_seg >udd>a 64 4 4 4",
            Form::CreateObject => "create_object >udd>math 64 1 3 5 2 d:sqrt:1 l:io$write",
            Form::CreateLink => "create_link >here >udd>a",
            Form::Rename => "rename >udd>a b",
            Form::Delete => "delete >udd>a",
            Form::SetAcl => "set_acl >udd>a Jones.*.* rw",
            Form::DelAcl => "del_acl >udd>a Jones.*.*",
            Form::SetIaclSeg => "set_iacl_seg >udd *.Faculty.* r",
            Form::SetIaclDir => "set_iacl_dir >udd *.Faculty.* s",
            Form::DelIaclSeg => "del_iacl_seg >udd *.Faculty.*",
            Form::DelIaclDir => "del_iacl_dir >udd *.Faculty.*",
            Form::SetBrackets => "set_brackets >udd>a 1 4 4",
            Form::SetDirBrackets => "set_dir_brackets >udd 4 4",
            Form::SetClass => "set_class >udd>a 2:3",
            Form::Status => "status >udd>a",
            Form::List => "list >udd",
            Form::ChangeWdir => "change_wdir >udd",
            Form::SetRules => "set_rules initiated_segments working_dir >lib",
            Form::Initiate => "initiate >udd>a math",
            Form::Terminate => "terminate 10",
            Form::Wakeup => "wakeup 2 52",
            Form::Block => "block",
            Form::Set => "set 52",
            Form::Epp => "epp 2 10|0,*",
            Form::Lda => "lda 10|5",
            Form::Sta => "sta pr2|0",
            Form::Spri => "spri 7 10|0",
            Form::Fetch => "fetch",
            Form::Call => "call 11|1",
            Form::Return => "return pr7|0",
            Form::Link => "link 11|0",
            Form::Resume => "resume",
        }
    }

    /// Whose lines they are.
    pub(crate) fn group(self) -> Group
        ensures { result ≡ group_of self }
    {
        match self {
            Form::Header => Group::Header,
            Form::History => Group::Limit,
            Form::Process => Group::Process,
            Form::Logout => Group::Logout,
            Form::End => Group::End,
            Form::CreateDir
            | Form::CreateSeg
            | Form::CreateObject
            | Form::CreateLink
            | Form::Rename
            | Form::Delete
            | Form::SetAcl
            | Form::DelAcl
            | Form::SetIaclSeg
            | Form::SetIaclDir
            | Form::DelIaclSeg
            | Form::DelIaclDir
            | Form::SetBrackets
            | Form::SetDirBrackets
            | Form::SetClass
            | Form::Status
            | Form::List => Group::OfPath,
            Form::ChangeWdir
            | Form::SetRules
            | Form::Initiate
            | Form::Terminate
            | Form::Wakeup
            | Form::Block
            | Form::Set
            | Form::Epp
            | Form::Lda
            | Form::Sta
            | Form::Spri
            | Form::Fetch
            | Form::Call
            | Form::Return => Group::OfProcess,
            Form::Link | Form::Resume => Group::OfSupervisor,
        }
    }

    /// The version from which on a session may have it.
    pub(crate) fn since(self) -> u8
        ensures { result ≡ since_of self }
    {
        match self {
            Form::SetClass => 2,
            Form::SetIaclSeg | Form::SetIaclDir | Form::DelIaclSeg | Form::DelIaclDir => 3,
            _ => 1,
        }
    }
}

// The first of these kinds whose lines begin with this word.
fn with_word(all: &[Form], word: &[u8]) -> Option<Form>
    ensures { result ≡ find (λ form. pointwise ◌==◌ word.now (word_of form)) all.now }
{
    for form in all {
        if word == form.word().as_bytes() {
            return Some(*form);
        }
    }
    None
}
