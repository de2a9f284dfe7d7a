//! What a process can ask of the supervisor.

ghost use Rattle.std.specs.Prelude.{◌≡◌, ◌++◌, true, Ok, Some, None, OnOk, OnErr};
ghost use Rattle.mx_request.specs.declared.requests.Request.{Request as RequestValue};
ghost use Rattle.mx_request.specs.RequestTexts.{request_text, fits_request};

use crate::maps::BoxedMap;
use crate::reading::read_line;
use crate::writing::push_request;
use mx_acl::{AclKind, Modes};
use mx_aim::Class;
use mx_name::{AclId, EntryName, Pathname};
use mx_sdw::{Ring, Word};
use mx_search::Rules;
use std::alloc::{AllocError, Global};

/// A supervisor call. Brackets need not be in order, nor a length in its bounds: the supervisor refuses.
pub enum Request {
    /// `create_dir PATH D1 D2`: make a directory.
    CreateDir {
        path: Pathname,
        d1: Ring,
        d2: Ring,
    },
    /// `create_seg PATH WORDS R1 R2 R3`: make a segment of so many words.
    CreateSeg {
        path: Pathname,
        words: u32,
        brackets: [Ring; 3],
    },
    /// `create_object PATH WORDS R1 R2 R3 GATE d:SYMBOL:W ... l:NAME$SYMBOL ...`: make an object segment of so many words
    /// with this map. Its first GATE words are gates; each of up to 64 definitions gives a symbol its word, and each of
    /// up to 64 links names a segment and a symbol of it.
    CreateObject {
        path: Pathname,
        words: u32,
        brackets: [Ring; 3],
        map: BoxedMap,
    },
    /// `create_link PATH TARGET`: make a link.
    CreateLink {
        path: Pathname,
        target: Pathname,
    },
    /// `rename PATH NAME`: give an entry another name.
    Rename {
        path: Pathname,
        name: EntryName,
    },
    /// `delete PATH`: delete an entry.
    Delete {
        path: Pathname,
    },
    /// `set_acl PATH ID MODES`: give the identifier these modes on the access list of the entry.
    SetAcl {
        path: Pathname,
        id: AclId,
        modes: Modes,
    },
    /// `del_acl PATH ID`: remove the identifier from the access list of the entry.
    DelAcl {
        path: Pathname,
        id: AclId,
    },
    /// `set_iacl_seg PATH ID MODES`, `set_iacl_dir PATH ID MODES`: give the identifier these modes on the initial access
    /// list of the directory, that of its new segments or that of its new directories.
    SetIacl {
        path: Pathname,
        kind: AclKind,
        id: AclId,
        modes: Modes,
    },
    /// `del_iacl_seg PATH ID`, `del_iacl_dir PATH ID`: remove the identifier from the initial access list of the
    /// directory.
    DelIacl {
        path: Pathname,
        kind: AclKind,
        id: AclId,
    },
    /// `set_brackets PATH R1 R2 R3`: set the brackets of a segment.
    SetBrackets {
        path: Pathname,
        brackets: [Ring; 3],
    },
    /// `set_dir_brackets PATH D1 D2`: set the brackets of a directory.
    SetDirBrackets {
        path: Pathname,
        d1: Ring,
        d2: Ring,
    },
    /// `set_class PATH CLASS`: set the class of a segment, a level and octal categories as `L:C`.
    SetClass {
        path: Pathname,
        class: Class,
    },
    /// `status PATH`: ask what is said of an entry.
    Status {
        path: Pathname,
    },
    /// `list PATH`: ask for the names of a directory's entries.
    List {
        path: Pathname,
    },
    /// `change_wdir PATH`: make a directory the working directory.
    ChangeWdir {
        path: Pathname,
    },
    /// `set_rules RULE ...`: make these the search rules of the process.
    SetRules {
        rules: Rules,
    },
    /// `initiate PATH [NAME]`: make a segment known to the process, with a reference name in its ring where one is
    /// given.
    Initiate {
        path: Pathname,
        name: Option<EntryName>,
    },
    /// `terminate S`: take a known segment's number and names away.
    Terminate {
        segno: u16,
    },
    /// `wakeup P WORD`: send a word to process P, which need not be there.
    Wakeup {
        to: u8,
        word: Word,
    },
    /// `block`: take the oldest message, or wait for one.
    Block,
    /// `link S|W`: snap the link of this word. No line of a session asks for it: a process makes it where it meets a
    /// link word.
    Link {
        segno: u16,
        word: u16,
    },
    /// `resume`: go on after a wait. No line of a session asks for it: a process that waits makes it once a message is
    /// there, or nobody who could send one.
    Resume,
    /// `logout`: end the process.
    Logout,
}

// By hand, so that what lets a request go calls this, and need not let go of each of its parts.
impl Drop for Request {
    fn drop(self) {
        match self {
            Request::CreateDir {
                path: _path,
                d1: _,
                d2: _,
            }
            | Request::CreateSeg {
                path: _path,
                words: _,
                brackets: _,
            }
            | Request::Rename {
                path: _path,
                name: _,
            }
            | Request::Delete { path: _path }
            | Request::SetAcl {
                path: _path,
                id: _,
                modes: _,
            }
            | Request::DelAcl { path: _path, id: _ }
            | Request::SetIacl {
                path: _path,
                kind: _,
                id: _,
                modes: _,
            }
            | Request::DelIacl {
                path: _path,
                kind: _,
                id: _,
            }
            | Request::SetBrackets {
                path: _path,
                brackets: _,
            }
            | Request::SetDirBrackets {
                path: _path,
                d1: _,
                d2: _,
            }
            | Request::SetClass {
                path: _path,
                class: _,
            }
            | Request::Status { path: _path }
            | Request::List { path: _path }
            | Request::ChangeWdir { path: _path }
            | Request::Initiate {
                path: _path,
                name: _,
            } => {}
            Request::CreateObject {
                path: _path,
                words: _,
                brackets: _,
                map: _map,
            } => {}
            Request::CreateLink {
                path: _path,
                target: _target,
            } => {}
            Request::SetRules { rules: _rules } => {}
            Request::Terminate { segno: _ } => {}
            Request::Wakeup { to: _, word: _ } => {}
            Request::Block | Request::Resume | Request::Logout => {}
            Request::Link { segno: _, word: _ } => {}
        }
    }
}

impl Request {
    /// The request whose line this is, without its newline; `None` exactly where no request has this line. WORDS is
    /// decimal with at most five digits, GATE with at most four, a ring one digit, a class one digit and octal up to
    /// 777777, a segment number octal up to 7777, an address octal up to 7777|37777, a process decimal from 1 to 99, a
    /// word octal with 36 bits; an object's definitions stand before its links, at most 64 of either, no symbol is defined
    /// twice, and W is octal up to 37777; there are 1 to 16 search rules; the fields have exactly one blank between each
    /// two.
    pub fn read(alloc: Global, line: &[u8]) -> Result<Option<Request>, AllocError>
        ensures found { (request : RequestValue) → result ≡ Ok (Some request)
            → (request_text request ≡ line.now) × (fits_request request ≡ true) }
        ensures none { result ≡ Ok None
            → (request : RequestValue) → fits_request request ≡ true → request_text request ≡ line.now → ⊥ }
    {
        read_line(alloc, line)
    }

    /// Appends the request's line, without a newline; want of memory leaves the bytes as they were.
    pub fn append_to(&self, out: &mut Vec<u8>) -> Result<(), AllocError>
        ensures ok { OnOk result (out.new.items ≡ out.old.items ++ request_text self.now) }
        ensures err { OnErr result (out.new.items ≡ out.old.items) }
    {
        let length = out.len();
        match push_request(out, self) {
            Ok(()) => Ok(()),
            Err(error) => {
                out.truncate(length);
                Err(error)
            }
        }
    }
}
