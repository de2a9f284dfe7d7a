//! What the supervisor answers.

ghost use Rattle.std.specs.Prelude.{◌≡◌, ◌++◌, OnOk, OnErr};
ghost use Rattle.mx_request.specs.ReplyTexts.{reply_text};

use crate::writing::push_reply;
use mx_hier::{Names, Refusal, Status};
use mx_kst::Known;
use mx_sdw::Word;
use std::alloc::AllocError;

/// The reply to a request. `Done` is printed `ok`. A message tells its sender; where no message waits, `Nobody` says
/// that no other process could send one, and `Waiting` that the process waits.
pub enum Reply {
    Done,
    Refused(Refusal),
    Status(Status),
    Names(Names),
    Segno(Known),
    Linked {
        segno: u16,
        word: u16,
        fresh: bool,
        linkage: Option<u16>,
    },
    Sent,
    Message {
        sender: u8,
        word: Word,
    },
    Nobody,
    Waiting,
}

// By hand, so that what lets a reply go calls this, and need not let go of each of its parts.
impl Drop for Reply {
    fn drop(self) {
        match self {
            Reply::Done => {}
            Reply::Refused(_why) => {}
            Reply::Status(_status) => {}
            Reply::Names(_names) => {}
            Reply::Segno(_known) => {}
            Reply::Linked {
                segno: _segno,
                word: _word,
                fresh: _fresh,
                linkage: _linkage,
            } => {}
            Reply::Sent => {}
            Reply::Message {
                sender: _sender,
                word: _word,
            } => {}
            Reply::Nobody => {}
            Reply::Waiting => {}
        }
    }
}

impl Reply {
    /// Appends the reply's text, which is one line without its newline; want of memory leaves the bytes as they were.
    pub fn append_to(&self, out: &mut Vec<u8>) -> Result<(), AllocError>
        ensures ok { OnOk result (out.new.items ≡ out.old.items ++ reply_text self.now) }
        ensures err { OnErr result (out.new.items ≡ out.old.items) }
    {
        let length = out.len();
        match push_reply(out, self) {
            Ok(()) => Ok(()),
            Err(error) => {
                out.truncate(length);
                Err(error)
            }
        }
    }
}
