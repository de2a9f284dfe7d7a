//! The end of a run: the passes of all processes come back, and the journal is given out.

ghost use Rattle.std.specs.Prelude.{◌≡◌, ◌+◌, length};
ghost use Rattle.mx_closing.specs.Closing.{AreOfAll};
ghost use Rattle.mx_office.specs.Ends.{HasFinished};
ghost use Rattle.mx_office.specs.Locked.{IsLocked};

use crate::naming::Sitting;
use mx_desc::{Passes, Super};
use mx_rule::Words;
use mx_state::{Entry, Journal};
use mx_sup::Supervisor;
use std::sync::ledger::{Book, Share};

/// Takes back the passes of all processes, with which the run is closed, and gives the journal.
pub(crate) fn finish<B: Sitting>(
    supervisor: Supervisor,
    chief: Super<Entry, B>,
    book: Book<B>,
    words: Words<Entry>,
    share: Share<B>,
    passes: Passes<Entry, B>,
) -> Journal
    requires locked { IsLocked B.session B.setup B.layout supervisor chief book.total }
    requires fits { words.shared.table_id ≡ B.table }
    requires slots { words.shared.table_id.slots ≡ 0 }
    requires layout { words.shared.key.layout ≡ B.layout }
    requires all { AreOfAll (length B.session.principals) passes }
    requires parts { share.parts + length passes ≡ B.parts }
    requires amount { share.amount ≡ 0 }
    ensures journal { result ≡ supervisor.entry.journal }
    ensures finished { HasFinished B.session B.setup passes result }
{
    // The supervisor is asked for what its type says of its layout and its length.
    let (_layout, _length) = (chief.layout(), chief.length());
    mx_closing::finish(words, chief, book, share, passes);
    supervisor.into_journal()
}
