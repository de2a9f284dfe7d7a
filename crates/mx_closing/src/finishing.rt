//! The end of a run on shared words: the passes of all processes come back.

ghost use Rattle.std.specs.Prelude.{◌≡◌, ◌+◌, List, length, sum_by};
ghost use Rattle.mx_closing.specs.Closing.{AreOfAll, returned};
ghost use Rattle.mx_closing.specs.Keeping.{KeepsJournal};
ghost use Rattle.mx_closing.specs.Views.{marked_in, views_in};
ghost use Rattle.mx_script.specs.Sessions.{Outline};
ghost use Rattle.mx_state.specs.declared.journal.Entry as journaled;
ghost use Rattle.mx_ties.specs.Closed.{IsClosed};

use mx_desc::{Naming, Pass, Passes, Super, close};
use mx_rule::{Board, Words};
use mx_state::Entry;
use std::sync::ledger::{Book, Share};

/// Takes back the passes of all processes, audits the book of own entries, and gives the words back. Where the
/// supervisor kept the journal of a session, the run is then closed. Conditions: the words are those of the run; the
/// passes are those of all its processes in order, which have all parts of the ledger together with this share, in which
/// no entry is counted; and the book counts the entries of the history. It takes no memory.
pub fn finish<B: Naming>(
    words: Words<Entry>,
    chief: Super<Entry, B>,
    book: Book<B>,
    share: Share<B>,
    passes: Passes<Entry, B>,
)
    requires fits { words.shared.table_id ≡ B.table }
    requires slots { words.shared.table_id.slots ≡ 0 }
    requires layout { words.shared.key.layout ≡ B.layout }
    requires all { AreOfAll chief.processes passes }
    requires parts { share.parts + length passes ≡ B.parts }
    requires rest { share.amount ≡ 0 }
    requires counted { book.total ≡ length chief.history }
    ensures { (x : Outline) (setup : List journaled.Entry) → KeepsJournal x setup chief
        → IsClosed x setup (marked_in chief.history) (views_in passes) }
{
    let (mut chief, mut book, mut share) = (chief, book, share);
    retire_all(&mut chief, &words.shared, &mut share, passes.into_items());
    book.audit(&mut share);
    close(words, chief);
}

/// Takes back passes, one after another, and merges their shares.
fn retire_all<E, B: Naming>(
    chief: &mut Super<E, B>,
    shared: &Board<E>,
    share: &mut Share<B>,
    passes: Vec<Pass<E, B>>,
)
    requires fits { shared.now.table_id ≡ B.table }
    requires layout { shared.now.key.layout ≡ B.layout }
    ensures view { chief.new ≡ record chief.old { retired = returned passes.items chief.old.retired } }
    ensures amount { share.new.amount ≡ share.old.amount + sum_by (λ o. o.amount) passes.items }
    ensures parts { share.new.parts ≡ share.old.parts + length passes.items }
{
    for pass in passes {
        let own = chief.retire(shared, pass);
        share.merge(own);
    }
}
