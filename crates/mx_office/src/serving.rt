//! One entry of a process, or a full journal, under the lock.

ghost use Rattle.std.specs.Prelude.{◌≡◌, ◌+◌, ◌≤◌, ◌<◌, ◌≢◌, ℕ, Ok, Err, IfOk, OnErr, length};
ghost use Rattle.mx_core.specs.Words.{number_of};
ghost use Rattle.mx_office.specs.Locked.{IsLocked};
ghost use Rattle.mx_office.specs.Serving.{HasEntered, HasGrown, HasMetLimit, HasSettled, IsServed, runs_of, told_to};
ghost use Rattle.mx_office.specs.declared.answers.EnterError.TheVariants.{HistoryFull, Memory};
ghost use Rattle.mx_office.specs.declared.answers.Served.{Served as ServedValue};
ghost use Rattle.mx_rule.specs.Notes.{last_miss, noting_view, reported_view, reporting_view};
ghost use Rattle.mx_rule.specs.Shown.{office_of};
ghost use Rattle.mx_rule.specs.Telling.{AreRightWords};
ghost use Rattle.mx_script.specs.Sessions.{limit_of};
ghost use Rattle.mx_sup.specs.Supervised.{Supervised};
ghost use Rattle.mx_sup.specs.Entering.{HasCome, HasEntered as HasBeenEntered};

use crate::announcing::announce;
use crate::answers::{Answer, EnterError, Served};
use crate::naming::Sitting;
use crate::settling::settle_fault;
use mx_core::{Run, Runs};
use mx_desc::{Pass, Super};
use mx_list::Sequence;
use mx_request::SharedRequest;
use mx_rule::Board;
use mx_sdw::Ring;
use mx_state::Entry;
use mx_sup::{Entered, Supervisor};
use std::alloc::{AllocError, Global};
use std::mem;
use std::sync::Wait;
use std::sync::ledger::Book;

/// An entry that the plain supervisor made, with the runs of pages that it gave.
#[derive(Drop)]
struct Applied {
    came: Entered,
    given: Runs,
}

/// Makes a process's call, below the limit. All memory is taken before the journal changes; `room` has some already, from the
/// second call on.
fn apply(
    alloc: Global,
    supervisor: &mut Supervisor,
    p: u8,
    ring: Ring,
    request: &SharedRequest,
    mut room: Vec<Run>,
) -> Result<Applied, AllocError>
    requires some { 1 ≤ p }
    requires process { p ≤ length supervisor.old.session.principals }
    ensures entered { IfOk result (λ made. HasBeenEntered supervisor.old p ring request.now made.came.number
        supervisor.new) }
    ensures came { IfOk result (λ made. HasCome supervisor.old supervisor.new made.came) }
    ensures given { IfOk result (λ made. made.given ≡ runs_of made.came.given) }
    ensures err { OnErr result (supervisor.new ≡ supervisor.old) }
{
    room.clear();
    room.reserve(1)?;
    match supervisor.enter(alloc, p, ring, request) {
        Ok(came) => {
            if let Some(run) = came.given {
                room.push_reserved(Run {
                    page: run.first,
                    pages: run.count,
                });
            }
            Ok(Applied {
                came,
                given: Sequence::of(room),
            })
        }
        Err(_error) => Err(AllocError),
    }
}

/// Tells a process of all entries: it reports, and takes a note.
pub(crate) fn tell<B: Sitting>(
    chief: &mut Super<Entry, B>,
    pass: &mut Pass<Entry, B>,
    shared: &Board<Entry>,
)
    requires fits { shared.now.table_id ≡ B.table }
    requires layout { shared.now.key.layout ≡ B.layout }
    requires rest { chief.old.length ≤ chief.old.answered }
    ensures view { chief.new ≡ noting_view (reported_view (reporting_view pass.old.view) chief.old) }
    ensures words { AreRightWords (office_of chief.new) }
    ensures grown { HasGrown pass.old pass.new }
    ensures floor { pass.new.view.floor ≡ chief.old.length }
    ensures amount { pass.new.amount ≡ pass.old.amount }
    ensures told { (n : ℕ) → (office_of chief.new).told pass.old.view.process n ≤ told_to pass.new n }
    ensures answered { chief.new.answered ≤ pass.new.view.floor }
    ensures miss { (last_miss pass.old.view.trace).1
        ≤ number_of ((office_of chief.new).word pass.old.view.process (last_miss pass.old.view.trace).0) }
{
    // The supervisor is asked for what its type says of its length.
    let _length = chief.length();
    chief.report(shared, pass);
    let note = chief.split(shared);
    pass.join(shared, note);
}

/// Settles the word of this number of a process, where it is a fault, and tells the process of all entries: so after a
/// miss it knows the word settled.
pub(crate) fn settle_for<B: Sitting>(
    chief: &mut Super<Entry, B>,
    pass: &mut Pass<Entry, B>,
    shared: &Board<Entry>,
    segno: u16,
)
    requires fits { shared.now.table_id ≡ B.table }
    requires layout { shared.now.key.layout ≡ B.layout }
    requires rest { chief.old.length ≤ chief.old.answered }
    ensures locked { (s : Supervised) (total : ℕ) → IsLocked B.session B.setup B.layout s chief.old total
        → IsLocked B.session B.setup B.layout s chief.new total }
    ensures settled { (s : Supervised) (total : ℕ) → IsLocked B.session B.setup B.layout s chief.old total
        → HasSettled segno pass.old pass.new }
{
    settle_fault(chief, shared, pass.process(), segno);
    tell(chief, pass, shared);
}

/// An entry below the limit; `given` keeps the room for the run of pages that it gives out.
fn enter_below<R: Wait, B: Sitting>(
    rt: &R,
    alloc: Global,
    supervisor: &mut Supervisor,
    chief: &mut Super<Entry, B>,
    book: &mut Book<B>,
    pass: &mut Pass<Entry, B>,
    shared: &Board<Entry>,
    given: &mut Runs,
    ring: Ring,
    request: &SharedRequest,
) -> Result<Served, AllocError>
    requires fits { shared.now.table_id ≡ B.table }
    requires layout { shared.now.key.layout ≡ B.layout }
    requires locked { IsLocked B.session B.setup B.layout supervisor.old chief.old book.old.total }
    requires below { chief.old.length < 262143 }
    ensures locked { IsLocked B.session B.setup B.layout supervisor.new chief.new book.new.total }
    ensures entered { (served : ServedValue) → result ≡ Ok served
        → HasEntered B.session B.setup ring request.now served pass.old pass.new }
    ensures longer { (served : ServedValue) → result ≡ Ok served
        → length supervisor.new.journal ≡ length supervisor.old.journal + 1 }
    ensures served { (served : ServedValue) → result ≡ Ok served → IsServed supervisor.old pass.old.view.process ring
        request.now served supervisor.new }
    ensures err { OnErr result (pass.new ≡ pass.old) }
    ensures still { OnErr result (supervisor.new ≡ supervisor.old) }
{
    let process = pass.process();
    let (_length, _layout) = (chief.length(), chief.layout());
    let _before = supervisor.length();
    chief.report(shared, pass);
    let room = mem::replace(given, Sequence::new(alloc)).into_items();
    let made = apply(alloc, supervisor, process, ring, request, room)?;
    let _after = supervisor.length();
    supervisor.free_pages_are_bare();
    let entry = supervisor.entry(made.came.number);
    announce(
        rt,
        chief,
        pass,
        shared,
        &made.came.changes,
        &made.given,
        made.came.freed,
        entry,
    );
    pass.book(book);
    let served = Served {
        number: made.came.number,
        answer: Answer::of(&entry.reply),
    };
    let Applied {
        came: _came,
        given: used,
    } = made;
    *given = used;
    Ok(served)
}

/// A request of a process, in this order: the limit, the process's report, the plain supervisor's answer, the entry at the
/// shared words until its process was told of it, and the book. At a full journal the process reports, and is told of all
/// entries. Want of memory changes at most what is known of the process's trace.
pub(crate) fn serve<R: Wait, B: Sitting>(
    rt: &R,
    alloc: Global,
    supervisor: &mut Supervisor,
    chief: &mut Super<Entry, B>,
    book: &mut Book<B>,
    pass: &mut Pass<Entry, B>,
    shared: &Board<Entry>,
    given: &mut Runs,
    ring: Ring,
    request: &SharedRequest,
) -> Result<Served, EnterError>
    requires fits { shared.now.table_id ≡ B.table }
    requires layout { shared.now.key.layout ≡ B.layout }
    requires locked { IsLocked B.session B.setup B.layout supervisor.old chief.old book.old.total }
    ensures locked { IsLocked B.session B.setup B.layout supervisor.new chief.new book.new.total }
    ensures entered { (served : ServedValue) → result ≡ Ok served
        → HasEntered B.session B.setup ring request.now served pass.old pass.new }
    ensures full { (length : ℕ) → result ≡ Err (HistoryFull length) → HasMetLimit B.session length pass.old pass.new }
    ensures below { (served : ServedValue) → result ≡ Ok served → length supervisor.old.journal < limit_of B.session }
    ensures at_limit { length supervisor.old.journal ≡ limit_of B.session → result
        ≡ Err (HistoryFull (limit_of B.session)) }
    ensures memory { result ≡ Err Memory → pass.new ≡ pass.old }
    ensures longer { (served : ServedValue) → result ≡ Ok served
        → length supervisor.new.journal ≡ length supervisor.old.journal + 1 }
    ensures served { (served : ServedValue) → result ≡ Ok served → IsServed supervisor.old pass.old.view.process ring
        request.now served supervisor.new }
    ensures still { OnErr result (supervisor.new ≡ supervisor.old) }
{
    let length = supervisor.length();
    let _length = chief.length();
    if length >= supervisor.limit() {
        tell(chief, pass, shared);
        return Err(EnterError::HistoryFull { length });
    }
    match enter_below(
        rt, alloc, supervisor, chief, book, pass, shared, given, ring, request,
    ) {
        Ok(served) => Ok(served),
        Err(_error) => Err(EnterError::Memory),
    }
}
