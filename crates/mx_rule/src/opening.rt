//! The opening: the words of a table, with the supervisor's seat.

ghost use Rattle.std.specs.Prelude.{◌≡◌, ◌+◌, ◌≤◌, ℕ, List, Some, length, slice_get, vec_len, IfOk};
ghost use Rattle.mx_core.specs.Append.{with_changes};
ghost use Rattle.mx_core.specs.Lists.{Lists};
ghost use Rattle.mx_rule.specs.Dealing.{opening_view};
ghost use Rattle.mx_rule.specs.Dealt.{AreDealt};
ghost use Rattle.mx_rule.specs.Layout.{ShowsWords};
ghost use Rattle.mx_rule.specs.Openings.{ArePlaced, IsPlaced, MayOpen, opening_content, blank_number};
ghost use Rattle.mx_core.specs.Put.{put};
ghost use Rattle.mx_rule.specs.Parts.{words_in};
ghost use Rattle.mx_rule.specs.Seats.{super_of};
ghost use Rattle.mx_sdw.specs.Descriptors.{Descriptor};

use crate::ending::close;
use crate::layout::Layout;
use crate::office::{SuperSeat, standing};
use crate::passes::PassSeat;
use crate::rule::{Board, Key, Law};
use crate::views::View;
use atomic_table::Table;
use mx_core::Change;
use mx_list::Sequence;
use std::alloc::{AllocError, Global};

/// The table that owns the shared words.
pub type Words<E> = Table<E, View<E>, Key, Law, Global>;

/// The seats of the processes, from process 1 on.
pub type PassSeats<E> = Sequence<PassSeat<E>>;

/// The number at a word where no number of a process is known.
fn blank(layout: &Layout, start: u32, word: usize) -> u64
    ensures { result ≡ blank_number layout.now start word }
{
    let (processes, numbers) = (usize::from(layout.processes), usize::from(layout.numbers));
    if word < 2 {
        return u64::from(start);
    }
    if word < 2 + processes {
        return 0;
    }
    if word < 2 + 2 * processes + numbers * processes {
        return u64::from(start);
    }
    0
}

/// All words where no number of a process is known; the cells, which are most of them, are zero.
fn blanks(alloc: Global, layout: &Layout, start: u32) -> Result<Vec<u64>, AllocError>
    ensures { IfOk result (λ words. (vec_len words ≡ words_in layout.now)
        × Lists words.items (blank_number layout.now start)) }
{
    let count = layout.words();
    let mut words = Vec::with_capacity(alloc, count)?;
    for word in 0..layout.cell(0) {
        words.push(blank(layout, start, word))?;
    }
    words.resize(count, 0)?;
    Ok(words)
}

/// Puts descriptors into the words of the opening, one after another.
fn put_base(words: &mut Vec<u64>, layout: &Layout, start: u32, base: &[Change])
    requires all { vec_len words.old ≡ words_in layout.now }
    requires few { layout.now.processes ≤ 15 }
    requires limit { start ≤ 262143 }
    requires each { ArePlaced layout.now base.now }
    ensures shown { (table : ℕ → ℕ → Descriptor)
        → ShowsWords layout.now layout.now.processes layout.now.numbers (opening_content layout.now start table)
        words.old.items
        → ShowsWords layout.now layout.now.processes layout.now.numbers
        (opening_content layout.now start (with_changes base.now table)) words.new.items }
    ensures len { vec_len words.new ≡ vec_len words.old }
{
    match base {
        [] => {},
        [change, rest @ ..] => {
            put_one(words, layout, start, change);
            put_base(words, layout, start, rest);
        },
    }
}

fn put_one(words: &mut Vec<u64>, layout: &Layout, start: u32, change: &Change)
    requires all { vec_len words.old ≡ words_in layout.now }
    requires few { layout.now.processes ≤ 15 }
    requires limit { start ≤ 262143 }
    requires placed { IsPlaced layout.now change.now }
    ensures shown { (table : ℕ → ℕ → Descriptor)
        → ShowsWords layout.now layout.now.processes layout.now.numbers (opening_content layout.now start table)
        words.old.items
        → ShowsWords layout.now layout.now.processes layout.now.numbers
        (opening_content layout.now start (put table change.now.process (put (table change.now.process)
        change.now.segno change.now.desc)))
        words.new.items }
    ensures len { vec_len words.new ≡ vec_len words.old }
{
    let word = layout.descriptor(change.process, change.segno);
    words[word] = standing(start, &change.desc);
}

/// Opens a table of shared words after the entries that the key names, and gives the supervisor its seat.
pub fn open<E>(alloc: Global, key: &Key) -> Result<(Words<E>, SuperSeat<E>), AllocError>
    requires { MayOpen key.now.layout key.now.start key.now.base }
    ensures slots { IfOk result (λ opened. opened.0.shared.table_id.slots ≡ 0) }
    ensures key { IfOk result (λ opened. opened.0.shared.key ≡ key.now) }
    ensures wide { IfOk result (λ opened. opened.0.shared.table_id.words ≡ words_in key.now.layout) }
    ensures place { IfOk result (λ opened. opened.1.seat.table_id ≡ opened.0.shared.table_id) }
    ensures layout { IfOk result (λ opened. opened.1.layout ≡ key.now.layout) }
    ensures view { IfOk result (λ opened. super_of opened.1.seat.me.0
        ≡ opening_view key.now.layout.processes key.now.layout.numbers key.now.start key.now.base) }
{
    let layout = key.layout;
    let start = key.start;
    let mut words = blanks(alloc, &layout, start)?;
    put_base(&mut words, &layout, start, key.base.items());
    let (table, seat) = Table::of_words(alloc, words.as_slice(), key)?;
    let seat = SuperSeat {
        seat,
        layout,
        start,
        answered: start,
        length: start,
        looks: [0; 16],
        next: 1,
    };
    Ok((table, seat))
}

/// Opens a table of shared words after the entries that the key names, and gives all seats: the supervisor's, and one
/// for each process.
pub fn open_with_seats<E>(
    alloc: Global,
    key: &Key,
) -> Result<(Words<E>, SuperSeat<E>, PassSeats<E>), AllocError>
    requires { MayOpen key.now.layout key.now.start key.now.base }
    ensures slots { IfOk result (λ opened. opened.0.shared.table_id.slots ≡ 0) }
    ensures key { IfOk result (λ opened. opened.0.shared.key ≡ key.now) }
    ensures wide { IfOk result (λ opened. opened.0.shared.table_id.words ≡ words_in key.now.layout) }
    ensures place { IfOk result (λ opened. opened.1.seat.table_id ≡ opened.0.shared.table_id) }
    ensures layout { IfOk result (λ opened. opened.1.layout ≡ key.now.layout) }
    ensures view { IfOk result (λ opened. super_of opened.1.seat.me.0
        ≡ record (opening_view key.now.layout.processes key.now.layout.numbers key.now.start key.now.base) {
          next = key.now.layout.processes + 1;
        }) }
    ensures seats { IfOk result (λ opened. AreDealt opened.0.shared.table_id key.now.layout key.now.start 1 opened.2) }
    ensures count { IfOk result (λ opened. length opened.2 ≡ key.now.layout.processes) }
{
    let (words, mut chief) = open(alloc, key)?;
    match deal_all(alloc, &words.shared, &mut chief) {
        Ok(seats) => Ok((words, chief, seats)),
        Err(refused) => {
            close(words, chief);
            Err(refused)
        },
    }
}

/// Deals the seats of all processes.
fn deal_all<E>(
    alloc: Global,
    shared: &Board<E>,
    chief: &mut SuperSeat<E>,
) -> Result<PassSeats<E>, AllocError>
    requires fits { chief.old.seat.table_id ≡ shared.now.table_id }
    requires layout { shared.now.key.layout ≡ chief.old.layout }
    requires none { (super_of chief.old.seat.me.0).next ≡ 1 }
    ensures view { IfOk result (λ seats. super_of chief.new.seat.me.0
        ≡ record (super_of chief.old.seat.me.0) { next = chief.old.layout.processes + 1 }) }
    ensures seats { IfOk result (λ seats. AreDealt chief.old.seat.table_id chief.old.layout
        (super_of chief.old.seat.me.0).start 1 seats) }
    ensures count { IfOk result (λ seats. length seats ≡ chief.old.layout.processes) }
    ensures place { chief.new.seat.table_id ≡ chief.old.seat.table_id }
    ensures layout { chief.new.layout ≡ chief.old.layout }
{
    let mut seats = Sequence::new(alloc);
    for dealt in 0..chief.layout.processes {
        let seat = chief.deal(shared);
        seats.push(seat)?;
    }
    Ok(seats)
}
