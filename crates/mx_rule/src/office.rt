//! The supervisor's seat: it strikes and settles descriptor words, connects, answers, and clears cells.

ghost use Rattle.std.specs.Prelude.{◌≡◌, ◌≤◌, ◌<◌, ℕ, [], slice_index_or};
ghost use Rattle.mx_core.specs.declared.words.DescriptorWord.TheVariants.{Valid, Fault};
ghost use Rattle.mx_rule.specs.Acknowledging.{MayAcknowledge, has_left, noticed_view, MayAnswer, answered_view, MayConnect, connecting_view};
ghost use Rattle.mx_rule.specs.Clearing.{MayClear, cleared_view};
ghost use Rattle.mx_rule.specs.Codes.{IsCodable, word_code};
ghost use Rattle.mx_rule.specs.Parts.{words_in};
ghost use Rattle.mx_rule.specs.Seats.{super_of};
ghost use Rattle.mx_rule.specs.Shown.{numbers_of, office_of};
ghost use Rattle.mx_rule.specs.Striking.{MayStrike, struck_view, MaySettle, settled_view};
ghost use Rattle.mx_rule.specs.declared.views.View.TheVariants.{Super};

use crate::layout::Layout;
use crate::rule::Board;
use crate::views::View;
use atomic_table::{Play, Seat};
use mx_sdw::{Desc, DescKind, DescView, DescWord};
use std::marker::{Brand, PhantomData};

/// What a call of the supervisor is about: a process, a number of it, and a number of an entry or a cell. Each call
/// names its own.
pub trait Aim {
    ghost process: { ℕ };

    ghost segno: { ℕ };

    ghost number: { ℕ };
}

impl Aim for Brand {
    ghost process = { 0 };

    ghost segno = { 0 };

    ghost number = { 0 };
}

/// A descriptor word becomes a fault.
pub struct Strikes<J: Aim> {
    of: PhantomData<J>,
}

impl<E, J: Aim> Play<E, View<E>> for Strikes<J> {
    ghost then = { λ st me n after. after ≡ (Super (struck_view J.process J.segno (super_of me.0)), []) };
}

/// A fault becomes the present descriptor.
pub struct Settles<J: Aim> {
    of: PhantomData<J>,
}

impl<E, J: Aim> Play<E, View<E>> for Settles<J> {
    ghost then = { λ st me n after. after ≡ (Super (settled_view J.process J.segno J.number (super_of me.0)), []) };
}

/// A connect word becomes the length.
pub struct Tells<J: Aim> {
    of: PhantomData<J>,
}

impl<E, J: Aim> Play<E, View<E>> for Tells<J> {
    ghost then = { λ st me n after. after ≡ (Super (connecting_view J.process (super_of me.0)), []) };
}

/// The answered length becomes the length.
pub struct Answers;

impl<E> Play<E, View<E>> for Answers {
    ghost then = { λ st me n after. after ≡ (Super (answered_view (super_of me.0)), []) };
}

/// A flag is read: the process has left, or its flag is kept as a look.
pub struct Notices<J: Aim> {
    of: PhantomData<J>,
}

impl<E, J: Aim> Play<E, View<E>> for Notices<J> {
    ghost then = { λ st me n after. after ≡ (Super (noticed_view J.process n (super_of me.0)), []) };
}

/// A cell becomes zero.
pub struct Clears<J: Aim> {
    of: PhantomData<J>,
}

impl<E, J: Aim> Play<E, View<E>> for Clears<J> {
    ghost then = { λ st me n after. after ≡ (Super (cleared_view J.number (super_of me.0)), []) };
}

/// The supervisor's seat: its place at the shared table, with the numbers that its calls need.
#[derive(Drop)]
pub struct SuperSeat<E> {
    pub seat: Seat<E, View<E>>,
    /// Which word is which.
    pub layout: Layout,
    pub(crate) start: u32,
    /// How many entries are answered.
    pub answered: u32,
    /// How many there are.
    pub length: u32,
    pub(crate) looks: [u64; 16],
    pub(crate) next: u8,
    pub ghost posed: { seat.me ≡ (Super (super_of seat.me.0), []) },
    pub ghost wide: { words_in layout ≤ seat.table_id.words },
    pub ghost processes_is: { (super_of seat.me.0).processes ≡ layout.processes },
    pub ghost numbers_is: { (super_of seat.me.0).numbers ≡ layout.numbers },
    pub ghost start_is: { (super_of seat.me.0).start ≡ start },
    pub ghost next_is: { (super_of seat.me.0).next ≡ next },
    pub ghost some: { 1 ≤ next },
    pub ghost answered_is: { (super_of seat.me.0).answered ≡ answered },
    pub ghost length_is: { (super_of seat.me.0).length ≡ length },
    pub ghost begun: { start ≤ answered },
    pub ghost answers: { answered ≤ length },
    pub ghost limit: { length ≤ 262143 },
    pub ghost few: { layout.processes ≤ 15 },
    pub ghost looks_are: { (p : ℕ) → p < 16 → slice_index_or looks p 0 ≡ numbers_of 0 (super_of seat.me.0).looks p },
}

/// The word of a descriptor that stands since an entry.
pub(crate) fn standing(number: u32, desc: &Desc) -> u64
    requires { IsCodable (Valid number desc.now) }
    ensures { result ≡ word_code (Valid number desc.now) }
{
    let view = match desc.kind() {
        DescKind::Unknown => DescView::Unknown(number),
        DescKind::Gone => DescView::Gone(number),
        DescKind::Segment => DescView::Set(number, *desc),
    };
    DescWord::of(&view).number()
}

/// The word of a fault by an entry.
fn fault(number: u32) -> u64
    requires { number ≤ 262143 }
    ensures { result ≡ word_code (Fault number) }
{
    DescWord::of(&DescView::Fault(number)).number()
}

/// Whether a process with this flag is outside, or has left since the look.
fn has_left(flag: u64, look: u64) -> bool
    ensures { result ≡ has_left flag look }
{
    flag == 0 || (look != 0 && flag != look)
}

impl<E> SuperSeat<E> {
    /// Strikes the word of a changed pair. Condition: an entry is pending that changes the pair.
    pub fn strike(&mut self, shared: &Board<E>, process: u8, segno: u16)
        requires fits { self.old.seat.table_id ≡ shared.now.table_id }
        requires layout { shared.now.key.layout ≡ self.old.layout }
        requires may { MayStrike (office_of (super_of self.old.seat.me.0)) process segno }
        ensures view { super_of self.new.seat.me.0 ≡ struck_view process segno (super_of self.old.seat.me.0) }
        ensures place { self.new.seat.table_id ≡ self.old.seat.table_id }
        ensures layout { self.new.layout ≡ self.old.layout }
    {
        self.strike_for::<Brand>(shared, process, segno);
    }

    fn strike_for<J: Aim>(&mut self, shared: &Board<E>, process: u8, segno: u16)
        requires fits { self.old.seat.table_id ≡ shared.now.table_id }
        requires layout { shared.now.key.layout ≡ self.old.layout }
        requires aim { (J.process ≡ process) × (J.segno ≡ segno) }
        requires may { MayStrike (office_of (super_of self.old.seat.me.0)) process segno }
        ensures view { super_of self.new.seat.me.0 ≡ struck_view process segno (super_of self.old.seat.me.0) }
        ensures place { self.new.seat.table_id ≡ self.old.seat.table_id }
        ensures layout { self.new.layout ≡ self.old.layout }
    {
        let word = self.layout.descriptor(process, segno);
        let code = fault(self.length);
        shared.store::<Strikes<J>>(&mut self.seat, word, code);
    }

    /// Reads the flag of a connected process once, and says whether the process uses the old access no more: it is
    /// outside, or has left since its flag was read before. If not, the flag is kept to be compared later.
    pub fn acknowledge(&mut self, shared: &Board<E>, process: u8) -> bool
        requires fits { self.old.seat.table_id ≡ shared.now.table_id }
        requires layout { shared.now.key.layout ≡ self.old.layout }
        requires may { MayAcknowledge (office_of (super_of self.old.seat.me.0)) process }
        ensures view { (flag : ℕ) × (super_of self.new.seat.me.0 ≡ noticed_view process flag (super_of
            self.old.seat.me.0))
            × (result ≡ has_left flag (numbers_of 0 (super_of self.old.seat.me.0).looks process)) }
        ensures place { self.new.seat.table_id ≡ self.old.seat.table_id }
        ensures layout { self.new.layout ≡ self.old.layout }
    {
        self.acknowledge_for::<Brand>(shared, process)
    }

    fn acknowledge_for<J: Aim>(&mut self, shared: &Board<E>, process: u8) -> bool
        requires fits { self.old.seat.table_id ≡ shared.now.table_id }
        requires layout { shared.now.key.layout ≡ self.old.layout }
        requires aim { J.process ≡ process }
        requires may { MayAcknowledge (office_of (super_of self.old.seat.me.0)) process }
        ensures view { (flag : ℕ) × (super_of self.new.seat.me.0 ≡ noticed_view process flag (super_of
            self.old.seat.me.0))
            × (result ≡ has_left flag (numbers_of 0 (super_of self.old.seat.me.0).looks process)) }
        ensures place { self.new.seat.table_id ≡ self.old.seat.table_id }
        ensures layout { self.new.layout ≡ self.old.layout }
    {
        let word = self.layout.flag(process);
        let place = usize::from(process);
        let look = self.looks[place];
        let flag = shared.load::<Notices<J>>(&mut self.seat, word);
        let left = has_left(flag, look);
        self.looks[place] = if left { look } else { flag };
        left
    }

    /// Answers the pending entry. Condition: every changed word is struck, and its process has acknowledged.
    pub fn answer(&mut self, shared: &Board<E>)
        requires fits { self.old.seat.table_id ≡ shared.now.table_id }
        requires layout { shared.now.key.layout ≡ self.old.layout }
        requires may { MayAnswer (office_of (super_of self.old.seat.me.0)) }
        ensures view { super_of self.new.seat.me.0 ≡ answered_view (super_of self.old.seat.me.0) }
        ensures place { self.new.seat.table_id ≡ self.old.seat.table_id }
        ensures layout { self.new.layout ≡ self.old.layout }
    {
        let word = self.layout.answered();
        shared.store::<Answers>(&mut self.seat, word, u64::from(self.length));
        self.answered = self.length;
        self.looks = [0; 16];
    }

    /// Settles a struck word with the present descriptor. Condition: nothing is pending, the word is a fault by entry
    /// `number`, and `desc` is the pair's present descriptor.
    pub fn settle(&mut self, shared: &Board<E>, process: u8, segno: u16, number: u32, desc: &Desc)
        requires fits { self.old.seat.table_id ≡ shared.now.table_id }
        requires layout { shared.now.key.layout ≡ self.old.layout }
        requires codable { IsCodable (Valid number desc.now) }
        requires present { (office_of (super_of self.old.seat.me.0)).table (super_of self.old.seat.me.0).length
            process segno ≡ desc.now }
        requires may { MaySettle (office_of (super_of self.old.seat.me.0)) process segno number }
        ensures view { super_of self.new.seat.me.0 ≡ settled_view process segno number (super_of self.old.seat.me.0) }
        ensures place { self.new.seat.table_id ≡ self.old.seat.table_id }
        ensures layout { self.new.layout ≡ self.old.layout }
    {
        self.settle_for::<Brand>(shared, process, segno, number, desc);
    }

    fn settle_for<J: Aim>(
        &mut self,
        shared: &Board<E>,
        process: u8,
        segno: u16,
        number: u32,
        desc: &Desc,
    )
        requires fits { self.old.seat.table_id ≡ shared.now.table_id }
        requires layout { shared.now.key.layout ≡ self.old.layout }
        requires aim { (J.process ≡ process) × (J.segno ≡ segno) × (J.number ≡ number) }
        requires codable { IsCodable (Valid number desc.now) }
        requires present { (office_of (super_of self.old.seat.me.0)).table (super_of self.old.seat.me.0).length
            process segno ≡ desc.now }
        requires may { MaySettle (office_of (super_of self.old.seat.me.0)) process segno number }
        ensures view { super_of self.new.seat.me.0 ≡ settled_view process segno number (super_of self.old.seat.me.0) }
        ensures place { self.new.seat.table_id ≡ self.old.seat.table_id }
        ensures layout { self.new.layout ≡ self.old.layout }
    {
        let word = self.layout.descriptor(process, segno);
        let code = standing(number, desc);
        shared.store::<Settles<J>>(&mut self.seat, word, code);
    }

    /// Tells a process by its connect word to empty its memory. Condition: an entry is pending that changes a pair of
    /// it, and each changed pair of it is struck.
    pub fn connect(&mut self, shared: &Board<E>, process: u8)
        requires fits { self.old.seat.table_id ≡ shared.now.table_id }
        requires layout { shared.now.key.layout ≡ self.old.layout }
        requires may { MayConnect (office_of (super_of self.old.seat.me.0)) process }
        ensures view { super_of self.new.seat.me.0 ≡ connecting_view process (super_of self.old.seat.me.0) }
        ensures place { self.new.seat.table_id ≡ self.old.seat.table_id }
        ensures layout { self.new.layout ≡ self.old.layout }
    {
        self.connect_for::<Brand>(shared, process);
    }

    fn connect_for<J: Aim>(&mut self, shared: &Board<E>, process: u8)
        requires fits { self.old.seat.table_id ≡ shared.now.table_id }
        requires layout { shared.now.key.layout ≡ self.old.layout }
        requires aim { J.process ≡ process }
        requires may { MayConnect (office_of (super_of self.old.seat.me.0)) process }
        ensures view { super_of self.new.seat.me.0 ≡ connecting_view process (super_of self.old.seat.me.0) }
        ensures place { self.new.seat.table_id ≡ self.old.seat.table_id }
        ensures layout { self.new.layout ≡ self.old.layout }
    {
        let word = self.layout.connect_word(process);
        shared.store::<Tells<J>>(&mut self.seat, word, u64::from(self.length));
        self.looks[usize::from(process)] = 0;
    }

    /// Makes a cell zero. Condition: the cell is below 65,536, nothing is pending, and no descriptor covers its page.
    pub fn clear(&mut self, shared: &Board<E>, cell: u32)
        requires fits { self.old.seat.table_id ≡ shared.now.table_id }
        requires layout { shared.now.key.layout ≡ self.old.layout }
        requires may { MayClear (office_of (super_of self.old.seat.me.0)) cell }
        ensures view { super_of self.new.seat.me.0 ≡ cleared_view cell (super_of self.old.seat.me.0) }
        ensures place { self.new.seat.table_id ≡ self.old.seat.table_id }
        ensures layout { self.new.layout ≡ self.old.layout }
    {
        self.clear_for::<Brand>(shared, cell);
    }

    fn clear_for<J: Aim>(&mut self, shared: &Board<E>, cell: u32)
        requires fits { self.old.seat.table_id ≡ shared.now.table_id }
        requires layout { shared.now.key.layout ≡ self.old.layout }
        requires aim { J.number ≡ cell }
        requires may { MayClear (office_of (super_of self.old.seat.me.0)) cell }
        ensures view { super_of self.new.seat.me.0 ≡ cleared_view cell (super_of self.old.seat.me.0) }
        ensures place { self.new.seat.table_id ≡ self.old.seat.table_id }
        ensures layout { self.new.layout ≡ self.old.layout }
    {
        let word = self.layout.cell(cell as u16);
        shared.store::<Clears<J>>(&mut self.seat, word, 0);
    }
}
