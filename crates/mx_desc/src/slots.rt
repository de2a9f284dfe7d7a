//! What the supervisor keeps of each pair of a process and a segment number: the present descriptor, and by which entry
//! its word is a fault, where it is one.

ghost use Rattle.std.specs.Prelude.{◌≡◌, ◌≤◌, ◌*◌, ℕ, Option, None, Some, IfOk, length, slice_get, slice_set};
ghost use Rattle.mx_core.specs.Append.{with_changes};
ghost use Rattle.mx_core.specs.Put.{put};
ghost use Rattle.mx_desc.specs.Slots.{AreSlotted, IsPair, ShowsSlots, slot_number};
ghost use Rattle.mx_sdw.specs.Admissible.{IsAdmissible};
ghost use Rattle.mx_sdw.specs.Descriptors.{Descriptor, unknown_desc};

use mx_core::Change;
use mx_rule::Layout;
use mx_sdw::Desc;
use std::alloc::{AllocError, Global};

/// What is kept of one pair.
#[derive(Clone, Copy, Debug)]
pub(crate) struct Slot {
    /// The descriptor after all entries.
    pub(crate) desc: Desc,
    /// By which entry its word is a fault.
    pub(crate) fault: Option<u32>,
}

/// Which slot is a pair's.
fn place(layout: &Layout, process: u8, segno: u16) -> usize
    requires { IsPair layout.now process segno }
    ensures { result ≡ slot_number layout.now process segno }
{
    usize::from(layout.numbers) * (usize::from(process) - 1) + usize::from(segno)
}

/// What is kept of a pair.
pub(crate) fn slot_of(slots: &Vec<Slot>, layout: &Layout, process: u8, segno: u16) -> Slot
    requires pair { IsPair layout.now process segno }
    requires count { length slots.now.items ≡ layout.now.numbers * layout.now.processes }
    ensures { slice_get slots.now.items (slot_number layout.now process segno) ≡ Some result }
{
    let place = place(layout, process, segno);
    slots[place]
}

/// Keeps something else of a pair.
pub(crate) fn put_slot(slots: &mut Vec<Slot>, layout: &Layout, process: u8, segno: u16, slot: Slot)
    requires pair { IsPair layout.now process segno }
    requires count { length slots.old.items ≡ layout.now.numbers * layout.now.processes }
    ensures { slots.new.items ≡ slice_set slots.old.items (slot_number layout.now process segno) slot }
{
    let place = place(layout, process, segno);
    slots[place] = slot;
}

/// Gives a pair another descriptor.
fn put_desc(slots: &mut Vec<Slot>, layout: &Layout, change: &Change)
    requires few { layout.now.processes ≤ 15 }
    requires pair { IsPair layout.now change.now.process change.now.segno }
    requires desc { IsAdmissible change.now.desc }
    requires count { length slots.old.items ≡ layout.now.numbers * layout.now.processes }
    ensures shown { (table : ℕ → ℕ → Descriptor) (fault : ℕ → ℕ → Option ℕ)
        → ShowsSlots layout.now table fault slots.old.items
        → ShowsSlots layout.now (put table change.now.process (put (table change.now.process) change.now.segno
        change.now.desc)) fault slots.new.items }
    ensures count { length slots.new.items ≡ length slots.old.items }
{
    let old = slot_of(slots, layout, change.process, change.segno);
    let slot = Slot {
        desc: change.desc,
        fault: old.fault,
    };
    put_slot(slots, layout, change.process, change.segno, slot);
}

/// Gives the pairs that are listed their descriptors, one after another.
pub(crate) fn put_changes(slots: &mut Vec<Slot>, layout: &Layout, changes: &[Change])
    requires few { layout.now.processes ≤ 15 }
    requires each { AreSlotted layout.now changes.now }
    requires count { length slots.old.items ≡ layout.now.numbers * layout.now.processes }
    ensures shown { (table : ℕ → ℕ → Descriptor) (fault : ℕ → ℕ → Option ℕ)
        → ShowsSlots layout.now table fault slots.old.items
        → ShowsSlots layout.now (with_changes changes.now table) fault slots.new.items }
    ensures count { length slots.new.items ≡ length slots.old.items }
{
    match changes {
        [] => {},
        [change, rest @ ..] => {
            put_desc(slots, layout, change);
            put_changes(slots, layout, rest);
        },
    }
}

/// Keeps by which entry the word of a pair is a fault, or that it is none.
pub(crate) fn set_fault(
    slots: &mut Vec<Slot>,
    layout: &Layout,
    process: u8,
    segno: u16,
    fault: Option<u32>,
)
    requires few { layout.now.processes ≤ 15 }
    requires pair { IsPair layout.now process segno }
    requires fits { (number : ℕ) → fault ≡ Some number → number ≤ 262143 }
    requires count { length slots.old.items ≡ layout.now.numbers * layout.now.processes }
    ensures shown { (table : ℕ → ℕ → Descriptor) (faults : ℕ → ℕ → Option ℕ)
        → ShowsSlots layout.now table faults slots.old.items
        → ShowsSlots layout.now table (put faults process (put (faults process) segno fault)) slots.new.items }
    ensures count { length slots.new.items ≡ length slots.old.items }
{
    let old = slot_of(slots, layout, process, segno);
    let slot = Slot {
        desc: old.desc,
        fault,
    };
    put_slot(slots, layout, process, segno, slot);
}

/// What is kept at the opening with these descriptors: no word is a fault.
pub(crate) fn opening_slots(
    alloc: Global,
    layout: &Layout,
    base: &[Change],
) -> Result<Vec<Slot>, AllocError>
    requires few { layout.now.processes ≤ 15 }
    requires each { AreSlotted layout.now base.now }
    ensures { IfOk result (λ slots. ShowsSlots layout.now (with_changes base.now (λ p n. unknown_desc)) (λ p n. None)
        slots.items) }
{
    let mut slots = blank_slots(alloc, layout)?;
    put_changes(&mut slots, layout, base);
    Ok(slots)
}

/// What is kept where no number is known.
fn blank_slots(alloc: Global, layout: &Layout) -> Result<Vec<Slot>, AllocError>
    requires { layout.now.processes ≤ 15 }
    ensures { IfOk result (λ slots. ShowsSlots layout.now (λ p n. unknown_desc) (λ p n. None) slots.items) }
{
    let count = usize::from(layout.numbers) * usize::from(layout.processes);
    let blank = Slot {
        desc: Desc::unknown(),
        fault: None,
    };
    Ok(vec![in alloc; blank; count]?)
}
