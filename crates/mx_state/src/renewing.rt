//! Descriptors held before a request and renewed after it.

ghost use Rattle.std.specs.Prelude.{◌≡◌, ◌≤◌, ◌<◌, length, take, IfOk};
ghost use Rattle.std.specs.List.{All};
ghost use Rattle.mx_sdw.specs.Admissible.{IsAdmissible};
ghost use Rattle.mx_state.specs.Renewing.{held_from, held_two, renewed};

use crate::states::ProcessState;
use crate::tables::descriptor;
use mx_core::{Change, Changes};
use mx_hier::Hier;
use std::alloc::{AllocError, Global};

/// The descriptor of a segment in each process that knows it, in order of process. It takes no memory where none does.
pub(crate) fn held(
    alloc: Global,
    hier: &Hier,
    processes: &[ProcessState],
    uid: u32,
) -> Result<Vec<Change>, AllocError>
    requires { length processes.now ≤ 15 }
    ensures { IfOk result (λ held. held.items
        ≡ held_from hier.now processes.now 1 processes.now uid) }
{
    let mut held = Vec::new(alloc);
    let mut p: u8 = 1;
    for process in processes {
        if let Some(segno) = process.known.by_uid(uid) {
            held.push(Change {
                process: p,
                segno,
                desc: descriptor(hier, processes, p, segno),
            })?;
        }
        p += 1;
    }
    Ok(held)
}

/// The descriptors of a number of a process and of the next, which may be its linkage section's.
pub(crate) fn held_two(
    alloc: Global,
    hier: &Hier,
    processes: &[ProcessState],
    p: u8,
    segno: u16,
) -> Result<Vec<Change>, AllocError>
    requires few { length processes.now ≤ 15 }
    requires low { segno < 65535 }
    ensures { IfOk result (λ held. held.items
        ≡ held_two hier.now processes.now p segno) }
{
    let own = Change {
        process: p,
        segno,
        desc: descriptor(hier, processes, p, segno),
    };
    let next = Change {
        process: p,
        segno: segno + 1,
        desc: descriptor(hier, processes, p, segno + 1),
    };
    let held = vec![in alloc; own, next]?;
    Ok(held)
}

/// Those of the held descriptors that are others now, as they are now. Takes no memory: they stand in place of those held.
pub(crate) fn renewed(hier: &Hier, processes: &[ProcessState], mut held: Vec<Change>) -> Changes
    requires { length processes.now ≤ 15 }
    ensures value { result ≡ renewed hier.now processes.now held.items }
    ensures admissible { All (λ change. IsAdmissible change.desc) result }
{
    let count = renew(hier, processes, held.as_mut_slice());
    held.truncate(count);
    Changes::of(held)
}

// Puts those of the held descriptors that are others now in front, as they are now: how many they are.
fn renew(hier: &Hier, processes: &[ProcessState], held: &mut [Change]) -> usize
    requires { length processes.now ≤ 15 }
    ensures value { take result held.new ≡ renewed hier.now processes.now held.old }
    ensures admissible { All (λ change. IsAdmissible change.desc) (take result held.new) }
{
    let mut count = 0;
    for i in 0..held.len() {
        let before = held[i];
        let desc = descriptor(hier, processes, before.process, before.segno);
        let same = before.desc.is_same(&desc);
        if !same {
            held[count] = Change {
                process: before.process,
                segno: before.segno,
                desc,
            };
            count += 1;
        }
    }
    count
}
