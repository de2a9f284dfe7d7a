//! What segment numbers stand for.

use mx_kst::{Kst, KstError, Lot, Section};
use mx_sdw::{Brackets, Ring};
use std::alloc::Global;
use std::test::Fail;

fn ring(n: u8) -> Result<Ring, Fail> {
    Ok(Ring::new(n).ok_or("a ring")?)
}

fn brackets() -> Result<Brackets, Fail> {
    let ring = ring(4)?;
    Ok(Brackets::new(ring, ring, ring).ok_or("brackets")?)
}

// A table that knows the object of uid 7 as 10, with its linkage section.
fn with_object(alloc: Global) -> Result<Kst, Fail> {
    let section = Section::new(40, brackets()?, 2).ok_or("a section")?;
    let mut kst = Kst::new(alloc, 127)?;
    kst.initiate(7, ring(4)?, None, Some(section))?;
    Ok(kst)
}

fn terminated(mut kst: Kst) -> Result<Kst, Fail> {
    kst.terminate(0o10)?;
    Ok(kst)
}

// What the object, its linkage section and a stack are, and the first two once the object is terminated.
fn lots(alloc: Global) -> Result<[Lot; 5], Fail> {
    let kst = with_object(alloc)?;
    let [object, section, stack] = [kst.lot(0o10), kst.lot(0o11), kst.lot(4)];
    let kst = terminated(kst)?;
    Ok([object, section, stack, kst.lot(0o10), kst.lot(0o11)])
}

#[test]
fn a_linkage_section_goes_with_its_object(rt: HostRuntime) -> Result<(), Fail> {
    let linkage = Lot::Linkage {
        of: 0o10,
        page: 40,
        brackets: brackets()?,
        words: 2,
    };
    assert_eq!(rt;
        lots(rt.alloc())?,
        [
            Lot::Branch { uid: 7 },
            linkage,
            Lot::Stack(ring(4)?),
            Lot::Free,
            Lot::Free
        ]
    );
    Ok(())
}

// How many numbers are left, of how many with an object, and what the object's is before it is terminated and after.
fn numbers(alloc: Global) -> Result<[Option<u16>; 4], Fail> {
    let fresh = Kst::new(alloc, 127)?.left();
    let kst = with_object(alloc)?;
    let [left, own] = [Some(kst.left() as u16), kst.by_uid(7)];
    let kst = terminated(kst)?;
    Ok([Some(fresh as u16), left, own, kst.by_uid(7)])
}

#[test]
fn a_segment_has_its_number_until_it_is_terminated(rt: HostRuntime) -> Result<(), Fail> {
    assert_eq!(rt;
        numbers(rt.alloc())?,
        [Some(120), Some(118), Some(0o10), None]
    );
    Ok(())
}

// How many new segments get a number, the last of the numbers, and why the next segment gets none.
fn given(mut kst: Kst) -> Result<(u32, Option<u16>, Option<KstError>), Fail> {
    let ring = ring(4)?;
    let mut last = None;
    for uid in 0..256 {
        match kst.initiate(uid, ring, None, None) {
            Ok(known) => last = Some(known.segno),
            Err(error) => return Ok((uid, last, Some(error))),
        }
    }
    Ok((256, last, None))
}

#[test]
fn the_last_number_is_given_and_none_after_it(rt: HostRuntime) -> Result<(), Fail> {
    let alloc = rt.alloc();
    assert_eq!(rt;
        [given(Kst::new(alloc, 127)?)?, given(Kst::new(alloc, 255)?)?],
        [
            (120, Some(0o177), Some(KstError::Full)),
            (248, Some(0o377), Some(KstError::Full))
        ]
    );
    Ok(())
}
