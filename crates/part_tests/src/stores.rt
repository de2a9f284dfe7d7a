//! Worked runs of one cell, and a long run.

use mx_list::Sequence;
use mx_stores::{Breach, CellUse, Deed, Form, are_reads_right, first_breach};
use std::alloc::{AllocError, Global};
use std::test::Fail;

const CELL: CellUse = CellUse { cell: 5, since: 0 };

fn enters(number: u32) -> Form {
    Form::Enters { number }
}

fn stores(value: u64, point: u32) -> Form {
    Form::Stores {
        cell: CELL,
        value,
        point,
    }
}

fn loads(value: u64, writer: u8, stamp: u32, point: u32) -> Form {
    Form::Loads {
        cell: CELL,
        value,
        writer,
        stamp,
        point,
    }
}

// Process 0 does nothing, and process 1, 2, .. what the parts say.
fn breach(alloc: Global, parts: &[&[Form]]) -> Result<Option<(usize, usize)>, AllocError> {
    let mut all = Vec::new(alloc);
    all.push(Sequence::new(alloc))?;
    for forms in parts {
        let mut deeds = Sequence::new(alloc);
        for form in *forms {
            deeds.push(Deed::new(*form))?;
        }
        all.push(deeds)?;
    }
    Ok(first_breach(alloc, all.as_slice())?.map(|b| (b.process, b.place)))
}

#[test]
fn reads_of_one_cell_are_held_to_the_rule(rt: HostRuntime) -> Result<(), Fail> {
    let heap = rt.alloc();
    // Nobody's word, until a store is known: by an entry of its process after it.
    let one = [stores(42, 3), enters(4)];
    assert_eq!(rt; breach(heap, &[&one, &[loads(0, 0, 0, 3)]])?, None);
    assert_eq!(rt; breach(heap, &[&one, &[loads(0, 0, 0, 4)]])?, Some((2, 0)));
    // A store may be read before it is known, and no value but its own.
    assert_eq!(rt; breach(heap, &[&one, &[loads(42, 1, 3, 3)]])?, None);
    assert_eq!(rt; breach(heap, &[&one, &[loads(41, 1, 3, 3)]])?, Some((2, 0)));
    // A read may be stale until the next store is known, and never again after the next was read.
    let two = [stores(42, 3), enters(4), stores(43, 4), enters(5)];
    assert_eq!(rt;
        breach(heap, &[&two, &[loads(42, 1, 3, 4), loads(43, 1, 4, 4)]])?,
        None
    );
    assert_eq!(rt; breach(heap, &[&two, &[loads(42, 1, 3, 5)]])?, Some((2, 0)));
    assert_eq!(rt;
        breach(heap, &[&two, &[loads(43, 1, 4, 4), loads(42, 1, 3, 4)]])?,
        Some((2, 1))
    );
    // A process reads its own last store.
    assert_eq!(rt;
        breach(heap, &[&[stores(42, 3), loads(42, 1, 3, 3)]])?,
        None
    );
    assert_eq!(rt;
        breach(heap, &[&[stores(42, 3), stores(43, 3), loads(42, 1, 3, 3)]])?,
        Some((1, 2))
    );
    // A store of a later part supersedes one that it knew.
    let later = [stores(7, 4), enters(5)];
    assert_eq!(rt; breach(heap, &[&one, &[loads(42, 1, 3, 4)], &later])?, None);
    assert_eq!(rt;
        breach(heap, &[&one, &[loads(42, 1, 3, 5)], &later])?,
        Some((2, 0))
    );
    // Of equal stores a read stands for the first that will do.
    let equal = [stores(42, 3), stores(43, 3), stores(42, 3)];
    assert_eq!(rt;
        breach(heap, &[&equal, &[loads(42, 1, 3, 3), loads(43, 1, 3, 3)]])?,
        None
    );
    // The first process with a wrong read is told.
    assert_eq!(rt;
        breach(
            heap,
            &[&[enters(4), loads(1, 0, 0, 4)], &[loads(1, 0, 0, 4)]]
        )?,
        Some((1, 1))
    );
    // A cell in another use is another cell.
    let other = Form::Loads {
        cell: CellUse { cell: 5, since: 9 },
        value: 0,
        writer: 0,
        stamp: 0,
        point: 9,
    };
    assert_eq!(rt; breach(heap, &[&one, &[other]])?, None);
    Ok(())
}

fn cell_of(k: u32) -> CellUse {
    CellUse {
        cell: k % 64,
        since: 0,
    }
}

// 25,000 stores in 64 cells, with an entry after every tenth.
fn storing(alloc: Global) -> Result<Sequence<Deed>, AllocError> {
    let mut deeds = Sequence::new(alloc);
    for k in 0..25_000 {
        deeds.push(Deed::new(Form::Stores {
            cell: cell_of(k),
            value: u64::from(k),
            point: k / 10 + 1,
        }))?;
        if k % 10 == 9 {
            deeds.push(Deed::new(enters(k / 10 + 2)))?;
        }
    }
    Ok(deeds)
}

// Reads of the stores of process 1, each once.
fn loading(alloc: Global) -> Result<Sequence<Deed>, AllocError> {
    let mut deeds = Sequence::new(alloc);
    for k in 0..25_000 {
        deeds.push(Deed::new(Form::Loads {
            cell: cell_of(k),
            value: u64::from(k),
            writer: 1,
            stamp: k / 10 + 1,
            point: k / 10 + 1,
        }))?;
    }
    Ok(deeds)
}

#[test]
fn a_run_of_a_hundred_thousand_deeds_is_decided(rt: HostRuntime) -> Result<(), Fail> {
    let heap = rt.alloc();
    let mut parts = Vec::new(heap);
    parts.push(Sequence::new(heap))?;
    parts.push(storing(heap)?)?;
    parts.push(loading(heap)?)?;
    parts.push(loading(heap)?)?;
    let mut last = loading(heap)?;
    last.push(Deed::new(loads(0, 0, 0, 2_501)))?;
    parts.push(last)?;
    let found = first_breach(heap, parts.as_slice())?;
    assert_eq!(rt;
        found,
        Some(Breach {
            process: 4,
            place: 25_000,
        })
    );
    assert!(rt; !are_reads_right(heap, parts.as_slice())?);
    Ok(())
}
