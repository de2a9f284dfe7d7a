//! Why parts make no object map, and what a copy of a map is.

use mx_name::EntryName;
use mx_object::{Definitions, Links, ObjectError, ObjectMap};
use std::alloc::Global;
use std::test::Fail;

fn define(definitions: &mut Definitions, n: u8) -> Result<(), Fail> {
    let symbol = EntryName::read(&[b's', b'0' + n / 10 % 10, b'0' + n % 10])?;
    definitions.push((symbol, u16::from(n)))?;
    Ok(())
}

// The symbols of these numbers, `s00`, `s01`, .., with the numbers as words; and the last of 66 again.
fn definitions(alloc: Global, numbers: [u8; 2], again: bool) -> Result<Definitions, Fail> {
    let mut definitions = Definitions::new(alloc);
    let [first, end] = numbers;
    for n in first..end {
        define(&mut definitions, n)?;
    }
    if again {
        define(&mut definitions, 65)?;
    }
    Ok(definitions)
}

fn links(alloc: Global, count: u8) -> Result<Links, Fail> {
    let mut links = Links::new(alloc);
    for _ in 0..count {
        links.push((EntryName::read(b"math")?, EntryName::read(b"sqrt")?))?;
    }
    Ok(links)
}

fn refusal(
    alloc: Global,
    numbers: [u8; 2],
    again: bool,
    count: u8,
) -> Result<Option<ObjectError>, Fail> {
    let definitions = definitions(alloc, numbers, again)?;
    let links = links(alloc, count)?;
    Ok(ObjectMap::new(alloc, 0, definitions, links).err())
}

// A map may have 64 definitions and 64 links. That a symbol is defined twice is told first.
const PARTS: [([u8; 2], bool, u8, Option<ObjectError>); 6] = [
    ([0, 64], false, 64, None),
    ([0, 65], false, 0, Some(ObjectError::TooMany)),
    ([0, 0], false, 65, Some(ObjectError::TooMany)),
    ([0, 66], false, 65, Some(ObjectError::TooMany)),
    ([0, 66], true, 0, Some(ObjectError::Twice)),
    ([65, 66], true, 65, Some(ObjectError::Twice)),
];

#[test]
fn parts_make_a_map_or_are_refused(rt: HostRuntime) -> Result<(), Fail> {
    let alloc = rt.alloc();
    for (numbers, again, count, want) in PARTS {
        assert_eq!(rt; refusal(alloc, numbers, again, count)?, want);
    }
    Ok(())
}

// Whether a copy of a library is equal to it, and whether a program is.
fn equalities(alloc: Global) -> Result<[bool; 2], Fail> {
    let library = ObjectMap::new(
        alloc,
        1,
        definitions(alloc, [5, 6], false)?,
        Links::new(alloc),
    )?;
    let program = ObjectMap::new(alloc, 1, Definitions::new(alloc), links(alloc, 1)?)?;
    Ok([library.copy()? == library, library == program])
}

#[test]
fn a_copy_is_equal(rt: HostRuntime) -> Result<(), Fail> {
    assert_eq!(rt; equalities(rt.alloc())?, [true, false]);
    Ok(())
}
