//! Which entry of an access list decides, and what a copy of a list has.

use mx_acl::{Acl, AclKind, Modes, NoEntry};
use mx_name::{AclId, Principal};
use std::alloc::Global;
use std::test::Fail;

fn faculty(alloc: Global) -> Result<Acl, Fail> {
    let mut acl = Acl::new(alloc, AclKind::Segment);
    acl.set(AclId::read(b"*.Faculty.*")?, Modes::R)?;
    acl.set(AclId::read(b"Jones.*.*")?, Modes::Null)?;
    Ok(acl)
}

// Whether this entry decides for a principal, or none where none is given.
fn decides(acl: &Acl, who: &[u8], entry: Option<(AclId, Modes)>) -> Result<bool, Fail> {
    let told = acl.deciding(&Principal::read(who)?);
    Ok(match entry {
        None => told.is_none(),
        Some((id, modes)) => told.is_some_and(|(other, own)| *other == id && own == modes),
    })
}

fn deciding_entries(alloc: Global) -> Result<[bool; 3], Fail> {
    let acl = faculty(alloc)?;
    let jones = (AclId::read(b"Jones.*.*")?, Modes::Null);
    let faculty = (AclId::read(b"*.Faculty.*")?, Modes::R);
    Ok([
        decides(&acl, b"Jones.Faculty.a", Some(jones))?,
        decides(&acl, b"Smith.Faculty.a", Some(faculty))?,
        decides(&acl, b"Smith.Ops.a", None)?,
    ])
}

#[test]
fn the_entry_that_decides_is_told(rt: HostRuntime) -> Result<(), Fail> {
    assert_eq!(rt; deciding_entries(rt.alloc())?, [true, true, true]);
    Ok(())
}

// An entry is removed from a copy, twice.
fn removed_twice(alloc: Global) -> Result<[Option<NoEntry>; 2], Fail> {
    let mut copy = faculty(alloc)?.copy()?;
    let id = AclId::read(b"Jones.*.*")?;
    Ok([copy.remove(&id).err(), copy.remove(&id).err()])
}

#[test]
fn a_copy_has_the_same_entries(rt: HostRuntime) -> Result<(), Fail> {
    assert_eq!(rt; removed_twice(rt.alloc())?, [None, Some(NoEntry)]);
    Ok(())
}
