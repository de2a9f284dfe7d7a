//! Pathnames, the faults of texts, and identifiers.

use mx_name::{AclId, EntryName, NameError, Path, PathError, Pathname, Principal};
use std::alloc::Global;
use std::test::Fail;

fn resolved(alloc: Global, base: &Path, text: &[u8]) -> Result<Result<Path, PathError>, Fail> {
    let name = Pathname::read(alloc, text)?;
    Ok(Path::resolve(alloc, base, &name))
}

// Whether a pathname stands for the path of this spelling, from `>udd>Faculty`.
fn stands_for(alloc: Global, text: &[u8], path: &[u8]) -> Result<Result<bool, PathError>, Fail> {
    let base = resolved(alloc, &Path::root(alloc), b">udd>Faculty")??;
    match resolved(alloc, &base, text)? {
        Ok(found) => {
            let mut out = Vec::new(alloc);
            found.append_to(&mut out)?;
            Ok(Ok(out.as_slice() == path))
        },
        Err(error) => Ok(Err(error)),
    }
}

#[test]
fn pathnames_stand_for_paths(rt: HostRuntime) -> Result<(), Fail> {
    let alloc = rt.alloc();
    let came = [
        stands_for(alloc, b"<Ops>x", b">udd>Ops>x")?,
        stands_for(alloc, b"<<", b">")?,
        stands_for(alloc, b"x", b">udd>Faculty>x")?,
        stands_for(alloc, b"<<<", b"")?,
    ];
    assert_eq!(rt;
        came,
        [Ok(true), Ok(true), Ok(true), Err(PathError::AboveRoot)]
    );
    Ok(())
}

#[test]
fn texts_have_their_first_fault(rt: HostRuntime) {
    let (alloc, long) = (rt.alloc(), [b'a'; 33]);
    let came = [
        Pathname::read(alloc, b"").err(),
        Pathname::read(alloc, b">>a").err(),
        Pathname::read(alloc, b"a>").err(),
        Pathname::read(alloc, &long).err(),
        Pathname::read(alloc, b"a*b").err(),
        EntryName::read(&long[..32]).err(),
        AclId::read(b"Jones.Faculty").err(),
    ];
    let (empty, long) = (Some(NameError::Empty), Some(NameError::TooLong));
    let bad = Some(NameError::BadChar);
    assert_eq!(rt; came, [empty, empty, empty, long, bad, None, bad]);
}

// The rank of an identifier, and whether it matches each of three principals.
fn matched(text: &[u8]) -> Result<(u8, [bool; 3]), NameError> {
    let id = AclId::read(text)?;
    let matches = [
        id.matches(&Principal::read(b"Jones.Faculty.a")?),
        id.matches(&Principal::read(b"Smith.Faculty.a")?),
        id.matches(&Principal::read(b"Smith.Ops.a")?),
    ];
    Ok((id.rank(), matches))
}

#[test]
fn identifiers_match_by_rank(rt: HostRuntime) -> Result<(), Fail> {
    let came = [matched(b"*.Faculty.*")?, matched(b"Jones.*.*")?];
    assert_eq!(rt; came, [(5, [true, true, false]), (3, [true, false, false])]);
    Ok(())
}
