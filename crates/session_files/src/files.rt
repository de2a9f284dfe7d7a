//! The files of a session.

use std::alloc::{Alloc, Global};
use std::rt::Files;
use std::{fs, io};

/// The bytes of the file `NAME.KIND` of the folder that the program is started in, or none where there is no such file.
pub fn read<R: Files + Alloc<A = Global>>(
    rt: &R,
    name: &str,
    kind: &str,
) -> io::Result<Option<Vec<u8>>> {
    let path = format!(in rt.alloc(); "{name}.{kind}")?;
    match fs::read(rt, path) {
        Ok(bytes) => Ok(Some(bytes)),
        Err(error) if error.kind() == io::ErrorKind::NotFound => Ok(None),
        Err(error) => Err(error),
    }
}

/// Writes these bytes as the file `NAME.KIND`.
pub fn write<R: Files + Alloc<A = Global>>(
    rt: &R,
    name: &str,
    kind: &str,
    bytes: &[u8],
) -> io::Result<()> {
    let path = format!(in rt.alloc(); "{name}.{kind}")?;
    fs::write(rt, path, bytes)
}
