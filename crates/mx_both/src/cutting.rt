//! Bytes cut behind their first line `end`, the last of a session's text.

ghost use Rattle.std.specs.Prelude.{◌<◌, length};
ghost use Rattle.mx_both.specs.Cutting.{IsCut};

use mx_name::cut;

// Bytes cut behind their first line `end`.
#[derive(Drop)]
pub(crate) struct Cut<'a> {
    // The bytes to the end of that line; all of them where there is none.
    pub(crate) session: &'a [u8],
    // Those that follow.
    pub(crate) run: &'a [u8],
    // How many lines stand before these.
    pub(crate) lines: u32,
}

// Cuts bytes behind their first line `end`. Takes time linear in them, and no memory.
pub(crate) fn cut_behind_end(bytes: &[u8]) -> Cut<'_>
    requires { length bytes.now < 4294967295 }
    ensures { IsCut bytes.now result.session.now result.run.now result.lines }
{
    let mut rest = bytes;
    let mut lines = 0;
    while let Some((line, after)) = cut(b'\n', rest) {
        rest = after;
        lines += 1;
        if line == b"end".as_slice() {
            let (session, run) = bytes.split_at(bytes.len() - rest.len());
            return Cut {
                session,
                run,
                lines,
            };
        }
    }
    Cut {
        session: bytes,
        run: &[],
        lines,
    }
}
