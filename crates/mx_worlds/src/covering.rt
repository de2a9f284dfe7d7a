//! Pages: which ones a descriptor covers, which ones runs give out, and which descriptors a table may hold.

ghost use Rattle.std.specs.Prelude.{◌≡◌, ◌↔◌, IsTrue};
ghost use Rattle.mx_core.specs.Pages.{covers, covered_anew, gives};
ghost use Rattle.mx_sdw.specs.Admissible.{IsAdmissible, IsSegment, keeps_class};

use mx_core::{Change, Run};
use mx_sdw::{Aim, Desc, DescKind, Ring};

/// Whether a descriptor covers a page.
pub(crate) fn covers(desc: &Desc, page: u32) -> bool
    ensures { result ≡ covers desc.now page }
{
    let first = u32::from(desc.page());
    first <= page && 64 * u64::from(page) < u64::from(64 * first + u32::from(desc.bound()))
}

/// Whether one of the runs has a page.
pub(crate) fn gives(given: &[Run], page: u32) -> bool
    ensures { result ≡ gives given.now page }
{
    match given {
        [] => false,
        [run, rest @ ..] => {
            let first = u32::from(run.page);
            (first <= page && page - first < u32::from(run.pages)) || gives(rest, page)
        },
    }
}

/// Whether one of the descriptors put in covers a page.
pub(crate) fn covered_anew(changes: &[Change], page: u32) -> bool
    ensures { result ≡ covered_anew changes.now page }
{
    match changes {
        [] => false,
        [change, rest @ ..] => covers(&change.desc, page) || covered_anew(rest, page),
    }
}

/// Whether a table may hold a descriptor.
pub(crate) fn admits(desc: &Desc) -> bool
    ensures { IsTrue result ↔ IsAdmissible desc.now }
{
    match desc.kind() {
        DescKind::Unknown => desc.is_same(&Desc::unknown()),
        DescKind::Gone => desc.is_same(&Desc::gone()),
        DescKind::Segment => is_segment(desc),
    }
}

/// Whether its numbers are those of a segment whose words lie in the memory.
fn is_segment(desc: &Desc) -> bool
    ensures { IsTrue result ↔ IsSegment desc.now }
{
    let _third: Ring = desc.brackets().r3();
    if desc.gate() > 1024 || desc.page() > 1023 || desc.bound() == 0 || desc.bound() > 1024 {
        return false;
    }
    keeps_class(desc) && 64 * u32::from(desc.page()) + u32::from(desc.bound()) <= 65_536
}

/// Whether its flags are such as its class lets stand.
fn keeps_class(desc: &Desc) -> bool
    ensures { result ≡ keeps_class desc.now }
{
    match desc.aim() {
        Aim::Equal => true,
        Aim::Dominates => !desc.w(),
        Aim::Neither => !desc.w() && !desc.r() && !desc.e(),
    }
}
