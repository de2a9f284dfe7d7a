//! What an entry of the journal changed, for whom.

use crate::words::{access_word, extent, id_text, standing};
use mx_judging::Part::{Decimal, Octal, Text};
use mx_judging::{Changed, add_parts, add_sentences};
use mx_sdw::{Aim, Desc, DescKind};
use std::alloc::{AllocError, Global};

/// Adds whose access to which segment number changed, from what to what, and the access list entry that decides it now.
pub(crate) fn add_changed(
    alloc: Global,
    out: &mut String,
    changed: &Changed,
) -> Result<(), AllocError> {
    let segno = Octal(u64::from(changed.segno));
    let process = Decimal(u32::from(changed.process));
    let verb = Text(verb(&changed.before, &changed.after));
    add_parts(out, &[Text("process "), process, verb, segno])?;
    add_accesses(out, &changed.before, &changed.after)?;
    add_deciding(alloc, out, changed)?;
    out.push_str("\n")
}

// What became of an access: whether it came, went, grew, shrank, or is another.
fn verb(before: &Desc, after: &Desc) -> &'static str {
    match (before.kind(), after.kind()) {
        (DescKind::Segment, DescKind::Segment) => match (
            lacks(after, before),
            lacks(before, after),
        ) {
            (true, false) => " loses access to ",
            (false, true) => " gains access to ",
            _ => " has other access to ",
        },
        (_, DescKind::Segment) => " gains ",
        _ => " loses ",
    }
}

// Whether an access lacks something that another one gives, in some ring.
fn lacks(one: &Desc, other: &Desc) -> bool {
    (other.r() && !one.r())
        || (other.e() && !one.e())
        || (other.w() && !one.w())
        || is_narrower(one, other)
        || is_further(one.aim(), other.aim())
}

// Whether a bracket leaves out a ring that another access has in it. The bracket of execution begins with R1.
fn is_narrower(one: &Desc, other: &Desc) -> bool {
    let (new, old) = (one.brackets(), other.brackets());
    new.r1().number() < old.r1().number()
        || new.r2().number() < old.r2().number()
        || new.r3().number() < old.r3().number()
        || (one.e() && new.r1().number() > old.r1().number())
}

// Whether the authorization of a process stands worse to one class than to another.
fn is_further(one: Aim, other: Aim) -> bool {
    match (one, other) {
        (Aim::Neither, Aim::Dominates | Aim::Equal) => true,
        (Aim::Dominates, Aim::Equal) => true,
        _ => false,
    }
}

// Adds what the access was, where there was one, and what it is: of the modes, and of how the authorization stands to the class, where
// the brackets are the same.
fn add_accesses(out: &mut String, before: &Desc, after: &Desc) -> Result<(), AllocError> {
    let (was, is) = (Text(access_word(before)), Text(access_word(after)));
    match (before.kind(), after.kind()) {
        (DescKind::Segment, DescKind::Segment) if before.brackets() == after.brackets() => {
            let (aim, next) = (before.aim(), after.aim());
            let (stood, stands) = (Text(standing(aim, next)), Text(standing(next, aim)));
            add_parts(
                out,
                &[Text(": was "), was, stood, Text(", is now "), is, stands],
            )
        }
        (DescKind::Segment, DescKind::Segment) => {
            let (before, after) = (extent(before), extent(after));
            let head = [Text(": was "), was];
            add_sentences(out, &[&head, &before, &[Text(", is now "), is], &after])
        }
        (DescKind::Segment, _) => add_parts(out, &[Text(": was "), was, Text(", is now "), is]),
        _ => add_sentences(out, &[&[Text(": "), is], &extent(after)]),
    }
}

// Adds which entry of the access list decides the modes, though it gives others where the class allows fewer; or that none matches,
// where that is why there are none.
fn add_deciding(alloc: Global, out: &mut String, changed: &Changed) -> Result<(), AllocError> {
    let after = &changed.after;
    match &changed.by {
        Some((id, modes)) => {
            let id = id_text(alloc, id)?;
            out.push_str(if modes.text() == access_word(after) {
                " (by the entry \""
            } else {
                " (though by the entry \""
            })?;
            out.push_str(&id)?;
            out.push_str(" ")?;
            out.push_str(modes.text())?;
            out.push_str("\")")
        }
        None if after.kind() == DescKind::Segment && !after.r() && !after.w() => {
            out.push_str(" (no entry matches)")
        }
        None => Ok(()),
    }
}
