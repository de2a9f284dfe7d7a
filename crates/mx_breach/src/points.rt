//! Why a reference has a point that it could not, and which it could.

use crate::bounds::{Bounds, bounds_at};
use crate::lines::BadLine;
use crate::probes::row;
use mx_judging::Part::{Decimal, Text};
use mx_judging::add_parts;
use mx_stores::Deed;
use mx_transcript::setup_entries;
use std::alloc::AllocError;

/// What the deed at this of a line's events is compared with.
pub(crate) fn bounds_of(bad: &BadLine<'_>, event: usize) -> Bounds {
    let setup = setup_entries(bad.run.session);
    let deeds = own_deeds(bad);
    let place = bad.start.saturating_add(event).min(deeds.len());
    bounds_at(setup, deeds, place)
}

/// The deeds of the process whose line it is.
pub(crate) fn own_deeds<'a>(bad: &BadLine<'a>) -> &'a [Deed] {
    row(&bad.access.deeds, bad.p)
}

/// The least point that could stand at this of a line's events.
pub(crate) fn floor_at(bad: &BadLine<'_>, event: usize) -> u32 {
    bounds_of(bad, event).floor
}

/// Adds the least and the greatest point that could stand at this of a line's events.
pub(crate) fn add_point(
    out: &mut String,
    bad: &BadLine<'_>,
    event: usize,
) -> Result<(), AllocError> {
    let bounds = bounds_of(bad, event);
    let entries = u32::try_from(bad.run.journal.items().len()).unwrap_or(u32::MAX);
    add_parts(
        out,
        &[
            Text("  the point rule: the process had seen entry "),
            Decimal(bounds.floor),
            Text(", the journal has "),
            Decimal(entries),
        ],
    )?;
    let greatest = match bounds.next {
        None => entries,
        Some(next) => {
            add_parts(out, &[Text(", and its own next entry is "), Decimal(next)])?;
            entries.min(next.saturating_sub(1))
        }
    };
    out.push_str("\n  could stand there: ")?;
    if greatest < bounds.floor {
        out.push_str("no point\n")
    } else if greatest == bounds.floor {
        add_parts(out, &[Text("point "), Decimal(greatest), Text("\n")])
    } else {
        add_parts(
            out,
            &[
                Text("points "),
                Decimal(bounds.floor),
                Text(" to "),
                Decimal(greatest),
                Text("\n"),
            ],
        )
    }
}
