//! What the lines of a session came to in all orders, told.

ghost use Rattle.std.specs.Prelude.{◌≡◌, ◌++◌, [], ◌∷◌, map, IfOk, OnOk};
ghost use Rattle.mx_outcomes.specs.Exploring.{plain};
ghost use Rattle.mx_outcomes.specs.OutcomesTexts.{TellsAll, TellsTwo, TellsGroups, name_text, head_text, rows_at, lines_text, orders_text, two_text, or_more, count_text, too_many_text, no_line_text, singles, two_groups};

use crate::decimals::add_decimal;
use crate::exploring::{Explored, explore};
use crate::lines::{ScriptLine, find_line, script_lines};
use crate::rows::{add_pairs, add_rows};
use crate::tallies::{Places, Row, Tally};
use mx_list::Sequence;
use mx_script::Session;
use std::alloc::{AllocError, Global};
use std::sync::Wait;

/// Tells of each line of the scripts what it came to in all orders: its different outcomes, in how many orders each came, and in which
/// first; or that there are too many orders. Makes a run for each order, one after another.
pub fn outcomes_text<R: Wait>(
    rt: &R,
    alloc: Global,
    session: &Session,
) -> Result<Vec<u8>, AllocError>
    ensures { IfOk result (λ text. TellsAll session.now text.items) }
{
    let lines = script_lines(alloc, session)?;
    let groups = singles(alloc, &lines)?;
    let found = explore(rt, alloc, session, groups)?;
    let mut out = Vec::new(alloc);
    match found {
        Explored::TooMany(orders) => add_too_many(&mut out, orders)?,
        Explored::Tallied(orders, tallies) => {
            add_orders(&mut out, orders)?;
            add_lines(&mut out, &lines, &tallies)?;
        }
    }
    Ok(out)
}

/// Tells of two lines, each by its process and its number in the session's text, which of their outcomes come together in some order, and
/// which in none; or that there is no such line, or that there are too many orders. Makes a run for each order, one after another.
pub fn pair_text<R: Wait>(
    rt: &R,
    alloc: Global,
    session: &Session,
    one: (u8, u32),
    other: (u8, u32),
) -> Result<Vec<u8>, AllocError>
    ensures { IfOk result (λ text. TellsTwo session.now one other text.items) }
{
    let lines = script_lines(alloc, session)?;
    let Some(first) = find_line(&lines, one.0, one.1) else {
        return no_line_text(alloc, one.0, one.1);
    };
    let Some(second) = find_line(&lines, other.0, other.1) else {
        return no_line_text(alloc, other.0, other.1);
    };
    two_text(rt, alloc, session, (first.0, second.0), &first.1, &second.1)
}

// Tells of two lines at their places.
fn two_text<R: Wait>(
    rt: &R,
    alloc: Global,
    session: &Session,
    places: (usize, usize),
    one: &ScriptLine<'_>,
    other: &ScriptLine<'_>,
) -> Result<Vec<u8>, AllocError>
    ensures { IfOk result (λ text. TellsGroups session.now (two_groups places.0 places.1) (two_text (plain one.now) (plain other.now)) text.items) }
{
    let groups = two_groups(alloc, places.0, places.1)?;
    let found = explore(rt, alloc, session, groups)?;
    let mut out = Vec::new(alloc);
    match found {
        Explored::TooMany(orders) => add_too_many(&mut out, orders)?,
        Explored::Tallied(orders, tallies) => {
            add_orders(&mut out, orders)?;
            add_two(&mut out, one, other, &tallies)?;
        }
    }
    Ok(out)
}

// The groups of one line each.
fn singles(alloc: Global, lines: &[ScriptLine<'_>]) -> Result<Vec<Places>, AllocError>
    ensures { IfOk result (λ groups. groups.items ≡ singles 0 (map plain lines.now)) }
{
    let mut groups = Vec::new(alloc);
    for (place, _) in lines.iter().enumerate() {
        let places = single(alloc, place)?;
        groups.push(places)?;
    }
    Ok(groups)
}

fn single(alloc: Global, place: usize) -> Result<Places, AllocError>
    ensures { IfOk result (λ places. places ≡ place ∷ []) }
{
    Ok(Sequence::of(Vec::from_slice(alloc, &[place])?))
}

// The groups of one line, of another, and of both.
fn two_groups(alloc: Global, one: usize, other: usize) -> Result<Vec<Places>, AllocError>
    ensures { IfOk result (λ groups. groups.items ≡ two_groups one other) }
{
    let first = single(alloc, one)?;
    let second = single(alloc, other)?;
    let both = Sequence::of(Vec::from_slice(alloc, &[one, other])?);
    let mut groups = Vec::new(alloc);
    groups.push(first)?;
    groups.push(second)?;
    groups.push(both)?;
    Ok(groups)
}

fn add_orders(out: &mut Vec<u8>, orders: u64) -> Result<(), AllocError>
    ensures { OnOk result (out.new.items ≡ out.old.items ++ orders_text orders) }
{
    out.extend_from_slice(b"orders: ")?;
    add_decimal(out, orders)?;
    out.extend_from_slice(b"\n")
}

fn add_too_many(out: &mut Vec<u8>, orders: u64) -> Result<(), AllocError>
    ensures { OnOk result (out.new.items ≡ out.old.items ++ too_many_text orders) }
{
    out.extend_from_slice(b"too many orders: ")?;
    add_count(out, orders)?;
    out.extend_from_slice(b"; at most 20000 are made\n")?;
    Ok(())
}

// How many there are, as far as a number of 64 bits counts.
#[tactic(auto, unfolding(crate::specs::OutcomesTexts::count_text))]
fn add_count(out: &mut Vec<u8>, orders: u64) -> Result<(), AllocError>
    ensures { OnOk result (out.new.items ≡ out.old.items ++ count_text orders) }
{
    add_decimal(out, orders)?;
    out.extend_from_slice(or_more(orders))?;
    Ok(())
}

// Where a number of 64 bits ends, that there may be more.
#[tactic(auto, unfolding(crate::specs::OutcomesTexts::or_more))]
fn or_more(orders: u64) -> &'static [u8]
    ensures { result.now ≡ or_more orders }
{
    if orders == u64::MAX { b" or more" } else { b"" }
}

fn no_line_text(alloc: Global, process: u8, number: u32) -> Result<Vec<u8>, AllocError>
    ensures { IfOk result (λ text. text.items ≡ no_line_text process number) }
{
    let mut out = Vec::new(alloc);
    out.extend_from_slice(b"no line of a script: ")?;
    add_name(&mut out, process, number)?;
    out.extend_from_slice(b"\n")?;
    Ok(out)
}

// Adds each line, and what it came to.
fn add_lines(
    out: &mut Vec<u8>,
    lines: &[ScriptLine<'_>],
    tallies: &[Tally],
) -> Result<(), AllocError>
    ensures { OnOk result (out.new.items ≡ out.old.items ++ lines_text tallies.now 0 (map plain lines.now)) }
{
    for (place, line) in lines.iter().enumerate() {
        add_head(out, line)?;
        add_rows(out, rows_at(tallies, place))?;
    }
    Ok(())
}

// Adds two lines, and which of their outcomes come together.
fn add_two(
    out: &mut Vec<u8>,
    one: &ScriptLine<'_>,
    other: &ScriptLine<'_>,
    tallies: &[Tally],
) -> Result<(), AllocError>
    ensures { OnOk result (out.new.items ≡ out.old.items ++ two_text (plain one.now) (plain other.now) tallies.now) }
{
    add_head(out, one)?;
    add_head(out, other)?;
    add_pairs(
        out,
        rows_at(tallies, 0),
        rows_at(tallies, 1),
        rows_at(tallies, 2),
    )
}

// The rows of the group at a place.
fn rows_at(tallies: &[Tally], place: usize) -> &[Row]
    ensures { result.now ≡ rows_at tallies.now place }
{
    match tallies.get(place) {
        Some(tally) => tally.rows(),
        None => &[],
    }
}

fn add_head(out: &mut Vec<u8>, line: &ScriptLine<'_>) -> Result<(), AllocError>
    ensures { OnOk result (out.new.items ≡ out.old.items ++ head_text (plain line.now)) }
{
    add_name(out, line.process, line.number)?;
    out.extend_from_slice(b": ")?;
    line.line.append_to(out)?;
    out.extend_from_slice(b"\n")
}

// `P.L`
fn add_name(out: &mut Vec<u8>, process: u8, number: u32) -> Result<(), AllocError>
    ensures { OnOk result (out.new.items ≡ out.old.items ++ name_text process number) }
{
    add_decimal(out, u64::from(process))?;
    out.extend_from_slice(b".")?;
    add_decimal(out, u64::from(number))
}
