//! What a line of a session text says by itself.

ghost use Rattle.std.specs.Prelude.{◌≡◌, ◌==◌, IfOk, IfSome, Some, None, codes, if◌then◌else◌};
ghost use Rattle.std.specs.Cmp.Lexicographic.{pointwise};
ghost use Rattle.mx_script.specs.Fronts.{after, read_or};
ghost use Rattle.mx_script.specs.Reading.{IsRow, set_at, epp_at, lda_at, sta_at, spri_at, call_at, return_at, accumulator_at, head, header_row, history_row, of_line, plain_at, process_at};
ghost use Rattle.mx_script.specs.declared.lines.Line.TheVariants.{Fetch};
ghost use Rattle.mx_script.specs.declared.rows.Row.{Row};

use crate::lines::Line;
use crate::outlines::{is_history, is_version};
use crate::reading::cutting::after;
use crate::reading::fields::{read_entrant, read_operand, read_register_operand, read_word};
use crate::rows::Row;
use mx_request::{Request, SharedRequest, read_decimal};
use std::alloc::{AllocError, Global};

/// The row that a line spells, `None` where it spells none.
pub(crate) fn read_row(alloc: Global, line: &[u8]) -> Result<Option<Row>, AllocError>
    ensures found { IfOk result (λ told. IfSome told (λ r. IsRow line.now r)) }
    ensures only { (r : Row) → IsRow line.now r → IfOk result (λ told. told ≡ Some r) }
{
    match read_accumulator(line) {
        Some(row) => Ok(Some(row)),
        None => read_other(alloc, line),
    }
}

// `lda OPERAND` or `sta OPERAND`.
#[tactic(auto, unfolding(crate::specs::Reading::accumulator_at))]
fn read_accumulator(line: &[u8]) -> Option<Row>
    ensures { result ≡ accumulator_at line.now }
{
    if let Some(fields) = after(b"lda ", line) {
        Some(Row::Line(read_lda(fields)?))
    } else if let Some(fields) = after(b"sta ", line) {
        Some(Row::Line(read_sta(fields)?))
    } else {
        None
    }
}

// The row of a line of any kind.
#[inline(always)]
fn read_other(alloc: Global, line: &[u8]) -> Result<Option<Row>, AllocError>
    ensures found { IfOk result (λ told. IfSome told (λ r. IsRow line.now r)) }
    ensures only { (r : Row) → IsRow line.now r → IfOk result (λ told. told ≡ Some r) }
{
    if let Some(row) = read_plain(line) {
        return Ok(Some(row));
    }
    if let Some(row) = read_process(line) {
        return Ok(Some(row));
    }
    match Request::read(alloc, line)? {
        Some(request) => {
            let shared = SharedRequest::new(alloc, request)?;
            Ok(Some(Row::Line(Line::Ask(shared))))
        }
        None => Ok(None),
    }
}

#[tactic(auto, unfolding(crate::specs::Reading::process_at))]
fn read_process(line: &[u8]) -> Option<Row>
    ensures { result ≡ process_at line.now }
{
    let entrant = read_entrant(after(b"process ", line)?)?;
    Some(Row::Process(entrant))
}

/// A line that holds no text: the end, the version, the limit or a memory line. Its first letter tells which it may be, so that the line
/// of a request is not held against each of them.
fn read_plain(line: &[u8]) -> Option<Row>
    ensures { result ≡ plain_at line.now }
{
    let [first, ..] = line else {
        return None;
    };
    read_by(*first, line)
}

// The same of a line that begins with this letter.
fn read_by(first: u8, line: &[u8]) -> Option<Row>
    requires { head line.now ≡ Some first }
    ensures { result ≡ plain_at line.now }
{
    if first == b'c' {
        read_call_line(line)
    } else if first == b'e' {
        read_end_or_pointer(line)
    } else if first == b'f' {
        read_fetch(line)
    } else if first == b'h' {
        read_limit(line)
    } else if first == b'l' {
        read_load(line)
    } else if first == b'm' {
        read_version(line)
    } else if first == b'r' {
        read_return_line(line)
    } else if first == b's' {
        read_set_or_store(line)
    } else {
        None
    }
}

fn read_header(text: &[u8]) -> Option<Row>
    ensures { result ≡ header_row text.now }
{
    let version = read_decimal(text, 1)?;
    let version = version as u8;
    if is_version(version) {
        Some(Row::Header(version))
    } else {
        None
    }
}

fn read_history(text: &[u8]) -> Option<Row>
    ensures { result ≡ history_row text.now }
{
    let limit = read_decimal(text, 6)?;
    if is_history(limit) {
        Some(Row::History(limit))
    } else {
        None
    }
}

fn read_call_line(line: &[u8]) -> Option<Row>
    ensures { result ≡ of_line (read_or (after (codes "call ") line.now) call_at None) }
{
    let line = read_call(after(b"call ", line)?)?;
    Some(Row::Line(line))
}

fn read_end_or_pointer(line: &[u8]) -> Option<Row>
    ensures { result ≡ if pointwise ◌==◌ line.now (codes "end") then Some Row.End
        else of_line (read_or (after (codes "epp ") line.now) epp_at None) }
{
    if line == b"end".as_slice() {
        return Some(Row::End);
    }
    let line = read_epp(after(b"epp ", line)?)?;
    Some(Row::Line(line))
}

fn read_fetch(line: &[u8]) -> Option<Row>
    ensures { result ≡ if pointwise ◌==◌ line.now (codes "fetch") then Some (Row.Line Fetch) else None }
{
    if line == b"fetch".as_slice() {
        Some(Row::Line(Line::Fetch))
    } else {
        None
    }
}

fn read_limit(line: &[u8]) -> Option<Row>
    ensures { result ≡ read_or (after (codes "history ") line.now) history_row None }
{
    read_history(after(b"history ", line)?)
}

fn read_load(line: &[u8]) -> Option<Row>
    ensures { result ≡ of_line (read_or (after (codes "lda ") line.now) lda_at None) }
{
    let line = read_lda(after(b"lda ", line)?)?;
    Some(Row::Line(line))
}

fn read_version(line: &[u8]) -> Option<Row>
    ensures { result ≡ read_or (after (codes "multics ") line.now) header_row None }
{
    read_header(after(b"multics ", line)?)
}

fn read_return_line(line: &[u8]) -> Option<Row>
    ensures { result ≡ of_line (read_or (after (codes "return ") line.now) return_at None) }
{
    let line = read_return(after(b"return ", line)?)?;
    Some(Row::Line(line))
}

fn read_set_or_store(line: &[u8]) -> Option<Row>
    ensures { result ≡ of_line (read_or (after (codes "set ") line.now) set_at
        (read_or (after (codes "sta ") line.now) sta_at (read_or (after (codes "spri ") line.now) spri_at None))) }
{
    let line = read_setting(line)?;
    Some(Row::Line(line))
}

fn read_setting(line: &[u8]) -> Option<Line>
    ensures { result ≡ read_or (after (codes "set ") line.now) set_at
        (read_or (after (codes "sta ") line.now) sta_at (read_or (after (codes "spri ") line.now) spri_at None)) }
{
    if let Some(fields) = after(b"set ", line) {
        read_set(fields)
    } else if let Some(fields) = after(b"sta ", line) {
        read_sta(fields)
    } else {
        read_spri(after(b"spri ", line)?)
    }
}

fn read_set(fields: &[u8]) -> Option<Line>
    ensures { result ≡ set_at fields.now }
{
    let word = read_word(fields)?;
    Some(Line::Set { word })
}

fn read_epp(fields: &[u8]) -> Option<Line>
    ensures { result ≡ epp_at fields.now }
{
    let (n, operand) = read_register_operand(fields)?;
    Some(Line::Epp { n, operand })
}

fn read_lda(fields: &[u8]) -> Option<Line>
    ensures { result ≡ lda_at fields.now }
{
    let operand = read_operand(fields)?;
    Some(Line::Lda { operand })
}

fn read_sta(fields: &[u8]) -> Option<Line>
    ensures { result ≡ sta_at fields.now }
{
    let operand = read_operand(fields)?;
    Some(Line::Sta { operand })
}

fn read_spri(fields: &[u8]) -> Option<Line>
    ensures { result ≡ spri_at fields.now }
{
    let (n, operand) = read_register_operand(fields)?;
    Some(Line::Spri { n, operand })
}

fn read_call(fields: &[u8]) -> Option<Line>
    ensures { result ≡ call_at fields.now }
{
    let operand = read_operand(fields)?;
    Some(Line::Call { operand })
}

fn read_return(fields: &[u8]) -> Option<Line>
    ensures { result ≡ return_at fields.now }
{
    let operand = read_operand(fields)?;
    Some(Line::Return { operand })
}
