//! Whether an entry is the call for which a line asks.

ghost use Rattle.std.specs.Prelude.{◌≡◌, ◌↔◌, true, IfOk, IsTrue};
ghost use Rattle.mx_line.specs.AtWork.{call_in, own_call};
ghost use Rattle.mx_parts.specs.Answers.{IsAskedCall};
ghost use Rattle.mx_request.specs.declared.requests.Request.TheVariants.{Link};
ghost use Rattle.mx_request.specs.RequestTexts.{fits_request};
ghost use Rattle.mx_script.specs.SessionTexts.{fits_line};
ghost use Rattle.mx_transcript.specs.Next.{Calls};

use mx_line::{Called, Next};
use mx_request::{Request, each_request_has_its_own_line};
use mx_script::Line;
use mx_sdw::Ring;
use mx_state::Entry;
use std::alloc::{AllocError, Global};

/// Whether an entry is the call for which a line asks. Takes memory for the texts of requests.
pub(crate) fn is_asked_call(
    alloc: Global,
    line: &Line,
    next: &Next,
    entry: &Entry,
) -> Result<bool, AllocError>
    requires line { fits_line line.now ≡ true }
    requires entry { fits_request entry.now.request ≡ true }
    ensures { IfOk result (λ asked. IsTrue asked ↔ IsAskedCall line.now next.now entry.now) }
{
    match next {
        Next::Calls { ring, called } => {
            if *ring != entry.ring {
                return Ok(false);
            }
            is_called(alloc, line, *ring, called, entry.request())
        }
        Next::Asks(_) => Ok(false),
        Next::Fills(_) => Ok(false),
        Next::Ends(_) => Ok(false),
        Next::Nowhere => Ok(false),
    }
}

// Whether a request is that of a call.
fn is_called(
    alloc: Global,
    line: &Line,
    ring: Ring,
    called: &Called,
    request: &Request,
) -> Result<bool, AllocError>
    requires line { fits_line line.now ≡ true }
    requires request { fits_request request.now ≡ true }
    ensures { IfOk result (λ same. IsTrue same ↔ (call_in line.now ring called.now ≡ Calls ring request.now)) }
{
    match called {
        Called::Own => is_own(alloc, line, ring, request),
        Called::Resume => Ok(matches!(request, Request::Resume)),
        Called::Link { segno, word } => Ok(is_link(request, *segno, *word)),
    }
}

// Whether a request is the one that a line is.
fn is_own(alloc: Global, line: &Line, ring: Ring, request: &Request) -> Result<bool, AllocError>
    requires line { fits_line line.now ≡ true }
    requires request { fits_request request.now ≡ true }
    ensures { IfOk result (λ same. IsTrue same ↔ (own_call line.now ring ≡ Calls ring request.now)) }
{
    match line {
        Line::Ask(shared) => is_same_request(alloc, shared.request(), request),
        Line::Set { .. } => Ok(false),
        Line::Epp { .. } => Ok(false),
        Line::Lda { .. } => Ok(false),
        Line::Sta { .. } => Ok(false),
        Line::Spri { .. } => Ok(false),
        Line::Fetch => Ok(false),
        Line::Call { .. } => Ok(false),
        Line::Return { .. } => Ok(false),
    }
}

// Whether a request asks to have the link in this word snapped.
fn is_link(request: &Request, segno: u16, word: u16) -> bool
    ensures { IsTrue result ↔ (request.now ≡ Link segno word) }
{
    match request {
        Request::Link {
            segno: other_segno,
            word: other_word,
        } => *other_segno == segno && *other_word == word,
        _ => false,
    }
}

// Whether two requests that a text can say are the same.
fn is_same_request(alloc: Global, one: &Request, other: &Request) -> Result<bool, AllocError>
    requires one { fits_request one.now ≡ true }
    requires other { fits_request other.now ≡ true }
    ensures { IfOk result (λ same. IsTrue same ↔ (one.now ≡ other.now)) }
{
    each_request_has_its_own_line();
    let mut text = Vec::new(alloc);
    one.append_to(&mut text)?;
    let mut other_text = Vec::new(alloc);
    other.append_to(&mut other_text)?;
    Ok(is_same_text(text.as_slice(), other_text.as_slice()))
}

fn is_same_text(one: &[u8], other: &[u8]) -> bool
    ensures { IsTrue result ↔ (one.now ≡ other.now) }
{
    one == other
}
