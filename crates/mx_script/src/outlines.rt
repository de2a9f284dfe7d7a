//! Whether a version, requests, processes and scripts are those of a session.

ghost use Rattle.std.specs.Prelude.{◌≡◌, ◌&&◌, nat_le};
ghost use Rattle.std.specs.List.{list_all};
ghost use Rattle.mx_script.specs.Sessions.{is_short, is_short_object, is_short_definition, is_for_setup, is_for_script, is_setup_request, is_entrant, are_processes, is_count, is_version, is_history, is_limit, is_script, is_script_line, ends, is_logout, is_register, is_base, is_address};
ghost use Rattle.mx_script.specs.Drafts.{may_prepare, may_stand};

use crate::lines::{Base, Line, Operand, Script};
use mx_aim::Class;
use mx_name::EntryName;
use mx_object::ObjectMap;
use mx_request::{Entrant, Request, RequestClass, SharedRequest, has_classes};

/// The greatest version of a session.
const GREATEST_VERSION: u8 = 4;

/// Whether sessions have this version.
pub(crate) fn is_version(version: u8) -> bool
    ensures { result ≡ is_version version }
{
    1 <= version && version <= GREATEST_VERSION
}

/// Whether a setup may ask all this in a session of the version.
pub(crate) fn is_setup(version: u8, setup: &[SharedRequest]) -> bool
    ensures { result ≡ list_all (is_setup_request version) setup.now }
{
    setup.iter().all(
        |shared: &SharedRequest| -> bool
            ensures { result ≡ is_setup_request version shared.now }
        { is_setup_request(version, shared.request()) },
    )
}

fn is_setup_request(version: u8, request: &Request) -> bool
    ensures { result ≡ is_setup_request version request.now }
{
    is_for_setup(request.class()) && request.since_version() <= version && is_short(request)
}

/// Whether a setup may hold the request.
pub(crate) fn may_prepare(version: u8, request: &Request) -> bool
    ensures { result ≡ may_prepare version request.now }
{
    is_for_setup(request.class()) && request.since_version() <= version
}

fn is_for_setup(class: RequestClass) -> bool
    ensures { result ≡ is_for_setup class }
{
    match class {
        RequestClass::OfPath => true,
        RequestClass::OfProcess | RequestClass::OfSupervisor => false,
    }
}

fn is_for_script(class: RequestClass) -> bool
    ensures { result ≡ is_for_script class }
{
    match class {
        RequestClass::OfPath | RequestClass::OfProcess => true,
        RequestClass::OfSupervisor => false,
    }
}

// WORDS has at most five digits, a segment number four octal ones, a process to be woken up a number from 1 to 99.
fn is_short(request: &Request) -> bool
    ensures { result ≡ is_short request.now }
{
    match request {
        Request::CreateSeg { words, .. } => *words <= 99_999,
        Request::CreateObject { words, map, .. } => *words <= 99_999 && is_short_object(map.map()),
        Request::Terminate { segno } => *segno <= 0o7777,
        Request::Wakeup { to, .. } => 1 <= *to && *to <= 99,
        Request::CreateDir { .. }
        | Request::CreateLink { .. }
        | Request::Rename { .. }
        | Request::Delete { .. }
        | Request::SetAcl { .. }
        | Request::DelAcl { .. }
        | Request::SetIacl { .. }
        | Request::DelIacl { .. }
        | Request::SetBrackets { .. }
        | Request::SetDirBrackets { .. }
        | Request::SetClass { .. }
        | Request::Status { .. }
        | Request::List { .. }
        | Request::ChangeWdir { .. }
        | Request::SetRules { .. }
        | Request::Initiate { .. }
        | Request::Block
        | Request::Link { .. }
        | Request::Resume
        | Request::Logout => true,
    }
}

// GATE has at most four digits, and the word of each definition is at most octal 37777.
fn is_short_object(map: &ObjectMap) -> bool
    ensures { result ≡ is_short_object map.now }
{
    map.gate() <= 9_999 && are_short_definitions(map.definitions())
}

fn are_short_definitions(definitions: &[(EntryName, u16)]) -> bool
    ensures { result ≡ list_all is_short_definition definitions.now }
{
    definitions.iter().all(
        |definition: &(EntryName, u16)| -> bool
            ensures { result ≡ is_short_definition definition.now }
        { definition.1 <= 0o37777 },
    )
}

/// Whether these are 1 to 15 processes, with authorizations of the version and a script each.
pub(crate) fn are_processes(version: u8, entrants: &[Entrant], scripts: &[Script]) -> bool
    ensures { result ≡ are_processes version entrants.now scripts.now }
{
    is_count(entrants.len(), scripts.len())
        && are_entrants(version, entrants)
        && are_all_scripts(version, scripts)
}

fn are_entrants(version: u8, entrants: &[Entrant]) -> bool
    ensures { result ≡ list_all (is_entrant version) entrants.now }
{
    entrants.iter().all(
        |entrant: &Entrant| -> bool
            ensures { result ≡ is_entrant version entrant.now }
        { is_entrant(version, entrant) },
    )
}

/// Whether a session of the version may have the process. Without classes each has the lowest.
pub(crate) fn is_entrant(version: u8, entrant: &Entrant) -> bool
    ensures { result ≡ is_entrant version entrant.now }
{
    has_classes(version) || entrant.authorization.equals(&Class::lowest())
}

fn is_count(processes: usize, scripts: usize) -> bool
    ensures { result ≡ is_count processes scripts }
{
    1 <= processes && processes <= 15 && scripts == processes
}

fn are_all_scripts(version: u8, scripts: &[Script]) -> bool
    ensures { result ≡ list_all (is_script version) scripts.now }
{
    scripts.iter().all(
        |script: &Script| -> bool
            ensures { result ≡ is_script version script.now }
        { is_script(version, script.items()) },
    )
}

/// Whether a session may set the journal this limit.
pub(crate) fn is_limit(history: Option<u32>) -> bool
    ensures { result ≡ is_limit history }
{
    match history {
        None => true,
        Some(limit) => is_history(limit),
    }
}

pub(crate) fn is_history(limit: u32) -> bool
    ensures { result ≡ is_history limit }
{
    1 <= limit && limit <= 262_143
}

fn is_script(version: u8, lines: &[Line]) -> bool
    ensures { result ≡ is_script version lines.now }
{
    are_script_lines(version, lines) && ends(lines)
}

fn are_script_lines(version: u8, lines: &[Line]) -> bool
    ensures { result ≡ list_all (is_script_line version) lines.now }
{
    lines.iter().all(
        |line: &Line| -> bool
            ensures { result ≡ is_script_line version line.now }
        { is_script_line(version, line) },
    )
}

// The first logout is the last line.
fn ends(lines: &[Line]) -> bool
    ensures { result ≡ ends lines.now }
{
    let [before @ .., last] = lines else {
        return false;
    };
    for line in before {
        if is_logout(line) {
            return false;
        }
    }
    is_logout(last)
}

fn is_script_line(version: u8, line: &Line) -> bool
    ensures { result ≡ is_script_line version line.now }
{
    match line {
        Line::Ask(shared) => {
            let request = shared.request();
            is_for_script(request.class())
                && request.since_version() <= version
                && is_short(request)
        }
        Line::Set { .. } => true,
        Line::Epp { n, operand } => is_register(*n) && is_address(operand),
        Line::Lda { operand } => is_address(operand),
        Line::Sta { operand } => is_address(operand),
        Line::Spri { n, operand } => is_register(*n) && is_address(operand),
        Line::Fetch => true,
        Line::Call { operand } => is_address(operand),
        Line::Return { operand } => is_address(operand),
    }
}

/// Whether a script may hold the line in a session of the version.
pub(crate) fn may_stand(version: u8, line: &Line) -> bool
    ensures { result ≡ may_stand version line.now }
{
    match line {
        Line::Ask(shared) => {
            let request = shared.request();
            is_for_script(request.class()) && request.since_version() <= version
        }
        Line::Set { .. } => true,
        Line::Epp { .. } => true,
        Line::Lda { .. } => true,
        Line::Sta { .. } => true,
        Line::Spri { .. } => true,
        Line::Fetch => true,
        Line::Call { .. } => true,
        Line::Return { .. } => true,
    }
}

pub(crate) fn is_logout(line: &Line) -> bool
    ensures { result ≡ is_logout line.now }
{
    match line {
        Line::Ask(request) => matches!(request.request(), Request::Logout),
        Line::Set { .. }
        | Line::Epp { .. }
        | Line::Lda { .. }
        | Line::Sta { .. }
        | Line::Spri { .. }
        | Line::Fetch
        | Line::Call { .. }
        | Line::Return { .. } => false,
    }
}

fn is_address(operand: &Operand) -> bool
    ensures { result ≡ is_address operand.now }
{
    is_base(&operand.base) && operand.word <= 0o37777
}

fn is_base(base: &Base) -> bool
    ensures { result ≡ is_base base.now }
{
    match base {
        Base::Segment(segno) => *segno <= 0o7777,
        Base::Register(n) => is_register(*n),
    }
}

fn is_register(n: u8) -> bool
    ensures { result ≡ is_register n }
{
    n <= 7
}
