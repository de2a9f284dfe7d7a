//! The orders in which the processes of a session take turns.

ghost use Rattle.std.specs.Prelude.{◌≡◌, ◌≤◌, ◌<◌, ◌^◌, [], ◌∷◌, ◌++◌, IfOk, OnOk, length, map};
ghost use Rattle.std.specs.List.{filter_map, sum_by};
ghost use Rattle.std.specs.String.{string_bytes};
ghost use Rattle.mx_explain.specs.Commands.{process_of};
ghost use Rattle.mx_explain.specs.Orders.{next_state, chosen, choices, chosen_order};

use mx_request::read_decimal;
use mx_script::{Script, Session};
use std::alloc::{AllocError, Global};

/// The process that a word names: 1 to 15, in decimal without a leading zero. Takes no memory.
pub fn process_of(word: &str) -> Option<u8>
    ensures { result ≡ process_of word.now }
{
    process_spelled(word.as_bytes())
}

/// The process that these bytes name.
pub(crate) fn process_spelled(word: &[u8]) -> Option<u8>
    ensures { result ≡ process_of word.now }
{
    match read_decimal(word, 2) {
        Some(number) if (1..=15).contains(&number) => Some(number as u8),
        _ => None,
    }
}

/// The processes that words name, in their order.
pub fn named_order(alloc: Global, words: &[String]) -> Result<Vec<u8>, AllocError>
    ensures { IfOk result (λ order. order.items ≡ filter_map process_of (map string_bytes words.now)) }
{
    let mut order = Vec::new(alloc);
    for word in words {
        add_named(&mut order, word.as_str())?;
    }
    Ok(order)
}

// Adds the process that a word names.
fn add_named(order: &mut Vec<u8>, word: &str) -> Result<(), AllocError>
    ensures { OnOk result (order.new.items ≡ order.old.items ++ filter_map process_of (word.now ∷ [])) }
{
    if let Some(process) = process_of(word) {
        order.push(process)?;
    }
    Ok(())
}

/// The order that a number chooses: as many processes as the scripts of the session have lines.
pub fn chosen_order(alloc: Global, session: &Session, number: u32) -> Result<Vec<u8>, AllocError>
    ensures { IfOk result (λ order. order.items ≡ chosen_order session.now number) }
{
    let processes = session.principals().items().len() as u8;
    let count = line_count(session.scripts().items());
    choices(alloc, processes, number, count)
}

// The lines of these scripts.
fn line_count(scripts: &[Script]) -> u32
    requires { sum_by length scripts.now < 2 ^ 32 }
    ensures { result ≡ sum_by length scripts.now }
{
    match scripts {
        [] => 0,
        [first, rest @ ..] => first.items().len() as u32 + line_count(rest),
    }
}

fn choices(alloc: Global, processes: u8, first: u32, count: u32) -> Result<Vec<u8>, AllocError>
    requires { 1 ≤ processes }
    ensures { IfOk result (λ order. order.items ≡ choices processes first count) }
{
    let mut order = Vec::new(alloc);
    let mut state = first;
    for _ in 0..count {
        state = next_state(state);
        order.push(chosen(processes, state))?;
    }
    Ok(order)
}

// The state of the generator after this one.
fn next_state(state: u32) -> u32
    ensures { result ≡ next_state state }
{
    ((1_103_515_245 * u64::from(state) + 12_345) % 2_147_483_648) as u32
}

// The process that a state chooses.
fn chosen(processes: u8, state: u32) -> u8
    requires { 1 ≤ processes }
    ensures { result ≡ chosen processes state }
{
    1 + (state / 65_536 % u32::from(processes)) as u8
}
