//! Search rules in a line.

ghost use Rattle.std.specs.Prelude.{◌≡◌, IfOk};
ghost use Rattle.std.specs.Option.{option_map};
ghost use Rattle.mx_name.specs.Pathnames.{is_absolute};
ghost use Rattle.mx_request.specs.Reading.{directory_at, rule_at, rules_at};

use super::fields::read_path;
use mx_name::{Path, PathError, cut};
use mx_search::Rule;
use std::alloc::{AllocError, Global};

/// The most rules that a line may have.
const MOST: usize = 16;

/// Rules with a blank between each two, and at most 16.
#[tactic(auto, using(crate::proofs::RuleLaws::no_rules_left, crate::proofs::RuleLaws::no_rule_first, crate::proofs::RuleLaws::no_rule_last))]
pub(super) fn read_rules(alloc: Global, text: &[u8]) -> Result<Option<Vec<Rule>>, AllocError>
    ensures { IfOk result (λ rules. option_map (λ rules. rules.items) rules ≡ rules_at 16 text.now) }
{
    let mut rules = Vec::new(alloc);
    let mut rest = text;
    for _left in 0..MOST {
        let Some((field, after)) = cut(b' ', rest) else {
            let Some(rule) = read_rule(alloc, rest)? else {
                return Ok(None);
            };
            rules.push(rule)?;
            return Ok(Some(rules));
        };
        let Some(rule) = read_rule(alloc, field)? else {
            return Ok(None);
        };
        rules.push(rule)?;
        rest = after;
    }
    Ok(None)
}

fn read_rule(alloc: Global, text: &[u8]) -> Result<Option<Rule>, AllocError>
    ensures { IfOk result (λ rule. rule ≡ rule_at text.now) }
{
    if text == b"initiated_segments".as_slice() {
        Ok(Some(Rule::InitiatedSegments))
    } else if text == b"referencing_dir".as_slice() {
        Ok(Some(Rule::ReferencingDir))
    } else if text == b"working_dir".as_slice() {
        Ok(Some(Rule::WorkingDir))
    } else {
        read_directory(alloc, text)
    }
}

/// An absolute pathname, as its path.
fn read_directory(alloc: Global, text: &[u8]) -> Result<Option<Rule>, AllocError>
    ensures { IfOk result (λ rule. rule ≡ directory_at text.now) }
{
    if !is_absolute(text) {
        return Ok(None);
    }
    let Some(pathname) = read_path(alloc, text)? else {
        return Ok(None);
    };
    match Path::resolve(alloc, &Path::root(alloc), &pathname) {
        Ok(path) => Ok(Some(Rule::Directory(path))),
        Err(PathError::Memory) => Err(AllocError),
        Err(_) => Ok(None),
    }
}

fn is_absolute(text: &[u8]) -> bool
    ensures { result ≡ is_absolute text.now }
{
    match text {
        [first, ..] => *first == b'>',
        [] => false,
    }
}
