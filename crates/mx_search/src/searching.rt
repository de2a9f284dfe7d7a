//! The search.
ghost use Rattle.std.specs.Prelude.{◌≡◌, ◌↔◌, ℕ, List, Option, Some, IfOk};
ghost use Rattle.mx_search.specs.Searching.{answers, first_found, IsFirstFound};

use crate::rules::{Rule, Rules};
use mx_name::EntryName;
use std::alloc::AllocError;

/// A segment that was found.
#[derive(Clone, Copy, Debug, PartialEq, Eq)]
pub enum Found {
    /// The process knows it under this segment number.
    Known(u16),
    /// It is the branch with this unique identifier.
    Branch(u32),
}

/// What finds a segment by a rule.
pub trait Finder {
    ghost use Rattle.mx_search.specs.declared.rules.Rule.{Rule};
    ghost use Rattle.mx_search.specs.declared.searching.Found.{Found};

    /// What each rule finds under each name, if anything.
    ghost answer: { Self → Rule → List ℕ → Option Found };

    /// What the rule finds under the name. Nothing else decides the answer, short of want of memory.
    fn find(&self, rule: &Rule, name: &EntryName) -> Result<Option<Found>, AllocError>
        ensures { IfOk result (λ found. found ≡ answer self.now rule.now name.now) };
}

/// What the first rule that finds something under the name finds; none where no rule does. Later rules are not tried.
pub fn search<F: Finder>(
    rules: &Rules,
    name: &EntryName,
    finder: &F,
) -> Result<Option<Found>, AllocError>
    ensures value { IfOk result (λ answer. answer ≡ first_found (answers (F.answer finder.now) rules.now name.now)) }
    ensures first { IfOk result (λ answer. (found : Found)
        → (answer ≡ Some found) ↔ IsFirstFound (answers (F.answer finder.now) rules.now name.now) found) }
{
    let answer = first_found(rules.items(), name, finder)?;
    Ok(answer)
}

fn first_found<F: Finder>(
    rules: &[Rule],
    name: &EntryName,
    finder: &F,
) -> Result<Option<Found>, AllocError>
    ensures { IfOk result (λ answer. answer ≡ first_found (answers (F.answer finder.now) rules.now name.now)) }
{
    for rule in rules {
        if let Some(found) = finder.find(rule, name)? {
            return Ok(Some(found));
        }
    }
    Ok(None)
}
