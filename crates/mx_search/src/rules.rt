//! Search rules.
ghost use Rattle.std.specs.Prelude.{◌≡◌, IfOk, [], ◌∷◌, codes};
ghost use Rattle.mx_search.specs.Rules.{AreRules, rules_of, opening_rules};

use mx_list::Sequence;
use mx_name::{Path, Pathname};
use std::alloc::{AllocError, Global};
use std::marker::Model;

/// The most rules of a process (this model's choice).
const MOST: usize = 16;

/// Where a segment is looked for.
#[derive(Debug, Drop, PartialEq, Eq)]
pub enum Rule {
    /// Among the reference names of the process in its ring.
    InitiatedSegments,
    /// In the directory that now holds the object whose link is followed.
    ReferencingDir,
    /// In the working directory.
    WorkingDir,
    /// In a directory given by its path.
    Directory(Path),
}

impl Clone for Rule {
    ghost is_clone = { λ a b. b ≡ a };

    fn clone(&self) -> Result<Rule, AllocError> {
        match self {
            Rule::InitiatedSegments => Ok(Rule::InitiatedSegments),
            Rule::ReferencingDir => Ok(Rule::ReferencingDir),
            Rule::WorkingDir => Ok(Rule::WorkingDir),
            Rule::Directory(path) => {
                let path = path.copy()?;
                Ok(Rule::Directory(path))
            }
        }
    }
}

impl Rule {
    /// Another such rule.
    pub fn copy(&self) -> Result<Rule, AllocError>
        ensures { IfOk result (λ rule. rule ≡ self.now) }
    {
        self.clone()
    }
}

/// The search rules of a process, 1 to 16 of them, in the order in which they are tried.
#[derive(Debug, Drop, PartialEq, Eq)]
pub struct Rules {
    items: Sequence<Rule>,
}

impl Model for Rules {
    ghost use Rattle.std.specs.Prelude.{List};
    ghost use Rattle.mx_search.specs.declared.rules.Rule.{Rule};
    ghost use Rattle.mx_search.specs.Rules.{AreRules};

    ghost Value = { List Rule };

    ghost view = { λ a. a.items };

    ghost inverse = { λ d. record { items = d } };

    ghost invariant = { λ a. AreRules a.items };
}

impl Clone for Rules {
    ghost is_clone = { λ a b. b ≡ a };

    fn clone(&self) -> Result<Rules, AllocError> {
        let items = self.items.clone()?;
        Ok(Rules { items })
    }
}

impl Rules {
    /// The rules of a list; none exactly where the list is empty or has more than 16. Takes no memory.
    pub fn new(items: Sequence<Rule>) -> Option<Rules>
        ensures { result ≡ rules_of items }
    {
        if items.items().is_empty() || items.items().len() > MOST {
            return None;
        }
        Some(Rules { items })
    }

    /// The rules with which a process starts: `initiated_segments`, `referencing_dir`, `working_dir` and
    /// `>system_library_standard`, as in the manual.
    pub fn opening(alloc: Global) -> Result<Rules, AllocError>
        ensures { IfOk result (λ rules. rules ≡ opening_rules) }
    {
        let library = standard_library(alloc)?;
        let rules = vec![in alloc;
            Rule::InitiatedSegments,
            Rule::ReferencingDir,
            Rule::WorkingDir,
            Rule::Directory(library),
        ]?;
        Ok(Rules {
            items: Sequence::of(rules),
        })
    }

    /// The rules, in their order.
    pub fn items(&self) -> &[Rule]
        ensures value { result.now ≡ self.now }
        ensures rules { AreRules self.now }
    {
        self.items.items()
    }

    /// Another list of the same rules.
    pub fn copy(&self) -> Result<Rules, AllocError>
        ensures { IfOk result (λ rules. rules ≡ self.now) }
    {
        self.clone()
    }
}

fn standard_library(alloc: Global) -> Result<Path, AllocError>
    ensures { IfOk result (λ path. path ≡ codes "system_library_standard" ∷ []) }
{
    let name = library_name(alloc)?;
    // The text is a pathname, and has a path from the root: want of memory alone is left.
    match Path::resolve(alloc, &Path::root(alloc), &name) {
        Ok(path) => Ok(path),
        Err(_) => Err(AllocError),
    }
}

fn library_name(alloc: Global) -> Result<Pathname, AllocError>
    ensures { IfOk result (λ name. name ≡ codes ">system_library_standard") }
{
    match Pathname::read(alloc, b">system_library_standard") {
        Ok(name) => Ok(name),
        Err(_) => Err(AllocError),
    }
}
