//! The names of a directory's entries, and names in byte order.

ghost use Rattle.std.specs.Prelude.{◌≡◌, ◌==◌, map, IfOk};
ghost use Rattle.mx_hier.specs.Branches.{entries_of};
ghost use Rattle.mx_hier.specs.List.{in_byte_order};

use crate::branches::Branch;
use mx_name::EntryName;
use std::alloc::{AllocError, Global};

/// The names of a directory's entries, the oldest first.
pub(crate) fn names_in(
    alloc: Global,
    branches: &[Branch],
    dir: u32,
) -> Result<Vec<EntryName>, AllocError>
    ensures { IfOk result (λ names. names.items ≡ map (λ branch. branch.name) (entries_of branches.now dir)) }
{
    branches
        .iter()
        .filter(
            |branch: &&Branch| -> bool
                ensures { result ≡ (branch.now.now.parent == dir) }
            { branch.parent == dir },
        )
        .map(
            |branch: &Branch| -> EntryName
                ensures { result ≡ branch.now.name }
            { branch.name },
        )
        .collect(alloc)
}

/// Names in byte order.
#[tactic(auto, using(mx_hier::proofs::SortLaws::sorted_names))]
pub(crate) fn in_byte_order(mut names: Vec<EntryName>) -> Result<Vec<EntryName>, AllocError>
    ensures { IfOk result (λ ordered. ordered.items ≡ in_byte_order names.items) }
{
    names.sort()?;
    Ok(names)
}
