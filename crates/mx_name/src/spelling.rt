//! Three components, written with dots between them.
ghost use Rattle.std.specs.Prelude.{◌≡◌, ◌++◌, [], ◌∷◌, ℕ, List, OnOk, OnErr};
ghost use Rattle.std.specs.List.{join_with_byte};

use std::alloc::AllocError;

/// Appends the components with a dot between each two; want of memory leaves the output as it was.
pub(crate) fn append_components(
    out: &mut Vec<u8>,
    person: &[u8],
    project: &[u8],
    tag: &[u8],
) -> Result<(), AllocError>
    ensures ok { OnOk result
        (out.new.items ≡ out.old.items ++ join_with_byte 46 (person.now ∷ project.now ∷ tag.now ∷ [])) }
    ensures err { OnErr result (out.new.items ≡ out.old.items) }
{
    let length = out.len();
    match push_components(out, person, project, tag) {
        Ok(()) => Ok(()),
        Err(error) => {
            out.truncate(length);
            Err(error)
        }
    }
}

fn push_components(
    out: &mut Vec<u8>,
    person: &[u8],
    project: &[u8],
    tag: &[u8],
) -> Result<(), AllocError>
    ensures ok { OnOk result
        (out.new.items ≡ out.old.items ++ join_with_byte 46 (person.now ∷ project.now ∷ tag.now ∷ [])) }
    ensures err { OnErr result ((more : List ℕ) × (out.new.items ≡ out.old.items ++ more)) }
{
    out.extend_from_slice(person)?;
    out.push(b'.')?;
    out.extend_from_slice(project)?;
    out.push(b'.')?;
    out.extend_from_slice(tag)?;
    Ok(())
}
