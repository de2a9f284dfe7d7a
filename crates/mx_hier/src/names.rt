//! Names of entries, in one text.

ghost use Rattle.std.specs.Prelude.{◌≡◌, ◌++◌, ◌∷◌, true, IfOk, OnOk};
ghost use Rattle.std.specs.List.{flat_map};
ghost use Rattle.mx_name.specs.Names.{is_free};
ghost use Rattle.mx_hier.specs.NameTexts.{behind_blanks, between_blanks};

use mx_list::Bytes;
use mx_name::EntryName;
use std::alloc::{AllocError, Global};
use std::marker::Model;
use std::sync::Arc;

/// Names of entries, in order. They stand in one text, each behind a blank, which no name has; several hold it together.
#[derive(Drop)]
pub struct Names {
    text: Arc<Bytes>,
}

impl Model for Names {
    ghost use Rattle.std.specs.Prelude.{◌≡◌, List, ℕ};
    ghost use Rattle.mx_hier.specs.NameTexts.{behind_blanks, between_blanks};

    ghost Value = { List (List ℕ) };

    ghost view = { λ a. between_blanks a.text.value };

    ghost invariant = { λ a. behind_blanks (between_blanks a.text.value) ≡ a.text.value };
}

impl Names {
    /// These names, in one piece of memory.
    pub fn of(alloc: Global, names: &[EntryName]) -> Result<Names, AllocError>
        ensures { IfOk result (λ of. of ≡ names.now) }
    {
        let mut text = Vec::with_capacity(alloc, length(names))?;
        push_names(&mut text, names)?;
        let text = Arc::new(alloc, Bytes::of(text))?;
        Ok(Names { text })
    }

    /// The same names, for another to hold. It takes no memory; the only error is that 2 to the 63rd hold them.
    pub(crate) fn share(&self) -> Result<Names, AllocError>
        ensures { IfOk result (λ names. names ≡ self.now) }
    {
        let text = Arc::try_clone(&self.text)?;
        Ok(Names { text })
    }

    /// The names as a line has them: a blank before each.
    pub fn text(&self) -> &[u8]
        ensures { result.now ≡ flat_map (λ name. 32 ∷ name) self.now }
    {
        self.text.items()
    }
}

/// How many bytes the names take with a blank before each.
fn length(names: &[EntryName]) -> usize {
    let mut length = 0usize;
    for name in names {
        length = length.saturating_add(1 + name.bytes().len());
    }
    length
}

/// Appends the names with a blank before each.
fn push_names(text: &mut Vec<u8>, names: &[EntryName]) -> Result<(), AllocError>
    ensures text { OnOk result (text.new.items ≡ text.old.items ++ behind_blanks names.now) }
    ensures names { OnOk result (between_blanks (behind_blanks names.now) ≡ names.now) }
{
    for name in names {
        push_name(text, name)?;
    }
    Ok(())
}

#[tactic(auto, using(crate::proofs::NameTextLaws::name_unblanked))]
fn push_name(text: &mut Vec<u8>, name: &EntryName) -> Result<(), AllocError>
    ensures text { OnOk result (text.new.items ≡ text.old.items ++ 32 ∷ name.now) }
    ensures free { OnOk result (is_free 32 name.now ≡ true) }
{
    text.push(b' ')?;
    name.append_to(text)?;
    Ok(())
}
