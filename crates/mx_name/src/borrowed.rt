//! Entry names in place.

ghost use Rattle.std.specs.Prelude.{◌≡◌, ◌==◌, [], ◌∷◌, None};
ghost use Rattle.std.proofs.Common.{ap};
ghost use Rattle.std.specs.Cmp.{partial_equiv_from_equiv};
ghost use Rattle.std.specs.Cmp.Lexicographic.{pointwise, nat_list_eq_equiv, bytes_decides};
ghost use Rattle.mx_name.specs.Names.{name_fault};

use crate::names::EntryName;
use indexmap::Equivalent;
use std::hash::{Hash, Hasher};
use std::marker::Model;

/// The name of an entry where it stands, in a text or in a name that is held. It is seen as the list of its bytes, and finds
/// what a map keeps under that name. Takes no memory.
#[derive(Drop)]
pub struct BorrowedName<'a> {
    bytes: &'a [u8],
}

impl<'a> Model for BorrowedName<'a> {
    ghost use Rattle.std.specs.Prelude.{◌≡◌, List, ℕ, None};
    ghost use Rattle.mx_name.specs.Names.{name_fault};

    ghost Value = { List ℕ };

    ghost view = { λ a. a.bytes.now };

    ghost invariant = { λ a. name_fault a.bytes.now ≡ None };
}

impl<'a> BorrowedName<'a> {
    /// The name that stands in this text, which has no fault.
    #[inline(always)]
    pub(crate) fn of(bytes: &'a [u8]) -> BorrowedName<'a>
        requires { name_fault bytes.now ≡ None }
        ensures { result ≡ bytes.now }
    {
        BorrowedName { bytes }
    }
}

impl<'a> PartialEq for BorrowedName<'a> {
    ghost eq = { pointwise ◌==◌ };

    ghost laws = { partial_equiv_from_equiv nat_list_eq_equiv };

    fn eq(&self, other: &Self) -> bool {
        self.bytes == other.bytes
    }
}

impl<'a> Eq for BorrowedName<'a> {
    ghost laws = { nat_list_eq_equiv };
}

impl<'a> Hash for BorrowedName<'a> {
    ghost hash_input = { λ name. name ∷ [] };

    ghost respects_eq = { λ name other same. ap (λ bytes. bytes ∷ []) ((bytes_decides name other).0 same) };

    fn hash<H: Hasher>(&self, state: &mut H) {
        state.write(self.bytes);
    }
}

impl<'a> Equivalent<EntryName> for &BorrowedName<'a> {
    ghost equivalent = { λ name. pointwise ◌==◌ name.now };

    ghost respects_hash = { λ name key same. ap (λ bytes. bytes ∷ []) ((bytes_decides name.now key).0 same) };

    ghost respects_eq = { λ name one other. nat_list_eq_equiv.congr name.now one other };

    fn equivalent(&self, key: &EntryName) -> bool {
        self.bytes == key.bytes()
    }
}
