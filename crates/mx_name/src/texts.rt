//! Short texts, held in the value itself.
ghost use Rattle.std.specs.Prelude.{◌≡◌, ◌≤◌, ◌<◌, ◌==◌, [], ◌∷◌, ◌++◌, Some, OnOk, OnErr, refl, length};
ghost use Rattle.std.proofs.Common.{ap};
ghost use Rattle.std.specs.Ordering.{nat_cmp};
ghost use Rattle.std.specs.Cmp.{partial_equiv_from_equiv};
ghost use Rattle.std.specs.Cmp.Lexicographic.{pointwise, slice_cmp, nat_list_eq_equiv, nat_list_cmp_total, texts_ties, texts_po, bytes_decides};

use std::alloc::AllocError;
use std::cmp::Ordering;
use std::hash::{Hash, Hasher};
use std::marker::Model;

/// A text of at most MOST bytes, seen as the list of its bytes. The bytes behind it are zero, so that it is its bytes
/// alone.
#[derive(Clone, Copy, Debug)]
pub struct Text<const MOST: usize> {
    bytes: [u8; MOST],
    size: u8,
}

impl<const MOST: usize> Model for Text<MOST> {
    ghost use Rattle.std.specs.Prelude.{ℕ, ◌-◌, List, ◌++◌, take, replicate, length};
    ghost use Rattle.mx_name.specs.Texts.{IsText, given_back};

    ghost Value = { List ℕ };

    ghost view = { λ a. take a.size a.bytes };

    ghost inverse = { λ d. record { bytes = d ++ replicate (MOST - length d) 0; size = length d } };

    ghost invariant = { λ a. IsText MOST a.size a.bytes };

    ghost inverse_ok = { λ a text. given_back MOST a text };
}

impl<const MOST: usize> Text<MOST> {
    /// The text of these bytes.
    pub fn of(bytes: &[u8]) -> Text<MOST>
        requires within { length bytes.now ≤ MOST }
        requires counted { length bytes.now < 256 }
        ensures { result ≡ bytes.now }
    {
        let mut held = [0; MOST];
        held[..bytes.len()].copy_from_slice(bytes);
        Text {
            bytes: held,
            size: bytes.len() as u8,
        }
    }

    /// The bytes of the text.
    #[inline(always)]
    pub fn bytes(&self) -> &[u8]
        ensures value { result.now ≡ self.now }
        ensures within { length self.now ≤ MOST }
    {
        &self.bytes[..usize::from(self.size)]
    }

    /// Appends the bytes of the text; want of memory leaves the output as it was. Where there is room for them all MOST places are copied,
    /// whose number is known beforehand, and those behind the text are taken off again.
    #[inline(always)]
    #[tactic(auto, using(crate::proofs::Appending::front_appended))]
    pub fn append_to(&self, out: &mut Vec<u8>) -> Result<(), AllocError>
        ensures ok { OnOk result (out.new.items ≡ out.old.items ++ self.now) }
        ensures err { OnErr result (out.new.items ≡ out.old.items) }
    {
        if out.capacity() - out.len() < MOST {
            return out.extend_from_slice(self.bytes());
        }
        let length = out.len() + usize::from(self.size);
        out.extend_from_slice(&self.bytes)?;
        out.truncate(length);
        Ok(())
    }
}

impl<const MOST: usize> PartialEq for Text<MOST> {
    ghost eq = { pointwise ◌==◌ };

    ghost laws = { partial_equiv_from_equiv nat_list_eq_equiv };

    fn eq(&self, other: &Self) -> bool {
        self.bytes() == other.bytes()
    }
}

impl<const MOST: usize> Eq for Text<MOST> {
    ghost laws = { nat_list_eq_equiv };
}

impl<const MOST: usize> PartialOrd for Text<MOST> {
    ghost partial_cmp = { λ xs ys. Some (slice_cmp nat_cmp xs ys) };

    ghost laws = { texts_po };

    fn partial_cmp(&self, other: &Self) -> Option<Ordering> {
        Some(self.cmp(other))
    }
}

impl<const MOST: usize> Ord for Text<MOST> {
    ghost cmp = { slice_cmp nat_cmp };

    ghost total = { nat_list_cmp_total };

    ghost matches_partial_cmp = { λ xs ys. refl };

    ghost matches_eq = { texts_ties };

    fn cmp(&self, other: &Self) -> Ordering {
        self.bytes().cmp(&other.bytes())
    }
}

impl<const MOST: usize> Hash for Text<MOST> {
    ghost hash_input = { λ text. text ∷ [] };

    ghost respects_eq = { λ text other same. ap (λ bytes. bytes ∷ []) ((bytes_decides text other).0 same) };

    fn hash<H: Hasher>(&self, state: &mut H) {
        state.write(self.bytes());
    }
}
