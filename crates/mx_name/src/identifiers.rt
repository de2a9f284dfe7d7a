//! Identifiers of access list entries.
ghost use Rattle.std.specs.Prelude.{◌≡◌, ◌+◌, ◌≤◌, ◌++◌, ℕ, Some, IfOk, OnOk, OnErr};
ghost use Rattle.std.specs.Ordering.{nat_cmp, ordering_then};
ghost use Rattle.std.specs.Cmp.Lexicographic.{slice_cmp};
ghost use Rattle.mx_name.specs.Parts.{plain};
ghost use Rattle.mx_name.specs.Identifiers.{PlainAclId, IsAclId, component_of, component_fault, component_matches, weight, id_fault, id_matches, id_rank, id_parts, maker_id, acl_id_reading, acl_id_of, acl_id_text};
ghost use Rattle.mx_name.specs.IdentifierOrder.{components_cmp, id_cmp};

use crate::names::NameError;
use crate::principals::{Parts, Principal, component_fault, spelled};
use crate::spelling::append_components;
use crate::texts::Text;
use std::alloc::AllocError;
use std::cmp::Ordering;
use std::hash::{Hash, Hasher};
use std::marker::Model;

/// The identifier of an access list entry, as `Person.*.tag`: three components as a principal has them, each a literal
/// or `*`. They are held as they are written.
#[derive(Clone, Copy, Debug)]
pub struct AclId {
    person: Text<22>,
    project: Text<9>,
    tag: Text<1>,
}

impl Model for AclId {
    ghost use Rattle.mx_name.specs.Identifiers.{PlainAclId, IsAclId, component_text, id_parts};
    ghost use Rattle.mx_name.specs.Stars.{written_so};

    ghost Value = { PlainAclId };

    ghost view = { λ a. id_parts (record { person = a.person; project = a.project; tag = a.tag }) };

    ghost inverse = { λ d. record {
      person = component_text d.person;
      project = component_text d.project;
      tag = component_text d.tag;
    } };

    ghost invariant = { λ a. IsAclId (id_parts (record { person = a.person; project = a.project; tag = a.tag })) };

    ghost inverse_ok = { λ a h. written_so a };
}

/// Two identifiers are equal where the order does not tell them apart.
impl PartialEq for AclId {
    ghost use Rattle.std.specs.Ordering.{eq_by_cmp};
    ghost use Rattle.std.specs.Cmp.{partial_equiv_from_equiv, eq_by_cmp_equiv};
    ghost use Rattle.mx_name.specs.IdentifierOrder.{id_cmp};
    ghost use Rattle.mx_name.specs.OrderLaws.{id_total};

    ghost eq = { eq_by_cmp id_cmp };

    ghost laws = { partial_equiv_from_equiv (eq_by_cmp_equiv id_total) };

    fn eq(&self, other: &Self) -> bool {
        self.cmp(other) == Ordering::Equal
    }
}

impl Eq for AclId {
    ghost use Rattle.std.specs.Cmp.{eq_by_cmp_equiv};
    ghost use Rattle.mx_name.specs.OrderLaws.{id_total};

    ghost laws = { eq_by_cmp_equiv id_total };
}

/// Identifiers are in the order in which an access list keeps them: by rank, equal ranks in byte order of their texts.
impl PartialOrd for AclId {
    ghost use Rattle.std.specs.Prelude.{Some};
    ghost use Rattle.std.specs.Cmp.{partial_order_from_total};
    ghost use Rattle.mx_name.specs.IdentifierOrder.{id_cmp};
    ghost use Rattle.mx_name.specs.OrderLaws.{id_total};

    ghost partial_cmp = { λ a b. Some (id_cmp a b) };

    ghost laws = { partial_order_from_total id_total };

    fn partial_cmp(&self, other: &Self) -> Option<Ordering> {
        Some(self.cmp(other))
    }
}

impl Ord for AclId {
    ghost use Rattle.std.specs.Prelude.{refl};
    ghost use Rattle.mx_name.specs.IdentifierOrder.{id_cmp};
    ghost use Rattle.mx_name.specs.OrderLaws.{id_total};

    ghost cmp = { id_cmp };

    ghost total = { id_total };

    ghost matches_partial_cmp = { λ a b. refl };

    ghost matches_eq = { λ a b. refl };

    fn cmp(&self, other: &Self) -> Ordering {
        match self.rank().cmp(&other.rank()) {
            Ordering::Equal => self.components_cmp(other),
            different => different,
        }
    }
}

impl Hash for AclId {
    ghost use Rattle.mx_name.specs.OrderLaws.{id_decides};
    ghost use Rattle.mx_name.specs.Identifiers.{component_text};
    ghost use Rattle.std.specs.Prelude.{[], ◌∷◌};
    ghost use Rattle.std.specs.Hash.{same_Alike};

    ghost hash_input = { λ a. component_text a.person ∷ component_text a.project ∷ component_text a.tag ∷ [] };

    ghost respects_eq = { (same_Alike _ id_decides).fed };

    fn hash<H: Hasher>(&self, state: &mut H) {
        self.person.hash(state);
        self.project.hash(state);
        self.tag.hash(state);
    }
}

impl AclId {
    /// The identifier that a text spells. An empty text is `Empty`; then one without exactly three components is
    /// `BadChar`; then the first bad component from the left answers: `Empty`, `TooLong`, `BadChar`, in this order.
    /// Takes no memory.
    pub fn read(text: &[u8]) -> Result<AclId, NameError>
        ensures answer { result ≡ acl_id_reading text.now }
        ensures spelled { IfOk result (λ id. acl_id_text id ≡ text.now) }
    {
        let parts = spelled(text)?;
        match id_fault(&parts) {
            Some(fault) => Err(fault),
            None => Ok(AclId::of(&parts)),
        }
    }

    #[tactic(auto, using(crate::proofs::IdLaws::written_within))]
    fn of(parts: &Parts) -> AclId
        requires { IsAclId (id_parts (plain parts.now)) }
        ensures { result ≡ id_parts (plain parts.now) }
    {
        AclId {
            person: Text::of(parts.person),
            project: Text::of(parts.project),
            tag: Text::of(parts.tag),
        }
    }

    /// `Person.Project.*`, the identifier of the entry that a new branch gets for its maker. Takes no memory.
    pub fn of_maker(who: &Principal) -> AclId
        ensures { result ≡ maker_id who.now }
    {
        AclId {
            person: Text::of(who.person()),
            project: Text::of(who.project()),
            tag: Text::of(b"*".as_slice()),
        }
    }

    /// Whether the identifier matches a principal: each component is `*` or the principal's own. Takes no memory.
    pub fn matches(&self, who: &Principal) -> bool
        ensures { result ≡ id_matches self.now who.now }
    {
        component_matches(self.person.bytes(), who.person())
            && component_matches(self.project.bytes(), who.project())
            && component_matches(self.tag.bytes(), who.tag())
    }

    /// 4 for `*` as the person, 2 as the project and 1 as the tag, summed: 0 to 7. Takes no memory.
    pub fn rank(&self) -> u8
        ensures value { result ≡ id_rank self.now }
        ensures bound { result ≤ 7 }
    {
        weight(4, self.person.bytes())
            + weight(2, self.project.bytes())
            + weight(1, self.tag.bytes())
    }

    /// Appends the identifier's text; want of memory leaves the output as it was. The text is read as this identifier.
    pub fn append_to(&self, out: &mut Vec<u8>) -> Result<(), AllocError>
        ensures ok { OnOk result (out.new.items ≡ out.old.items ++ acl_id_text self.now) }
        ensures err { OnErr result (out.new.items ≡ out.old.items) }
        ensures again { acl_id_of (acl_id_text self.now) ≡ Some self.now }
    {
        append_components(
            out,
            self.person.bytes(),
            self.project.bytes(),
            self.tag.bytes(),
        )
    }

    fn components_cmp(&self, other: &AclId) -> Ordering
        ensures { result ≡ components_cmp self.now other.now }
    {
        self.person
            .cmp(&other.person)
            .then(self.project.cmp(&other.project))
            .then(self.tag.cmp(&other.tag))
    }
}

fn component_matches(own: &[u8], text: &[u8]) -> bool
    ensures { result ≡ component_matches (component_of own.now) text.now }
{
    own == b"*".as_slice() || own == text
}

fn weight(most: u8, text: &[u8]) -> u8
    ensures value { result ≡ weight most (component_of text.now) }
    ensures bound { result ≤ most }
{
    if text == b"*".as_slice() { most } else { 0 }
}

/// The fault of the first bad component from the left, where `*` is a good one.
fn id_fault(parts: &Parts) -> Option<NameError>
    ensures { result ≡ id_fault (id_parts (plain parts.now)) }
{
    starred_fault(22, parts.person)
        .or(starred_fault(9, parts.project))
        .or(starred_fault(1, parts.tag))
}

fn starred_fault(most: usize, text: &[u8]) -> Option<NameError>
    ensures { result ≡ component_fault most (component_of text.now) }
{
    if text == b"*".as_slice() {
        None
    } else {
        component_fault(most, text)
    }
}

/// Law: the order of identifiers is by rank, and equal ranks are in byte order of their texts.
pub fn kept_order(a: &AclId, b: &AclId)
    ensures { id_cmp a.now b.now
        ≡ ordering_then (nat_cmp (id_rank a.now) (id_rank b.now))
        (slice_cmp nat_cmp (acl_id_text a.now) (acl_id_text b.now)) }
{
    let _ = &a.person;
    let _ = &b.person;
}
