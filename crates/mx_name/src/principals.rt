//! Principals.
ghost use Rattle.std.specs.Prelude.{◌≡◌, ◌==◌, ◌++◌, ℕ, Some, IfOk, OnOk, OnErr, Ok, Err};
ghost use Rattle.std.specs.List.{list_all, slice_split};
ghost use Rattle.mx_name.specs.Names.{fault_of};
ghost use Rattle.mx_name.specs.Principals.{PlainPrincipal, is_principal_byte, components_fault, three, spelled, principal_reading, principal_of, principal_text, IsPrincipal};
ghost use Rattle.mx_name.specs.Parts.{plain, spelling};

use crate::cutting::first_part;
use crate::names::NameError;
use crate::spelling::append_components;
use crate::texts::Text;
use std::alloc::AllocError;
use std::marker::Model;

/// A principal, `Person.Project.tag`: a person of 1 to 22, a project of 1 to 9 and a tag of one letter, digit or `_`
/// (these bounds are this model's choice).
#[derive(Clone, Copy, Debug, PartialEq, Eq, PartialOrd, Ord, Hash)]
pub struct Principal {
    person: Text<22>,
    project: Text<9>,
    tag: Text<1>,
}

impl Model for Principal {
    ghost use Rattle.mx_name.specs.Principals.{PlainPrincipal, IsPrincipal};

    ghost Value = { PlainPrincipal };

    ghost view = { λ a. record { person = a.person; project = a.project; tag = a.tag } };

    ghost inverse = { λ d. record { person = d.person; project = d.project; tag = d.tag } };

    ghost invariant = { λ a. IsPrincipal (record { person = a.person; project = a.project; tag = a.tag }) };
}

impl Principal {
    /// The principal that a text spells. An empty text is `Empty`; then one without exactly three components is
    /// `BadChar`; then the first bad component from the left answers: `Empty`, `TooLong`, `BadChar`, in this order.
    /// Takes no memory.
    pub fn read(text: &[u8]) -> Result<Principal, NameError>
        ensures answer { result ≡ principal_reading text.now }
        ensures spelled { IfOk result (λ who. principal_text who ≡ text.now) }
    {
        let parts = spelled(text)?;
        match components_fault(&parts) {
            Some(fault) => Err(fault),
            None => Ok(Principal::of(&parts)),
        }
    }

    #[tactic(auto, using(crate::proofs::TextLaws::components_within))]
    fn of(parts: &Parts) -> Principal
        requires { IsPrincipal (plain parts.now) }
        ensures { result ≡ plain parts.now }
    {
        Principal {
            person: Text::of(parts.person),
            project: Text::of(parts.project),
            tag: Text::of(parts.tag),
        }
    }

    pub(crate) fn person(&self) -> &[u8]
        ensures value { result.now ≡ self.now.person }
        ensures principal { IsPrincipal self.now }
    {
        self.person.bytes()
    }

    pub(crate) fn project(&self) -> &[u8]
        ensures { result.now ≡ self.now.project }
    {
        self.project.bytes()
    }

    pub(crate) fn tag(&self) -> &[u8]
        ensures { result.now ≡ self.now.tag }
    {
        self.tag.bytes()
    }

    /// Appends the principal's text; want of memory leaves the output as it was. The text is read as this principal.
    pub fn append_to(&self, out: &mut Vec<u8>) -> Result<(), AllocError>
        ensures ok { OnOk result (out.new.items ≡ out.old.items ++ principal_text self.now) }
        ensures err { OnErr result (out.new.items ≡ out.old.items) }
        ensures again { principal_of (principal_text self.now) ≡ Some self.now }
    {
        append_components(
            out,
            self.person.bytes(),
            self.project.bytes(),
            self.tag.bytes(),
        )
    }
}

/// The three components of a text, as they stand in it.
#[derive(Clone, Copy)]
pub(crate) struct Parts<'a> {
    pub(crate) person: &'a [u8],
    pub(crate) project: &'a [u8],
    pub(crate) tag: &'a [u8],
}

/// The components of a text that has exactly three, with dots between them.
pub(crate) fn spelled(text: &[u8]) -> Result<Parts<'_>, NameError>
    ensures { spelling result ≡ spelled text.now }
{
    if text.is_empty() {
        Err(NameError::Empty)
    } else {
        three(text)
    }
}

#[tactic(auto, using(crate::proofs::Splitting::no_fourth))]
fn three(text: &[u8]) -> Result<Parts<'_>, NameError>
    ensures { spelling result ≡ three (slice_split (λ c. c == 46) text.now) }
{
    let Some((person, rest)) = first_part(b'.', text) else {
        return Err(NameError::BadChar);
    };
    let Some((project, tag)) = first_part(b'.', rest) else {
        return Err(NameError::BadChar);
    };
    match first_part(b'.', tag) {
        Some(_) => Err(NameError::BadChar),
        None => Ok(Parts {
            person,
            project,
            tag,
        }),
    }
}

/// The fault of the first bad component from the left.
fn components_fault(parts: &Parts) -> Option<NameError>
    ensures { result ≡ components_fault (plain parts.now) }
{
    component_fault(22, parts.person)
        .or(component_fault(9, parts.project))
        .or(component_fault(1, parts.tag))
}

/// The first fault of a text as a component of at most so many bytes.
pub(crate) fn component_fault(most: usize, text: &[u8]) -> Option<NameError>
    ensures { result ≡ fault_of is_principal_byte most text.now }
{
    if text.is_empty() {
        Some(NameError::Empty)
    } else if text.len() > most {
        Some(NameError::TooLong)
    } else if all_principal_bytes(text) {
        None
    } else {
        Some(NameError::BadChar)
    }
}

fn all_principal_bytes(text: &[u8]) -> bool
    ensures { result ≡ list_all is_principal_byte text.now }
{
    text.iter().all(
        |byte: &u8| -> bool
            ensures { result ≡ is_principal_byte byte.now }
        { byte.is_ascii_alphanumeric() || *byte == b'_' },
    )
}
