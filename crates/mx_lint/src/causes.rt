//! What it is in a text that its field cannot have.

use crate::fields::Field;
use crate::texts::Shown;
use std::fmt::{self, Display, Formatter, Write};

/// The most characters of a pathname.
const PATHNAME: usize = 168;

/// The most characters of a name.
const NAME: usize = 32;

/// The most characters of the components of a principal, and of an identifier.
const COMPONENTS: [usize; 3] = [22, 9, 1];

/// What is wrong in a text.
#[derive(Clone, Copy)]
pub(crate) enum Cause<'a> {
    /// It has so many characters.
    Long(usize),
    /// A name of it has so many characters.
    LongName(&'a [u8]),
    /// It ends with the mark that stands between names.
    NoLastName,
    /// Two marks have no name between them.
    NoName,
    /// This byte may not stand in a name.
    NotInName(u8),
    /// It has so many components.
    Components(usize),
    /// This component has too many characters.
    LongComponent(&'a [u8]),
    /// A component has no character.
    NoComponent,
    /// This byte may not stand in a component.
    NotInComponent(u8),
    /// This byte is no digit.
    NoDigit(u8),
    /// This byte is a digit, but no octal one.
    NoOctalDigit(u8),
    /// It begins with 0 and does not end there.
    LeadingZero,
    /// It has so many digits.
    Digits(usize),
}

/// What is wrong in a text that this field cannot have; none where what the field is to be says enough.
pub(crate) fn cause_of<'a>(field: Field, text: &'a [u8]) -> Option<Cause<'a>> {
    match field {
        Field::Path | Field::Target => in_pathname(text),
        Field::Rule => if text.starts_with(b">") {
            in_pathname(text)
        } else {
            None
        },
        Field::Name => in_name(text),
        Field::Principal => in_components(text, false),
        Field::Id => in_components(text, true),
        Field::Limit => in_decimal(text, 6),
        Field::Words => in_decimal(text, 5),
        Field::Gate => in_decimal(text, 4),
        Field::Receiver => in_decimal(text, 2),
        Field::Segno => in_octal(text, 4),
        Field::Word => in_octal(text, 12),
        Field::Operand => text
            .iter()
            .find(|byte| is_no_octal_digit(**byte))
            .map(|byte| Cause::NoOctalDigit(*byte)),
        Field::Version
        | Field::Authorization
        | Field::Class
        | Field::R1
        | Field::R2
        | Field::R3
        | Field::D1
        | Field::D2
        | Field::Definition
        | Field::ObjectLink
        | Field::DefinitionOrLink
        | Field::Modes
        | Field::Register => None,
    }
}

// In a pathname.
fn in_pathname(text: &[u8]) -> Option<Cause<'_>> {
    if text.len() > PATHNAME {
        return Some(Cause::Long(text.len()));
    }
    let mut names = names_in(text).split(|byte| *byte == b'>').peekable();
    while let Some(name) = names.next() {
        if name.is_empty() {
            return Some(match names.peek() {
                Some(_) => Cause::NoName,
                None => Cause::NoLastName,
            });
        }
        if name.len() > NAME {
            return Some(Cause::LongName(name));
        }
        if let Some(byte) = name.iter().find(|byte| !is_in_name(**byte)) {
            return Some(Cause::NotInName(*byte));
        }
    }
    None
}

// The names of a pathname: what stands after one `>` at its front, or after each `<`.
fn names_in(text: &[u8]) -> &[u8] {
    if let Some(names) = text.strip_prefix(b">") {
        return names;
    }
    let mut names = text;
    for _up in text {
        match names.strip_prefix(b"<") {
            Some(rest) => names = rest,
            None => return names,
        }
    }
    names
}

// In a name.
fn in_name(text: &[u8]) -> Option<Cause<'_>> {
    if text.len() > NAME {
        return Some(Cause::Long(text.len()));
    }
    let byte = text.iter().find(|byte| !is_in_name(**byte))?;
    Some(Cause::NotInName(*byte))
}

// Whether a byte may stand in a name.
fn is_in_name(byte: u8) -> bool {
    byte.is_ascii_graphic() && !b"><*?$,|:=".contains(&byte)
}

// In the components of a principal, or of an identifier, where one may be `*`.
fn in_components(text: &[u8], any: bool) -> Option<Cause<'_>> {
    let count = text.split(|byte| *byte == b'.').count();
    if count != COMPONENTS.len() {
        return Some(Cause::Components(count));
    }
    for (component, most) in text.split(|byte| *byte == b'.').zip(COMPONENTS.iter()) {
        if any && component == b"*".as_slice() {
            continue;
        }
        if component.is_empty() {
            return Some(Cause::NoComponent);
        }
        if let Some(byte) = component.iter().find(|byte| !is_in_component(**byte)) {
            return Some(Cause::NotInComponent(*byte));
        }
        if component.len() > *most {
            return Some(Cause::LongComponent(component));
        }
    }
    None
}

// Whether a byte may stand in a component.
fn is_in_component(byte: u8) -> bool {
    byte.is_ascii_alphanumeric() || byte == b'_'
}

// In a decimal number of at most so many digits.
fn in_decimal(text: &[u8], most: usize) -> Option<Cause<'_>> {
    match text.iter().find(|byte| !byte.is_ascii_digit()) {
        Some(byte) => Some(Cause::NoDigit(*byte)),
        None => in_digits(text, most),
    }
}

// In an octal number of at most so many digits.
fn in_octal(text: &[u8], most: usize) -> Option<Cause<'_>> {
    match text.iter().find(|byte| !(b'0'..=b'7').contains(*byte)) {
        Some(byte) if is_no_octal_digit(*byte) => Some(Cause::NoOctalDigit(*byte)),
        Some(byte) => Some(Cause::NoDigit(*byte)),
        None => in_digits(text, most),
    }
}

// 8 and 9.
fn is_no_octal_digit(byte: u8) -> bool {
    byte == b'8' || byte == b'9'
}

// In digits alone.
fn in_digits(text: &[u8], most: usize) -> Option<Cause<'_>> {
    if text.len() > 1 && text.starts_with(b"0") {
        Some(Cause::LeadingZero)
    } else if text.len() > most {
        Some(Cause::Digits(text.len()))
    } else {
        None
    }
}

impl<'a> Display for Cause<'a> {
    fn fmt<W: Write>(&self, f: &mut Formatter<W>) -> fmt::Result {
        match self {
            Cause::Long(count) => write!(f, "it has {count} characters"),
            Cause::LongName(name) => {
                write!(
                    f,
                    "the name `{}` has {} characters",
                    Shown(name),
                    name.len()
                )
            }
            Cause::NoLastName => f.write_str("no name stands after the last `>`"),
            Cause::NoName => f.write_str("no name stands between two `>`"),
            Cause::NotInName(byte) => write!(f, "`{}` may not stand in a name", Shown(&[*byte])),
            Cause::Components(1) => f.write_str("it has one component, and not three"),
            Cause::Components(count) => write!(f, "it has {count} components, and not three"),
            Cause::LongComponent(component) => {
                let count = component.len();
                write!(f, "`{}` has {count} characters", Shown(component))
            }
            Cause::NoComponent => f.write_str("one of the three is empty"),
            Cause::NotInComponent(byte) => write!(f, "`{}` may not stand there", Shown(&[*byte])),
            Cause::NoDigit(byte) => write!(f, "`{}` is no digit", Shown(&[*byte])),
            Cause::NoOctalDigit(byte) => write!(f, "{} is no octal digit", char::from(*byte)),
            Cause::LeadingZero => f.write_str("it begins with 0"),
            Cause::Digits(count) => write!(f, "it has {count} digits"),
        }
    }
}
