//! The fields of the lines of a session text, and what each is read as.

ghost use Rattle.std.specs.Prelude.{◌≡◌, IfOk};
ghost use Rattle.mx_lint.specs.Fields.{is_field};

use crate::reading::{
    is_definition, is_limit, is_object_link, is_operand, is_pathname, is_receiver, is_ring,
    is_rule, is_version,
};
use mx_acl::Modes;
use mx_aim::Class;
use mx_name::{AclId, EntryName, Principal};
use mx_request::read_decimal;
use mx_sdw::read_octal_number;
use std::alloc::{AllocError, Global};

/// A field, by the name that it has in the shape of a line.
#[derive(Clone, Copy)]
pub enum Field {
    Version,
    Limit,
    Principal,
    Authorization,
    Class,
    Path,
    Target,
    Words,
    R1,
    R2,
    R3,
    D1,
    D2,
    Gate,
    Definition,
    ObjectLink,
    DefinitionOrLink,
    Name,
    Id,
    Modes,
    Rule,
    Segno,
    Receiver,
    Word,
    Register,
    Operand,
}

impl Field {
    /// Its name in the shape of a line.
    pub(crate) fn name(self) -> &'static str {
        match self {
            Field::Version => "the version",
            Field::Limit => "H",
            Field::Principal => "PRINCIPAL",
            Field::Authorization | Field::Class => "CLASS",
            Field::Path => "PATH",
            Field::Target => "TARGET",
            Field::Words => "WORDS",
            Field::R1 => "R1",
            Field::R2 => "R2",
            Field::R3 => "R3",
            Field::D1 => "D1",
            Field::D2 => "D2",
            Field::Gate => "GATE",
            Field::Definition => "d:SYMBOL:W",
            Field::ObjectLink => "l:NAME$SYMBOL",
            Field::DefinitionOrLink => "a field after GATE",
            Field::Name => "NAME",
            Field::Id => "ID",
            Field::Modes => "MODES",
            Field::Rule => "RULE",
            Field::Segno => "S",
            Field::Receiver => "P",
            Field::Word => "WORD",
            Field::Register => "N",
            Field::Operand => "OPERAND",
        }
    }

    /// What the field is to be.
    pub(crate) fn wanted(self) -> &'static str {
        match self {
            Field::Version => "1, 2, 3 or 4",
            Field::Limit => "a decimal number from 1 to 262143, with no leading zero",
            Field::Principal => {
                "Person.Project.tag, of at most 22, 9 and 1 letters, digits or `_`"
            }
            Field::Authorization => {
                "L:C, a digit from 0 to 7 and an octal number to 777777, with no leading zero; 0:0 is left out"
            }
            Field::Class => {
                "L:C, a digit from 0 to 7 and an octal number to 777777, with no leading zero"
            }
            Field::Path | Field::Target => {
                "a pathname: names with `>` between them, after one `>`, some `<` or nothing; at most 168 characters, a name at most 32 and without > < * ? $ , | : ="
            }
            Field::Words => "a decimal number of at most 5 digits, with no leading zero",
            Field::R1 | Field::R2 | Field::R3 | Field::D1 | Field::D2 => {
                "a ring, one digit from 0 to 7"
            }
            Field::Gate => "a decimal number of at most 4 digits, with no leading zero",
            Field::Definition => {
                "`d:`, a name, `:` and a word number, octal from 0 to 37777, with no leading zero"
            }
            Field::ObjectLink => "`l:`, the name of a segment, `$` and a name",
            Field::DefinitionOrLink => "d:SYMBOL:W or l:NAME$SYMBOL",
            Field::Name => {
                "a name: 1 to 32 printable ASCII characters, none of > < * ? $ , | : ="
            }
            Field::Id => {
                "Person.Project.tag, of at most 22, 9 and 1 letters, digits or `_`, or with `*` in place of any of the three"
            }
            Field::Modes => "`null`, or letters of `rew`, or letters of `sma`, in this order",
            Field::Rule => {
                "`initiated_segments`, `referencing_dir`, `working_dir` or a path from `>`"
            }
            Field::Segno => "a segment number, octal from 0 to 7777, with no leading zero",
            Field::Receiver =>
                "the number of a process, decimal from 1 to 99, with no leading zero",
            Field::Word => { "an octal word of at most 12 digits, with no leading zero" }
            Field::Register => "the number of a pointer register, one digit from 0 to 7",
            Field::Operand => {
                "S|W or prN|W in octal, S to 7777, N to 7 and W to 37777, with `,*` after it or not"
            }
        }
    }

    /// Whether a text can stand in this field.
    pub(crate) fn reads(self, alloc: Global, text: &[u8]) -> Result<bool, AllocError>
        ensures { IfOk result (λ reads. reads ≡ is_field self text.now) }
    {
        match self {
            Field::Path | Field::Target => is_pathname(alloc, text),
            Field::Rule => is_rule(alloc, text),
            Field::Version => Ok(is_version(text)),
            Field::Authorization => Ok(Class::read(text).is_some() && text != b"0:0".as_slice()),
            Field::Class => Ok(Class::read(text).is_some()),
            Field::Limit => Ok(is_limit(text)),
            Field::Principal => Ok(Principal::read(text).is_ok()),
            Field::Words => Ok(read_decimal(text, 5).is_some()),
            Field::Gate => Ok(read_decimal(text, 4).is_some()),
            Field::Definition => Ok(is_definition(text)),
            Field::ObjectLink => Ok(is_object_link(text)),
            Field::DefinitionOrLink => Ok(is_definition(text) || is_object_link(text)),
            Field::R1 | Field::R2 | Field::R3 | Field::D1 | Field::D2 | Field::Register => {
                Ok(is_ring(text))
            }
            Field::Name => Ok(EntryName::read(text).is_ok()),
            Field::Id => Ok(AclId::read(text).is_ok()),
            Field::Modes => Ok(Modes::read(text).is_some()),
            Field::Segno => Ok(read_octal_number(text, 4).is_some()),
            Field::Receiver => Ok(is_receiver(text)),
            Field::Word => Ok(read_octal_number(text, 12).is_some()),
            Field::Operand => Ok(is_operand(text)),
        }
    }
}
