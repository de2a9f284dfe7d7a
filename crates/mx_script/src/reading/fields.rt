//! The fields of a line.

ghost use Rattle.std.specs.Prelude.{◌≡◌};
ghost use Rattle.mx_aim.specs.Classes.{equals, lowest};
ghost use Rattle.mx_name.specs.Principals.{principal_of};
ghost use Rattle.mx_script.specs.Fields.{written_class, entrant_at, register_at, register_base, segment_base, base_at, star_at, indirect_at, offset_at, operand_at, register_operand_at, word_at};

use crate::lines::{Base, Operand};
use crate::reading::cutting::after;
use mx_aim::Class;
use mx_name::{Principal, cut, near_cut};
use mx_request::{Entrant, read_word_number};
use mx_sdw::{Word, read_octal_number};

/// `PRINCIPAL`, or `PRINCIPAL CLASS`, where the class is not the lowest.
pub(crate) fn read_entrant(text: &[u8]) -> Option<Entrant>
    ensures { result ≡ entrant_at text.now }
{
    match cut(b' ', text) {
        Some((who, class)) => {
            let who = read_principal(who)?;
            let authorization = read_written_class(class)?;
            Some(Entrant { who, authorization })
        }
        None => {
            let who = read_principal(text)?;
            Some(Entrant {
                who,
                authorization: Class::lowest(),
            })
        }
    }
}

// The lowest class is never written out.
fn read_written_class(text: &[u8]) -> Option<Class>
    ensures { result ≡ written_class text.now }
{
    let class = Class::read(text)?;
    if is_lowest(&class) { None } else { Some(class) }
}

fn is_lowest(class: &Class) -> bool
    ensures { result ≡ equals class.now lowest }
{
    class.equals(&Class::lowest())
}

fn read_principal(text: &[u8]) -> Option<Principal>
    ensures { result ≡ principal_of text.now }
{
    Principal::read(text).ok()
}

/// The word of `set`, in octal.
pub(crate) fn read_word(text: &[u8]) -> Option<Word>
    ensures { result ≡ word_at text.now }
{
    Word::new(read_octal_number(text, 12)?)
}

/// `S|W` or `prN|W`, in octal, each with `,*` or without.
pub(crate) fn read_operand(text: &[u8]) -> Option<Operand>
    ensures { result ≡ operand_at text.now }
{
    let (base, offset) = near_cut(b'|', text)?;
    let base = read_base(base)?;
    let (word, indirect) = read_offset(offset)?;
    Some(Operand {
        base,
        word,
        indirect,
    })
}

/// `N OPERAND`
pub(crate) fn read_register_operand(text: &[u8]) -> Option<(u8, Operand)>
    ensures { result ≡ register_operand_at text.now }
{
    let (n, operand) = near_cut(b' ', text)?;
    let n = read_register(n)?;
    let operand = read_operand(operand)?;
    Some((n, operand))
}

// A pointer register's number, one octal digit.
fn read_register(text: &[u8]) -> Option<u8>
    ensures { result ≡ register_at text.now }
{
    let n = read_octal_number(text, 1)?;
    Some(n as u8)
}

// `S` or `prN`
#[tactic(auto, unfolding(crate::specs::Fields::base_at))]
fn read_base(text: &[u8]) -> Option<Base>
    ensures { result ≡ base_at text.now }
{
    if let Some(register) = after(b"pr", text) {
        read_register_base(register)
    } else {
        read_segment_base(text)
    }
}

fn read_register_base(text: &[u8]) -> Option<Base>
    ensures { result ≡ register_base text.now }
{
    let n = read_register(text)?;
    Some(Base::Register(n))
}

fn read_segment_base(text: &[u8]) -> Option<Base>
    ensures { result ≡ segment_base text.now }
{
    let segno = read_octal_number(text, 4)?;
    Some(Base::Segment(segno as u16))
}

// `W`, or `W,*` where the word is indirect. Most are the first.
fn read_offset(text: &[u8]) -> Option<(u16, bool)>
    ensures { result ≡ offset_at text.now }
{
    match read_word_number(text) {
        Some(word) => Some((word, false)),
        None => read_indirect(text),
    }
}

fn read_indirect(text: &[u8]) -> Option<(u16, bool)>
    ensures { result ≡ indirect_at text.now }
{
    let (word, star) = near_cut(b',', text)?;
    let word = read_word_number(word)?;
    let indirect = read_star(star)?;
    Some((word, indirect))
}

fn read_star(text: &[u8]) -> Option<bool>
    ensures { result ≡ star_at text.now }
{
    if text == b"*".as_slice() {
        Some(true)
    } else {
        None
    }
}
