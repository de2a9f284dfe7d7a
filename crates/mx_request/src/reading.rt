//! What a line is read as.

ghost use Rattle.std.specs.Prelude.{◌≡◌, None, IfOk};
ghost use Rattle.std.specs.Option.{option_map};
ghost use Rattle.mx_name.specs.Cuts.{cut_at};
ghost use Rattle.mx_sdw.specs.Octal.{octal_number};
ghost use Rattle.mx_request.specs.Reading.{create_dir_at, create_seg_at, create_object_at, create_link_at, rename_at, delete_at, set_acl_at, del_acl_at, set_iacl_at, del_iacl_at, set_brackets_at, set_dir_brackets_at, set_class_at, status_at, list_at, change_wdir_at, set_rules_at, initiate_by, initiate_at, terminate_at, wakeup_at, link_at, fields_at, bare_at, request_at};

mod decimals;
mod fields;
mod kinds;
mod objects;
mod rules;
mod words;

use crate::maps::BoxedMap;
use crate::requests::Request;
pub use decimals::read_decimal;
use fields::{cut_brackets, read_brackets, read_id, read_name, read_path, read_ring};
use kinds::Kind;
use mx_acl::{AclKind, Modes};
use mx_aim::Class;
use mx_list::Sequence;
use mx_name::{cut, near_cut};
use mx_sdw::{Word, read_octal_number};
use mx_search::Rules;
use objects::read_object;
use rules::read_rules;
use std::alloc::{AllocError, Global};
pub use words::read_word_number;

#[tactic(auto, unfolding(crate::specs::Reading::request_at))]
pub(crate) fn read_line(alloc: Global, line: &[u8]) -> Result<Option<Request>, AllocError>
    ensures { IfOk result (λ request. request ≡ request_at line.now) }
{
    if let Some(request) = read_bare(line) {
        return Ok(Some(request));
    }
    let Some((word, fields)) = cut_word(line) else {
        return Ok(None);
    };
    let Some(kind) = Kind::read(word) else {
        return Ok(None);
    };
    read_fields(alloc, kind, fields)
}

/// The first word of a line, and what stands behind the blank. A call of its own, since within `read_line` its loop
/// gets slow code.
#[inline(never)]
fn cut_word(line: &[u8]) -> Option<(&[u8], &[u8])>
    ensures { option_map (λ p. (p.0.now, p.1.now)) result ≡ cut_at 32 line.now }
{
    near_cut(b' ', line)
}

/// A line that is one word.
fn read_bare(line: &[u8]) -> Option<Request>
    ensures { result ≡ bare_at line.now }
{
    if line == b"block".as_slice() {
        Some(Request::Block)
    } else if line == b"resume".as_slice() {
        Some(Request::Resume)
    } else if line == b"logout".as_slice() {
        Some(Request::Logout)
    } else {
        None
    }
}

/// What follows the word of a line of this kind.
#[inline(always)]
fn read_fields(alloc: Global, kind: Kind, fields: &[u8]) -> Result<Option<Request>, AllocError>
    ensures { IfOk result (λ request. request ≡ fields_at kind fields.now) }
{
    match kind {
        Kind::CreateDir => read_create_dir(alloc, fields),
        Kind::CreateSeg => read_create_seg(alloc, fields),
        Kind::CreateObject => read_create_object(alloc, fields),
        Kind::CreateLink => read_create_link(alloc, fields),
        Kind::Rename => read_rename(alloc, fields),
        Kind::Delete => read_delete(alloc, fields),
        Kind::SetAcl => read_set_acl(alloc, fields),
        Kind::DelAcl => read_del_acl(alloc, fields),
        Kind::SetIaclSeg => read_set_iacl(alloc, AclKind::Segment, fields),
        Kind::SetIaclDir => read_set_iacl(alloc, AclKind::Directory, fields),
        Kind::DelIaclSeg => read_del_iacl(alloc, AclKind::Segment, fields),
        Kind::DelIaclDir => read_del_iacl(alloc, AclKind::Directory, fields),
        Kind::SetBrackets => read_set_brackets(alloc, fields),
        Kind::SetDirBrackets => read_set_dir_brackets(alloc, fields),
        Kind::SetClass => read_set_class(alloc, fields),
        Kind::Status => read_status(alloc, fields),
        Kind::List => read_list(alloc, fields),
        Kind::ChangeWdir => read_change_wdir(alloc, fields),
        Kind::SetRules => read_set_rules(alloc, fields),
        Kind::Initiate => read_initiate(alloc, fields),
        Kind::Terminate => Ok(read_terminate(fields)),
        Kind::Wakeup => Ok(read_wakeup(fields)),
        Kind::Link => Ok(read_link(fields)),
    }
}

/// `PATH D1 D2`
fn read_create_dir(alloc: Global, fields: &[u8]) -> Result<Option<Request>, AllocError>
    ensures { IfOk result (λ request. request ≡ create_dir_at fields.now) }
{
    let Some((path, rings)) = cut(b' ', fields) else {
        return Ok(None);
    };
    let Some((d1, d2)) = cut(b' ', rings) else {
        return Ok(None);
    };
    let Some(d1) = read_ring(d1) else {
        return Ok(None);
    };
    let Some(d2) = read_ring(d2) else {
        return Ok(None);
    };
    let Some(path) = read_path(alloc, path)? else {
        return Ok(None);
    };
    Ok(Some(Request::CreateDir { path, d1, d2 }))
}

/// `PATH WORDS R1 R2 R3`
fn read_create_seg(alloc: Global, fields: &[u8]) -> Result<Option<Request>, AllocError>
    ensures { IfOk result (λ request. request ≡ create_seg_at fields.now) }
{
    let Some((path, rest)) = cut(b' ', fields) else {
        return Ok(None);
    };
    let Some((words, brackets)) = cut(b' ', rest) else {
        return Ok(None);
    };
    let Some(words) = read_decimal(words, 5) else {
        return Ok(None);
    };
    let Some(brackets) = read_brackets(brackets) else {
        return Ok(None);
    };
    let Some(path) = read_path(alloc, path)? else {
        return Ok(None);
    };
    Ok(Some(Request::CreateSeg {
        path,
        words,
        brackets,
    }))
}

/// `PATH WORDS R1 R2 R3 GATE d:SYMBOL:W ... l:NAME$SYMBOL ...`
fn read_create_object(alloc: Global, fields: &[u8]) -> Result<Option<Request>, AllocError>
    ensures { IfOk result (λ request. request ≡ create_object_at fields.now) }
{
    let Some((path, rest)) = cut(b' ', fields) else {
        return Ok(None);
    };
    let Some((words, rest)) = cut(b' ', rest) else {
        return Ok(None);
    };
    let Some(words) = read_decimal(words, 5) else {
        return Ok(None);
    };
    let Some(rings) = cut_brackets(rest) else {
        return Ok(None);
    };
    let Some(map) = read_object(alloc, rings.1)? else {
        return Ok(None);
    };
    let Some(path) = read_path(alloc, path)? else {
        return Ok(None);
    };
    let map = BoxedMap::new(alloc, map)?;
    let brackets = rings.0;
    Ok(Some(Request::CreateObject {
        path,
        words,
        brackets,
        map,
    }))
}

/// `PATH TARGET`
fn read_create_link(alloc: Global, fields: &[u8]) -> Result<Option<Request>, AllocError>
    ensures { IfOk result (λ request. request ≡ create_link_at fields.now) }
{
    let Some((path, target)) = cut(b' ', fields) else {
        return Ok(None);
    };
    let Some(path) = read_path(alloc, path)? else {
        return Ok(None);
    };
    let Some(target) = read_path(alloc, target)? else {
        return Ok(None);
    };
    Ok(Some(Request::CreateLink { path, target }))
}

/// `PATH NAME`
fn read_rename(alloc: Global, fields: &[u8]) -> Result<Option<Request>, AllocError>
    ensures { IfOk result (λ request. request ≡ rename_at fields.now) }
{
    let Some((path, name)) = cut(b' ', fields) else {
        return Ok(None);
    };
    let Some(name) = read_name(name) else {
        return Ok(None);
    };
    let Some(path) = read_path(alloc, path)? else {
        return Ok(None);
    };
    Ok(Some(Request::Rename { path, name }))
}

fn read_delete(alloc: Global, path: &[u8]) -> Result<Option<Request>, AllocError>
    ensures { IfOk result (λ request. request ≡ delete_at path.now) }
{
    let Some(path) = read_path(alloc, path)? else {
        return Ok(None);
    };
    Ok(Some(Request::Delete { path }))
}

/// `PATH ID MODES`
fn read_set_acl(alloc: Global, fields: &[u8]) -> Result<Option<Request>, AllocError>
    ensures { IfOk result (λ request. request ≡ set_acl_at fields.now) }
{
    let Some((path, rest)) = cut(b' ', fields) else {
        return Ok(None);
    };
    let Some((id, modes)) = cut(b' ', rest) else {
        return Ok(None);
    };
    let Some(modes) = Modes::read(modes) else {
        return Ok(None);
    };
    let Some(id) = read_id(id) else {
        return Ok(None);
    };
    let Some(path) = read_path(alloc, path)? else {
        return Ok(None);
    };
    Ok(Some(Request::SetAcl { path, id, modes }))
}

/// `PATH ID`
fn read_del_acl(alloc: Global, fields: &[u8]) -> Result<Option<Request>, AllocError>
    ensures { IfOk result (λ request. request ≡ del_acl_at fields.now) }
{
    let Some((path, id)) = cut(b' ', fields) else {
        return Ok(None);
    };
    let Some(id) = read_id(id) else {
        return Ok(None);
    };
    let Some(path) = read_path(alloc, path)? else {
        return Ok(None);
    };
    Ok(Some(Request::DelAcl { path, id }))
}

/// `PATH ID MODES`
fn read_set_iacl(alloc: Global, kind: AclKind, fields: &[u8]) -> Result<Option<Request>, AllocError>
    ensures { IfOk result (λ request. request ≡ set_iacl_at kind fields.now) }
{
    let Some((path, rest)) = cut(b' ', fields) else {
        return Ok(None);
    };
    let Some((id, modes)) = cut(b' ', rest) else {
        return Ok(None);
    };
    let Some(modes) = Modes::read(modes) else {
        return Ok(None);
    };
    let Some(id) = read_id(id) else {
        return Ok(None);
    };
    let Some(path) = read_path(alloc, path)? else {
        return Ok(None);
    };
    Ok(Some(Request::SetIacl {
        path,
        kind,
        id,
        modes,
    }))
}

/// `PATH ID`
fn read_del_iacl(alloc: Global, kind: AclKind, fields: &[u8]) -> Result<Option<Request>, AllocError>
    ensures { IfOk result (λ request. request ≡ del_iacl_at kind fields.now) }
{
    let Some((path, id)) = cut(b' ', fields) else {
        return Ok(None);
    };
    let Some(id) = read_id(id) else {
        return Ok(None);
    };
    let Some(path) = read_path(alloc, path)? else {
        return Ok(None);
    };
    Ok(Some(Request::DelIacl { path, kind, id }))
}

/// `PATH R1 R2 R3`
fn read_set_brackets(alloc: Global, fields: &[u8]) -> Result<Option<Request>, AllocError>
    ensures { IfOk result (λ request. request ≡ set_brackets_at fields.now) }
{
    let Some((path, brackets)) = cut(b' ', fields) else {
        return Ok(None);
    };
    let Some(brackets) = read_brackets(brackets) else {
        return Ok(None);
    };
    let Some(path) = read_path(alloc, path)? else {
        return Ok(None);
    };
    Ok(Some(Request::SetBrackets { path, brackets }))
}

/// `PATH D1 D2`
fn read_set_dir_brackets(alloc: Global, fields: &[u8]) -> Result<Option<Request>, AllocError>
    ensures { IfOk result (λ request. request ≡ set_dir_brackets_at fields.now) }
{
    let Some((path, rings)) = cut(b' ', fields) else {
        return Ok(None);
    };
    let Some((d1, d2)) = cut(b' ', rings) else {
        return Ok(None);
    };
    let Some(d1) = read_ring(d1) else {
        return Ok(None);
    };
    let Some(d2) = read_ring(d2) else {
        return Ok(None);
    };
    let Some(path) = read_path(alloc, path)? else {
        return Ok(None);
    };
    Ok(Some(Request::SetDirBrackets { path, d1, d2 }))
}

/// `PATH CLASS`
fn read_set_class(alloc: Global, fields: &[u8]) -> Result<Option<Request>, AllocError>
    ensures { IfOk result (λ request. request ≡ set_class_at fields.now) }
{
    let Some((path, class)) = cut(b' ', fields) else {
        return Ok(None);
    };
    let Some(class) = Class::read(class) else {
        return Ok(None);
    };
    let Some(path) = read_path(alloc, path)? else {
        return Ok(None);
    };
    Ok(Some(Request::SetClass { path, class }))
}

fn read_status(alloc: Global, path: &[u8]) -> Result<Option<Request>, AllocError>
    ensures { IfOk result (λ request. request ≡ status_at path.now) }
{
    let Some(path) = read_path(alloc, path)? else {
        return Ok(None);
    };
    Ok(Some(Request::Status { path }))
}

fn read_list(alloc: Global, path: &[u8]) -> Result<Option<Request>, AllocError>
    ensures { IfOk result (λ request. request ≡ list_at path.now) }
{
    let Some(path) = read_path(alloc, path)? else {
        return Ok(None);
    };
    Ok(Some(Request::List { path }))
}

fn read_change_wdir(alloc: Global, path: &[u8]) -> Result<Option<Request>, AllocError>
    ensures { IfOk result (λ request. request ≡ change_wdir_at path.now) }
{
    let Some(path) = read_path(alloc, path)? else {
        return Ok(None);
    };
    Ok(Some(Request::ChangeWdir { path }))
}

/// `RULE ...`
fn read_set_rules(alloc: Global, fields: &[u8]) -> Result<Option<Request>, AllocError>
    ensures { IfOk result (λ request. request ≡ set_rules_at fields.now) }
{
    let Some(rules) = read_rules(alloc, fields)? else {
        return Ok(None);
    };
    match Rules::new(Sequence::of(rules)) {
        Some(rules) => Ok(Some(Request::SetRules { rules })),
        None => Ok(None),
    }
}

/// `PATH [NAME]`
fn read_initiate(alloc: Global, fields: &[u8]) -> Result<Option<Request>, AllocError>
    ensures { IfOk result (λ request. request ≡ initiate_at fields.now) }
{
    let Some((path, name)) = cut(b' ', fields) else {
        return read_unnamed(alloc, fields);
    };
    let Some(name) = read_name(name) else {
        return Ok(None);
    };
    let Some(path) = read_path(alloc, path)? else {
        return Ok(None);
    };
    Ok(Some(Request::Initiate {
        path,
        name: Some(name),
    }))
}

/// `PATH` alone
fn read_unnamed(alloc: Global, path: &[u8]) -> Result<Option<Request>, AllocError>
    ensures { IfOk result (λ request. request ≡ initiate_by path.now None) }
{
    let Some(path) = read_path(alloc, path)? else {
        return Ok(None);
    };
    Ok(Some(Request::Initiate { path, name: None }))
}

/// `S`
fn read_terminate(segno: &[u8]) -> Option<Request>
    ensures { result ≡ terminate_at segno.now }
{
    let segno = read_octal_number(segno, 4)?;
    Some(Request::Terminate {
        segno: segno as u16,
    })
}

/// `P WORD`
fn read_wakeup(fields: &[u8]) -> Option<Request>
    ensures { result ≡ wakeup_at fields.now }
{
    let (to, word) = cut(b' ', fields)?;
    let to = read_decimal(to, 2)?;
    let word = read_word(word)?;
    if (1..=99).contains(&to) {
        Some(Request::Wakeup { to: to as u8, word })
    } else {
        None
    }
}

/// A word of 36 bits, which is one of at most twelve octal digits.
fn read_word(text: &[u8]) -> Option<Word>
    ensures { result ≡ octal_number 12 text.now }
{
    Word::new(read_octal_number(text, 12)?)
}

/// `S|W`
fn read_link(fields: &[u8]) -> Option<Request>
    ensures { result ≡ link_at fields.now }
{
    let (segno, word) = cut(b'|', fields)?;
    let segno = read_octal_number(segno, 4)?;
    let word = read_word_number(word)?;
    Some(Request::Link {
        segno: segno as u16,
        word,
    })
}
