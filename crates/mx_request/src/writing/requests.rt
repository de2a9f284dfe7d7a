//! The line of a request.

ghost use Rattle.std.specs.Prelude.{◌≡◌, ◌++◌, [], ◌∷◌, map, OnOk, OnErr};
ghost use Rattle.std.specs.Fmt.{decimal};
ghost use Rattle.std.specs.Option.{option_copied};
ghost use Rattle.mx_name.specs.Identifiers.{acl_id_text};
ghost use Rattle.mx_sdw.specs.Octal.{octal};
ghost use Rattle.mx_aim.specs.Classes.{class_text};
ghost use Rattle.mx_acl.specs.Modes.{modes_text};
ghost use Rattle.mx_request.specs.Fields.{line_of, ring_text, address_text};
ghost use Rattle.mx_request.specs.Growth.{IsGrown, blank_before};
ghost use Rattle.mx_request.specs.ObjectTexts.{object_fields};
ghost use Rattle.mx_request.specs.RequestTexts.{name_fields, set_iacl_word, del_iacl_word, request_text, rule_text};

use super::fields::{push_address, push_field, push_message, push_number, push_ring, push_rings};
use super::objects::push_map;
use crate::requests::Request;
use mx_acl::{AclKind, Modes};
use mx_aim::Class;
use mx_name::{AclId, EntryName, Pathname};
use mx_object::ObjectMap;
use mx_sdw::{Ring, write_octal};
use mx_search::Rule;
use std::alloc::AllocError;

/// Adds the line of a request.
pub(crate) fn push_request(out: &mut Vec<u8>, request: &Request) -> Result<(), AllocError>
    ensures ok { OnOk result (out.new.items ≡ out.old.items ++ request_text request.now) }
    ensures err { OnErr result (IsGrown out.old.items out.new.items) }
{
    match request {
        Request::CreateDir { path, d1, d2 } => push_dir(out, b"create_dir", path, *d1, *d2),
        Request::CreateSeg {
            path,
            words,
            brackets,
        } => push_seg(out, b"create_seg", path, *words, brackets),
        Request::CreateObject {
            path,
            words,
            brackets,
            map,
        } => push_object(out, b"create_object", path, *words, brackets, map.map()),
        Request::CreateLink { path, target } => push_link(out, b"create_link", path, target),
        Request::Rename { path, name } => push_name(out, b"rename", path, name),
        Request::Delete { path } => push_path(out, b"delete", path),
        Request::SetAcl { path, id, modes } => push_entry(out, b"set_acl", path, id, modes),
        Request::DelAcl { path, id } => push_id(out, b"del_acl", path, id),
        Request::SetIacl {
            path,
            kind,
            id,
            modes,
        } => push_entry(out, set_iacl_word(*kind), path, id, modes),
        Request::DelIacl { path, kind, id } => push_id(out, del_iacl_word(*kind), path, id),
        Request::SetBrackets { path, brackets } => {
            push_brackets(out, b"set_brackets", path, brackets)
        }
        Request::SetDirBrackets { path, d1, d2 } => {
            push_dir(out, b"set_dir_brackets", path, *d1, *d2)
        }
        Request::SetClass { path, class } => push_class(out, b"set_class", path, *class),
        Request::Status { path } => push_path(out, b"status", path),
        Request::List { path } => push_path(out, b"list", path),
        Request::ChangeWdir { path } => push_path(out, b"change_wdir", path),
        Request::SetRules { rules } => push_rules(out, b"set_rules", rules.items()),
        Request::Initiate { path, name } => push_named(out, b"initiate", path, name.as_ref()),
        Request::Terminate { segno } => push_segno(out, b"terminate", *segno),
        Request::Wakeup { to, word } => push_message(out, b"wakeup", *to, *word),
        Request::Block => out.extend_from_slice(b"block"),
        Request::Link { segno, word } => push_address(out, b"link", *segno, *word),
        Request::Resume => out.extend_from_slice(b"resume"),
        Request::Logout => out.extend_from_slice(b"logout"),
    }
}

/// The word of a request that sets an entry of an initial access list.
fn set_iacl_word(kind: AclKind) -> &'static [u8]
    ensures { result.now ≡ set_iacl_word kind }
{
    match kind {
        AclKind::Segment => b"set_iacl_seg",
        AclKind::Directory => b"set_iacl_dir",
    }
}

/// The word of a request that removes an entry of an initial access list.
fn del_iacl_word(kind: AclKind) -> &'static [u8]
    ensures { result.now ≡ del_iacl_word kind }
{
    match kind {
        AclKind::Segment => b"del_iacl_seg",
        AclKind::Directory => b"del_iacl_dir",
    }
}

/// `WORD PATH`
fn push_path(out: &mut Vec<u8>, word: &[u8], path: &Pathname) -> Result<(), AllocError>
    ensures ok { OnOk result (out.new.items ≡ out.old.items ++ line_of (word.now ∷ path.now ∷ [])) }
    ensures err { OnErr result (IsGrown out.old.items out.new.items) }
{
    out.extend_from_slice(word)?;
    push_pathname(out, path)
}

/// A pathname with a blank before it.
fn push_pathname(out: &mut Vec<u8>, path: &Pathname) -> Result<(), AllocError>
    ensures ok { OnOk result (out.new.items ≡ out.old.items ++ 32 ∷ path.now) }
    ensures err { OnErr result (IsGrown out.old.items out.new.items) }
{
    out.push(b' ')?;
    path.append_to(out)
}

/// `WORD PATH [NAME]`
fn push_named(
    out: &mut Vec<u8>,
    word: &[u8],
    path: &Pathname,
    name: Option<&EntryName>,
) -> Result<(), AllocError>
    ensures ok { OnOk result (out.new.items
        ≡ out.old.items ++ line_of (word.now ∷ path.now ∷ name_fields (option_copied name.entry))) }
    ensures err { OnErr result (IsGrown out.old.items out.new.items) }
{
    match name {
        Some(name) => push_name(out, word, path, name),
        None => push_path(out, word, path),
    }
}

/// `WORD RULE ...`
#[tactic(auto, using(crate::proofs::GrowthLaws::word_grows))]
fn push_rules(out: &mut Vec<u8>, word: &[u8], rules: &[Rule]) -> Result<(), AllocError>
    ensures ok { OnOk result (out.new.items ≡ out.old.items ++ line_of (word.now ∷ map rule_text rules.now)) }
    ensures err { OnErr result (IsGrown out.old.items out.new.items) }
{
    out.extend_from_slice(word)?;
    push_each_rule(out, rules)
}

/// The rules with a blank before each.
fn push_each_rule(out: &mut Vec<u8>, rules: &[Rule]) -> Result<(), AllocError>
    ensures ok { OnOk result (out.new.items ≡ out.old.items ++ blank_before (map rule_text rules.now)) }
    ensures err { OnErr result (IsGrown out.old.items out.new.items) }
{
    for rule in rules {
        push_rule(out, rule)?;
    }
    Ok(())
}

/// A rule with a blank before it.
fn push_rule(out: &mut Vec<u8>, rule: &Rule) -> Result<(), AllocError>
    ensures ok { OnOk result (out.new.items ≡ out.old.items ++ 32 ∷ rule_text rule.now) }
    ensures err { OnErr result (IsGrown out.old.items out.new.items) }
{
    match rule {
        Rule::InitiatedSegments => push_field(out, b"initiated_segments"),
        Rule::ReferencingDir => push_field(out, b"referencing_dir"),
        Rule::WorkingDir => push_field(out, b"working_dir"),
        Rule::Directory(path) => {
            out.extend_from_slice(b" ")?;
            path.append_to(out)
        }
    }
}

/// `WORD S`
fn push_segno(out: &mut Vec<u8>, word: &[u8], segno: u16) -> Result<(), AllocError>
    ensures ok { OnOk result (out.new.items ≡ out.old.items ++ line_of (word.now ∷ octal segno ∷ [])) }
    ensures err { OnErr result (IsGrown out.old.items out.new.items) }
{
    out.extend_from_slice(word)?;
    out.extend_from_slice(b" ")?;
    write_octal(out, u64::from(segno))
}

/// `WORD PATH TARGET`
fn push_link(
    out: &mut Vec<u8>,
    word: &[u8],
    path: &Pathname,
    target: &Pathname,
) -> Result<(), AllocError>
    ensures ok { OnOk result (out.new.items ≡ out.old.items ++ line_of (word.now ∷ path.now ∷ target.now ∷ [])) }
    ensures err { OnErr result (IsGrown out.old.items out.new.items) }
{
    push_path(out, word, path)?;
    push_pathname(out, target)
}

/// `WORD PATH NAME`
fn push_name(
    out: &mut Vec<u8>,
    word: &[u8],
    path: &Pathname,
    name: &EntryName,
) -> Result<(), AllocError>
    ensures ok { OnOk result (out.new.items ≡ out.old.items ++ line_of (word.now ∷ path.now ∷ name.now ∷ [])) }
    ensures err { OnErr result (IsGrown out.old.items out.new.items) }
{
    push_path(out, word, path)?;
    push_field(out, name.bytes())
}

/// `WORD PATH D1 D2`
fn push_dir(
    out: &mut Vec<u8>,
    word: &[u8],
    path: &Pathname,
    d1: Ring,
    d2: Ring,
) -> Result<(), AllocError>
    ensures ok { OnOk result (out.new.items
        ≡ out.old.items ++ line_of (word.now ∷ path.now ∷ ring_text d1 ∷ ring_text d2 ∷ [])) }
    ensures err { OnErr result (IsGrown out.old.items out.new.items) }
{
    push_path(out, word, path)?;
    push_ring(out, d1)?;
    push_ring(out, d2)
}

/// `WORD PATH R1 R2 R3`
#[tactic(auto, using(crate::proofs::GrowthLaws::path_grows))]
fn push_brackets(
    out: &mut Vec<u8>,
    word: &[u8],
    path: &Pathname,
    brackets: &[Ring; 3],
) -> Result<(), AllocError>
    ensures ok { OnOk result (out.new.items
        ≡ out.old.items ++ line_of (word.now ∷ path.now ∷ map ring_text brackets.now)) }
    ensures err { OnErr result (IsGrown out.old.items out.new.items) }
{
    push_path(out, word, path)?;
    push_rings(out, brackets)
}

/// `WORD PATH WORDS R1 R2 R3`
#[tactic(auto, using(crate::proofs::GrowthLaws::words_grow))]
fn push_seg(
    out: &mut Vec<u8>,
    word: &[u8],
    path: &Pathname,
    words: u32,
    brackets: &[Ring; 3],
) -> Result<(), AllocError>
    ensures ok { OnOk result (out.new.items
        ≡ out.old.items ++ line_of (word.now ∷ path.now ∷ decimal words ∷ map ring_text brackets.now)) }
    ensures err { OnErr result (IsGrown out.old.items out.new.items) }
{
    push_path(out, word, path)?;
    push_number(out, u64::from(words))?;
    push_rings(out, brackets)
}

/// `WORD PATH WORDS R1 R2 R3 GATE d:SYMBOL:W ... l:NAME$SYMBOL ...`
#[tactic(auto, using(crate::proofs::GrowthLaws::map_grows, crate::proofs::GrowthLaws::grown_on))]
fn push_object(
    out: &mut Vec<u8>,
    word: &[u8],
    path: &Pathname,
    words: u32,
    brackets: &[Ring; 3],
    object: &ObjectMap,
) -> Result<(), AllocError>
    ensures ok { OnOk result (out.new.items
        ≡ out.old.items
        ++ line_of (word.now ∷ path.now ∷ decimal words ∷ map ring_text brackets.now ++ object_fields object.now)) }
    ensures err { OnErr result (IsGrown out.old.items out.new.items) }
{
    push_seg(out, word, path, words, brackets)?;
    push_map(out, object)
}

/// `WORD PATH ID MODES`
fn push_entry(
    out: &mut Vec<u8>,
    word: &[u8],
    path: &Pathname,
    id: &AclId,
    modes: &Modes,
) -> Result<(), AllocError>
    ensures ok { OnOk result (out.new.items
        ≡ out.old.items ++ line_of (word.now ∷ path.now ∷ acl_id_text id.now ∷ modes_text modes.now ∷ [])) }
    ensures err { OnErr result (IsGrown out.old.items out.new.items) }
{
    push_id(out, word, path, id)?;
    push_field(out, modes.text().as_bytes())
}

/// `WORD PATH ID`
fn push_id(out: &mut Vec<u8>, word: &[u8], path: &Pathname, id: &AclId) -> Result<(), AllocError>
    ensures ok { OnOk result (out.new.items
        ≡ out.old.items ++ line_of (word.now ∷ path.now ∷ acl_id_text id.now ∷ [])) }
    ensures err { OnErr result (IsGrown out.old.items out.new.items) }
{
    push_path(out, word, path)?;
    out.extend_from_slice(b" ")?;
    id.append_to(out)
}

/// `WORD PATH CLASS`
fn push_class(
    out: &mut Vec<u8>,
    word: &[u8],
    path: &Pathname,
    class: Class,
) -> Result<(), AllocError>
    ensures ok { OnOk result (out.new.items
        ≡ out.old.items ++ line_of (word.now ∷ path.now ∷ class_text class ∷ [])) }
    ensures err { OnErr result (IsGrown out.old.items out.new.items) }
{
    push_path(out, word, path)?;
    out.extend_from_slice(b" ")?;
    write_octal(out, u64::from(class.level()))?;
    out.extend_from_slice(b":")?;
    write_octal(out, u64::from(class.categories()))
}
