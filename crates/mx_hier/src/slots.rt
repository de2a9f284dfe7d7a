//! The slots of all uids: the branch of uid u stands in slot u - 1, which stays empty once it is removed.
ghost use Rattle.std.specs.Prelude.{◌≡◌, OnOk, OnErr, not, is_ok};
ghost use Rattle.std.specs.Option.{is_none, option_map, option_and_then};
ghost use Rattle.mx_acl.specs.Access.{entry_of, with_entry, without_entry, set_fault};
ghost use Rattle.mx_hier.specs.Branches.{as_directory};
ghost use Rattle.mx_hier.specs.Callers.{on};
ghost use Rattle.mx_hier.specs.Changing.{acl_in, acl_changed, branch_with_acl, segment_changed, branch_with_segment, directory_changed, branch_with_directory};
ghost use Rattle.mx_hier.specs.InitialLists.{initial_changed};
ghost use Rattle.mx_hier.specs.SetBrackets.{bracketed};
ghost use Rattle.mx_hier.specs.SetClass.{classed};
ghost use Rattle.mx_hier.specs.SetDirectoryBrackets.{dir_bracketed};
ghost use Rattle.mx_hier.specs.Listed.{slot_of, emptied, changed_at, acl_in_slot, directory_in_slot, iacl_fault, iacl_lacks, AclAnswers, with_name};

use crate::branches::{Branch, Node};
use mx_acl::{Acl, AclError, AclKind, Modes, NoEntry};
use mx_aim::Class;
use mx_name::{AclId, EntryName};
use mx_sdw::{Brackets, Ring};

pub(crate) fn branch_at(slots: &[Option<Branch>], uid: u32) -> Option<&Branch>
    ensures { option_map (λ branch. branch.now) result ≡ slot_of slots.now uid }
{
    if uid == 0 {
        return None;
    }
    match slots.get(uid as usize - 1) {
        Some(Some(branch)) => Some(branch),
        _ => None,
    }
}

pub(crate) fn take_branch(slots: &mut Vec<Option<Branch>>, uid: u32) -> Option<Branch>
    ensures value { result ≡ slot_of slots.old.items uid }
    ensures after { slots.new.items ≡ emptied slots.old.items uid }
{
    if uid == 0 {
        return None;
    }
    match slots.get_mut(uid as usize - 1) {
        Some(slot) => slot.take(),
        None => None,
    }
}

pub(crate) fn set_brackets_at(slots: &mut Vec<Option<Branch>>, uid: u32, brackets: Brackets)
    ensures { slots.new.items ≡ changed_at slots.old.items uid (branch_with_segment (bracketed brackets)) }
{
    if uid == 0 {
        return;
    }
    if let Some(slot) = slots.get_mut(uid as usize - 1) {
        set_brackets_in(slot, brackets);
    }
}

fn set_brackets_in(slot: &mut Option<Branch>, brackets: Brackets)
    ensures { slot.new ≡ option_map (branch_with_segment (bracketed brackets)) slot.old }
{
    if let Some(branch) = slot {
        set_node_brackets(&mut branch.node, brackets);
    }
}

fn set_node_brackets(node: &mut Node, brackets: Brackets)
    ensures { node.new ≡ segment_changed (bracketed brackets) node.old }
{
    match node {
        Node::Segment(boxed) => boxed.segment_mut().brackets = brackets,
        Node::Directory(_) => {}
        Node::Link(_) => {}
    }
}

pub(crate) fn set_class_at(slots: &mut Vec<Option<Branch>>, uid: u32, class: Class)
    ensures { slots.new.items ≡ changed_at slots.old.items uid (branch_with_segment (classed class)) }
{
    if uid == 0 {
        return;
    }
    if let Some(slot) = slots.get_mut(uid as usize - 1) {
        set_class_in(slot, class);
    }
}

fn set_class_in(slot: &mut Option<Branch>, class: Class)
    ensures { slot.new ≡ option_map (branch_with_segment (classed class)) slot.old }
{
    if let Some(branch) = slot {
        set_node_class(&mut branch.node, class);
    }
}

fn set_node_class(node: &mut Node, class: Class)
    ensures { node.new ≡ segment_changed (classed class) node.old }
{
    match node {
        Node::Segment(boxed) => boxed.segment_mut().class = class,
        Node::Directory(_) => {}
        Node::Link(_) => {}
    }
}

pub(crate) fn set_dir_brackets_at(slots: &mut Vec<Option<Branch>>, uid: u32, d1: Ring, d2: Ring)
    ensures { slots.new.items ≡ changed_at slots.old.items uid (branch_with_directory (dir_bracketed d1 d2)) }
{
    if uid == 0 {
        return;
    }
    if let Some(slot) = slots.get_mut(uid as usize - 1) {
        set_dir_brackets_in(slot, d1, d2);
    }
}

fn set_dir_brackets_in(slot: &mut Option<Branch>, d1: Ring, d2: Ring)
    ensures { slot.new ≡ option_map (branch_with_directory (dir_bracketed d1 d2)) slot.old }
{
    if let Some(branch) = slot {
        set_node_dir_brackets(&mut branch.node, d1, d2);
    }
}

fn set_node_dir_brackets(node: &mut Node, d1: Ring, d2: Ring)
    ensures { node.new ≡ directory_changed (dir_bracketed d1 d2) node.old }
{
    match node {
        Node::Directory(boxed) => {
            let directory = boxed.directory_mut();
            directory.d1 = d1;
            directory.d2 = d2;
        }
        Node::Segment(_) => {}
        Node::Link(_) => {}
    }
}

pub(crate) fn set_acl_at(
    slots: &mut Vec<Option<Branch>>,
    uid: u32,
    id: &AclId,
    modes: Modes,
) -> Result<(), AclError>
    ensures answer { AclAnswers
        (option_and_then (λ acl. set_fault acl id.now modes) (acl_in_slot (slot_of slots.old.items uid))) result }
    ensures ok { OnOk result (slots.new.items
        ≡ changed_at slots.old.items uid (branch_with_acl (λ acl. with_entry acl id.now modes))) }
    ensures err { OnErr result (slots.new.items ≡ slots.old.items) }
{
    if uid == 0 {
        return Ok(());
    }
    if let Some(slot) = slots.get_mut(uid as usize - 1) {
        set_acl_in(slot, id, modes)?;
    }
    Ok(())
}

fn set_acl_in(slot: &mut Option<Branch>, id: &AclId, modes: Modes) -> Result<(), AclError>
    ensures answer { AclAnswers (option_and_then (λ acl. set_fault acl id.now modes) (acl_in_slot slot.old)) result }
    ensures ok { OnOk result (slot.new ≡ option_map (branch_with_acl (λ acl. with_entry acl id.now modes)) slot.old) }
    ensures err { OnErr result (slot.new ≡ slot.old) }
{
    if let Some(branch) = slot {
        set_node_acl(&mut branch.node, id, modes)?;
    }
    Ok(())
}

fn set_node_acl(node: &mut Node, id: &AclId, modes: Modes) -> Result<(), AclError>
    ensures answer { AclAnswers (option_and_then (λ acl. set_fault acl id.now modes) (acl_in node.old)) result }
    ensures ok { OnOk result (node.new ≡ acl_changed (λ acl. with_entry acl id.now modes) node.old) }
    ensures err { OnErr result (node.new ≡ node.old) }
{
    match node {
        Node::Directory(boxed) => set_list(&mut boxed.directory_mut().acl, id, modes)?,
        Node::Segment(boxed) => set_list(&mut boxed.segment_mut().acl, id, modes)?,
        Node::Link(_) => {}
    }
    Ok(())
}

fn set_list(acl: &mut Acl, id: &AclId, modes: Modes) -> Result<(), AclError>
    ensures answer { AclAnswers (set_fault acl.old id.now modes) result }
    ensures ok { OnOk result (acl.new ≡ with_entry acl.old id.now modes) }
    ensures err { OnErr result (acl.new ≡ acl.old) }
{
    acl.set(*id, modes)?;
    Ok(())
}

pub(crate) fn remove_acl_at(
    slots: &mut Vec<Option<Branch>>,
    uid: u32,
    id: &AclId,
) -> Result<(), NoEntry>
    ensures found { is_ok result
        ≡ not (on (λ acl. is_none (entry_of acl id.now)) (acl_in_slot (slot_of slots.old.items uid))) }
    ensures ok { OnOk result (slots.new.items
        ≡ changed_at slots.old.items uid (branch_with_acl (λ acl. without_entry acl id.now))) }
    ensures err { OnErr result (slots.new.items ≡ slots.old.items) }
{
    if uid == 0 {
        return Ok(());
    }
    if let Some(slot) = slots.get_mut(uid as usize - 1) {
        remove_acl_in(slot, id)?;
    }
    Ok(())
}

fn remove_acl_in(slot: &mut Option<Branch>, id: &AclId) -> Result<(), NoEntry>
    ensures found { is_ok result ≡ not (on (λ acl. is_none (entry_of acl id.now)) (acl_in_slot slot.old)) }
    ensures ok { OnOk result (slot.new ≡ option_map (branch_with_acl (λ acl. without_entry acl id.now)) slot.old) }
    ensures err { OnErr result (slot.new ≡ slot.old) }
{
    if let Some(branch) = slot {
        remove_node_acl(&mut branch.node, id)?;
    }
    Ok(())
}

fn remove_node_acl(node: &mut Node, id: &AclId) -> Result<(), NoEntry>
    ensures found { is_ok result ≡ not (on (λ acl. is_none (entry_of acl id.now)) (acl_in node.old)) }
    ensures ok { OnOk result (node.new ≡ acl_changed (λ acl. without_entry acl id.now) node.old) }
    ensures err { OnErr result (node.new ≡ node.old) }
{
    match node {
        Node::Directory(boxed) => remove_from_list(&mut boxed.directory_mut().acl, id)?,
        Node::Segment(boxed) => remove_from_list(&mut boxed.segment_mut().acl, id)?,
        Node::Link(_) => {}
    }
    Ok(())
}

fn remove_from_list(acl: &mut Acl, id: &AclId) -> Result<(), NoEntry>
    ensures found { is_ok result ≡ not (is_none (entry_of acl.old id.now)) }
    ensures ok { OnOk result (acl.new ≡ without_entry acl.old id.now) }
    ensures err { OnErr result (acl.new ≡ acl.old) }
{
    acl.remove(id)?;
    Ok(())
}

pub(crate) fn set_iacl_at(
    slots: &mut Vec<Option<Branch>>,
    uid: u32,
    kind: AclKind,
    id: &AclId,
    modes: Modes,
) -> Result<(), AclError>
    ensures answer { AclAnswers
        (iacl_fault kind id.now modes (directory_in_slot (slot_of slots.old.items uid))) result }
    ensures ok { OnOk result (slots.new.items ≡ changed_at slots.old.items uid
        (branch_with_directory (initial_changed kind (λ initial. with_entry initial id.now modes)))) }
    ensures err { OnErr result (slots.new.items ≡ slots.old.items) }
{
    if uid == 0 {
        return Ok(());
    }
    if let Some(slot) = slots.get_mut(uid as usize - 1) {
        set_iacl_in(slot, kind, id, modes)?;
    }
    Ok(())
}

fn set_iacl_in(
    slot: &mut Option<Branch>,
    kind: AclKind,
    id: &AclId,
    modes: Modes,
) -> Result<(), AclError>
    ensures answer { AclAnswers (iacl_fault kind id.now modes (directory_in_slot slot.old)) result }
    ensures ok { OnOk result (slot.new ≡ option_map
        (branch_with_directory (initial_changed kind (λ initial. with_entry initial id.now modes))) slot.old) }
    ensures err { OnErr result (slot.new ≡ slot.old) }
{
    if let Some(branch) = slot {
        set_node_iacl(&mut branch.node, kind, id, modes)?;
    }
    Ok(())
}

fn set_node_iacl(node: &mut Node, kind: AclKind, id: &AclId, modes: Modes) -> Result<(), AclError>
    ensures answer { AclAnswers (iacl_fault kind id.now modes (as_directory node.old)) result }
    ensures ok { OnOk result
        (node.new ≡ directory_changed (initial_changed kind (λ initial. with_entry initial id.now modes)) node.old) }
    ensures err { OnErr result (node.new ≡ node.old) }
{
    match node {
        Node::Directory(boxed) => boxed.directory_mut().initial.set(kind, id, modes)?,
        Node::Segment(_) => {}
        Node::Link(_) => {}
    }
    Ok(())
}

pub(crate) fn remove_iacl_at(
    slots: &mut Vec<Option<Branch>>,
    uid: u32,
    kind: AclKind,
    id: &AclId,
) -> Result<(), NoEntry>
    ensures found { is_ok result ≡ not (iacl_lacks kind id.now (directory_in_slot (slot_of slots.old.items uid))) }
    ensures ok { OnOk result (slots.new.items ≡ changed_at slots.old.items uid
        (branch_with_directory (initial_changed kind (λ initial. without_entry initial id.now)))) }
    ensures err { OnErr result (slots.new.items ≡ slots.old.items) }
{
    if uid == 0 {
        return Ok(());
    }
    if let Some(slot) = slots.get_mut(uid as usize - 1) {
        remove_iacl_in(slot, kind, id)?;
    }
    Ok(())
}

fn remove_iacl_in(slot: &mut Option<Branch>, kind: AclKind, id: &AclId) -> Result<(), NoEntry>
    ensures found { is_ok result ≡ not (iacl_lacks kind id.now (directory_in_slot slot.old)) }
    ensures ok { OnOk result (slot.new ≡ option_map
        (branch_with_directory (initial_changed kind (λ initial. without_entry initial id.now))) slot.old) }
    ensures err { OnErr result (slot.new ≡ slot.old) }
{
    if let Some(branch) = slot {
        remove_node_iacl(&mut branch.node, kind, id)?;
    }
    Ok(())
}

fn remove_node_iacl(node: &mut Node, kind: AclKind, id: &AclId) -> Result<(), NoEntry>
    ensures found { is_ok result ≡ not (iacl_lacks kind id.now (as_directory node.old)) }
    ensures ok { OnOk result
        (node.new ≡ directory_changed (initial_changed kind (λ initial. without_entry initial id.now)) node.old) }
    ensures err { OnErr result (node.new ≡ node.old) }
{
    match node {
        Node::Directory(boxed) => boxed.directory_mut().initial.remove(kind, id)?,
        Node::Segment(_) => {}
        Node::Link(_) => {}
    }
    Ok(())
}

pub(crate) fn put_name(slots: &mut Vec<Option<Branch>>, uid: u32, name: EntryName)
    ensures { slots.new.items ≡ changed_at slots.old.items uid (with_name name) }
{
    if uid == 0 {
        return;
    }
    if let Some(slot) = slots.get_mut(uid as usize - 1) {
        put_name_in(slot, name);
    }
}

fn put_name_in(slot: &mut Option<Branch>, name: EntryName)
    ensures { slot.new ≡ option_map (with_name name) slot.old }
{
    if let Some(branch) = slot {
        branch.name = name;
    }
}
