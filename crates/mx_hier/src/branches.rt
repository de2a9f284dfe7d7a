//! What a directory's entries are.

use crate::boxes::{BoxedDirectory, BoxedSegment};
use crate::initial::InitialAcls;
use mx_acl::Acl;
use mx_aim::Class;
use mx_name::{EntryName, Path};
use mx_sdw::{Brackets, Ring};

/// What is said of a directory: its access list, the initial access lists of what is made in it, and its brackets
/// `d1 <= d2`. A caller in ring v has m or a on it only where v is at most `d1`, and s only where v is at most `d2`
/// (Multics Programmers' Manual).
#[derive(Drop)]
pub struct Directory {
    pub acl: Acl,
    pub initial: InitialAcls,
    pub d1: Ring,
    pub d2: Ring,
}

/// What is said of a segment: its access list, its class, its brackets, its length of 1 to 1,024 words, and its first
/// page of 64 words.
#[derive(Drop)]
pub struct Segment {
    pub acl: Acl,
    pub class: Class,
    pub brackets: Brackets,
    pub words: u16,
    pub page: u16,
}

/// What an entry is: a directory, a segment, or a link to a path.
pub enum Node {
    Directory(BoxedDirectory),
    Segment(BoxedSegment),
    Link(Path),
}

// By hand, so that what lets an entry go calls this, and need not let go of each of its parts.
impl Drop for Node {
    fn drop(self) {
        match self {
            Node::Directory(_directory) => {}
            Node::Segment(_segment) => {}
            Node::Link(_target) => {}
        }
    }
}

/// An entry of a directory. Its uid is never used again; `parent` is the uid of the directory that holds it, 0 for
/// the root.
#[derive(Drop)]
pub struct Branch {
    pub uid: u32,
    pub parent: u32,
    pub name: EntryName,
    pub node: Node,
}
