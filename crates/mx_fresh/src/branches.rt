//! What a hierarchy is made of: directories, segments and links, as plain records.

use mx_acl::{Acl, InitialAcl};
use mx_aim::Class;
use mx_name::{EntryName, Path};
use mx_sdw::{Brackets, Ring};
use std::marker::Model;

/// A directory: its access list, the initial access lists of the segments and of the directories that are made in it,
/// and its brackets.
#[derive(Drop)]
pub struct Directory {
    pub(crate) acl: Acl,
    pub(crate) segments: InitialAcl,
    pub(crate) directories: InitialAcl,
    pub(crate) d1: Ring,
    pub(crate) d2: Ring,
}

impl Model for Directory {
    ghost use Rattle.std.specs.Prelude.{◌≡◌};
    ghost use Rattle.mx_acl.specs.declared.modes.AclKind.TheVariants.{Segment as OfSegment, Directory as OfDirectory};
    ghost use Rattle.mx_hier.specs.declared.branches.Directory.{Directory};

    ghost Value = { Directory };

    ghost view = { λ a. record {
      acl = a.acl;
      initial = record { segments = a.segments; directories = a.directories };
      d1 = a.d1;
      d2 = a.d2;
    } };

    ghost invariant = { λ a. (a.segments.kind ≡ OfSegment) × (a.directories.kind ≡ OfDirectory) };
}

/// A segment of 1 to 1,024 words: its access list, its class, its brackets, its length in words, and the first of its
/// pages, which are pages of memory.
#[derive(Drop)]
pub struct Segment {
    pub(crate) acl: Acl,
    pub(crate) class: Class,
    pub(crate) brackets: Brackets,
    pub(crate) words: u16,
    pub(crate) page: u16,
}

impl Model for Segment {
    ghost use Rattle.std.specs.Prelude.{◌≤◌, ◌+◌};
    ghost use Rattle.mx_pages.specs.Runs.{pages_for};
    ghost use Rattle.mx_hier.specs.declared.branches.Segment.{Segment};

    ghost Value = { Segment };

    ghost view = { λ a. record {
      acl = a.acl;
      class = a.class;
      brackets = a.brackets;
      words = a.words;
      page = a.page;
    } };

    ghost invariant = { λ a. (1 ≤ a.words) × (a.words ≤ 1024) × (a.page + pages_for a.words ≤ 1024) };
}

/// What an entry is: a directory, a segment, or a link to a path.
pub enum Form {
    Directory(Directory),
    Segment(Segment),
    Link(Path),
}

impl Drop for Form {
    fn drop(self) {
        match self {
            Form::Directory(_directory) => {}
            Form::Segment(_segment) => {}
            Form::Link(_target) => {}
        }
    }
}

/// An entry of the directory `parent`, of which 0 is the root.
#[derive(Drop)]
pub struct Branch {
    pub(crate) uid: u32,
    pub(crate) parent: u32,
    pub(crate) name: EntryName,
    pub(crate) form: Form,
}

impl Model for Branch {
    ghost use Rattle.mx_hier.specs.declared.branches.Branch.{Branch};
    ghost use Rattle.mx_fresh.specs.Forms.{node_of};

    ghost Value = { Branch };

    ghost view = { λ a. record { uid = a.uid; parent = a.parent; name = a.name; node = node_of a.form } };
}
