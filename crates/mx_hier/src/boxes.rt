//! Directories and segments on the heap.

ghost use Rattle.std.specs.Prelude.{◌≡◌, IfOk};
ghost use Rattle.std.specs.Borrow.{sem};
ghost use Rattle.mx_hier.specs.Boxes.{LendsDirectory, LendsSegment};

use crate::branches::{Directory, Segment};
use std::alloc::{AllocError, Global};
use std::marker::Model;

/// A directory on the heap, so that an entry takes no more room than a link.
#[derive(Drop)]
pub struct BoxedDirectory {
    directory: Box<Directory>,
}

impl Model for BoxedDirectory {
    ghost use Rattle.mx_hier.specs.declared.branches.Directory.{Directory};

    ghost Value = { Directory };

    ghost view = { λ a. a.directory.value };
}

impl BoxedDirectory {
    /// This directory. The only error is want of memory.
    pub(crate) fn new(alloc: Global, directory: Directory) -> Result<BoxedDirectory, AllocError>
        ensures { IfOk result (λ boxed. boxed ≡ directory) }
    {
        let directory = Box::new(alloc, directory)?;
        Ok(BoxedDirectory { directory })
    }

    /// The directory, to read.
    pub fn directory(&self) -> &Directory
        ensures { result.now ≡ self.now }
    {
        &self.directory
    }

    /// The directory, to change.
    pub(crate) fn directory_mut(&mut self) -> &mut Directory
        ensures* writes_back { sem 𝓛 (LendsDirectory self.entry result) }
        ensures value { result.now ≡ self.old }
    {
        &mut self.directory
    }
}

/// A segment on the heap, so that an entry takes no more room than a link.
#[derive(Drop)]
pub struct BoxedSegment {
    segment: Box<Segment>,
}

impl Model for BoxedSegment {
    ghost use Rattle.mx_hier.specs.declared.branches.Segment.{Segment};

    ghost Value = { Segment };

    ghost view = { λ a. a.segment.value };
}

impl BoxedSegment {
    /// This segment. The only error is want of memory.
    pub(crate) fn new(alloc: Global, segment: Segment) -> Result<BoxedSegment, AllocError>
        ensures { IfOk result (λ boxed. boxed ≡ segment) }
    {
        let segment = Box::new(alloc, segment)?;
        Ok(BoxedSegment { segment })
    }

    /// The segment, to read.
    pub fn segment(&self) -> &Segment
        ensures { result.now ≡ self.now }
    {
        &self.segment
    }

    /// The segment, to change.
    pub(crate) fn segment_mut(&mut self) -> &mut Segment
        ensures* writes_back { sem 𝓛 (LendsSegment self.entry result) }
        ensures value { result.now ≡ self.old }
    {
        &mut self.segment
    }
}
