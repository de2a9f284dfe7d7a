//! The shared words, and what a process keeps of them.

use mx_sdw::{Desc, Op, Ring, Word};
use std::marker::Model;

/// What a descriptor word says: a process's descriptor of a number, or that it is being changed.
#[derive(Clone, Copy, Debug, PartialEq, Eq)]
pub enum DescriptorWord {
    /// The descriptor stands since this entry.
    Valid { number: u32, desc: Desc },
    /// The pair was changed by this entry.
    Fault { number: u32 },
}

/// What a valid word showed of a segment number: what a process judges on, and what its associative memory has.
#[derive(Clone, Copy, Debug, PartialEq, Eq)]
pub struct Triple {
    /// The segment number.
    pub segno: u16,
    /// The entry since which the descriptor stands.
    pub number: u32,
    /// The descriptor.
    pub desc: Desc,
}

/// What is asked of a segment.
#[derive(Clone, Copy, Debug, PartialEq, Eq)]
pub struct Asked {
    /// The operation.
    pub op: Op,
    /// The effective ring.
    pub ring: Ring,
    /// The word of the segment.
    pub word: u16,
}

/// Where a process stands: it may judge only when it is ready.
#[derive(Clone, Copy, Debug, PartialEq, Eq)]
pub enum Stage {
    /// Its flag is lowered.
    Outside,
    /// Its flag is raised, and its connect word not read since.
    Entering,
    /// It may judge.
    Ready,
}

/// What a cell holds: a word, the process that stored it (0: nobody yet), and the point of that store.
#[derive(Clone, Copy, Debug, PartialEq, Eq)]
pub struct Held {
    /// The word.
    pub value: Word,
    /// Who stored it.
    pub writer: u8,
    /// At which point.
    pub stamp: u32,
}

impl Model for Held {
    ghost use Rattle.mx_reads.specs.Held.{Held as HeldValue};

    ghost Value = { HeldValue };

    ghost view = { λ held. record { value = held.value; writer = held.writer; stamp = held.stamp } };

    ghost inverse = { λ held. record { value = held.value; writer = held.writer; stamp = held.stamp } };
}
