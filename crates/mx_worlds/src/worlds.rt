//! A world that runs.

ghost use Rattle.std.specs.Prelude.{◌≡◌, ◌+◌, length, vec_len};

use crate::seats::Seat;
use mx_core::Held;
use std::alloc::Global;

/// A world that runs: what later steps and readers read of a world. It keeps the table before and after the pending
/// entry, and not the history of tables, nor which number a process knows settled.
#[derive(Debug, Drop)]
pub struct World {
    pub(crate) numbers: u16,
    pub(crate) start: u32,
    pub(crate) answered: u32,
    pub(crate) count: u32,
    pub(crate) seats: Vec<Seat>,
    pub(crate) cells: Vec<Held>,
    pub(crate) clean: Vec<bool>,
    pub(crate) ready: Vec<bool>,
    pub(crate) notes: Vec<Option<u32>>,
    pub(crate) processes: u8,
    pub(crate) alloc: Global,
    ghost seats_of_each: { vec_len seats ≡ processes + 1 },
    ghost all_cells: { vec_len cells ≡ 65536 },
    ghost all_clean: { vec_len clean ≡ 65536 },
    ghost all_pages: { vec_len ready ≡ 1024 },
}
