//! Tables of descriptors, with which a world opens.

ghost use Rattle.std.specs.Prelude.{◌≡◌, ℕ, List, Some, length, slice_get, vec_len};
ghost use Rattle.mx_sdw.specs.Descriptors.{Descriptor};

use mx_sdw::Desc;
use std::marker::Model;

/// The descriptors of one process, by segment number.
#[derive(Debug, Drop)]
pub(crate) struct Row {
    pub(crate) descs: Vec<Desc>,
}

impl Model for Row {
    ghost use Rattle.std.specs.Prelude.{List};
    ghost use Rattle.mx_sdw.specs.Descriptors.{Descriptor};

    ghost Value = { List Descriptor };

    ghost view = { λ row. row.descs.items };
}

/// The descriptor of each number of each process, from 1 on, after the entries with which a world opens.
#[derive(Debug, Drop)]
pub struct DescList {
    pub(crate) rows: Vec<Row>,
    pub(crate) processes: u8,
    pub(crate) numbers: u16,
    ghost rows_of_each: { vec_len rows ≡ processes },
    ghost numbers_of_each: { (i : ℕ) (row : List Descriptor) → slice_get rows.items i ≡ Some row → length row
        ≡ numbers },
}
