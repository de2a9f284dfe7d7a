//! The start of threads, which begin together.

use std::sync::{OnceLock, Wait};

/// Where the threads of a run wait until the last of them was made, so that processes run beside each other. Then it is written,
/// once: the place of the process for which no thread could be had, if there is one.
#[derive(Drop)]
pub(crate) struct Start {
    refused: OnceLock<Option<usize>>,
}

impl Start {
    pub(crate) fn new() -> Start {
        Start {
            refused: OnceLock::new(),
        }
    }

    /// Waits until all are to begin, and says that the process at this place is to. It says no where no thread could be had for
    /// it: it is then handed back to who asked for one.
    pub(crate) fn wait<R: Wait>(&self, rt: &R, place: usize) -> bool {
        *self.refused.wait(rt) != Some(place)
    }

    /// All are to begin.
    pub(crate) fn begin<R: Wait>(&self, rt: &R) {
        let _first = self.refused.set(rt, None);
    }

    /// All are to begin but the process at this place, for which no thread could be had.
    pub(crate) fn refuse<R: Wait>(&self, rt: &R, place: usize) {
        let _first = self.refused.set(rt, Some(place));
    }
}
