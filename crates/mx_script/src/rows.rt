//! The lines of a session text.

use crate::lines::Line;
use mx_request::Entrant;

/// One line of a session text, read.
#[derive(Drop)]
pub enum Row {
    /// `multics V`
    Header(u8),
    /// `history H`
    History(u32),
    /// A request of the setup, or a line of a script.
    Line(Line),
    /// `process PRINCIPAL`, and the class where it is not the lowest
    Process(Entrant),
    /// `end`
    End,
}
