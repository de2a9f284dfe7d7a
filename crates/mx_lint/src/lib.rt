//! Explains texts that are no sessions: the first bad line, which field of it is wrong and how, and what such a line looks like.
//!
//! [`lint`] tells the line that `read_session` of `mx_script` names, with its text, and a fault that this line has (`Faults`): which
//! field of its kind (`Forms`) is missing, or has which text that it cannot have, those before it being right; what is too much; which
//! word no kind has; or why the line cannot stand (`Orders`) at the place that the lines before it make (`Places`), or in a session of
//! the version that the first line says. A newline alone is said to be missing only of a line that is right. The words in which
//! a fault is told, what is wrong inside the text of a field, and the example are shown by stored texts, run by the program `sessions`.
#![tactic(auto)]

mod causes;
mod faults;
mod fields;
mod forms;
mod linting;
mod orders;
mod places;
mod reading;
mod texts;

pub use faults::{Fault, Space};
pub use fields::Field;
pub use forms::Form;
pub use linting::{Diagnosis, Finding, lint};
pub use orders::Order;
pub use places::Place;
