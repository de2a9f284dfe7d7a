//! Sessions and their texts: from the bytes to the session, or to the number of the first bad line.
//!
//! A session is a version, the journal's limit, where it sets one, a setup of path requests, and for each of 1 to 15
//! processes its principal, its authorization and its script. Version 2 has classes of access isolation and the request
//! that sets one, version 3 the requests on initial access lists. Version 4 has no line of its own: its calls may go upward.
//! An operand begins at a segment number or at a pointer register, and may be indirect.
//! [`Session::new`] makes a session of parts exactly where they are those of one. [`read_session`] gives the one session that
//! has a text, and for a text of no session the first bad line: the line after the greatest number of leading whole lines that
//! begin the text of some session. Stands on `mx_request` for the requests and their lines, and on `mx_aim` for classes.
#![tactic(auto)]

mod laws;
mod lines;
mod outlines;
mod principals;
mod reading;
mod rows;
mod sessions;
mod writing;

pub use laws::{a_line_takes_six_bytes, each_text_is_of_one_session};
pub use lines::{Base, Line, Operand, Script, Scripts};
pub use principals::Principals;
pub use reading::{SessionError, read_session};
pub use rows::Row;
pub use sessions::Session;
