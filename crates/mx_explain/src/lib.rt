//! The top call of the program `show`: from the words of the command line and the bytes of a session's text to what is shown of it.
//!
//! [`show`] reads the words of a command line (`Commands`). It reads the source, has `mx_lint` read the text and explain it where it is no
//! session, runs the session with `mx_proc`, and has `mx_show` tell or `mx_picture` draw the run; or it has `mx_outcomes` run it in all
//! orders of its lines and tell what they come to; or it has `mx_breach` judge a printed run; or it prints a text without its titles
//! (`PlainTexts`), the session of a drill, or how to use the program (`Usage`). In which order processes take turns is named by words or
//! chosen by a number (`Orders`). Status 0 means that what the words ask for was written, status 5 that the source held no session and
//! that the first bad line was named (`Statuses`).
#![tactic(auto)]

mod commands;
mod help;
mod orders;
mod plain;
mod words;

pub use commands::{OUT_OF_MEMORY, show};
