//! Requests and replies: what a process can ask of the supervisor, what it can be answered, and how both are written.
//!
//! A request is written as its line in a session's script, and so it stands in the journal. [`Request::read`] gives the
//! request that a line spells, and `append_to` the line; each is the other's inverse. A reply has one text.
//! [`Request::since_version`] says from which version on a session may ask a request. Stands on names, access lists,
//! classes, object maps, search rules, and the replies of the hierarchy and of known segment tables.
#![tactic(auto)]

mod classes;
mod entrants;
mod laws;
mod maps;
mod reading;
mod replies;
mod requests;
mod shared;
mod versions;
mod writing;

pub use classes::RequestClass;
pub use entrants::Entrant;
pub use laws::{
    each_reply_has_its_own_text, each_request_has_its_own_line, the_first_word_tells_who_asks,
};
pub use maps::BoxedMap;
pub use mx_kst::Known;
pub use reading::{read_decimal, read_word_number};
pub use replies::Reply;
pub use requests::Request;
pub use shared::{Requests, SharedRequest};
pub use versions::{has_classes, last_number, most_gates};
