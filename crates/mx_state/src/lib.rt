//! The plain supervisor: what every process asks for, and what it is answered, over the whole hierarchy.
//!
//! The definitions in `specs/` say what each request does to a state of plain lists (`Requests`, with the hierarchy's
//! own definitions, `Knowing`, `OwnState` and `Messages`), how a segment becomes known (`Connecting`) and gets its
//! linkage section (`Sections`), where a link leads (`Linking`), who asks (`Askers`), what a history is (`History`:
//! replay, right), what a segment number stands for (`Numbers`), which descriptor a process has of it (`Table`), what a
//! reply tells of linkage sections and links (`Told`), what `status` tells in a session's version (`Shown`), who runs,
//! waits or has ended (`Waiting`), who holds each page of memory (`Pages`), and which pages a request gives out and frees
//! (`Given`). [`State`] is the plain supervisor as a program: `apply` gives exactly the reply and the state of the
//! definition, exactly the descriptors that changed, and exactly the pages that were given out or freed; `descriptor` is
//! the descriptor of the definition, and `ready` whether a process would not wait. Stands on requests, the hierarchy, its
//! pages, links and the mail; the type of a change is the core machine's.
#![tactic(auto)]

mod applied;
mod callers;
mod changing;
mod journal;
mod knowing;
mod laws;
mod linking;
mod messages;
mod openings;
mod own_state;
mod quiet;
mod renewing;
mod replies;
mod states;
mod tables;

pub use applied::Applied;
pub use journal::{Entry, Journal};
pub use laws::{
    a_link_is_resolved_or_refused, a_process_does_what_its_entries_say,
    a_section_comes_where_nothing_stood, a_section_that_is_told_is_there,
    aim_alone_changes_a_descriptor, an_initial_list_is_in_no_descriptor, free_pages_are_bare,
    not_all_wait_for_one_another, numbers_beyond_the_last_are_unknown,
    only_status_asks_the_version, pages_are_held_once, what_a_request_leaves,
    what_a_request_leaves_to_others,
};
pub use mx_core::{Change, Changes};
pub use mx_pages::PageRun;
pub use mx_request::{Entrant, Known, Reply, Request};
pub use states::{ProcessState, State};
