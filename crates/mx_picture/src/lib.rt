//! A legal run of a session, drawn: alone, or within one page for a browser.
//!
//! [`show_picture`] asks of its caller that the run is a legal one of that session; the sink gains one text that begins and ends as an
//! SVG does (`Drawings`), with one box for each reference in the lane of its process (`Boxes`), and an arrow leads from a read to the
//! store that the read names (`Arrows`). [`show_page`] asks the same; the sink gains one page with that drawing in its middle (`Pages`).
//! The page needs no network: it has its style, its script and the run's accesses within. What it holds beside the drawing is escaped
//! (`Escapes`), so that no character of it begins a tag. What else is drawn and written is tested alone. Stands on `mx_judging` for the
//! references with the access that each was judged on and the accesses that each entry leaves, and on `mx_show` for the lines.
#![tactic(auto)]

mod courses;
mod escapes;
mod heads;
mod labels;
mod layout;
mod lines;
mod pages;
mod pictures;
mod positions;
mod script;
mod svg;
mod tables;

pub use pages::show_page;
pub use pictures::show_picture;
