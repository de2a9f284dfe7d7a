//! The tests, by what they are about.

mod access_lists;
mod known_segments;
mod mail;
mod objects;
mod search_rules;
