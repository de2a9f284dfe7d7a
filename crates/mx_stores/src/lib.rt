//! The read rule decided, where stores are known by entries. [`first_breach`] names exactly the first deed at which the rule
//! fails, and [`are_reads_right`] says exactly whether it fails nowhere, for n deeds in n log n steps for each process.
//!
//! A store is known from one number on (`since`) and superseded from one on (`until`), and laws say that neither falls
//! along the stores of one process. The stores of each process stand in a table, in order of cells and within each cell in
//! order, with the greatest point up to each. What is asked of all stores is found once, before any read: from when on each
//! is superseded, and from when on any in a cell is known. Along one table or the cells what is sought in another table
//! never falls, so the two are walked side by side. The cells are numbered once for all, and in each table it is kept where
//! the stores in each begin.
//!
//! The reads of one process are then decided apart from those of the others ([`Stores`]); from when on each store is superseded
//! may be found in threads, table by table ([`Stores::beside`]). What a process has sighted of a cell is one place in each
//! table, from which on a store is beyond that; these places stand in rows, by the number of the cell and its group in the
//! table, so that no search is left. The store that a read stands for is the first from there that will do, and no other choice
//! is right; since that place never falls, a process goes over each other's stores in a cell once.
#![tactic(auto)]

mod cells;
mod deciding;
mod deeds;
mod ends;
mod firsts;
mod groups;
mod laws;
mod numbers;
mod reader;
mod rows;
mod sightings;
mod stores;

pub use deciding::{Breach, Stores, are_reads_right, first_breach};
pub use deeds::{CellUse, Deed, Form, Read};
pub use laws::{
    beyond_law, choice_law, first_law, known_law, one_breach_law, right_reads_law, right_to_law,
    since_law, such_law, superseded_law, until_law,
};
