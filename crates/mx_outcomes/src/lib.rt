//! A session run in all orders of its lines, and what each line came to.
//!
//! [`outcomes_text`] makes a run for each order in which the lines of the processes may come, and tells of each line its different
//! outcomes, in how many runs each came and in which order first; [`pair_text`] tells of two lines which of their outcomes come together.
//! Each run is a legal one of the session in which each process did all its lines (`WholeRuns`), and the orders are all that there are,
//! each once (`AllOrders`, `Explored`); where they are more than 20,000 none is made, and their number is told (`OutcomesTexts`).
//!
//! An order has for each line its process; an interleaving has each process as often as it has lines (`Interleavings`). `count_orders`
//! says how many there are, the multinomial coefficient (`Counts`), before any is made. `first_order` makes the first one, which none
//! comes before, and `advance` makes of each the next: the least of those that come after it, or it says that none does. So from the
//! first on each interleaving comes once, from the least to the greatest. `outcomes_in` tells what each line of a run came to, in words
//! that are the same in each run in which the line was told and given the same (`Words`).
//!
//! A `Tally` keeps of some lines what they came to together: each different outcome once, with the order of the first run that gave it
//! and with how many runs did (`Tallies`); each of these is of one of the runs, and each run is counted once (`OfRuns`). `add_rows` tells
//! of a line each of its outcomes, and `add_pairs` of two lines which outcomes come together and which never do (`RowTexts`). Stands on
//! `mx_proc` (runs), `mx_transcript` and `mx_state` (what a run was), and `mx_text` (the text of a result).
#![tactic(auto)]

mod decimals;
mod exploring;
mod laws;
mod lines;
mod orders;
mod rows;
mod tallies;
mod texts;
mod words;

pub use exploring::MOST_ORDERS;
pub use laws::{each_row_is_of_a_run, each_run_is_counted};
pub use texts::{outcomes_text, pair_text};
