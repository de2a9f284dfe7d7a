//! What follows from the definitions alone.

ghost use Rattle.std.specs.Prelude.{◌≡◌, ℕ, List, length};
ghost use Rattle.mx_outcomes.specs.OfRuns.{AreOfSome, all_times};
ghost use Rattle.mx_outcomes.specs.Tallies.{Told, rows_of};

/// What the lines at some places came to in runs, each outcome with its first order, is what they came to in one of these runs, which was
/// in that order.
pub fn each_row_is_of_a_run()
    ensures { (places : List ℕ) → (runs : List Told) → AreOfSome places runs (rows_of places runs) }
{}

/// Each run is counted, and once.
pub fn each_run_is_counted()
    ensures { (places : List ℕ) → (runs : List Told) → all_times (rows_of places runs) ≡ length runs }
{}
