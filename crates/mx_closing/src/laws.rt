//! The law of the end.

ghost use Rattle.mx_closing.specs.Closing.{ClosingLaw};

/// Where the supervisor's seat keeps the journal and all passes came back to it, the run is closed.
pub fn closing_law()
    ensures { ClosingLaw }
{}
