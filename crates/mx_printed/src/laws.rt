//! What follows from the definitions alone.

ghost use Rattle.mx_printed.specs.Laws.{RunTextLaw};

/// The text of a session, followed by the run text of a legal run of it, is both texts: what is printed of a legal run is
/// read as that run.
pub fn each_legal_run_has_both_texts()
    ensures { RunTextLaw }
{}
