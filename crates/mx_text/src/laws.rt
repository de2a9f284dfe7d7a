//! What follows from the definitions alone.

ghost use Rattle.mx_text.specs.Spelling.{OneRunLaw};

/// A text is that of one journal and one list of transcripts at most.
pub fn each_run_text_is_of_one_run()
    ensures { OneRunLaw }
{}
