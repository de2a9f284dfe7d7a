//! What follows from the definitions alone.

ghost use Rattle.mx_both.specs.Laws.{BehindEndLaw, OneBothLaw, OneFirstBadLaw};

/// Of a session text and the run text at once behind it, the second is what follows the first line `end`.
pub fn the_run_text_follows_the_first_end()
    ensures { BehindEndLaw }
{}

/// Bytes are the two texts of one session, one journal and one list of transcripts at most.
pub fn both_texts_are_of_one_run()
    ensures { OneBothLaw }
{}

/// Bytes that are no session text followed by a run text have one first bad line at most.
pub fn bytes_have_one_first_bad_line()
    ensures { OneFirstBadLaw }
{}
