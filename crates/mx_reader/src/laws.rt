//! What follows from the definitions alone.

ghost use Rattle.mx_reader.specs.Laws.{OfSessionsLaw, OneFirstBadLaw};

/// Bytes that are the text of no run have one first bad line at most.
pub fn bytes_have_one_first_bad_line()
    ensures { OneFirstBadLaw }
{}

/// The first bad line of session texts is that of a set of texts, where the set is that of the sessions.
pub fn sessions_have_the_same_first_bad_line()
    ensures { OfSessionsLaw }
{}
