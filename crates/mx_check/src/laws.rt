//! What follows from the definitions alone.

ghost use Rattle.mx_check.specs.Laws.{DueStatusLaw, OneJudgementLaw};

use mx_both::{both_texts_are_of_one_run, bytes_have_one_first_bad_line};
use mx_legal::{no_breach_law, one_breach_law};

/// A source that told its bytes has one judgement at most.
pub fn bytes_have_one_judgement()
    ensures { OneJudgementLaw }
{
    both_texts_are_of_one_run();
    bytes_have_one_first_bad_line();
    no_breach_law();
    one_breach_law();
}

/// The judgement on a source that told its bytes has the status that these bytes ask for.
pub fn a_judgement_has_the_due_status()
    ensures { DueStatusLaw }
{
    both_texts_are_of_one_run();
    no_breach_law();
}
