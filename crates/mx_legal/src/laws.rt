//! What follows from the definitions alone.

ghost use Rattle.mx_legal.specs.BreachLaws.{FrontLaw, LegalLaw, NoBreachLaw, OneBreachLaw, ReadsToLaw};
ghost use Rattle.mx_legal.specs.Entries.{GoodEntriesLaw};

use mx_stores::{right_reads_law, right_to_law};
use mx_transcript::setup_lines_law;

/// A journal whose entries are all good is within its limit and right, and begins with the initializer's entries, as many as
/// the setup has within the limit.
pub fn good_entries_law()
    ensures { GoodEntriesLaw }
{}

/// The reads of a process are right, as a run has them, exactly where they are as the deciding of reads has them.
pub fn reads_to_law()
    ensures { ReadsToLaw }
{}

/// Where the first lines of a part keep the rules, fewer of them do.
pub fn front_law()
    ensures { FrontLaw }
{}

/// A run is legal exactly where all its entries and all its parts are good and each entry is named.
pub fn legal_law()
    ensures { LegalLaw }
{
    good_entries_law();
    reads_to_law();
    right_to_law();
    right_reads_law();
    setup_lines_law();
}

/// A legal run has no breach.
pub fn no_breach_law()
    ensures { NoBreachLaw }
{
    legal_law();
}

/// A run has one breach at most.
pub fn one_breach_law()
    ensures { OneBreachLaw }
{
    front_law();
}
