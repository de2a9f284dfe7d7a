//! Laws over the definitions: the numbers of a store say what the read rule says of it.

ghost use Rattle.mx_stores.specs.Breach.{OneBreachLaw};
ghost use Rattle.mx_stores.specs.ChoiceLaws.{ChoiceLaw};
ghost use Rattle.mx_stores.specs.Deciding.{RightReadsLaw, RightToLaw};
ghost use Rattle.mx_stores.specs.SightedLaws.{BeyondLaw};
ghost use Rattle.mx_stores.specs.StoreLaws.{FirstLaw, KnownLaw, SinceLaw, SuchLaw, SupersededLaw, UntilLaw};

/// A store is known from its `since` on, and at no point before.
pub fn known_law()
    ensures { KnownLaw }
{}

/// Along the deeds of one process `since` never falls.
pub fn since_law()
    ensures { SinceLaw }
{}

/// A store is superseded from its `until` on, and at no point before.
pub fn superseded_law()
    ensures { SupersededLaw }
{}

/// Along the deeds of one process `until` never falls.
pub fn until_law()
    ensures { UntilLaw }
{}

/// Some store in a cell is known from the cell's `first` on, and none at any point before.
pub fn first_law()
    ensures { FirstLaw }
{}

/// Of a process's stores of one value and stamp in a cell, a read can stand for all from some place on.
pub fn such_law()
    ensures { SuchLaw }
{}

/// A store of another process is beyond what a process sighted of a cell from one place on.
pub fn beyond_law()
    ensures { BeyondLaw }
{}

/// A read is right exactly where the choice that is made from what its process sighted before is the store that it stands
/// for.
pub fn choice_law()
    ensures { ChoiceLaw }
{}

/// The reads of a process below a place are right exactly where a choice can be made for each, from those before it.
pub fn right_to_law()
    ensures { RightToLaw }
{}

/// All reads are right exactly where a choice can be made for each read of each process.
pub fn right_reads_law()
    ensures { RightReadsLaw }
{}

/// The first deed at which the read rule fails is one.
pub fn one_breach_law()
    ensures { OneBreachLaw }
{}
