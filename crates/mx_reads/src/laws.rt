//! Laws over the definitions: what is right of reads and cells stays right, whatever a process does.

ghost use Rattle.mx_reads.specs.KeepLaws.{LoadLaw, QuietLaw, StoreLaw};

/// What is right of reads and cells stays right when a process does what is neither a store nor a load, and when more is
/// known beyond the bound.
pub fn quiet_law()
    ensures { QuietLaw }
{}

/// It stays right when a process stores in a cell.
pub fn store_law()
    ensures { StoreLaw }
{}

/// It stays right when a process loads what a cell holds: the first store that will do can always be found.
pub fn load_law()
    ensures { LoadLaw }
{}
