//! What follows from the definitions alone.

ghost use Rattle.mx_access.specs.Admissible.{AdmissibleLaw};
ghost use Rattle.mx_access.specs.Answers.{ChangedLaw};

/// The test whether an entry changed a descriptor says whether it did.
pub fn change_law()
    ensures { ChangedLaw }
{}

/// Each descriptor of each process, at each point of a journal that a text can say, is one that a table may hold.
pub fn descriptors_are_admissible()
    ensures { AdmissibleLaw }
{}
