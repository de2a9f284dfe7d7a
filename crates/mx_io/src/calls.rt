use std::marker::Model;

/// The calls made of an end in memory, with the numbers of those that are to fault. The counts have 64 bits and stop at
/// the last number.
#[derive(Debug, Drop)]
pub(crate) struct Calls {
    fails: Vec<u32>,
    made: u64,
    faults: u64,
}

impl Model for Calls {
    ghost use Rattle.mx_io.specs.Memory.{CallLog};

    ghost Value = { CallLog };

    ghost view = { λ a. record { fails = a.fails.items; made = a.made; faults = a.faults } };
}

impl Calls {
    ghost use Rattle.std.specs.Prelude.{◌≡◌, ◌≤◌};
    ghost use Rattle.mx_io.specs.Faults.{Rose};
    ghost use Rattle.mx_io.specs.Memory.{is_failing, called, faulted};

    /// No call was made yet.
    pub(crate) fn new(fails: Vec<u32>) -> Calls
        ensures { result ≡ record { fails = fails.items; made = 0; faults = 0 } }
    {
        Calls {
            fails,
            made: 0,
            faults: 0,
        }
    }

    /// Whether the next call is to fault.
    pub(crate) fn is_failing(&self) -> bool
        ensures { result ≡ is_failing self.now }
    {
        let made = self.made;
        self.fails.iter().any(|number| u64::from(*number) == made)
    }

    /// A call was made and did not fault.
    pub(crate) fn count(&mut self)
        ensures { self.new ≡ called self.old }
    {
        self.made = self.made.saturating_add(1);
    }

    /// A call was made and faulted.
    pub(crate) fn count_fault(&mut self)
        ensures faulted { self.new ≡ faulted self.old }
        ensures rose { Rose self.old.faults self.new.faults }
        ensures later { self.old.faults ≤ self.new.faults }
    {
        self.made = self.made.saturating_add(1);
        self.faults = self.faults.saturating_add(1);
    }
}
