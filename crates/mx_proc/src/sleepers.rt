//! Who waits, of processes that take turns.

ghost use Rattle.std.specs.Prelude.{◌≤◌};

/// How many processes a session has at most.
const MOST: usize = 15;

/// The numbers of processes that wait for a message.
#[derive(Drop)]
pub(crate) struct Sleepers {
    numbers: [u8; MOST],
    count: usize,
    ghost few: { count ≤ 15 },
}

impl Sleepers {
    pub(crate) fn none() -> Sleepers {
        Sleepers {
            numbers: [0; MOST],
            count: 0,
        }
    }

    /// One more waits. Beyond as many as a session has, nobody is added.
    pub(crate) fn add(&mut self, number: u8) {
        if self.count < MOST {
            self.numbers[self.count] = number;
            self.count += 1;
        }
    }

    /// Their numbers.
    pub(crate) fn numbers(&self) -> &[u8] {
        &self.numbers[..self.count]
    }
}
