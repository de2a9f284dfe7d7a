//! How many shared words there are, and which is which.

ghost use Rattle.std.specs.Prelude.{◌≡◌, ◌≤◌, ◌<◌};
ghost use Rattle.mx_rule.specs.Parts.{Count, Answered, Flag, ConnectWord, DescriptorAt, CellAt, number_in, words_in};

/// How many processes a shared table has, and how many segment numbers each: so it is known which word is which. Word 0
/// is the count of the journal's entries and word 1 the answered length. Then come a flag for each process, a connect
/// word for each, a descriptor word for each number of each process, and the 65,536 cells. This model's own layout.
#[derive(Clone, Copy, Debug, PartialEq, Eq)]
pub struct Layout {
    /// The processes, from 1 to this; at most 15.
    pub processes: u8,
    /// How many numbers each has, from 0 on.
    pub numbers: u16,
}

impl Layout {
    /// How many words there are: at most 67,488 with 128 numbers each.
    pub fn words(&self) -> usize
        ensures { result ≡ words_in self.now }
    {
        let (processes, numbers) = (usize::from(self.processes), usize::from(self.numbers));
        2 + 2 * processes + numbers * processes + 65_536
    }

    /// The word with the count of entries.
    pub fn count(&self) -> usize
        ensures { result ≡ number_in self.now Count }
    {
        0
    }

    /// The word with the answered length.
    pub fn answered(&self) -> usize
        ensures { result ≡ number_in self.now Answered }
    {
        1
    }

    /// The flag of a process.
    #[inline(always)]
    pub fn flag(&self, process: u8) -> usize
        ensures { result ≡ number_in self.now (Flag process) }
    {
        1 + usize::from(process)
    }

    /// The connect word of a process.
    pub fn connect_word(&self, process: u8) -> usize
        ensures { result ≡ number_in self.now (ConnectWord process) }
    {
        1 + usize::from(self.processes) + usize::from(process)
    }

    /// The descriptor word of a number of a process.
    #[inline(always)]
    pub fn descriptor(&self, process: u8, segno: u16) -> usize
        requires { 1 ≤ process }
        ensures { result ≡ number_in self.now (DescriptorAt process segno) }
    {
        let row = usize::from(self.numbers) * (usize::from(process) - 1) + usize::from(segno);
        2 + 2 * usize::from(self.processes) + row
    }

    /// The word of a cell.
    #[inline(always)]
    pub fn cell(&self, cell: u16) -> usize
        ensures { result ≡ number_in self.now (CellAt cell) }
    {
        let (processes, numbers) = (usize::from(self.processes), usize::from(self.numbers));
        2 + 2 * processes + numbers * processes + usize::from(cell)
    }
}
