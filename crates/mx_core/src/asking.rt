//! What is asked of a segment, against the judging rule.

ghost use Rattle.std.specs.Prelude.{◌≡◌};
ghost use Rattle.mx_core.specs.Judging.{at_once, kind_of, loads};
ghost use Rattle.mx_sdw.specs.Operations.{transfers, writes};

use crate::elements::{Kind, Outcome};
use crate::words::Asked;
use mx_sdw::{Desc, Op, judge, new_ring};

impl Asked {
    /// What needs no cell step: a denial, a granted call and a granted return.
    pub fn at_once(&self, desc: &Desc) -> Option<Outcome>
        ensures { result ≡ at_once desc.now self.now }
    {
        match judge(desc, self.op, self.ring, u32::from(self.word)) {
            Err(denial) => Some(Outcome::Denied(denial)),
            Ok(_) => {
                if self.transfers() {
                    Some(Outcome::Entered {
                        ring: new_ring(desc, self.op, self.ring),
                    })
                } else {
                    None
                }
            },
        }
    }

    /// The kind of its element.
    pub fn kind(&self) -> Kind
        ensures { result ≡ kind_of self.now.op }
    {
        match self.op {
            Op::Read => Kind::Read,
            Op::Indirect => Kind::Ind,
            Op::Write => Kind::Write,
            Op::Fetch => Kind::Fetch,
            Op::Call { .. } => Kind::Call,
            Op::Return => Kind::Return,
        }
    }

    /// Whether it reads the cell.
    pub fn loads(&self) -> bool
        ensures { result ≡ loads self.now.op }
    {
        match self.op {
            Op::Read | Op::Indirect | Op::Fetch => true,
            Op::Write | Op::Call { .. } | Op::Return => false,
        }
    }

    /// Whether it writes the cell.
    pub fn writes(&self) -> bool
        ensures { result ≡ writes self.now.op }
    {
        match self.op {
            Op::Write => true,
            Op::Read | Op::Indirect | Op::Fetch | Op::Call { .. } | Op::Return => false,
        }
    }

    fn transfers(&self) -> bool
        ensures { result ≡ transfers self.now.op }
    {
        match self.op {
            Op::Call { .. } | Op::Return => true,
            Op::Read | Op::Indirect | Op::Write | Op::Fetch => false,
        }
    }
}
