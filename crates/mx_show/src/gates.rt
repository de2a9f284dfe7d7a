//! The return gates of a process: which of them its lines leave, and which they go back through.

use mx_judging::Part::{self, Decimal, Place, Text};
use mx_judging::add_parts;
use mx_ptr::Pointer;
use mx_sdw::Denial;
use mx_transcript::{Element, Kind, Outcome};
use std::alloc::{AllocError, Global};

/// The most return gates that a process has at a time.
const MOST: usize = 16;

// A return gate: from which ring and at which word of a segment it leads back, and to which ring.
#[derive(Clone, Copy)]
struct Gate {
    upper: u8,
    segno: u16,
    word: u16,
    lower: u8,
}

/// The return gates that a process has, the top one last, and where the process goes on.
#[derive(Drop)]
pub(crate) struct Gates {
    standing: Vec<Gate>,
    segno: u16,
    word: u16,
}

impl Gates {
    /// Those of a process that has made no line yet: none. It goes on at word 0 of its stack of this ring.
    pub(crate) fn new(alloc: Global, ring: u8) -> Gates {
        Gates {
            standing: Vec::new(alloc),
            segno: u16::from(ring),
            word: 0,
        }
    }

    /// Adds which gate a line has left or taken away that went from one ring to another, by a reference of this kind.
    pub(crate) fn add_moved(
        &mut self,
        out: &mut String,
        kind: Kind,
        from: u8,
        to: u8,
        procedure: &Pointer,
    ) -> Result<(), AllocError> {
        match kind {
            Kind::Call if to > from => {
                self.standing.push(Gate {
                    upper: to,
                    segno: self.segno,
                    word: self.word,
                    lower: from,
                })?;
                self.add_top(out, "return gate ", " stands")?;
            }
            Kind::Return if to < from => {
                add_parts(
                    out,
                    &[Text("return gate "), self.count(), Text(" is gone\n")],
                )?;
                self.standing.pop();
            }
            _ => {}
        }
        self.segno = procedure.segno;
        self.word = procedure.word;
        Ok(())
    }

    /// Adds, for a call or return that was denied in this ring, the gate that stays, or that no more may stand.
    pub(crate) fn add_denied(
        &self,
        out: &mut String,
        element: &Element,
        ring: u8,
    ) -> Result<(), AllocError> {
        match (element.kind, element.outcome) {
            (Kind::Return, Outcome::Denied(_)) if element.ring.number() < ring => {
                self.add_top(out, "asked through return gate ", ", which stays")
            }
            (Kind::Return, Outcome::Denied(_)) => self.add_top(out, "return gate ", " stays"),
            (Kind::Call, Outcome::Denied(Denial::UpwardCall)) if self.standing.len() >= MOST => {
                add_parts(
                    out,
                    &[self.count(), Text(" return gates stand, and no more may\n")],
                )
            }
            _ => Ok(()),
        }
    }

    // How many there are, and so the number of the top one.
    fn count(&self) -> Part<'static> {
        Decimal(self.standing.len().min(MOST) as u32)
    }

    // Adds the top gate, with words before and behind its number; nothing where there is none.
    fn add_top(
        &self,
        out: &mut String,
        before: &'static str,
        behind: &'static str,
    ) -> Result<(), AllocError> {
        let Some(gate) = self.standing.last() else {
            return Ok(());
        };
        let (number, place) = (self.count(), Place(gate.segno, gate.word));
        let (upper, lower) = (
            Decimal(u32::from(gate.upper)),
            Decimal(u32::from(gate.lower)),
        );
        add_parts(
            out,
            &[
                Text(before),
                number,
                Text(behind),
                Text(": from ring "),
                upper,
                Text(" at "),
                place,
                Text(" back to ring "),
                lower,
                Text("\n"),
            ],
        )
    }
}
