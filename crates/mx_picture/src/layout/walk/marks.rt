//! Where each process was seen, in which ring it is, and what it does.

use super::{Spot, Turn, Walk};
use crate::layout::bands::Life;
use crate::layout::{BOX_WIDTH, ENTRY_WIDTH, entered};
use mx_judging::{FIRST_RING, Judged};
use mx_request::{Reply, Request};
use mx_state::Entry;
use std::alloc::AllocError;

impl Walk {
    // The process of an entry was there, and waits from now on or no longer.
    pub(super) fn mark_entry(&mut self, entry: &Entry) -> Result<(), AllocError> {
        let spot = Spot {
            row: self.last_row(),
            x: self.x.saturating_sub(ENTRY_WIDTH / 2),
        };
        self.mark(entry.process, spot, spot)?;
        let (process, ring) = (entry.process, self.ring_of(entry.process));
        match (entry.request(), &entry.reply) {
            (_, Reply::Waiting) => self.turn(process, spot, ring, Life::Waiting),
            (Request::Resume, _) => self.turn(process, spot, ring, Life::Running),
            _ => Ok(()),
        }
    }

    // A process is seen from one spot to another: it has begun. The setup has no lane.
    pub(super) fn mark(&mut self, process: u8, from: Spot, to: Spot) -> Result<(), AllocError> {
        if process < 1 {
            return Ok(());
        }
        let Some(standing) = self.standing.get_mut(usize::from(process)) else {
            return Ok(());
        };
        standing.last = to;
        match standing.life {
            Life::Absent => self.turn(process, from, FIRST_RING, Life::Running),
            Life::Running | Life::Waiting => Ok(()),
        }
    }

    fn turn(&mut self, process: u8, spot: Spot, ring: u8, life: Life) -> Result<(), AllocError> {
        if let Some(standing) = self.standing.get_mut(usize::from(process)) {
            standing.ring = ring;
            standing.life = life;
        }
        self.turns.push(Turn {
            process,
            row: spot.row,
            x: spot.x,
            ring,
            life,
        })?;
        Ok(())
    }

    // The process of a reference was there, and is in the ring from then on that the reference entered.
    pub(super) fn mark_reference(&mut self, judged: &Judged, spot: Spot) -> Result<(), AllocError> {
        let process = judged.process;
        let (before, middle, behind) = (
            Spot {
                x: spot.x.saturating_sub(4),
                ..spot
            },
            Spot {
                x: spot.x.saturating_add(BOX_WIDTH / 2),
                ..spot
            },
            Spot {
                x: spot.x.saturating_add(BOX_WIDTH + 4),
                ..spot
            },
        );
        self.mark(process, before, behind)?;
        match entered(judged) {
            Some(ring) if ring.number() != self.ring_of(process) => {
                self.turn(process, middle, ring.number(), Life::Running)
            }
            _ => Ok(()),
        }
    }

    /// All was placed: each process that does not wait is at its end where it was seen last.
    pub(in crate::layout) fn finish(&mut self) -> Result<(), AllocError> {
        for process in 1..=15u8 {
            if let Some(standing) = self.standing.get(usize::from(process)) {
                let (ring, last) = (standing.ring, standing.last);
                if let Life::Running = standing.life {
                    self.turn(process, last, ring, Life::Absent)?;
                }
            }
        }
        Ok(())
    }
}
