//! The registers of a process, and the instructions that change them: call, return, and the load of a pointer register.
//!
//! [`call`] and [`ret`] are denied exactly as the judging rule of `mx_sdw` denies them where upward calls are off, and what
//! they make of the registers is a relation between those before and after, one field a rule of Schroeder and Saltzer's;
//! [`Regs::enter`] and [`Regs::go_back`] make the same of a granted one in place.
//! [`going_on`], [`stack_base`] and [`raised_to`] are the pointers that these and upward calls put into the registers.
//! Laws over these relations say that a call never raises the ring and lowers it only through a gate, that a return never
//! lowers it, that no pointer register ever falls below it, and that each can be stored. The crate stands on `mx_sdw` and
//! `mx_ptr` and takes no memory.
#![tactic(auto)]

mod laws;
mod registers;
mod transfers;

pub use laws::{
    registers_have_one_outcome, registers_stay_packable, registers_stay_sound,
    returns_never_lower_the_ring, rings_fall_through_gates,
};
pub use registers::{Regs, stack_base};
pub use transfers::{call, going_on, raised_to, ret};
