//! Upward calls, and the return gates by which their callers are come back to.
//!
//! A call from below the first bracket of a segment goes on in that bracket and leaves a return gate, which alone leads
//! back to the lower ring (Schroeder and Saltzer). [`upward`] and [`downward`] are relations between the registers before
//! and after, one field a rule, as `mx_call` has them for calls and returns. [`ReturnGates`] is the stack of the gates of
//! a process: laws say that it holds the gates that were pushed and not popped, the last first, that only its top gate can
//! be used, and that no pointer register ever falls below the current ring. [`Control`] is what passes from line to line of
//! a process, its registers and its gates: [`Control::call`] and [`Control::ret`] are all calls and returns, upward ones and
//! returns through gates among them, and hand out a [`Change`], which leaves the gates where they are; [`Control::enter`] and
//! [`Control::go_back`] make the same of a granted call or return in place. The crate stands on `mx_sdw`, `mx_ptr` and
//! `mx_call`, and takes no memory.
#![tactic(auto)]

mod controls;
mod gates;
mod laws;
mod upcalls;

pub use controls::{Change, Control, GateStep};
pub use gates::{ReturnGate, ReturnGates};
pub use laws::{
    gates_are_those_pushed_and_not_popped, gates_stay_packable, gates_stay_sound,
    only_the_top_gate_is_usable, registers_stay_packable, registers_stay_sound,
    rings_rise_and_fall_through_gates, upward_calls_change_no_other, upward_calls_have_one_outcome,
};
pub use upcalls::{downward, upward};
