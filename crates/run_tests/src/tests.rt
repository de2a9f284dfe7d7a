//! Each test compares one table or one value with what was worked out by hand.

mod auditors;
mod calls;
mod checks;
mod drills;
mod ends;
mod logs;
mod orders;
mod printing;
mod reading;
mod scripts;
mod threads;
