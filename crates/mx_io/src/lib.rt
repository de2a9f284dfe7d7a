//! The outside of the program: a source of bytes and a sink for them.
//!
//! [`Source`] and [`Sink`] are traits whose contracts say which bytes a call took or gave, where the object tells them,
//! and that a fault is answered where, and only where, the object's count of faults rose. [`read_all`] and
//! [`write_all`] are generic over them: what they give is proved to be exactly the bytes that were there, and a fault
//! of theirs has its cause in the object. [`MemorySource`] and [`MemorySink`] tell their bytes and fault at calls that
//! the caller names. [`StdSource`] and [`StdSink`] pass on what a reader and a writer of std move, and count its
//! faults; what a real stream moves is trusted.
#![tactic(auto)]

mod calls;
mod memory_sink;
mod memory_source;
mod reading;
mod sink;
mod source;
mod standard;
mod writing;

pub use memory_sink::{Memory, MemorySink};
pub use memory_source::MemorySource;
pub use reading::{ReadError, read_all};
pub use sink::{Put, Sink};
pub use source::{Got, Source};
pub use standard::{StdSink, StdSource};
pub use writing::{WriteFault, write_all};
