//! From what processes and their office tell at the end of a run to the run's legality. The office is whoever keeps
//! the journal for all processes; each has a pass, with the trace of its references and the entries that it was told
//! of.
//!
//! `Finished` is the one law that ties them: where the office is closed (`Closed`), the setup's part is right and
//! each process has run (`Ran`), the journal and the transcripts are a legal run. It speaks of no step, no lock and
//! no schedule. Under it stand the counting law (`Counting`: each process names each of its entries) and the
//! transport of reads (`Matching`: the read rule by fronts of traces, and by entries of transcripts). For whoever
//! runs processes: what a process keeps of its own part so far (`SoFar`, `Steps`).
//!
//! Whether a write that a reply asks for is granted is no fact of a process. So one that shares no lock keeps its lines
//! only where none has failed (`AtWork`, `Spoilt`, `Working`), and the closed office shows that none has. Stands on
//! `mx_transcript`, `mx_state` and `mx_reads`; takes no memory.
#![tactic(auto)]

mod laws;

pub use laws::{
    counting_law, finished_law, front_law, going_law, sample_law, steps_law, transport_law,
    working_law,
};
