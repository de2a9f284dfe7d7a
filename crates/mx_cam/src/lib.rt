//! Associative memories of process threads: the last sixteen descriptors that a process loaded, from which it judges
//! without loading their words. A cam has just what the rule knows of its process's memory. It takes no memory and
//! looks into no descriptor; it stands on the passes of `mx_desc`.
#![tactic(auto)]

mod cams;
mod places;

pub use cams::Cam;
