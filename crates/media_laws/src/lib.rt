//! What the media hold after a run of the machine, by its notes.
#![tactic(auto)]

mod laws;

pub use laws::lines_keep_the_disks;
