//! Removable media: bays that are loaded and ejected, and the status block that tells of a change.
#![tactic(auto)]

mod bay;
mod unsolicited;

pub use bay::Bay;
pub use unsolicited::{read_unsolicited, unsolicited_reads_back, write_unsolicited};
