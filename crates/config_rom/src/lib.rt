//! The configuration ROM of a node (IEEE 1212), read and made, and the SBP-2 unit in it.
#![tactic(auto)]

mod block;
mod fault;
mod laws;
mod plan;
mod read;
mod rom;
mod sum;
mod unit;

pub use block::{Block, Entry, EntryKind};
pub use fault::RomFault;
pub use laws::{first_unit_found, one_outcome, plan_read_again, reads_rom};
pub use plan::{RomPlan, RomWords, make};
pub use read::parse;
pub use rom::Rom;
pub use sum::sum16;
pub use unit::{SbpUnit, sbp_unit};
