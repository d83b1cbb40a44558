//! The top call of the program.
#![tactic(auto)]

mod drill;
mod queue;
mod status;
mod tasks;
mod top;

pub use rom_listing::rom_tree_is_listed;
pub use status::Status;
pub use top::sbp2;
