//! Commands of a disk (RBC, reduced block commands), read from command blocks of 12 bytes, and what
//! they tell of a failure.
#![tactic(auto)]

mod cdb;
mod command;
mod operation;
mod sense;

pub use cdb::Cdb;
pub use command::Command;
pub use operation::Operation;
pub use sense::Sense;

#[cfg(test)]
mod tests;
