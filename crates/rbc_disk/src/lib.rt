//! Media and the commands that run on them: RBC (reduced block commands) over boxed media.
#![tactic(auto)]

mod command;
mod empty;
mod faulty;
mod laws;
mod medium;
mod perform;
mod protected;
mod ram;
mod request;
mod unit;

pub use command::{BLOCK, BufferPlan, Need, Outcome, TRANSFER};
pub use empty::EmptyMedium;
pub use faulty::FaultyMedium;
pub use laws::{marked_until_told, reads_what_was_put, told_once};
pub use medium::Medium;
pub use protected::ProtectedMedium;
pub use ram::RamMedium;
pub use rbc_command::Sense;
pub use request::Request;
pub use unit::Unit;
