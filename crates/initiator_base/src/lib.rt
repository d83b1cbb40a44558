//! What an initiator node is made of beside its lists, its session and its transaction layer: where its
//! things stand, the quadlets that it read of the target's ROM, and its reads of AGENT_STATE.
#![tactic(auto)]

mod fifos;
pub mod places;
mod reads;
mod rom;

pub use fifos::{Fifo, fifo_at, is_dead_kind};
pub use reads::StateReads;
pub use rom::RomQuads;
