//! The target node over an unordered unit (NCITS 325-1998): its transaction layer, its one login with the
//! command agent that works up to 8 ORBs of a list at once, its unit, and its configuration ROM, joined.
//! It has no management agent, so that its login is there for good.
#![tactic(auto)]

mod node;
mod purpose;
mod sending;
mod steps;
mod target;
mod telling;

pub use node::Node;
pub use purpose::{Sent, TaskPurpose};
pub use target::TaskTarget;
