//! The command agent of one login over an unordered unit (NCITS 325-1998, command block agents): one
//! fetcher reads the ORBs of a list in their order, and up to 8 of them are worked at once, each in a
//! task place of its own and by a command agent of its own. Only [`TaskAgent::new`] takes memory.
#![tactic(auto)]

mod agent;
mod fetcher;
mod step;
mod tasks;

pub use agent::TaskAgent;
pub use fetcher::{FetchPhase, Fetcher};
pub use step::{TaskAsks, TaskStep};
