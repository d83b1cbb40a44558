//! The simulated serial bus by itself, whatever its nodes do: its generations, the packets, the requests
//! under way, who has each place of the target's logins, what the budget counts, and the notes of a line.
#![tactic(auto)]

mod bus;
mod generations;
mod laws;
mod loads;
mod places;
mod requests;
mod words;

pub use bus::Bus;
pub use generations::Topology;
pub use laws::leaving_packets_weigh;
pub use loads::{LeftLists, ListLoad, OrbLoad, OrbLoads, weight_of};
pub use places::Holder;
pub use requests::Request;
