//! The bounded store of the packets of a simulated serial bus: the packets in flight, and the
//! delivered ones among the last 1,024 serials.
#![tactic(auto)]

mod aloft;
mod bags;
mod laws;
mod packets;
mod ring;
mod role;
mod sent;
mod shelf;
mod store;
mod tables;
mod transaction;

pub use laws::{
    closed_by_request, flights_weigh, keeps_flights, kept_in_turn, kept_whole, never_again,
    serials_in_turn,
};
pub use role::Role;
pub use sent::{Kept, Sent};
pub use store::Store;
pub use transaction::Transaction;
