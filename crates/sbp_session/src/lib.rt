//! The session of an initiator with one unit, as types: each move consumes its state and gives the
//! next (NCITS 325-1998, login, reconnect and logout). A state that was used in a move cannot be used
//! again. No call takes memory.
#![tactic(auto)]

mod held;
pub mod in_place;
mod law;
mod live;
mod out;
mod seat;

pub use held::{Held, Leaving, Returning};
pub use law::{
    held_by_a_reset, operations_end, response_by_moves, response_of_latest_login,
    stuck_until_a_reset,
};
pub use live::Live;
pub use out::{Entering, Out};
pub use seat::{Origin, Seat, Stuck};
