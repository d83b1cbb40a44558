//! The target node (NCITS 325-1998): its transaction layer, its management agent with the logins, the
//! command agents of the logins, its units, and its configuration ROM, joined.
#![tactic(auto)]

mod desk;
mod laws;
mod media;
mod node;
mod purpose;
mod sending;
mod target;
mod telling;

pub use desk::Desk;
pub use laws::{
    calls_are_steps_of_the_layer, calls_keep_agents_sound, changes_are_told_in_order,
    deliveries_ask_for_what_is_left, first_row_has_its_rcode, labels_are_the_lowest,
    requests_are_answered_first, steps_ask_for_what_follows, transactions_are_waited_for,
};
pub use node::Node;
pub use purpose::{Purpose, Sent};
pub use target::Target;
