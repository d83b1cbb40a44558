//! The logins of a target to its units (NCITS 325-1998, login, reconnect and logout). No call takes
//! memory.
#![tactic(auto)]

mod expired;
mod ids;
mod law;
mod login;
mod places;
mod table;

pub use expired::Expired;
pub use law::{
    calls_in_turn, exclusive_alone, expires_after_its_seconds, held_for_its_seconds,
    lists_of_logins, live_until_it_leaves, next_id_free, numbered, one_by_eui, one_by_id,
    one_by_node, seconds_left, ticks_tell_the_ends, units_stay_below,
};
pub use login::{Entered, Login, LoginRefusal};
pub use table::Logins;
