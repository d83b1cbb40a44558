//! The laws of a command agent over every list of its calls, read off what goes over the wire.
#![tactic(auto)]

mod growing;
mod laws;

pub use growing::{
    a_list_was_tried, agents_stay_along_growing_lists, calls_keep_agents_along, lists_go_in_order,
};
pub use laws::{
    calls_are_lawful, calls_ask_and_end, calls_die_duly, calls_keep_order, calls_keep_state,
    calls_run_on_their_data, calls_write_their_answers,
};
