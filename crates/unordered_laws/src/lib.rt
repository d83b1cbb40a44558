//! The laws of the agent of the unordered unit over every list of its calls.
#![tactic(auto)]

mod laws;

pub use laws::{
    calls_keep_state, calls_keep_the_fetch_rule, eight_are_worked_at_most,
    orbs_are_fetched_in_order, orbs_run_and_end_once, tasks_are_apart,
};
