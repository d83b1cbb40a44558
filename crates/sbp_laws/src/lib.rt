//! The laws of a run: the terms that are read off its notes, what the media hold by them, and a file
//! for each law. They know of no node.
#![tactic(auto)]

mod laws;
mod tried;

pub use laws::{
    ends_in_order, lawful_entry_by_entry, lawful_runs_are_so_on_lists,
    lawful_runs_are_so_on_the_bus, lists_read_in_time,
};
pub use tried::{
    action_law_tried, answer_law_tried, budget_tried, carried_law_tried, cause_law_tried,
    execution_law_tried, judgement_law_tried, login_law_tried, media_law_tried, named_tried,
    once_law_tried, order_law_tried, others_tried, sent_law_tried, status_law_tried,
    worked_runs_tried,
};
