//! The management agent of a target: one management operation at a time (NCITS 325-1998, management
//! agent). No call takes memory.
#![tactic(auto)]

mod decide;
mod decision;
mod entries;
mod function;
mod law;
mod manager;
mod operation;
mod outgoing;
mod status;

pub use decision::{Decision, Effect, ManagerStep, Outcome, Response};
pub use function::Function;
pub use law::{
    asks_one_request, decided_by_first_row, decisions_call, effects_of_decisions,
    places_of_effects, refusals_do_nothing, replies_call, units_of_effects, whole_operations,
};
pub use manager::Manager;
pub use operation::{Busy, Operation, Phase};
pub use status::Status;
