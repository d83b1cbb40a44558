//! The command agent of one login over an ordered unit (NCITS 325-1998, command block agents): it
//! fetches the ORBs of a list in their order, moves their data, runs their commands and writes their
//! status blocks. Only [`Agent::new`] takes memory.
#![tactic(auto)]

mod agent;
mod checks;
mod counts;
mod laws;
mod phase;
mod room;
mod step;

pub use agent::{Agent, aligned};
pub use counts::{
    agents_work_until_an_end, chunks_are_counted, registers_make_no_more_requests,
    replies_make_no_more_requests,
};
pub use laws::{
    calls_keep_agents_sound, failed_reply_is_a_loss, failing_reread_ends_nothing,
    failures_make_no_more_requests,
};
pub use phase::{Phase, ReadAhead};
pub use step::{AgentState, AgentStep, PointRefusal, Which};
