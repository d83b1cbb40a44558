//! The layouts of SBP-2 (NCITS 325-1998): request blocks (ORBs), what the target writes back, and
//! status blocks. No call takes memory.
#![tactic(auto)]

mod ask;
mod command;
mod fault;
mod fields;
mod laws;
mod login;
mod management;
mod pointer;
mod query;
mod status;

pub use ask::{Ask, FailCause, Reply};
pub use command::CommandOrb;
pub use fault::OrbFault;
pub use laws::{
    command_orb_reads_back, command_orb_stands_in_front, login_response_reads_back,
    management_orb_reads_back, query_response_reads_back, status_block_reads_back,
    status_block_writes_back,
};
pub use login::LoginResponse;
pub use management::ManagementOrb;
pub use pointer::OrbPointer;
pub use query::{QueryEntry, QueryResponse};
pub use status::{StatusBlock, StatusKind, read_status};
