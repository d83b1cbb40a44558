//! What a target node knows apart from its agents and its transactions: the places of its logins, what
//! a request asks for by its address and for which login, its ROM, and what it begins with (NCITS 325-1998; IEEE 1212).
#![tactic(auto)]

mod address;
mod beginning;
mod logins;
mod place;
mod places;

pub use address::{
    ADDRESS, Access, AgentRegister, COMPLETE, CONFLICT, DATA, Demand, Register, TYPE, demand_of,
    is_lock, offset_in, register_at,
};
pub use beginning::{Beginning, ready_logins};
pub use logins::{is_barred, is_below_reserve, served_login};
pub use place::LoginPlace;
pub use places::mask_of;
