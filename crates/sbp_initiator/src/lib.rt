//! The initiator node (NCITS 325-1998): its transaction layer, its session, its slots and lists with the
//! memory that the target reads and writes, its operations, and its configuration ROM, joined.
#![tactic(auto)]

mod acting;
mod commands;
mod effects;
mod fault;
mod initiator;
mod laws;
mod purpose;
mod receiving;
mod refusals;
mod requests;
mod seeing;
mod state;

pub use fault::ActFault;
pub use initiator::Initiator;
pub use laws::{
    calls_tell, deliveries_are_judged, deliveries_ask_for_quadlets, first_row_refuses,
    lists_are_known, no_number_comes_back, packets_are_the_layers, pointers_are_written,
    pointing_is_a_write_under_way, quadlets_are_few, session_goes_by_its_table,
    slots_and_rom_are_read, slots_take_their_calls, values_rise, waiting_orbs_are_taken,
};
pub use purpose::{Demand, Ending, ListMarks, Pointing, Purpose, Running, Wanted};
pub use state::{Counts, InitiatorState};
