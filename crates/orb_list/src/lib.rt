//! An initiator's command slots, and the lists of ORBs that it links in them (NCITS 325-1998, linked
//! lists of ORBs), which take no memory; and both with the memory that holds the ORBs and what the
//! status of each brings (`Lists`).
#![tactic(auto)]

mod answer;
mod fault;
mod laws;
mod layout;
mod list;
mod lists;
mod request;
mod slot;
mod slots;
mod ticket;

pub use answer::AnswerPlan;
pub use fault::ListFault;
pub use laws::{
    buffers_stay, data_stand_in_segments, named_statuses_are_taken, numbers_are_found,
    orbs_are_served, orbs_keep_their_slots, page_table_reads_back, slots_are_kept,
    slots_become_free, slots_stay_held, steps_keep_slots,
};
pub use list::{Link, Linking, PresentList};
pub use lists::Lists;
pub use request::Request;
pub use slot::{Slot, SlotState};
pub use slots::Slots;
pub use ticket::Ticket;
