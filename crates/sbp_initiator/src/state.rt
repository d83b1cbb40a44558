ghost use Rattle.std.specs.Prelude.{◌≡◌, ◌<◌};
ghost use Rattle.sbp_initiator.specs.States.{is_answered, is_list, is_orb_of, is_present_orb, is_unwritten, last_linked, no_marks, place_in};

use crate::purpose::{ListMarks, Pointing, Purpose, Running};
use initiator_base::{RomQuads, StateReads};
use label_table::Transactions;
use orb_list::{Lists, PresentList};
use sbp_base::{NodeId, Offset};
use sbp_session::Seat;

/// What an initiator has counted.
#[derive(Clone, Copy)]
pub struct Counts {
    /// The writes to MANAGEMENT_AGENT.
    pub managed: u32,
    /// The numbers that logins used.
    pub logins: u32,
    /// The number that the next write to DOORBELL or AGENT_RESET carries.
    pub running: u32,
    /// The calls that changed it.
    pub calls: u64,
    /// The actions that were done.
    pub acts: u32,
}

/// An initiator: its number, the target's node, its transaction layer, its session, its lists, what is
/// known of the present one, the operation and the reads of AGENT_STATE under way, the target's ROM as
/// far as it was read, where MANAGEMENT_AGENT stands, and its counts.
#[derive(Drop)]
pub struct InitiatorState {
    pub number: u8,
    pub target: NodeId,
    pub layer: Transactions<Purpose>,
    pub seat: Seat,
    pub lists: Lists,
    pub marks: ListMarks,
    pub operation: Option<Running>,
    pub states: StateReads,
    pub quads: RomQuads,
    pub management: Option<Offset>,
    pub counts: Counts,
}

/// The last ORB of a list that is linked.
pub(crate) fn last_linked(list: &PresentList) -> u32
    ensures { result ≡ last_linked list.now }
{
    if list.link == orb_list::Link::Done {
        list.tail.number()
    } else {
        list.tail.number().saturating_sub(1)
    }
}

/// Whether a list is the present one.
pub(crate) fn is_list(present: &Option<PresentList>, number: u32) -> bool
    ensures { result ≡ is_list present.now number }
{
    match present {
        Some(list) => list.tail.list() == number,
        None => false,
    }
}

impl ListMarks {
    /// Of no list.
    pub(crate) fn none() -> ListMarks
        ensures { result ≡ no_marks }
    {
        ListMarks {
            first: 0,
            pointing: Pointing::Unwritten,
            is_dead: false,
        }
    }
}

impl Pointing {
    /// Whether ORB_POINTER was not written.
    pub(crate) fn is_unwritten(self) -> bool
        ensures { result ≡ is_unwritten self }
    {
        matches!(self, Pointing::Unwritten)
    }

    /// Whether that was answered complete.
    pub(crate) fn is_answered(self) -> bool
        ensures { result ≡ is_answered self }
    {
        matches!(self, Pointing::Answered)
    }
}

impl Running {
    /// The place of its management ORB, 0 or 1; 0 where it has none.
    pub(crate) fn place(&self) -> u8
        ensures value { result ≡ place_in self.now }
        ensures small { result < 2 }
    {
        (self.managed.unwrap_or(0) % 2) as u8
    }

    /// Whether this is the address of its management ORB.
    fn has_orb(&self, orb: Offset) -> bool
        ensures { result ≡ is_orb_of self.now.managed orb }
    {
        match self.managed {
            Some(managed) => orb.value() == 0x1200_0000 + 0x20 * u64::from(managed % 2),
            None => false,
        }
    }
}

/// Whether this is the address of the management ORB of the operation under way.
pub(crate) fn is_present_orb(orb: Offset, operation: &Option<Running>) -> bool
    ensures { result ≡ is_present_orb orb operation.now }
{
    match operation {
        Some(running) => running.has_orb(orb),
        None => false,
    }
}
