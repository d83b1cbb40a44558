ghost use Rattle.std.specs.Prelude.{◌≡◌, OnOk};
ghost use Rattle.sbp_world.specs.Telling.{ticket_in, ticket_of, told};

use super::Parts;
use orb_list::Ticket;
use sbp_base::{NoMemory, Offset};
use sbp_journal::Side;

impl Parts {
    /// The latest ORB that an initiator prepared in the slot at an address.
    fn ticket_of(&self, initiator: u8, orb: Offset) -> Option<Ticket>
        ensures { result ≡ ticket_of self.now initiator orb }
    {
        if usize::from(initiator) >= self.initiators.len() {
            return None;
        }
        self.initiators[usize::from(initiator)].ticket_at(orb)
    }

    /// The latest ORB that was prepared in the slot that a side names, by the initiator that has its place.
    fn ticket_in(&self, side: &Side) -> Option<Ticket>
        ensures { result ≡ ticket_in side.now self.now }
    {
        match side {
            Side::Opened { place, orb }
            | Side::Ran { place, orb, .. }
            | Side::Ended { place, orb, .. } => {
                self.ticket_of(self.bus.holder(*place).initiator, *orb)
            }
            _ => None,
        }
    }

    /// Makes the note of what a node tells; an ORB that it prepares counts so much in the budget.
    #[tactic(auto, using(crate::proofs::Buses::told_on))]
    #[inline(always)]
    pub(super) fn tell(&mut self, weight: u64, side: Side) -> Result<(), NoMemory>
        ensures step { OnOk result (self.new ≡ told weight side self.old) }
        ensures bus { self.new.generations ≡ self.old.generations }
        ensures target { self.new.target ≡ self.old.target }
    {
        let ticket = self.ticket_in(&side);
        self.bus.tell_side(weight, &ticket, side)
    }
}
