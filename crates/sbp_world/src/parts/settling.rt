ghost use Rattle.std.specs.Prelude.{◌≡◌, ◌+◌, ◌*◌, ◌<◌, ◌≤◌, length, map, min, IfOk, IfSome, OnOk};
ghost use Rattle.sbp_target.specs.Faults.{NoneFell};
ghost use Rattle.sbp_world.specs.Settling.{DeliversUpTo, Settles, budget};
ghost use Rattle.sbp_world.specs.Worlds.{scene};

use super::Parts;
use rbc_disk::Medium;
use sbp_base::NoMemory;
use sbp_journal::Outbox;

/// The most deliveries of a line.
const MOST: u64 = 10_000_000;

impl Parts {
    /// Delivers the lowest packet in flight, until none is, but so many at most.
    pub(super) fn deliver_up_to(
        &mut self,
        media: &mut Vec<Box<dyn Medium>>,
        outbox: &mut Outbox,
        most: u64,
    ) -> Result<(), NoMemory>
        requires media { length media.old.items ≡ length self.old.target.units }
        ensures size { length media.new.items ≡ length media.old.items }
        ensures fell { NoneFell (map media_faults media.old.items) (map media_faults media.new.items) }
        ensures units { length self.new.target.units ≡ length self.old.target.units }
        ensures delivers { OnOk result (DeliversUpTo most (scene self.old (map disk media.old.items) (map media_faults media.old.items)) (scene self.new (map disk media.new.items) (map media_faults media.new.items))) }
    {
        for _ in 0..most {
            let Some(serial) = self.bus.lowest() else {
                return Ok(());
            };
            self.deliver(media, outbox, serial, false)?;
        }
        Ok(())
    }

    /// The budget of a `settle`, and no more deliveries than a line has.
    #[tactic(auto, unfolding(crate::specs::Settling::budget), using(crate::proofs::Weights::budget_is))]
    fn budget(&self) -> u64
        ensures budget { result ≡ budget self.now }
    {
        let flying = (self.bus.in_flight() as u64).min(MOST);
        let waiting = self.bus.weight().min(MOST);
        let nodes = self.initiators.len() as u64;
        (4 * flying + waiting + 600 * nodes).min(MOST)
    }

    /// Delivers until nothing is in flight or the budget is spent, and tells which; true exactly where
    /// nothing is in flight.
    pub(crate) fn settle(
        &mut self,
        media: &mut Vec<Box<dyn Medium>>,
        outbox: &mut Outbox,
    ) -> Result<bool, NoMemory>
        requires media { length media.old.items ≡ length self.old.target.units }
        ensures size { length media.new.items ≡ length media.old.items }
        ensures fell { NoneFell (map media_faults media.old.items) (map media_faults media.new.items) }
        ensures units { length self.new.target.units ≡ length self.old.target.units }
        ensures settles { IfOk result (λ settled. Settles settled (scene self.old (map disk media.old.items) (map media_faults media.old.items)) (scene self.new (map disk media.new.items) (map media_faults media.new.items))) }
    {
        let most = self.budget();
        self.deliver_up_to(media, outbox, most)?;
        let settled = self.bus.tell_end()?;
        Ok(settled)
    }
}
