ghost use Rattle.std.specs.Prelude.{◌≡◌, ◌≤◌, OnOk};
ghost use Rattle.sbp_world.specs.Settling.{budget};
ghost use Rattle.task_world.specs.Settling.{DeliversUpTo, Settles};
ghost use Rattle.task_world.specs.Worlds.{task_scene};

use super::Parts;
use rbc_disk::Medium;
use sbp_base::NoMemory;
use sbp_journal::Outbox;

/// The most deliveries of a line.
const MOST: u64 = 10_000_000;

impl Parts {
    /// Delivers the lowest packet in flight, until none is, but so many at most.
    pub(super) fn deliver_up_to(
        &mut self,
        medium: &mut dyn Medium,
        outbox: &mut Outbox,
        most: u64,
    ) -> Result<(), NoMemory>
        ensures fell { media_faults medium.old ≤ media_faults medium.new }
        ensures delivers { OnOk result (DeliversUpTo most (task_scene self.old (disk medium.old) (media_faults medium.old)) (task_scene self.new (disk medium.new) (media_faults medium.new))) }
    {
        for _ in 0..most {
            let Some(serial) = self.bus.lowest() else {
                return Ok(());
            };
            self.deliver(medium, outbox, serial, false)?;
        }
        Ok(())
    }

    /// The budget of a `settle`, and no more deliveries than a line has.
    #[tactic(auto, unfolding(sbp_world::specs::Settling::budget), using(sbp_world::proofs::Weights::budget_is))]
    fn budget(&self) -> u64
        ensures budget { result ≡ budget self.now.world }
    {
        let flying = (self.bus.in_flight() as u64).min(MOST);
        let waiting = self.bus.weight().min(MOST);
        (4 * flying + waiting + 600).min(MOST)
    }

    /// Delivers until nothing is in flight or the budget is spent, and tells which.
    pub(super) fn settle(
        &mut self,
        medium: &mut dyn Medium,
        outbox: &mut Outbox,
    ) -> Result<(), NoMemory>
        ensures fell { media_faults medium.old ≤ media_faults medium.new }
        ensures settles { OnOk result (Settles (task_scene self.old (disk medium.old) (media_faults medium.old)) (task_scene self.new (disk medium.new) (media_faults medium.new))) }
    {
        let most = self.budget();
        self.deliver_up_to(medium, outbox, most)?;
        let _settled = self.bus.tell_end()?;
        Ok(())
    }
}
