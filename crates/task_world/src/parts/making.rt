ghost use Rattle.std.specs.Prelude.{◌≡◌, IfOk};
ghost use Rattle.std.specs.List.{AllByRecursion};
ghost use Rattle.sbp_journal.specs.Written.{IsTyped};
ghost use Rattle.sbp_world.specs.Worlds.{without_notes};
ghost use Rattle.task_world.specs.Making.{new_task_world};
ghost use Rattle.task_world.specs.Worlds.{in_task_world};

use super::Parts;
use sbp_base::NoMemory;
use sbp_bus::Bus;
use sbp_initiator::Initiator;
use sbp_journal::{Journal, Note};
use std::alloc::Global;
use task_target::TaskTarget;

impl Parts {
    /// A run begins, with one initiator that has a login.
    #[tactic(auto, using(crate::proofs::Making::new_parts))]
    pub(crate) fn new(alloc: Global) -> Result<Parts, NoMemory>
        ensures { IfOk result (λ parts. parts ≡ new_task_world) }
    {
        let note = Note::Begin {
            initiators: 1,
            ready: true,
        };
        Ok(Parts {
            bus: Bus::new(alloc, 1, 1, note)?,
            target: TaskTarget::new(alloc)?,
            initiator: Initiator::new(alloc, 0, true)?,
        })
    }

    /// The notes of the last line.
    pub(crate) fn fresh(&self) -> &Journal
        ensures same { result.now ≡ self.now.world.fresh }
        ensures typed { AllByRecursion IsTyped self.now.world.fresh }
    {
        self.bus.fresh()
    }

    /// A line begins without notes.
    pub(crate) fn clear(&mut self)
        ensures { self.new ≡ in_task_world without_notes self.old }
    {
        self.bus.clear();
    }
}
