ghost use Rattle.std.specs.Prelude.{◌≡◌, ◌≤◌, IfOk, OnOk};
ghost use Rattle.std.specs.List.{AllByRecursion};
ghost use Rattle.sbp_journal.specs.Form.{HasForm};
ghost use Rattle.sbp_journal.specs.Written.{IsTyped};
ghost use Rattle.task_world.specs.Lines.{IsTaskEvent, TaskHappens};
ghost use Rattle.task_world.specs.Making.{new_task_world};
ghost use Rattle.task_world.specs.Wire.Keeping.{BeginsTaskLaws, KeepsTaskLaws};
ghost use Rattle.task_world.specs.Worlds.{task_scene};

use crate::parts::Parts;
use rbc_disk::Medium;
use sbp_base::NoMemory;
use sbp_journal::{Event, Journal, Outbox};
use std::alloc::Global;
use std::marker::Model;

/// The bus with its two nodes, and the notes of the last line. After want of memory it must not be used
/// again.
#[derive(Drop)]
pub struct TaskWorld {
    parts: Parts,
    outbox: Outbox,
}

impl Model for TaskWorld {
    ghost use Rattle.task_world.specs.Worlds.{TaskWorldState};

    ghost Value = { TaskWorldState };

    ghost view = { λ world. world.parts };
}

impl TaskWorld {
    /// A run begins as `begin 1 ready` says: one initiator, which is logged in on the one unit. Its note is
    /// inside the types of its fields.
    #[tactic(auto, using(crate::proofs::Wire::Keeping::begins_laws), unfolding(sbp_world::specs::Making::new_world))]
    pub fn begin(alloc: Global) -> Result<TaskWorld, NoMemory>
        ensures world { IfOk result (λ world. world ≡ new_task_world) }
        ensures lawful { IfOk result (λ world. BeginsTaskLaws world) }
        ensures form { IfOk result (λ world. AllByRecursion HasForm world.world.fresh) }
        ensures typed { IfOk result (λ world. AllByRecursion IsTyped world.world.fresh) }
    {
        let parts = Parts::new(alloc)?;
        // Its clause has that the note is inside its types.
        let _fresh = parts.fresh();
        Ok(TaskWorld {
            parts,
            outbox: Outbox::new(alloc),
        })
    }

    /// Runs the event of the line with this number, over the medium of the unit; its notes are then
    /// [`TaskWorld::fresh`], each inside the types of its fields. A refused action is a note. Every run that the
    /// world stood for goes on by this line, and such a run has the laws of the wire and of the bus's lines.
    #[tactic(auto, using(crate::proofs::Wire::Keeping::keeps_laws))]
    pub fn step(
        &mut self,
        medium: &mut dyn Medium,
        line: u32,
        event: &Event,
    ) -> Result<(), NoMemory>
        requires event { IsTaskEvent event.now }
        ensures fell { media_faults medium.old ≤ media_faults medium.new }
        ensures happens { OnOk result (TaskHappens line event.now (task_scene self.old (disk medium.old) (media_faults medium.old)) (task_scene self.new (disk medium.new) (media_faults medium.new))) }
        ensures lawful { OnOk result (KeepsTaskLaws line event.now (task_scene self.old (disk medium.old) (media_faults medium.old)) (task_scene self.new (disk medium.new) (media_faults medium.new))) }
        ensures form { OnOk result (AllByRecursion HasForm self.new.world.fresh) }
        ensures typed { OnOk result (AllByRecursion IsTyped self.new.world.fresh) }
    {
        self.parts.step(medium, &mut self.outbox, line, event)?;
        // Its clause has that the notes are inside their types.
        let _fresh = self.parts.fresh();
        Ok(())
    }

    /// The notes of the last line alone, each inside the types of its fields; after `begin` that of its line.
    pub fn fresh(&self) -> &Journal
        ensures same { result.now ≡ self.now.world.fresh }
        ensures typed { AllByRecursion IsTyped self.now.world.fresh }
    {
        self.parts.fresh()
    }
}
