ghost use Rattle.std.specs.Prelude.{◌≡◌, ◌<◌, length, OnOk};
ghost use Rattle.sbp_journal.specs.Outgoings.{empty_outbox};
ghost use Rattle.sbp_initiator.specs.Seeing.{see_step};
ghost use Rattle.sbp_world.specs.Nodes.{see_line, sees, target_sees, target_ticks, tick_line};

use super::Parts;
use super::delivering::NODE_CALLS;
use sbp_base::{Generation, NoMemory, NodeId};
use sbp_initiator::Initiator;
use sbp_journal::{Note, Outbox};
use sbp_target::Target;

/// The target sees a generation. Want of memory is answered too where it counts no further call.
fn target_sees(
    target: &mut Target,
    outbox: &mut Outbox,
    generation: Generation,
    id: NodeId,
) -> Result<(), NoMemory>
    requires { outbox.old ≡ empty_outbox }
    ensures units { length target.new.node.units ≡ length target.old.node.units }
    ensures seen { OnOk result ((outbox.new, target.new.node) ≡ target_sees generation id target.old.node) }
{
    if target.calls() >= NODE_CALLS {
        return Err(NoMemory);
    }
    target.see(generation, id, outbox)
}

/// An initiator sees a generation. Want of memory is answered too where it counts no further call.
fn initiator_sees(
    initiator: &mut Initiator,
    outbox: &mut Outbox,
    generation: Generation,
    id: NodeId,
    target: NodeId,
) -> Result<(), NoMemory>
    ensures { OnOk result ((outbox.new, initiator.new) ≡ see_step generation id target outbox.old initiator.old) }
{
    if initiator.calls() >= NODE_CALLS {
        return Err(NoMemory);
    }
    initiator.see(generation, id, target, outbox)
}

/// A second passes at the target. Want of memory is answered too where it counts no further call.
fn target_ticks(target: &mut Target, outbox: &mut Outbox) -> Result<(), NoMemory>
    requires { outbox.old ≡ empty_outbox }
    ensures units { length target.new.node.units ≡ length target.old.node.units }
    ensures ticked { OnOk result ((outbox.new, target.new.node) ≡ target_ticks target.old.node) }
{
    if target.calls() >= NODE_CALLS {
        return Err(NoMemory);
    }
    target.tick(outbox)
}

impl Parts {
    /// A node learns of the latest generation.
    #[tactic(auto, unfolding(crate::specs::Nodes::sees))]
    fn learn(&mut self, outbox: &mut Outbox, node: u8) -> Result<(), NoMemory>
        requires node { node < length self.old.generations.seen }
        requires outbox { outbox.old ≡ empty_outbox }
        ensures units { length self.new.target.units ≡ length self.old.target.units }
        ensures bus { self.new.generations ≡ self.old.generations }
        ensures step { OnOk result ((outbox.new, self.new) ≡ sees node self.old) }
    {
        let generation = self.bus.latest();
        let target = self.bus.latest_id(0);
        if node == 0 {
            return target_sees(&mut self.target, outbox, generation, target);
        }
        let id = self.bus.latest_id(node);
        let index = usize::from(node) - 1;
        initiator_sees(&mut self.initiators[index], outbox, generation, id, target)
    }

    /// A node sees the latest reset.
    #[tactic(auto, unfolding(crate::specs::Nodes::see_line))]
    pub(super) fn see(&mut self, outbox: &mut Outbox, node: u8) -> Result<(), NoMemory>
        requires { node < length self.old.generations.seen }
        ensures units { length self.new.target.units ≡ length self.old.target.units }
        ensures step { OnOk result (self.new ≡ see_line node self.old) }
    {
        self.sizes();
        outbox.clear();
        self.bus.see(node)?;
        self.learn(outbox, node)?;
        self.hand_out(node, 0, outbox)
    }

    /// A second passes.
    #[tactic(auto, unfolding(crate::specs::Nodes::tick_line))]
    pub(super) fn tick(&mut self, outbox: &mut Outbox) -> Result<(), NoMemory>
        ensures units { length self.new.target.units ≡ length self.old.target.units }
        ensures step { OnOk result (self.new ≡ tick_line self.old) }
    {
        outbox.clear();
        self.bus.tell(Note::Tick)?;
        target_ticks(&mut self.target, outbox)?;
        self.hand_out(0, 0, outbox)
    }
}
