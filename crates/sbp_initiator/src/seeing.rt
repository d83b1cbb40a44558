//! What an initiator does when it sees a reset.
ghost use Rattle.std.specs.Prelude.{◌≡◌, ◌+◌, ◌*◌, ◌^◌, ◌<◌, ◌≤◌, length, None, OnOk};
ghost use Rattle.sbp_initiator.specs.Counted.{Counts};
ghost use Rattle.sbp_initiator.specs.Effects.{Keeps, drop_list_step};
ghost use Rattle.sbp_initiator.specs.Seeing.{all_end, freed_step, interrupted, reset_step, reset_told, resets_told, see_step, states_end};

use crate::effects::tell;
use crate::purpose::{ListMarks, Running};
use crate::state::InitiatorState;
use sbp_base::{Generation, NoMemory, NodeId};
use sbp_journal::{Note, OpWord, Operation, Outbox};
use sbp_session::in_place;

/// Tells that an operation, or a read of AGENT_STATE, ended by a reset.
fn tell_reset(outbox: &mut Outbox, initiator: u8, operation: Operation) -> Result<(), NoMemory>
    ensures { OnOk result (outbox.new ≡ reset_told initiator operation outbox.old) }
{
    tell(
        outbox,
        Note::Op {
            initiator,
            operation,
            word: OpWord::Reset,
        },
    )
}

/// Tells that of reads of AGENT_STATE.
fn tell_states(outbox: &mut Outbox, initiator: u8, acts: &[u32]) -> Result<(), NoMemory>
    ensures { OnOk result (outbox.new ≡ states_end initiator acts.now outbox.old) }
{
    if let [_, others @ ..] = acts {
        tell_reset(outbox, initiator, Operation::State)?;
        tell_states(outbox, initiator, others)?;
    }
    Ok(())
}

/// Tells that of an operation and of reads of AGENT_STATE, in the order in which they began.
fn tell_all(
    outbox: &mut Outbox,
    initiator: u8,
    running: Running,
    acts: &[u32],
) -> Result<(), NoMemory>
    ensures { OnOk result (outbox.new ≡ all_end initiator running acts.now outbox.old) }
{
    match acts {
        [] => tell_reset(outbox, initiator, running.operation),
        [first, ..] if running.act < *first => {
            tell_reset(outbox, initiator, running.operation)?;
            tell_states(outbox, initiator, acts)
        }
        [_, others @ ..] => {
            tell_reset(outbox, initiator, Operation::State)?;
            tell_all(outbox, initiator, running, others)
        }
    }
}

/// Tells that of what was under way.
fn tell_resets(
    outbox: &mut Outbox,
    initiator: u8,
    operation: Option<Running>,
    acts: &[u32],
) -> Result<(), NoMemory>
    ensures { OnOk result (outbox.new ≡ resets_told initiator operation acts.now outbox.old) }
{
    match operation {
        Some(running) => tell_all(outbox, initiator, running, acts),
        None => tell_states(outbox, initiator, acts),
    }
}

impl InitiatorState {
    /// Nothing is under way any more, and the session moves.
    fn interrupt(&mut self, target: NodeId)
        requires { self.old.counts.calls < 2 ^ 48 }
        ensures { self.new ≡ interrupted self.old target }
    {
        self.counts.calls += 1;
        self.target = target;
        self.operation = None;
        self.states.clear();
        in_place::reset(&mut self.seat);
    }

    /// The present list is dropped, and every slot is free.
    fn free(&mut self, outbox: &mut Outbox) -> Result<(), NoMemory>
        requires called { self.old.lists.slots.calls < 2 ^ 55 }
        ensures step { OnOk result ((outbox.new, self.new) ≡ freed_step (drop_list_step outbox.old self.old)) }
        ensures keeps { Keeps 2 0 self.old self.new }
    {
        self.drop_list(outbox)?;
        self.lists.free_all();
        self.marks = ListMarks::none();
        Ok(())
    }

    /// A reset was seen.
    fn reset(&mut self, target: NodeId, outbox: &mut Outbox) -> Result<(), NoMemory>
        requires calls { self.old.counts.calls < 2 ^ 48 }
        requires called { self.old.lists.slots.calls < 2 ^ 55 }
        ensures step { OnOk result ((outbox.new, self.new) ≡ reset_step target outbox.old self.old) }
        ensures counts { Counts self.old self.new }
        ensures labels { self.new.layer.calls ≤ self.old.layer.calls }
        ensures calls { self.new.counts.calls ≡ self.old.counts.calls + 1 }
    {
        let number = self.number;
        let operation = self.operation;
        let told = tell_resets(outbox, number, operation, self.states.as_slice());
        self.interrupt(target);
        told?;
        self.free(outbox)
    }

    /// Sees a generation, with its ID and the target's in it.
    #[tactic(auto, unfolding(crate::specs::Seeing::see_step), using(crate::proofs::Layers::see_same))]
    pub(crate) fn see(
        &mut self,
        generation: Generation,
        id: NodeId,
        target: NodeId,
        outbox: &mut Outbox,
    ) -> Result<(), NoMemory>
        requires calls { self.old.counts.calls < 2 ^ 48 }
        requires called { self.old.lists.slots.calls < 2 ^ 55 }
        requires labelled { self.old.layer.calls < 2 ^ 55 }
        ensures step { OnOk result ((outbox.new, self.new) ≡ see_step generation id target outbox.old self.old) }
        ensures counts { Counts self.old self.new }
    {
        if self.layer.see(generation, id) {
            self.reset(target, outbox)?;
        }
        Ok(())
    }
}
