ghost use Rattle.std.specs.Prelude.{◌≡◌, ◌≤◌, IfOk, OnOk};
ghost use Rattle.sbp_initiator.specs.Acting.{IsAction, act_step};
ghost use Rattle.sbp_world.specs.Lines.{acted, weight_in};
ghost use Rattle.task_world.specs.Lines.{IsTaskEvent, TaskHappens, TaskHappensTo};
ghost use Rattle.task_world.specs.Worlds.{task_scene};

use super::Parts;
use super::delivering::NODE_CALLS;
use rbc_disk::Medium;
use sbp_base::NoMemory;
use sbp_bus::weight_of;
use sbp_initiator::{ActFault, Initiator};
use sbp_journal::{Action, Event, Outbox};

/// The actions that an initiator counts.
const ACTS: u32 = 1 << 31;

/// What the ORB of an action counts in the budget; 0 where it prepares none.
fn weight_in(action: &Action) -> u64
    requires { IsAction action.now }
    ensures { result ≡ weight_in action.now }
{
    match action {
        Action::Put(cmd) => weight_of(cmd),
        Action::Append(cmd) => weight_of(cmd),
        _ => 0,
    }
}

/// The initiator acts; the number of the refusal, if it is refused. Want of memory is answered too where
/// it counts no further call.
fn act_at(
    initiator: &mut Initiator,
    outbox: &mut Outbox,
    action: &Action,
) -> Result<Option<u8>, NoMemory>
    requires { IsAction action.now }
    ensures { IfOk result (λ number. (number, (outbox.new, initiator.new)) ≡ act_step action.now outbox.old initiator.old) }
{
    if initiator.calls() >= NODE_CALLS || initiator.acts() >= ACTS {
        return Err(NoMemory);
    }
    match initiator.act(action, outbox) {
        Ok(()) => Ok(None),
        Err(ActFault::Refused(number)) => Ok(Some(number)),
        Err(ActFault::NoMemory) => Err(NoMemory),
    }
}

/// A number of packets.
fn widen(count: u32) -> u64
    ensures { result ≡ count }
{
    u64::from(count)
}

impl Parts {
    /// The initiator acts.
    #[tactic(auto, unfolding(sbp_world::specs::Lines::acted))]
    fn act(&mut self, outbox: &mut Outbox, line: u32, action: &Action) -> Result<(), NoMemory>
        requires { IsAction action.now }
        ensures step { OnOk result (self.new.world ≡ acted line 0 action.now self.old.world) }
        ensures node { self.new.node ≡ self.old.node }
    {
        outbox.clear();
        match act_at(&mut self.initiator, outbox, action)? {
            Some(number) => self.bus.refuse(line, number),
            None => self.hand_out(1, weight_in(action), outbox),
        }
    }

    /// Does what the event of a line says, beside the notes that there are.
    fn run(
        &mut self,
        medium: &mut dyn Medium,
        outbox: &mut Outbox,
        line: u32,
        event: &Event,
    ) -> Result<(), NoMemory>
        requires event { IsTaskEvent event.now }
        ensures fell { media_faults medium.old ≤ media_faults medium.new }
        ensures happens { OnOk result (TaskHappensTo line event.now (task_scene self.old (disk medium.old) (media_faults medium.old)) (task_scene self.new (disk medium.new) (media_faults medium.new))) }
    {
        match event {
            Event::Act { action, .. } => self.act(outbox, line, action),
            Event::Deliver { serial } => self.deliver_line(medium, outbox, line, *serial),
            Event::Repeat { serial } => self.repeat_line(medium, outbox, line, *serial),
            Event::Lose { serial } => self.bus.lose(line, *serial),
            Event::Timeout { serial } => self.time_out(medium, outbox, line, *serial),
            Event::Step { count } => self.deliver_up_to(medium, outbox, widen(*count)),
            Event::Settle => self.settle(medium, outbox),
            _ => unreachable!(),
        }
    }

    /// Runs the event of a line, which begins without notes.
    pub(crate) fn step(
        &mut self,
        medium: &mut dyn Medium,
        outbox: &mut Outbox,
        line: u32,
        event: &Event,
    ) -> Result<(), NoMemory>
        requires event { IsTaskEvent event.now }
        ensures fell { media_faults medium.old ≤ media_faults medium.new }
        ensures happens { OnOk result (TaskHappens line event.now (task_scene self.old (disk medium.old) (media_faults medium.old)) (task_scene self.new (disk medium.new) (media_faults medium.new))) }
    {
        self.clear();
        self.run(medium, outbox, line, event)
    }
}
