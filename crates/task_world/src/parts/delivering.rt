ghost use Rattle.std.specs.Prelude.{◌≡◌, ◌≤◌, IfOk, IfSome, OnOk};
ghost use Rattle.sbp_initiator.specs.Receiving.{receive_step};
ghost use Rattle.sbp_journal.specs.Outgoings.{empty_outbox};
ghost use Rattle.sbp_world.specs.Delivering.{arrived, arrived_by};
ghost use Rattle.task_world.specs.Delivering.{Delivers, NodeReceives, Receives};
ghost use Rattle.task_world.specs.Worlds.{one_held, task_scene};

use super::Parts;
use packet_store::Sent;
use rbc_disk::Medium;
use sbp_base::NoMemory;
use sbp_initiator::Initiator;
use sbp_journal::{Judged, Outbox};
use sbp_world::Arrival;
use task_target::TaskTarget;

/// The calls that a node counts.
pub(super) const NODE_CALLS: u64 = 1 << 48;

/// The target receives a packet. Want of memory is answered too where it counts no further call.
fn target_receives(
    target: &mut TaskTarget,
    medium: &mut dyn Medium,
    outbox: &mut Outbox,
    sent: &Sent,
) -> Result<Judged, NoMemory>
    requires outbox { outbox.old ≡ empty_outbox }
    ensures fell { media_faults medium.old ≤ media_faults medium.new }
    ensures received { IfOk result (λ judged. NodeReceives sent.now target.old.node (one_held (disk medium.old) (media_faults medium.old)) judged outbox.new target.new.node (one_held (disk medium.new) (media_faults medium.new))) }
{
    if target.calls() >= NODE_CALLS {
        return Err(NoMemory);
    }
    let judged = target.receive(medium, sent.generation, sent.bytes.as_slice(), outbox)?;
    Ok(judged)
}

/// The initiator receives a packet. Want of memory is answered too where it counts no further call.
fn initiator_receives(
    initiator: &mut Initiator,
    outbox: &mut Outbox,
    sent: &Sent,
) -> Result<Judged, NoMemory>
    requires outbox { outbox.old ≡ empty_outbox }
    ensures received { IfOk result (λ judged. (judged, (outbox.new, initiator.new)) ≡ receive_step sent.now.generation sent.now.bytes empty_outbox initiator.old) }
{
    if initiator.calls() >= NODE_CALLS {
        return Err(NoMemory);
    }
    initiator.receive(sent.generation, sent.bytes.as_slice(), outbox)
}

impl Parts {
    /// The node that a packet was sent to judges it. A packet that is not kept comes to no node.
    fn receive(
        &mut self,
        medium: &mut dyn Medium,
        outbox: &mut Outbox,
        serial: u64,
    ) -> Result<Option<Arrival>, NoMemory>
        requires outbox { outbox.old ≡ empty_outbox }
        ensures fell { media_faults medium.old ≤ media_faults medium.new }
        ensures received { IfOk result (λ arrival. Receives serial (task_scene self.old (disk medium.old) (media_faults medium.old)) arrival outbox.new (task_scene self.new (disk medium.new) (media_faults medium.new))) }
        ensures node { IfOk result (λ arrival. IfSome arrival (λ a. a.node ≤ 1)) }
    {
        let Some(sent) = self.bus.packet(serial) else {
            return Ok(None);
        };
        let node = sent.to;
        if node == 0 {
            let judged = target_receives(&mut self.target, medium, outbox, sent)?;
            return Ok(Some(Arrival { node, judged }));
        }
        if node == 1 {
            let judged = initiator_receives(&mut self.initiator, outbox, sent)?;
            return Ok(Some(Arrival { node, judged }));
        }
        Ok(None)
    }

    /// What follows the judging of a packet: its note, then what its node handed out.
    #[tactic(auto, using(sbp_world::proofs::Buses::judged_on), unfolding(sbp_world::specs::Delivering::arrived))]
    fn arrive(
        &mut self,
        outbox: &mut Outbox,
        serial: u64,
        again: bool,
        arrival: &Arrival,
    ) -> Result<(), NoMemory>
        requires node { arrival.now.node ≤ 1 }
        ensures step { OnOk result (self.new.world ≡ arrived serial again arrival.now outbox.old self.old.world) }
        ensures node { self.new.node ≡ self.old.node }
    {
        self.bus.judge(serial, again, arrival.judged)?;
        self.hand_out(arrival.node, 0, outbox)
    }

    /// The same, where the packet came to a node.
    fn arrive_if(
        &mut self,
        outbox: &mut Outbox,
        serial: u64,
        again: bool,
        arrival: Option<Arrival>,
    ) -> Result<(), NoMemory>
        requires node { IfSome arrival (λ a. a.node ≤ 1) }
        ensures step { OnOk result (self.new.world ≡ arrived_by serial again arrival outbox.old self.old.world) }
        ensures node { self.new.node ≡ self.old.node }
    {
        match arrival {
            Some(arrival) => self.arrive(outbox, serial, again, &arrival),
            None => Ok(()),
        }
    }

    /// Delivers a packet to the node that it was sent to; `again` where it stays as it is.
    pub(super) fn deliver(
        &mut self,
        medium: &mut dyn Medium,
        outbox: &mut Outbox,
        serial: u64,
        again: bool,
    ) -> Result<(), NoMemory>
        ensures fell { media_faults medium.old ≤ media_faults medium.new }
        ensures delivers { OnOk result (Delivers serial again (task_scene self.old (disk medium.old) (media_faults medium.old)) (task_scene self.new (disk medium.new) (media_faults medium.new))) }
    {
        outbox.clear();
        let arrival = self.receive(medium, outbox, serial)?;
        self.arrive_if(outbox, serial, again, arrival)
    }
}
