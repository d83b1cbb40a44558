ghost use Rattle.std.specs.Prelude.{◌≡◌, ◌+◌, ◌^◌, ◌<◌, length, map, IfOk, OnOk};
ghost use Rattle.sbp_journal.specs.Outgoings.{empty_outbox};
ghost use Rattle.sbp_target.specs.Faults.{NoneFell};
ghost use Rattle.sbp_world.specs.Delivering.{Delivers, Receives, TargetReceives, arrived, arrived_by, initiators_received};
ghost use Rattle.sbp_world.specs.Worlds.{scene};

use super::Parts;
use packet_store::Sent;
use rbc_disk::Medium;
use sbp_base::NoMemory;
use sbp_initiator::Initiator;
use sbp_journal::{Judged, Outbox};
use sbp_target::Target;

/// The calls that a node counts.
pub(super) const NODE_CALLS: u64 = 1 << 48;

/// A packet that came to its node, and how it was judged there.
#[derive(Clone, Copy, Drop)]
pub struct Arrival {
    pub node: u8,
    pub judged: Judged,
}

/// The target receives a packet. Want of memory is answered too where it counts no further call.
#[tactic(auto, using(sbp_target::proofs::Faults::fell_steps))]
fn target_receives(
    target: &mut Target,
    media: &mut Vec<Box<dyn Medium>>,
    outbox: &mut Outbox,
    sent: &Sent,
) -> Result<Judged, NoMemory>
    requires media { length media.old.items ≡ length target.old.node.units }
    requires outbox { outbox.old ≡ empty_outbox }
    ensures size { length media.new.items ≡ length media.old.items }
    ensures fell { NoneFell (map media_faults media.old.items) (map media_faults media.new.items) }
    ensures units { length target.new.node.units ≡ length target.old.node.units }
    ensures received { IfOk result (λ judged. TargetReceives sent.now target.old.node (held (map disk media.old.items) (map media_faults media.old.items)) judged outbox.new target.new.node (held (map disk media.new.items) (map media_faults media.new.items))) }
{
    if target.calls() >= NODE_CALLS {
        return Err(NoMemory);
    }
    let judged = target.receive(media, sent.generation, sent.bytes.as_slice(), outbox)?;
    Ok(judged)
}

/// An initiator receives a packet. Want of memory is answered too where it counts no further call.
fn initiator_receives(
    initiator: &mut Initiator,
    outbox: &mut Outbox,
    sent: &Sent,
) -> Result<Judged, NoMemory>
    requires outbox { outbox.old ≡ empty_outbox }
    ensures received { IfOk result (λ judged. (judged, (outbox.new, initiator.new)) ≡ receive_step sent.now.generation sent.now.bytes empty_outbox initiator.old) }
{
    if initiator.calls() >= NODE_CALLS {
        return Err(NoMemory);
    }
    initiator.receive(sent.generation, sent.bytes.as_slice(), outbox)
}

/// The same of an initiator among others, which stay as they are.
#[tactic(auto, unfolding(crate::specs::Delivering::initiators_received))]
fn initiators_receive(
    initiators: &mut Vec<Initiator>,
    index: usize,
    outbox: &mut Outbox,
    sent: &Sent,
) -> Result<Judged, NoMemory>
    requires index { index < length initiators.old.items }
    requires outbox { outbox.old ≡ empty_outbox }
    ensures received { IfOk result (λ judged. (judged, (outbox.new, initiators.new.items)) ≡ initiators_received index sent.now initiators.old.items) }
    ensures size { length initiators.new.items ≡ length initiators.old.items }
{
    initiator_receives(&mut initiators[index], outbox, sent)
}

ghost use Rattle.rbc_disk.specs.Held.{held};
ghost use Rattle.sbp_initiator.specs.Receiving.{receive_step};

impl Parts {
    /// The node that a packet was sent to judges it. A packet that is not kept comes to no node.
    #[tactic(auto, using(sbp_target::proofs::Faults::fell_steps))]
    fn receive(
        &mut self,
        media: &mut Vec<Box<dyn Medium>>,
        outbox: &mut Outbox,
        serial: u64,
    ) -> Result<Option<Arrival>, NoMemory>
        requires media { length media.old.items ≡ length self.old.target.units }
        requires outbox { outbox.old ≡ empty_outbox }
        ensures size { length media.new.items ≡ length media.old.items }
        ensures fell { NoneFell (map media_faults media.old.items) (map media_faults media.new.items) }
        ensures units { length self.new.target.units ≡ length self.old.target.units }
        ensures received { IfOk result (λ arrival. Receives serial (scene self.old (map disk media.old.items) (map media_faults media.old.items)) arrival outbox.new (scene self.new (map disk media.new.items) (map media_faults media.new.items))) }
        ensures node { IfOk result (λ arrival. IfSome arrival (λ a. a.node < length self.new.generations.seen)) }
    {
        let Some(sent) = self.bus.packet(serial) else {
            return Ok(None);
        };
        let node = sent.to;
        if node == 0 {
            let judged = target_receives(&mut self.target, media, outbox, sent)?;
            return Ok(Some(Arrival { node, judged }));
        }
        let index = usize::from(node) - 1;
        if index >= self.initiators.len() {
            return Ok(None);
        }
        let judged = initiators_receive(&mut self.initiators, index, outbox, sent)?;
        Ok(Some(Arrival { node, judged }))
    }

    /// What follows the judging of a packet: its note, then what its node handed out.
    #[tactic(auto, using(crate::proofs::Buses::judged_on), unfolding(crate::specs::Delivering::arrived))]
    fn arrive(
        &mut self,
        outbox: &mut Outbox,
        serial: u64,
        again: bool,
        arrival: &Arrival,
    ) -> Result<(), NoMemory>
        requires node { arrival.now.node < length self.old.generations.seen }
        ensures step { OnOk result (self.new ≡ arrived serial again arrival.now outbox.old self.old) }
        ensures bus { self.new.generations ≡ self.old.generations }
        ensures target { self.new.target ≡ self.old.target }
    {
        self.bus.judge(serial, again, arrival.judged)?;
        self.hand_out(arrival.node, 0, outbox)
    }

    /// The same, where the packet came to a node.
    fn arrive_if(
        &mut self,
        outbox: &mut Outbox,
        serial: u64,
        again: bool,
        arrival: Option<Arrival>,
    ) -> Result<(), NoMemory>
        requires node { IfSome arrival (λ a. a.node < length self.old.generations.seen) }
        ensures step { OnOk result (self.new ≡ arrived_by serial again arrival outbox.old self.old) }
        ensures bus { self.new.generations ≡ self.old.generations }
        ensures target { self.new.target ≡ self.old.target }
    {
        match arrival {
            Some(arrival) => self.arrive(outbox, serial, again, &arrival),
            None => Ok(()),
        }
    }

    /// Delivers a packet to the node that it was sent to; `again` where it stays as it is.
    pub(super) fn deliver(
        &mut self,
        media: &mut Vec<Box<dyn Medium>>,
        outbox: &mut Outbox,
        serial: u64,
        again: bool,
    ) -> Result<(), NoMemory>
        requires media { length media.old.items ≡ length self.old.target.units }
        ensures size { length media.new.items ≡ length media.old.items }
        ensures fell { NoneFell (map media_faults media.old.items) (map media_faults media.new.items) }
        ensures units { length self.new.target.units ≡ length self.old.target.units }
        ensures delivers { OnOk result (Delivers serial again (scene self.old (map disk media.old.items) (map media_faults media.old.items)) (scene self.new (map disk media.new.items) (map media_faults media.new.items))) }
    {
        outbox.clear();
        let arrival = self.receive(media, outbox, serial)?;
        self.arrive_if(outbox, serial, again, arrival)?;
        Ok(())
    }
}

ghost use Rattle.std.specs.Prelude.{IfSome};
