ghost use Rattle.std.specs.Prelude.{◌≡◌, ◌≤◌, IfOk, IsTrue, OnOk};
ghost use Rattle.sbp_initiator.specs.Receiving as initiators;
ghost use Rattle.sbp_journal.specs.Outgoings.{empty_outbox};
ghost use Rattle.task_world.specs.Packets.{Delivered, Repeated, expires, task_expired, timeout_line};
ghost use Rattle.task_world.specs.Worlds.{task_scene};

use super::Parts;
use super::delivering::NODE_CALLS;
use async_packet::Label;
use rbc_disk::Medium;
use sbp_base::NoMemory;
use sbp_bus::Request;
use sbp_initiator::Initiator;
use sbp_journal::{Outbox, TargetFault};
use task_target::TaskTarget;

/// The target's request expires; false exactly where it is stale.
#[tactic(auto, using(crate::proofs::Expired::target_done, crate::proofs::Expired::target_stale))]
fn target_expires(
    target: &mut TaskTarget,
    medium: &mut dyn Medium,
    outbox: &mut Outbox,
    request: &Request,
) -> Result<bool, NoMemory>
    requires outbox { outbox.old ≡ empty_outbox }
    ensures disk { disk medium.new ≡ disk medium.old }
    ensures faults { media_faults medium.new ≡ media_faults medium.old }
    ensures expired { IfOk result (λ done. (done, (outbox.new, target.new.node)) ≡ task_expired request.now target.old.node) }
{
    if target.calls() >= NODE_CALLS {
        return Err(NoMemory);
    }
    match target.expire(medium, request.peer, request.label, outbox) {
        Ok(()) => Ok(true),
        Err(TargetFault::Stale) => Ok(false),
        Err(TargetFault::NoMemory) => Err(NoMemory),
    }
}

/// The initiator's request expires; false exactly where it is stale.
fn initiator_expires(
    initiator: &mut Initiator,
    outbox: &mut Outbox,
    label: Label,
) -> Result<bool, NoMemory>
    ensures { IfOk result (λ done. (done, (outbox.new, initiator.new)) ≡ initiators.expire_step label outbox.old initiator.old) }
{
    if initiator.calls() >= NODE_CALLS {
        return Err(NoMemory);
    }
    match initiator.expire(label, outbox) {
        Ok(()) => Ok(true),
        Err(TargetFault::Stale) => Ok(false),
        Err(TargetFault::NoMemory) => Err(NoMemory),
    }
}

impl Parts {
    /// Delivers a packet in flight.
    pub(super) fn deliver_line(
        &mut self,
        medium: &mut dyn Medium,
        outbox: &mut Outbox,
        line: u32,
        serial: u64,
    ) -> Result<(), NoMemory>
        ensures fell { media_faults medium.old ≤ media_faults medium.new }
        ensures delivered { OnOk result (Delivered line serial (task_scene self.old (disk medium.old) (media_faults medium.old)) (task_scene self.new (disk medium.new) (media_faults medium.new))) }
    {
        if self.bus.is_in_flight(serial) {
            self.deliver(medium, outbox, serial, false)
        } else {
            self.bus.refuse_packet(line)
        }
    }

    /// Delivers a packet once more.
    pub(super) fn repeat_line(
        &mut self,
        medium: &mut dyn Medium,
        outbox: &mut Outbox,
        line: u32,
        serial: u64,
    ) -> Result<(), NoMemory>
        ensures fell { media_faults medium.old ≤ media_faults medium.new }
        ensures repeated { OnOk result (Repeated line serial (task_scene self.old (disk medium.old) (media_faults medium.old)) (task_scene self.new (disk medium.new) (media_faults medium.new))) }
    {
        if self.bus.may_repeat(serial) {
            self.deliver(medium, outbox, serial, true)
        } else {
            self.bus.refuse_packet(line)
        }
    }

    /// A request expires at its sender; false exactly where it is not under way there.
    #[tactic(auto, unfolding(crate::specs::Packets::expires))]
    fn expire(
        &mut self,
        medium: &mut dyn Medium,
        outbox: &mut Outbox,
        request: &Request,
    ) -> Result<bool, NoMemory>
        requires outbox { outbox.old ≡ empty_outbox }
        ensures disk { disk medium.new ≡ disk medium.old }
        ensures faults { media_faults medium.new ≡ media_faults medium.old }
        ensures expired { IfOk result (λ done. (done, (outbox.new, self.new)) ≡ expires request.now self.old) }
        ensures node { IfOk result (λ done. IsTrue done → request.now.node ≤ 1) }
    {
        if request.node == 0 {
            return target_expires(&mut self.target, medium, outbox, request);
        }
        if request.node == 1 {
            return initiator_expires(&mut self.initiator, outbox, request.label);
        }
        Ok(false)
    }

    /// The transaction of a request times out at its sender.
    #[tactic(auto, unfolding(crate::specs::Packets::timeout_line))]
    pub(super) fn time_out(
        &mut self,
        medium: &mut dyn Medium,
        outbox: &mut Outbox,
        line: u32,
        serial: u64,
    ) -> Result<(), NoMemory>
        ensures disk { disk medium.new ≡ disk medium.old }
        ensures faults { media_faults medium.new ≡ media_faults medium.old }
        ensures step { OnOk result (self.new ≡ timeout_line line serial self.old) }
    {
        outbox.clear();
        let Some(request) = self.bus.request(serial) else {
            return self.bus.refuse_packet(line);
        };
        if self.expire(medium, outbox, &request)? {
            self.bus.time_out(serial)?;
            self.hand_out(request.node, 0, outbox)
        } else {
            self.bus.refuse_packet(line)
        }
    }
}
