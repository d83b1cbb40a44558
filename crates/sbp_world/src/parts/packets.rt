ghost use Rattle.std.specs.Prelude.{◌≡◌, ◌<◌, length, map, IfOk, OnOk};
ghost use Rattle.sbp_journal.specs.Outgoings.{empty_outbox};
ghost use Rattle.sbp_initiator.specs.Receiving as initiators;
ghost use Rattle.sbp_target.specs.Faults.{NoneFell};
ghost use Rattle.sbp_world.specs.Packets.{Delivered, Repeated, expires, timeout_line};
ghost use Rattle.sbp_world.specs.Worlds.{scene};

use super::Parts;
use super::delivering::NODE_CALLS;
use async_packet::Label;
use rbc_disk::Medium;
use sbp_base::NoMemory;
use sbp_bus::Request;
use sbp_initiator::Initiator;
use sbp_journal::{Outbox, TargetFault};
use sbp_target::Target;

/// The target's request expires; false exactly where it is stale.
#[tactic(auto, using(crate::proofs::Expired::target_done, crate::proofs::Expired::target_stale))]
fn target_expires(
    target: &mut Target,
    media: &mut Vec<Box<dyn Medium>>,
    outbox: &mut Outbox,
    request: &Request,
) -> Result<bool, NoMemory>
    requires media { length media.old.items ≡ length target.old.node.units }
    requires outbox { outbox.old ≡ empty_outbox }
    ensures disks { map disk media.new.items ≡ map disk media.old.items }
    ensures faults { map media_faults media.new.items ≡ map media_faults media.old.items }
    ensures units { length target.new.node.units ≡ length target.old.node.units }
    ensures expired { IfOk result (λ done. (done, (outbox.new, target.new.node)) ≡ target_expired request.now target.old.node) }
{
    if target.calls() >= NODE_CALLS {
        return Err(NoMemory);
    }
    match target.expire(media, request.peer, request.label, outbox) {
        Ok(()) => Ok(true),
        Err(TargetFault::Stale) => Ok(false),
        Err(TargetFault::NoMemory) => Err(NoMemory),
    }
}

ghost use Rattle.sbp_world.specs.Packets.{target_expired};

/// An initiator's request expires; false exactly where it is stale.
fn initiator_expires(
    initiator: &mut Initiator,
    outbox: &mut Outbox,
    label: Label,
) -> Result<bool, NoMemory>
    ensures { IfOk result (λ done. (done, (outbox.new, initiator.new)) ≡ initiators.expire_step label outbox.old initiator.old) }
{
    if initiator.calls() >= NODE_CALLS {
        return Err(NoMemory);
    }
    match initiator.expire(label, outbox) {
        Ok(()) => Ok(true),
        Err(TargetFault::Stale) => Ok(false),
        Err(TargetFault::NoMemory) => Err(NoMemory),
    }
}

impl Parts {
    /// Delivers a packet in flight.
    #[tactic(auto, using(sbp_target::proofs::Faults::fell_steps))]
    pub(super) fn deliver_line(
        &mut self,
        media: &mut Vec<Box<dyn Medium>>,
        outbox: &mut Outbox,
        line: u32,
        serial: u64,
    ) -> Result<(), NoMemory>
        requires media { length media.old.items ≡ length self.old.target.units }
        ensures size { length media.new.items ≡ length media.old.items }
        ensures fell { NoneFell (map media_faults media.old.items) (map media_faults media.new.items) }
        ensures units { length self.new.target.units ≡ length self.old.target.units }
        ensures delivered { OnOk result (Delivered line serial (scene self.old (map disk media.old.items) (map media_faults media.old.items)) (scene self.new (map disk media.new.items) (map media_faults media.new.items))) }
    {
        if self.bus.is_in_flight(serial) {
            self.deliver(media, outbox, serial, false)
        } else {
            self.bus.refuse_packet(line)
        }
    }

    /// Delivers a packet once more.
    #[tactic(auto, using(sbp_target::proofs::Faults::fell_steps))]
    pub(super) fn repeat_line(
        &mut self,
        media: &mut Vec<Box<dyn Medium>>,
        outbox: &mut Outbox,
        line: u32,
        serial: u64,
    ) -> Result<(), NoMemory>
        requires media { length media.old.items ≡ length self.old.target.units }
        ensures size { length media.new.items ≡ length media.old.items }
        ensures fell { NoneFell (map media_faults media.old.items) (map media_faults media.new.items) }
        ensures units { length self.new.target.units ≡ length self.old.target.units }
        ensures repeated { OnOk result (Repeated line serial (scene self.old (map disk media.old.items) (map media_faults media.old.items)) (scene self.new (map disk media.new.items) (map media_faults media.new.items))) }
    {
        if self.bus.may_repeat(serial) {
            self.deliver(media, outbox, serial, true)
        } else {
            self.bus.refuse_packet(line)
        }
    }

    /// A request expires at its sender; false exactly where it is not under way there.
    #[tactic(auto, unfolding(crate::specs::Packets::expires))]
    fn expire(
        &mut self,
        media: &mut Vec<Box<dyn Medium>>,
        outbox: &mut Outbox,
        request: &Request,
    ) -> Result<bool, NoMemory>
        requires media { length media.old.items ≡ length self.old.target.units }
        requires outbox { outbox.old ≡ empty_outbox }
        ensures disks { map disk media.new.items ≡ map disk media.old.items }
        ensures faults { map media_faults media.new.items ≡ map media_faults media.old.items }
        ensures units { length self.new.target.units ≡ length self.old.target.units }
        ensures expired { IfOk result (λ done. (done, (outbox.new, self.new)) ≡ expires request.now self.old) }
        ensures node { IfOk result (λ done. IsTrue done → request.now.node < length self.new.generations.seen) }
    {
        if request.node == 0 {
            return target_expires(&mut self.target, media, outbox, request);
        }
        let index = usize::from(request.node) - 1;
        if index >= self.initiators.len() {
            return Ok(false);
        }
        initiator_expires(&mut self.initiators[index], outbox, request.label)
    }

    /// The transaction of a request times out at its sender.
    #[tactic(auto, unfolding(crate::specs::Packets::timeout_line))]
    pub(super) fn time_out(
        &mut self,
        media: &mut Vec<Box<dyn Medium>>,
        outbox: &mut Outbox,
        line: u32,
        serial: u64,
    ) -> Result<(), NoMemory>
        requires media { length media.old.items ≡ length self.old.target.units }
        ensures disks { map disk media.new.items ≡ map disk media.old.items }
        ensures faults { map media_faults media.new.items ≡ map media_faults media.old.items }
        ensures units { length self.new.target.units ≡ length self.old.target.units }
        ensures step { OnOk result (self.new ≡ timeout_line line serial self.old) }
    {
        outbox.clear();
        let Some(request) = self.bus.request(serial) else {
            return self.bus.refuse_packet(line);
        };
        if self.expire(media, outbox, &request)? {
            self.bus.time_out(serial)?;
            self.hand_out(request.node, 0, outbox)
        } else {
            self.bus.refuse_packet(line)
        }
    }
}

ghost use Rattle.std.specs.Prelude.{IsTrue};
