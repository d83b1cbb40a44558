ghost use Rattle.std.specs.Prelude.{◌≡◌, ◌+◌, ◌^◌, ◌<◌, ◌≤◌, IfOk, OnOk, Some};
ghost use Rattle.async_packet.specs.Packet.{view, header_in};
ghost use Rattle.label_table.specs.Layer.{IsLent, finding_of, judging_step};
ghost use Rattle.orb_layout.specs.Replies.{answer_of};
ghost use Rattle.sbp_target.specs.Counting.{LeavesCount};
ghost use Rattle.task_target.specs.Nodes.{scene};
ghost use Rattle.task_target.specs.Replies.{whole};
ghost use Rattle.task_target.specs.Receiving.{Concludes, Receives, answer_by, answer_in, IsNoQuadlet};

use super::Node;
use crate::purpose::TaskPurpose;
use async_packet::{Label, PacketRef};
use label_table::Judgement;
use orb_layout::Reply;
use rbc_disk::Medium;
use sbp_base::{Generation, NoMemory, NodeId, bytes_of_quad};
use sbp_journal::{Cause, Judged, Outbox};

/// What a response with this rcode says: this where it is complete.
fn reply_by<'a>(rcode: u8, reply: Reply<'a>) -> Reply<'a>
    ensures { answer_of result ≡ answer_by rcode (answer_of reply.entry) }
{
    if rcode == 0 {
        reply
    } else {
        Reply::Refused(rcode)
    }
}

/// What a response says of its request, where it is not that to a read of a quadlet.
fn reply_in<'a>(packet: &PacketRef<'a>) -> Reply<'a>
    requires { IsNoQuadlet (view packet.now) }
    ensures { answer_of result ≡ answer_in (view packet.now) }
{
    match packet {
        PacketRef::ReadBlockResponse { rcode, payload, .. } => {
            reply_by(*rcode, Reply::Payload(payload))
        }
        PacketRef::WriteResponse { rcode, .. } | PacketRef::LockResponse { rcode, .. } => {
            reply_by(*rcode, Reply::Done)
        }
        _ => Reply::Done,
    }
}

impl Node {
    /// Judges a packet that is delivered with this generation, by the first row that holds, and does
    /// what it brings.
    pub(crate) fn receive(
        &mut self,
        medium: &mut dyn Medium,
        outbox: &mut Outbox,
        generation: Generation,
        bytes: &[u8],
    ) -> Result<Judged, NoMemory>
        requires count { self.old.layer.calls + 7 ≤ 2 ^ 56 }
        ensures fell { media_faults medium.old ≤ media_faults medium.new }
        ensures step { IfOk result (λ judged. Receives generation bytes.now (whole (scene self.old outbox.old) (disk medium.old)) judged (whole (scene self.new outbox.new) (disk medium.new)) (media_faults medium.old) (media_faults medium.new)) }
        ensures count { self.new.layer.calls ≤ self.old.layer.calls + 7 }
        ensures ignored { IfOk result (λ judged. LeavesCount judged self.old.layer.calls self.new.layer.calls) }
    {
        match self.judge(generation, bytes) {
            Judgement::Generation => Ok(Judged::Ignored(Cause::Generation)),
            Judgement::Grammar => Ok(Judged::Ignored(Cause::Grammar)),
            Judgement::Label => Ok(Judged::Ignored(Cause::Label)),
            Judgement::Response {
                packet,
                label,
                purpose,
            } => {
                self.conclude(medium, outbox, purpose, &label, &packet)?;
                Ok(Judged::Got)
            }
            Judgement::Again { packet, rcode } => {
                self.answer(outbox, &packet, bytes, rcode, &[])?;
                Ok(Judged::Ignored(Cause::Again))
            }
            Judgement::Request { packet } => self.request(medium, outbox, &packet, bytes),
        }
    }

    /// Judges it by the rows of the transaction layer.
    fn judge<'a>(&mut self, generation: Generation, bytes: &'a [u8]) -> Judgement<'a, TaskPurpose>
        requires { self.old.layer.calls < 2 ^ 56 }
        ensures step { (finding_of result, self.new.layer) ≡ judging_step self.old.layer generation bytes.now }
        ensures lent { IsLent bytes.now (finding_of result) }
        ensures left { self.new ≡ record self.old { layer = self.new.layer } }
        ensures count { self.new.layer.calls ≤ self.old.layer.calls + 1 }
    {
        self.layer.judge(generation, bytes)
    }

    /// What a response that was got brings.
    fn conclude(
        &mut self,
        medium: &mut dyn Medium,
        outbox: &mut Outbox,
        purpose: Option<TaskPurpose>,
        label: &Label,
        packet: &PacketRef<'_>,
    ) -> Result<(), NoMemory>
        requires count { self.old.layer.calls + 6 ≤ 2 ^ 56 }
        ensures fell { media_faults medium.old ≤ media_faults medium.new }
        ensures step { OnOk result (Concludes purpose (header_in (view packet.now)).source label.now (answer_in (view packet.now)) (whole (scene self.old outbox.old) (disk medium.old)) (whole (scene self.new outbox.new) (disk medium.new)) (media_faults medium.old) (media_faults medium.new)) }
        ensures count { self.new.layer.calls ≤ self.old.layer.calls + 6 }
    {
        let peer = packet.header().source;
        if let PacketRef::ReadQuadletResponse { rcode, value, .. } = packet {
            let bytes = bytes_of_quad(*value);
            let reply = reply_by(*rcode, Reply::Payload(&bytes));
            return self.finish(medium, outbox, purpose, peer, label, reply);
        }
        self.finish(medium, outbox, purpose, peer, label, reply_in(packet))
    }

    /// What a reply brings. A transaction that belongs to nobody brings nothing.
    fn finish(
        &mut self,
        medium: &mut dyn Medium,
        outbox: &mut Outbox,
        purpose: Option<TaskPurpose>,
        peer: NodeId,
        label: &Label,
        reply: Reply<'_>,
    ) -> Result<(), NoMemory>
        requires count { self.old.layer.calls + 6 ≤ 2 ^ 56 }
        ensures fell { media_faults medium.old ≤ media_faults medium.new }
        ensures step { OnOk result (Concludes purpose peer label.now (answer_of reply.entry) (whole (scene self.old outbox.old) (disk medium.old)) (whole (scene self.new outbox.new) (disk medium.new)) (media_faults medium.old) (media_faults medium.new)) }
        ensures count { self.new.layer.calls ≤ self.old.layer.calls + 6 }
    {
        match purpose {
            Some(purpose) => self.reply_to(medium, outbox, purpose.place, peer, label, reply),
            None => Ok(()),
        }
    }
}
