ghost use Rattle.std.specs.Prelude.{◌≡◌, ◌+◌, ◌^◌, ◌<◌, ◌≤◌, ◌==◌, length, map, position, IfOk, IfSome, OnOk, Some};
ghost use Rattle.async_packet.specs.Packet.{view, header_in};
ghost use Rattle.label_table.specs.Layer.{IsLent, finding_of, judging_step};
ghost use Rattle.orb_layout.specs.Replies.{answer_of};
ghost use Rattle.sbp_target.specs.Counting.{LeavesCount};
ghost use Rattle.sbp_target.specs.Faults.{NoneFell};
ghost use Rattle.sbp_target.specs.Nodes.{scene};
ghost use Rattle.sbp_target.specs.Replies.{whole};
ghost use Rattle.sbp_target.specs.Receiving.{Concludes, Receives, answer_by, answer_in, IsNoQuadlet, settled};
ghost use Rattle.sbp_target.specs.Units.{is_node};

use super::Node;
use crate::purpose::Purpose;
use async_packet::{Label, PacketRef};
use label_table::Judgement;
use orb_layout::Reply;
use rbc_disk::Medium;
use sbp_base::{Generation, NoMemory, NodeId, bytes_of_quad};
use sbp_journal::{Cause, Judged, Outbox};

/// What a response with this rcode says: this where it is complete.
fn reply_by<'a>(rcode: u8, reply: Reply<'a>) -> Reply<'a>
    ensures { answer_of result ≡ answer_by rcode (answer_of reply.entry) }
{
    if rcode == 0 {
        reply
    } else {
        Reply::Refused(rcode)
    }
}

/// What a response says of its request, where it is not that to a read of a quadlet.
fn reply_in<'a>(packet: &PacketRef<'a>) -> Reply<'a>
    requires { IsNoQuadlet (view packet.now) }
    ensures { answer_of result ≡ answer_in (view packet.now) }
{
    match packet {
        PacketRef::ReadBlockResponse { rcode, payload, .. } => {
            reply_by(*rcode, Reply::Payload(payload))
        }
        PacketRef::WriteResponse { rcode, .. } | PacketRef::LockResponse { rcode, .. } => {
            reply_by(*rcode, Reply::Done)
        }
        _ => Reply::Done,
    }
}

/// Where a node stands among others.
fn place_of(nodes: &[NodeId], node: NodeId) -> Option<usize>
    ensures place { result ≡ position (is_node node) nodes.now }
    ensures below { IfSome result (λ at. at < length nodes.now) }
{
    nodes.iter().position(|other| node == *other)
}

impl Node {
    /// Judges a packet that is delivered with this generation, by the first row that holds, and does
    /// what it brings.
    #[tactic(auto, using(crate::proofs::Faults::fell_steps))]
    pub(crate) fn receive(
        &mut self,
        media: &mut Vec<Box<dyn Medium>>,
        outbox: &mut Outbox,
        generation: Generation,
        bytes: &[u8],
    ) -> Result<Judged, NoMemory>
        requires media { length media.old.items ≡ length self.old.units }
        requires count { self.old.layer.calls + 12 ≤ 2 ^ 56 }
        ensures size { length media.new.items ≡ length media.old.items }
        ensures fell { NoneFell (map media_faults media.old.items) (map media_faults media.new.items) }
        ensures step { IfOk result (λ judged. Receives generation bytes.now (whole (scene self.old outbox.old) (map disk media.old.items)) judged (whole (scene self.new outbox.new) (map disk media.new.items)) (map media_faults media.old.items) (map media_faults media.new.items)) }
        ensures count { self.new.layer.calls ≤ self.old.layer.calls + 12 }
        ensures ignored { IfOk result (λ judged. LeavesCount judged self.old.layer.calls self.new.layer.calls) }
        ensures units { length self.new.units ≡ length self.old.units }
    {
        match self.judge(generation, bytes) {
            Judgement::Generation => Ok(Judged::Ignored(Cause::Generation)),
            Judgement::Grammar => Ok(Judged::Ignored(Cause::Grammar)),
            Judgement::Label => Ok(Judged::Ignored(Cause::Label)),
            Judgement::Response {
                packet,
                label,
                purpose,
            } => {
                self.conclude(media, outbox, purpose, &label, &packet)?;
                Ok(Judged::Got)
            }
            Judgement::Again { packet, rcode } => {
                self.answer(outbox, &packet, bytes, rcode, &[])?;
                Ok(Judged::Ignored(Cause::Again))
            }
            Judgement::Request { packet } => self.request(outbox, &packet, bytes),
        }
    }

    /// Judges it by the rows of the transaction layer.
    fn judge<'a>(&mut self, generation: Generation, bytes: &'a [u8]) -> Judgement<'a, Purpose>
        requires { self.old.layer.calls < 2 ^ 56 }
        ensures step { (finding_of result, self.new.layer) ≡ judging_step self.old.layer generation bytes.now }
        ensures lent { IsLent bytes.now (finding_of result) }
        ensures left { self.new ≡ record self.old { layer = self.new.layer } }
        ensures count { self.new.layer.calls ≤ self.old.layer.calls + 1 }
        ensures units { length self.new.units ≡ length self.old.units }
    {
        self.layer.judge(generation, bytes)
    }

    /// What a response that was got brings.
    fn conclude(
        &mut self,
        media: &mut Vec<Box<dyn Medium>>,
        outbox: &mut Outbox,
        purpose: Option<Purpose>,
        label: &Label,
        packet: &PacketRef<'_>,
    ) -> Result<(), NoMemory>
        requires media { length media.old.items ≡ length self.old.units }
        requires count { self.old.layer.calls + 11 ≤ 2 ^ 56 }
        ensures size { length media.new.items ≡ length media.old.items }
        ensures fell { NoneFell (map media_faults media.old.items) (map media_faults media.new.items) }
        ensures step { OnOk result (Concludes purpose (header_in (view packet.now)).source label.now (answer_in (view packet.now)) (whole (scene self.old outbox.old) (map disk media.old.items)) (whole (scene self.new outbox.new) (map disk media.new.items)) (map media_faults media.old.items) (map media_faults media.new.items)) }
        ensures count { self.new.layer.calls ≤ self.old.layer.calls + 11 }
        ensures units { length self.new.units ≡ length self.old.units }
    {
        let peer = packet.header().source;
        if let PacketRef::ReadQuadletResponse { rcode, value, .. } = packet {
            let bytes = bytes_of_quad(*value);
            let reply = reply_by(*rcode, Reply::Payload(&bytes));
            return self.finish(media, outbox, purpose, peer, label, reply);
        }
        self.finish(media, outbox, purpose, peer, label, reply_in(packet))
    }

    /// What a reply brings. A transaction that belongs to nobody brings nothing.
    #[tactic(auto, using(crate::proofs::Faults::fell_steps))]
    fn finish(
        &mut self,
        media: &mut Vec<Box<dyn Medium>>,
        outbox: &mut Outbox,
        purpose: Option<Purpose>,
        peer: NodeId,
        label: &Label,
        reply: Reply<'_>,
    ) -> Result<(), NoMemory>
        requires media { length media.old.items ≡ length self.old.units }
        requires count { self.old.layer.calls + 11 ≤ 2 ^ 56 }
        ensures size { length media.new.items ≡ length media.old.items }
        ensures fell { NoneFell (map media_faults media.old.items) (map media_faults media.new.items) }
        ensures step { OnOk result (Concludes purpose peer label.now (answer_of reply.entry) (whole (scene self.old outbox.old) (map disk media.old.items)) (whole (scene self.new outbox.new) (map disk media.new.items)) (map media_faults media.old.items) (map media_faults media.new.items)) }
        ensures count { self.new.layer.calls ≤ self.old.layer.calls + 11 }
        ensures units { length self.new.units ≡ length self.old.units }
    {
        match purpose {
            Some(purpose) => self.finish_for(media, outbox, &purpose, peer, label, reply),
            None => Ok(()),
        }
    }

    /// What a reply brings, by what its transaction was for.
    #[tactic(auto, using(crate::proofs::Faults::fell_steps))]
    fn finish_for(
        &mut self,
        media: &mut Vec<Box<dyn Medium>>,
        outbox: &mut Outbox,
        purpose: &Purpose,
        peer: NodeId,
        label: &Label,
        reply: Reply<'_>,
    ) -> Result<(), NoMemory>
        requires media { length media.old.items ≡ length self.old.units }
        requires count { self.old.layer.calls + 11 ≤ 2 ^ 56 }
        ensures size { length media.new.items ≡ length media.old.items }
        ensures fell { NoneFell (map media_faults media.old.items) (map media_faults media.new.items) }
        ensures step { OnOk result (Concludes (Some purpose.now) peer label.now (answer_of reply.entry) (whole (scene self.old outbox.old) (map disk media.old.items)) (whole (scene self.new outbox.new) (map disk media.new.items)) (map media_faults media.old.items) (map media_faults media.new.items)) }
        ensures count { self.new.layer.calls ≤ self.old.layer.calls + 11 }
        ensures units { length self.new.units ≡ length self.old.units }
    {
        match purpose {
            Purpose::Agent(place) => self.reply_to(media, outbox, *place, peer, label, reply),
            Purpose::Management => self.manage(outbox, reply),
            Purpose::Unsolicited => {
                self.settle(peer);
                Ok(())
            }
        }
    }

    /// An unsolicited status to a node was answered.
    fn settle(&mut self, peer: NodeId)
        ensures left { self.new ≡ settled peer self.old }
        ensures count { self.new.layer.calls ≡ self.old.layer.calls }
        ensures units { length self.new.units ≡ length self.old.units }
    {
        if let Some(at) = place_of(&self.pending, peer) {
            self.pending.remove(at);
        }
    }
}
