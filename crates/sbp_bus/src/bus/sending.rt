ghost use Rattle.std.specs.Prelude.{◌≡◌, ◌+◌, ◌<◌, length, IfOk, IfSome, OnOk};
ghost use Rattle.sbp_bus.specs.Packets.{inject_line, injected_to};
ghost use Rattle.sbp_bus.specs.Sending.{asked, posted, sent, sent_all};

use super::{Bus, STORE_CALLS};
use crate::generations::Generations;
use crate::requests::Request;
use async_packet::Label;
use packet_store::Sent;
use sbp_base::{Bytes, NoMemory, NodeId, quad_at};
use sbp_journal::{Note, Outbox, Outgoing};

/// The number of the refusal of bytes that can't be injected.
const NO_NODE: u8 = 12;

/// The node that injected bytes of a node go to: they are 8 at least, their source is the sender, and
/// their destination is another node of the generation that it knows.
#[tactic(auto, unfolding(crate::specs::Packets::injected_to))]
fn injected_to(generations: &Generations, from: u8, bytes: &[u8]) -> Option<u8>
    requires { from < length generations.now.seen }
    ensures node { result ≡ injected_to from bytes.now generations.now }
    ensures few { IfSome result (λ to. to < 5) }
{
    if bytes.len() < 8 {
        return None;
    }
    let destination = NodeId::from_raw((quad_at(bytes, 0) >> 16) as u16);
    let source = NodeId::from_raw((quad_at(bytes, 4) >> 16) as u16);
    let to = generations.node_of(from, destination)?;
    let sender = generations.node_of(from, source)?;
    if sender == from && to != from {
        Some(to)
    } else {
        None
    }
}

impl Bus {
    /// A copy of bytes, in the room of those of a packet that is kept no more where there are such.
    fn copy(&mut self, bytes: &[u8]) -> Result<Bytes, NoMemory>
        ensures copy { IfOk result (λ copy. copy ≡ bytes.now) }
        ensures same { self.new ≡ self.old }
    {
        match self.store.take_spare() {
            Some(mut copy) => {
                copy.clear();
                copy.extend_from_slice(bytes)?;
                Ok(copy)
            }
            None => Bytes::from_slice(self.alloc, bytes),
        }
    }

    /// Puts a packet in flight, with the generation that its sender knows, and tells it; its serial. The
    /// store keeps the copy, whose room serves for one packet after another. Want of memory is answered
    /// too where the store counts no further call.
    #[inline(always)]
    fn post(&mut self, from: u8, to: u8, injected: bool, bytes: Bytes) -> Result<u64, NoMemory>
        requires { from < length self.old.generations.seen }
        ensures posted { OnOk result (self.new ≡ posted from to injected bytes self.old) }
        ensures serial { IfOk result (λ serial. serial ≡ self.old.store.last + 1) }
        ensures known { self.new.generations ≡ self.old.generations }
    {
        if self.store.calls() >= STORE_CALLS {
            return Err(NoMemory);
        }
        let generation = self.generations.generation_of(from);
        let copy = self.copy(bytes.as_slice())?;
        let serial = self.store.send(Sent {
            generation,
            from,
            to,
            bytes: copy,
            injected,
        })?;
        self.last = serial;
        if injected {
            self.fresh.push(Note::Injected { serial })?;
        }
        self.fresh.push(Note::Sent {
            serial,
            generation: generation.number(),
            from,
            to,
            bytes,
        })?;
        Ok(serial)
    }

    /// A request of a node is under way.
    fn ask(
        &mut self,
        serial: u64,
        to: u8,
        node: u8,
        peer: NodeId,
        label: Option<Label>,
    ) -> Result<(), NoMemory>
        requires node { node < 5 }
        requires to { to < 5 }
        ensures step { OnOk result (self.new ≡ asked serial to node peer label self.old) }
        ensures known { self.new.generations ≡ self.old.generations }
    {
        match label {
            Some(label) => self.requests.add(serial, to, Request { node, peer, label }),
            None => Ok(()),
        }
    }

    /// Sends a packet that a node hands out. One to an ID that no node has goes nowhere.
    #[tactic(auto, unfolding(crate::specs::Sending::sent))]
    #[inline(always)]
    fn send(&mut self, from: u8, packet: Outgoing) -> Result<(), NoMemory>
        requires { from < length self.old.generations.seen }
        ensures sent { OnOk result (self.new ≡ sent from packet self.old) }
        ensures known { self.new.generations ≡ self.old.generations }
    {
        let Some(to) = self.generations.node_of(from, packet.to) else {
            return Ok(());
        };
        let serial = self.post(from, to, false, packet.bytes)?;
        self.ask(serial, to, from, packet.to, packet.label)
    }

    /// Sends all packets that a node hands out, in their order: each is in flight under the next serial,
    /// with the generation that the node knows, and a request that was not injected withdraws those of the
    /// transaction before it under its label. Want of memory is answered too where the store counts no
    /// further call.
    #[inline(always)]
    pub fn send_all(&mut self, from: u8, outbox: &mut Outbox) -> Result<(), NoMemory>
        requires { from < length self.old.generations.seen }
        ensures step { OnOk result (self.new ≡ sent_all from outbox.old.packets self.old) }
        ensures known { self.new.generations ≡ self.old.generations }
    {
        while let Some(packet) = outbox.take_packet() {
            self.send(from, packet)?;
        }
        Ok(())
    }

    /// A node sends bytes as a packet, or this is refused. Want of memory is answered too where the store
    /// counts no further call.
    #[tactic(auto, unfolding(crate::specs::Packets::inject_line))]
    pub fn inject(&mut self, line: u32, from: u8, bytes: &[u8]) -> Result<(), NoMemory>
        requires { from < length self.old.generations.seen }
        ensures step { OnOk result (self.new ≡ inject_line line from bytes.now self.old) }
        ensures known { self.new.generations ≡ self.old.generations }
    {
        let Some(to) = injected_to(&self.generations, from, bytes) else {
            return self.refuse(line, NO_NODE);
        };
        let packet = Bytes::from_slice(self.alloc, bytes)?;
        self.post(from, to, true, packet)?;
        Ok(())
    }
}
