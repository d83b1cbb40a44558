ghost use Rattle.std.specs.Prelude.{◌≡◌, ◌+◌, ◌^◌, ◌<◌, ◌≤◌, ◌==◌, length, position, map, replicate, take, drop, Some, None, IsTrue, IfOk, IfSome, IfNone, OnErr, OnOk};
ghost use Rattle.async_packet.specs.Packet.{view};
ghost use Rattle.label_table.specs.Bodies.{FitsBody, Gives, body_of};
ghost use Rattle.label_table.specs.Layer.{Layer, IsLent, IsSound, new_layer, finding_of, closing_step, judging_step, answering_step, asking_step, expiring_step, disowning_step, free_labels, seeing_step};
ghost use Rattle.label_table.specs.Owned.{is_owned_by, owned_place};
ghost use Rattle.label_table.specs.Peers.{PeerPlace, peer_of, no_peer, clear_place};
ghost use Rattle.label_table.specs.Filter.{remember_step};
ghost use Rattle.label_table.specs.Requests.{IsRequest, IsRequestOf};

use crate::body::RequestBody;
use crate::filter::Seen;
use crate::judgement::{Asked, Judgement};
use crate::packets::{response_to, spelled, unlabelled};
use crate::peer::{Peer, clear_each, new_peers, place_for};
use crate::reply::{ReplyKind, Stale, Verdict};
use crate::request::kind_of_reply;
use async_packet::{Header, Label, PacketRef, decode};
use sbp_base::{Bytes, Generation, NoMemory, NodeId};
use std::alloc::Global;
use std::marker::Model;

/// The transaction layer of a node (IEEE 1394-1995): its generation and its ID in that, five tables
/// of labels, given to peers as it first sends to them in a generation, what each transaction under
/// way is for, and the last requests that it judged. All room is taken by `new`.
#[derive(Drop)]
pub struct Transactions<P> {
    generation: Generation,
    node: NodeId,
    calls: u64,
    peers: Vec<Peer<P>>,
    seen: Seen,
}

impl<P> Model for Transactions<P> {
    ghost use Rattle.label_table.specs.Layer.{Layer, IsSound};

    ghost Value = { Layer P };

    ghost view = { λ a. record { generation = a.generation; node = a.node; calls = a.calls; peers = a.peers.items; filter = a.seen } };

    ghost invariant = { λ a. IsSound a.calls a.peers.items a.seen };
}

impl<P: Copy> Transactions<P> {
    /// The layer of a node with this ID in generation 0, which has no transaction and remembers none.
    #[tactic(auto, using(crate::proofs::Layers::new_sound))]
    pub fn new(alloc: Global, node: NodeId) -> Result<Transactions<P>, NoMemory>
        ensures { IfOk result (λ layer. layer ≡ new_layer node) }
    {
        Ok(Transactions {
            generation: Generation::first(),
            node,
            calls: 0,
            peers: new_peers(alloc)?,
            seen: Seen::new(alloc)?,
        })
    }

    /// The generation that the node is in.
    pub fn generation(&self) -> Generation
        ensures { result ≡ self.now.generation }
    {
        self.generation
    }

    /// The node's ID in its generation.
    pub fn node(&self) -> NodeId
        ensures { result ≡ self.now.node }
    {
        self.node
    }

    /// The number of calls that changed the labels.
    pub fn calls(&self) -> u64
        ensures { result ≡ self.now.calls }
    {
        self.calls
    }

    /// Judges a packet that is delivered with this generation, by the first row that holds. A
    /// response that is awaited closes its transaction; nothing else changes.
    #[tactic(auto, unfolding(crate::specs::Layer::judging_step))]
    pub fn judge<'a>(&mut self, generation: Generation, bytes: &'a [u8]) -> Judgement<'a, P>
        requires { self.old.calls < 2 ^ 56 }
        ensures step { (finding_of result, self.new) ≡ judging_step self.old generation bytes.now }
        ensures lent { IsLent bytes.now (finding_of result) }
        ensures count { self.new.calls ≤ self.old.calls + 1 }
    {
        if !self.is_in(generation) {
            return Judgement::Generation;
        }
        self.judge_current(bytes)
    }

    /// Judges a packet of the node's generation.
    #[tactic(auto, unfolding(crate::specs::Layer::judging_step), using(crate::proofs::Layers::again_small))]
    fn judge_current<'a>(&mut self, bytes: &'a [u8]) -> Judgement<'a, P>
        requires { self.old.calls < 2 ^ 56 }
        ensures step { (finding_of result, self.new) ≡ judging_step self.old self.old.generation bytes.now }
        ensures lent { IsLent bytes.now (finding_of result) }
        ensures count { self.new.calls ≤ self.old.calls + 1 }
    {
        let Ok(packet) = decode(bytes) else {
            return Judgement::Grammar;
        };
        let header = packet.header();
        if !self.is_to(&header) {
            return Judgement::Grammar;
        }
        if let Some(kind) = kind_of_reply(&packet) {
            let Some((label, purpose)) = self.close_by(&header, kind) else {
                return Judgement::Label;
            };
            return Judgement::Response {
                packet,
                label,
                purpose,
            };
        }
        if let Verdict::Again { rcode } = self.seen.judge(header.source, bytes) {
            return Judgement::Again { packet, rcode };
        }
        Judgement::Request { packet }
    }

    /// Whether a generation is the node's.
    fn is_in(&self, generation: Generation) -> bool
        ensures { result ≡ (generation == self.now.generation) }
    {
        generation == self.generation
    }

    /// Whether a packet with this header is to the node.
    fn is_to(&self, header: &Header) -> bool
        ensures { result ≡ (header.now.destination == self.now.node) }
    {
        header.destination == self.node
    }

    /// Closes the transaction that a response of this kind with this header answers.
    fn close_by(&mut self, header: &Header, kind: ReplyKind) -> Option<(Label, Option<P>)>
        requires { self.old.calls < 2 ^ 56 }
        ensures step { (result, self.new) ≡ closing_step self.old header.now.source header.now.label kind }
        ensures refused { IfNone result (self.new ≡ self.old) }
        ensures count { self.new.calls ≤ self.old.calls + 1 }
    {
        self.close(header.source, header.label, kind)
    }

    /// Answers a request: its canonical response, to its source and under its label, with an rcode of
    /// 4 bits (IEEE 1394-1995, response codes) and, where a read is complete, the bytes that were
    /// read. The request is remembered with the rcode, where its source has room; for a write that
    /// comes again this changes nothing. Where memory is wanting nothing changes.
    #[tactic(auto, unfolding(crate::specs::Layer::answering_step))]
    pub fn answer(
        &mut self,
        alloc: Global,
        request: &PacketRef<'_>,
        bytes: &[u8],
        rcode: u8,
        given: &[u8],
    ) -> Result<Bytes, NoMemory>
        requires request { IsRequestOf bytes.now (view request.now) }
        requires rcode { rcode < 2 ^ 4 }
        requires given { Gives (view request.now) rcode given.now }
        ensures step { IfOk result (λ response. (response, self.new) ≡ answering_step self.old (view request.now) bytes.now rcode given.now) }
        ensures failed { OnErr result (self.new ≡ self.old) }
    {
        let response = response_to(self.node, request, bytes, rcode, given);
        let response = spelled(alloc, &response)?;
        self.remember(request.header().source, bytes, rcode);
        Ok(response)
    }

    /// Remembers a request with its rcode, where its source has room.
    #[tactic(auto, using(crate::proofs::Layers::sound_remembered))]
    fn remember(&mut self, source: NodeId, bytes: &[u8], rcode: u8)
        requires request { IsRequest bytes.now }
        requires rcode { rcode < 2 ^ 4 }
        ensures { self.new ≡ record self.old { filter = remember_step self.old.filter source bytes.now rcode } }
    {
        self.seen.remember_if_room(source, bytes, rcode);
    }

    /// Asks a peer, for something: the canonical request, with the label that `Labels::begin` gives it.
    /// There is none exactly where that finds no label, or the peer is a sixth one of this generation;
    /// then nothing changes, and neither where memory is wanting.
    #[tactic(auto, unfolding(crate::specs::Layer::asking_step), using(crate::proofs::Layers::counting))]
    pub fn ask(
        &mut self,
        alloc: Global,
        peer: NodeId,
        body: &RequestBody<'_>,
        purpose: P,
    ) -> Result<Option<Asked>, NoMemory>
        requires count { self.old.calls < 2 ^ 56 }
        requires body { FitsBody (body_of body.now) }
        ensures step { IfOk result (λ asked. (asked, self.new) ≡ asking_step self.old peer (body_of body.now) purpose) }
        ensures failed { OnErr result (self.new ≡ self.old) }
        ensures risen { self.new.calls ≤ self.old.calls + 1 }
    {
        let Some(place) = place_for(&self.peers, peer) else {
            return Ok(None);
        };
        let mut bytes = unlabelled(alloc, self.node, peer, body)?;
        let Ok(label) = self.peers[place].ask(peer, &mut bytes, purpose) else {
            return Ok(None);
        };
        self.calls += 1;
        Ok(Some(Asked {
            label,
            bytes: Bytes::from_vec(bytes),
        }))
    }

    /// Lays the label of a transaction to rest, which timed out, and tells what it was for, or that it
    /// was for nobody. It is stale exactly where it is not the one under way; nothing changes then.
    #[tactic(auto, unfolding(crate::specs::Layer::expiring_step), using(crate::proofs::Layers::counting))]
    pub fn expire(&mut self, peer: NodeId, label: Label) -> Result<Option<P>, Stale>
        requires { self.old.calls < 2 ^ 56 }
        ensures step { (result, self.new) ≡ expiring_step self.old peer label }
        ensures refused { OnErr result (self.new ≡ self.old) }
        ensures count { self.new.calls ≤ self.old.calls + 1 }
    {
        let Some(place) = place_for(&self.peers, peer) else {
            return Err(Stale);
        };
        let purpose = self.peers[place].expire(label)?;
        self.calls += 1;
        Ok(purpose)
    }

    /// Leaves a transaction that is under way to nobody: its reply closes it, or its time-out lays its
    /// label to rest, and neither tells what it was for.
    #[tactic(auto, unfolding(crate::specs::Layer::disowning_step), using(crate::proofs::Layers::sound_disowned))]
    pub fn disown(&mut self, peer: NodeId, label: Label)
        ensures { self.new ≡ disowning_step self.old peer label }
    {
        if let Some(place) = place_for(&self.peers, peer) {
            self.peers[place].disown(label);
        }
    }

    /// The number of labels to a peer that are neither under way nor resting; 0 for a sixth peer.
    #[tactic(auto, unfolding(crate::specs::Layer::free_labels))]
    pub fn free(&self, peer: NodeId) -> u8
        ensures value { result ≡ free_labels self.now peer }
        ensures most { result ≤ 64 }
    {
        match place_for(&self.peers, peer) {
            Some(place) => self.peers[place].free(),
            None => 0,
        }
    }

    /// Sees a generation, and the node's ID in it. A later one than the node's is entered: everything
    /// of the one before is forgotten, and handles made in it are stale. Whether it is a later one;
    /// where it is not, nothing changes.
    #[tactic(auto, unfolding(crate::specs::Layer::seeing_step), using(crate::proofs::Layers::sound_seen))]
    pub fn see(&mut self, generation: Generation, node: NodeId) -> bool
        requires { self.old.calls < 2 ^ 56 }
        ensures step { (result, self.new) ≡ seeing_step self.old generation node }
        ensures count { self.new.calls ≤ self.old.calls + 1 }
    {
        if generation.number() <= self.generation.number() {
            return false;
        }
        self.generation = generation;
        self.node = node;
        self.calls += 1;
        clear_each(&mut self.peers, generation);
        self.seen.clear();
        true
    }

    /// Closes the transaction under way of a peer, a label and a kind of response.
    #[tactic(auto, unfolding(crate::specs::Layer::closing_step), using(crate::proofs::Layers::counting))]
    fn close(&mut self, peer: NodeId, number: u8, kind: ReplyKind) -> Option<(Label, Option<P>)>
        requires { self.old.calls < 2 ^ 56 }
        ensures step { (result, self.new) ≡ closing_step self.old peer number kind }
        ensures refused { IfNone result (self.new ≡ self.old) }
        ensures count { self.new.calls ≤ self.old.calls + 1 }
    {
        let place = place_for(&self.peers, peer)?;
        let closed = self.peers[place].close(number, kind)?;
        self.calls += 1;
        Some(closed)
    }
}
