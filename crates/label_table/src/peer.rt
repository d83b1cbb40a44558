ghost use Rattle.std.specs.Prelude.{◌≡◌, ◌+◌, ◌^◌, ◌<◌, ◌≤◌, length, replicate, take, drop, position, map, slice_index_or, ℕ, Some, None, IfOk, IfSome};
ghost use Rattle.label_table.specs.Owned.{is_owned_by, owned_place};
ghost use Rattle.label_table.specs.Peers.{PeerPlace, peer_of, no_peer, ask_place, close_place, expire_place, disown_place, clear_place};
ghost use Rattle.label_table.specs.Requests.{IsRequest};
ghost use Rattle.label_table.specs.Table.{count_free};

use crate::reply::{NoLabel, ReplyKind, Stale};
use crate::table::{LABELS, Labels};
use async_packet::Label;
use sbp_base::{Generation, NoMemory, NodeId};
use std::alloc::Global;
use std::marker::Model;

/// The peers that a node has tables of labels for.
const PEERS: usize = 5;

/// The labels to a peer, and what the transaction under each is for.
#[derive(Drop)]
pub struct Peer<P> {
    peer: Option<NodeId>,
    labels: Labels,
    purposes: Vec<Option<P>>,
}

impl<P> Model for Peer<P> {
    ghost use Rattle.std.specs.Prelude.{◌≡◌, length};
    ghost use Rattle.label_table.specs.Peers.{PeerPlace};

    ghost Value = { PeerPlace P };

    ghost view = { λ a. record { peer = a.peer; table = a.labels; purposes = a.purposes.items } };

    ghost invariant = { λ a. length a.purposes.items ≡ 64 };
}

impl<P: Copy> Peer<P> {
    /// A place that no peer has.
    pub(crate) fn new(alloc: Global) -> Result<Peer<P>, NoMemory>
        ensures { IfOk result (λ place. place ≡ no_peer) }
    {
        Ok(Peer {
            peer: None,
            labels: Labels::new(alloc)?,
            purposes: no_purposes(alloc)?,
        })
    }

    /// Whether this is the place of a peer, or of none.
    pub(crate) fn is_of(&self, peer: Option<NodeId>) -> bool
        ensures { result ≡ is_owned_by peer_of peer self.now }
    {
        self.peer == peer
    }

    /// Begins the transaction of a request to this peer, for something.
    pub(crate) fn ask(
        &mut self,
        peer: NodeId,
        bytes: &mut [u8],
        purpose: P,
    ) -> Result<Label, NoLabel>
        requires request { IsRequest bytes.old }
        requires count { self.old.table.calls < 2 ^ 56 }
        ensures step { (result, (self.new, bytes.new)) ≡ ask_place self.old peer bytes.old purpose }
        ensures count { self.new.table.calls ≤ self.old.table.calls + 1 }
    {
        let label = self.labels.begin(bytes)?;
        self.peer = Some(peer);
        self.purposes[usize::from(label.number())] = Some(purpose);
        Ok(label)
    }

    /// Closes the transaction under way of a label and a kind of response, and tells what it was for.
    pub(crate) fn close(&mut self, number: u8, kind: ReplyKind) -> Option<(Label, Option<P>)>
        requires count { self.old.table.calls < 2 ^ 56 }
        ensures step { (result, self.new) ≡ close_place self.old number kind }
        ensures count { self.new.table.calls ≤ self.old.table.calls + 1 }
    {
        let label = self.labels.close(number, kind)?;
        let place = usize::from(label.number());
        let purpose = self.purposes[place];
        self.purposes[place] = None;
        Some((label, purpose))
    }

    /// Lays the label of a transaction to rest, and tells what it was for.
    pub(crate) fn expire(&mut self, label: Label) -> Result<Option<P>, Stale>
        requires count { self.old.table.calls < 2 ^ 56 }
        ensures step { (result, self.new) ≡ expire_place self.old label }
        ensures count { self.new.table.calls ≤ self.old.table.calls + 1 }
    {
        self.labels.expire(label)?;
        let place = usize::from(label.number());
        let purpose = self.purposes[place];
        self.purposes[place] = None;
        Ok(purpose)
    }

    /// Leaves the transaction under way to nobody.
    pub(crate) fn disown(&mut self, label: Label)
        ensures { self.new ≡ disown_place self.old label }
    {
        if self.labels.is_under_way(&label) {
            self.purposes[usize::from(label.number())] = None;
        }
    }

    /// The number of labels that are neither under way nor resting.
    pub(crate) fn free(&self) -> u8
        ensures value { result ≡ count_free self.now.table.places }
        ensures most { result ≤ 64 }
    {
        self.labels.free()
    }

    /// Takes the place from its peer, and enters a generation.
    pub(crate) fn clear(&mut self, generation: Generation)
        requires { self.old.table.calls < 2 ^ 56 }
        ensures { self.new ≡ clear_place generation self.old }
    {
        self.peer = None;
        self.labels.clear(generation);
        forget(&mut self.purposes);
    }
}

/// Purposes of 64 labels, none of which is for anything.
fn no_purposes<P: Copy>(alloc: Global) -> Result<Vec<Option<P>>, NoMemory>
    ensures { IfOk result (λ purposes. purposes.items ≡ replicate 64 None) }
{
    let mut purposes = Vec::new(alloc);
    for _ in 0..LABELS {
        purposes.push(None)?;
    }
    Ok(purposes)
}

/// Leaves each label for nothing.
fn forget<P: Copy>(purposes: &mut [Option<P>])
    ensures { purposes.new ≡ replicate (length purposes.old) None }
{
    for purpose in purposes.iter_mut() {
        *purpose = None;
    }
}

/// Places that no peer has.
pub(crate) fn new_peers<P: Copy>(alloc: Global) -> Result<Vec<Peer<P>>, NoMemory>
    ensures { IfOk result (λ peers. peers.items ≡ replicate 5 no_peer) }
{
    let mut peers = Vec::new(alloc);
    for _ in 0..PEERS {
        peers.push(Peer::new(alloc)?)?;
    }
    Ok(peers)
}

/// The lowest place of a peer, or of none.
fn place_of<P: Copy>(peers: &[Peer<P>], peer: Option<NodeId>) -> Option<usize>
    ensures place { result ≡ position (is_owned_by peer_of peer) peers.now }
    ensures below { IfSome result (λ place. place < length peers.now) }
{
    peers.iter().position(|place| place.is_of(peer))
}

/// The place of a peer, or else the lowest that none has.
#[tactic(auto, unfolding(crate::specs::Owned::owned_place))]
pub(crate) fn place_for<P: Copy>(peers: &[Peer<P>], peer: NodeId) -> Option<usize>
    ensures place { result ≡ owned_place peer_of peer peers.now }
    ensures below { IfSome result (λ place. place < length peers.now) }
{
    match place_of(peers, Some(peer)) {
        Some(place) => Some(place),
        None => place_of(peers, None),
    }
}

/// Takes each place from its peer, and enters a generation.
pub(crate) fn clear_each<P: Copy>(peers: &mut [Peer<P>], generation: Generation)
    requires { (k : ℕ) → (slice_index_or peers.old k no_peer).table.calls < 2 ^ 56 }
    ensures { peers.new ≡ map (clear_place generation) peers.old }
{
    for place in 0..peers.len() {
        peers[place].clear(generation);
    }
}
