ghost use Rattle.std.specs.Prelude.{◌≡◌, ◌+◌, ◌*◌, ◌<◌, ◌^◌, length, nat_eq, position, replicate, None, IfOk, IfSome, OnOk};
ghost use Rattle.sbp_bus.specs.Requests.{add_step, find, new_requests, place_of};

use crate::generations::NODES;
use async_packet::Label;
use sbp_base::{NoMemory, NodeId};
use std::alloc::Global;
use std::marker::Model;

/// The labels of a transaction layer for a peer.
const LABELS: usize = 64;

/// A request, as its sender knows it: the sender, the peer that it went to, and the label.
#[derive(Clone, Copy, Drop)]
pub struct Request {
    pub node: u8,
    pub peer: NodeId,
    pub label: Label,
}

/// The latest request of each node to each peer under each label, with its serial: each request under
/// way is one of them. Both stand by node, peer and label.
#[derive(Drop)]
pub(crate) struct Requests {
    /// The serials; 0 where there was no request.
    serials: Vec<u64>,
    requests: Vec<Option<Request>>,
}

impl Model for Requests {
    ghost use Rattle.std.specs.Prelude.{◌≡◌, length};
    ghost use Rattle.sbp_bus.specs.Requests.{RequestsState};

    ghost Value = { RequestsState };

    ghost view = { λ a. record { serials = a.serials.items; requests = a.requests.items } };

    ghost invariant = { λ a. (length a.serials.items ≡ 1600) × (length a.requests.items ≡ 1600) };
}

/// Where the serial of a node's request to a peer under a label stands.
fn place_of(node: u8, peer: u8, label: &Label) -> usize
    requires node { node < 5 }
    requires peer { peer < 5 }
    ensures place { result ≡ place_of node peer label.now.number }
    ensures below { result < 1600 }
{
    (usize::from(node) * NODES + usize::from(peer)) * LABELS + usize::from(label.number())
}

/// Where a serial stands first.
fn place_with(serials: &[u64], serial: u64) -> Option<usize>
    ensures place { result ≡ position (nat_eq serial) serials.now }
    ensures below { IfSome result (λ place. place < length serials.now) }
{
    serials.iter().position(|other| serial == *other)
}

/// So many zeros.
fn zeros(alloc: Global, count: usize) -> Result<Vec<u64>, NoMemory>
    ensures zeros { IfOk result (λ zeros. zeros.items ≡ replicate count 0) }
    ensures size { IfOk result (λ zeros. length zeros.items ≡ count) }
{
    Ok(vec![in alloc; 0; count]?)
}

/// So many places without a request.
fn no_requests(alloc: Global, count: usize) -> Result<Vec<Option<Request>>, NoMemory>
    ensures none { IfOk result (λ requests. requests.items ≡ replicate count None) }
    ensures size { IfOk result (λ requests. length requests.items ≡ count) }
{
    Ok(vec![in alloc; None; count]?)
}

impl Requests {
    /// No request.
    pub(crate) fn new(alloc: Global) -> Result<Requests, NoMemory>
        ensures { IfOk result (λ requests. requests ≡ new_requests) }
    {
        Ok(Requests {
            serials: zeros(alloc, NODES * NODES * LABELS)?,
            requests: no_requests(alloc, NODES * NODES * LABELS)?,
        })
    }

    /// The request with a serial, where it is the latest one of its node to its peer under its label.
    pub(crate) fn find(&self, serial: u64) -> Option<Request>
        ensures { result ≡ find self.now serial }
    {
        let place = place_with(self.serials.as_slice(), serial)?;
        self.requests[place]
    }

    /// Adds a request to a peer of this number, in the place of the one before it under its label.
    #[tactic(auto, unfolding(crate::specs::Requests::add_step))]
    pub(crate) fn add(&mut self, serial: u64, peer: u8, request: Request) -> Result<(), NoMemory>
        requires node { request.node < 5 }
        requires peer { peer < 5 }
        ensures { OnOk result (self.new ≡ add_step serial peer request self.old) }
    {
        let place = place_of(request.node, peer, &request.label);
        self.serials[place] = serial;
        self.requests[place] = Some(request);
        Ok(())
    }
}
