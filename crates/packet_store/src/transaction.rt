ghost use Rattle.std.specs.Prelude.{◌≡◌};
ghost use Rattle.std.specs.Hash as fed;
ghost use Rattle.packet_store.specs.Transactions.{transaction_by, number_of, hashed_alike};

use crate::role::Role;
use crate::sent::Sent;
use std::hash::{Hash, Hasher};

/// A transaction, by the generation in which it was sent, its requester, its responder and its
/// label (IEEE 1394-1995, transaction layer).
#[derive(Clone, Copy, PartialEq, Eq)]
pub struct Transaction {
    pub generation: u32,
    pub requester: u8,
    pub responder: u8,
    pub label: u8,
}

impl Hash for Transaction {
    ghost hash_input = { λ t. fed.u64 (number_of t) };

    ghost respects_eq = { hashed_alike };

    fn hash<H: Hasher>(&self, state: &mut H) {
        let nodes = u64::from(self.requester) * 65_536 + u64::from(self.responder) * 256;
        state.write_u64(u64::from(self.generation) * 16_777_216 + nodes + u64::from(self.label));
    }
}

/// The transaction that a packet of this role belongs to. A request belongs to one of its sender,
/// unless it was injected; a response to one of the node that it goes to. Bytes that are no packet
/// belong to none.
pub(crate) fn transaction_of(role: Role, sent: &Sent) -> Option<Transaction>
    ensures { result ≡ transaction_by role sent.now }
{
    match role {
        Role::Request(label) => {
            if sent.injected {
                return None;
            }
            Some(between(sent, sent.from, sent.to, label))
        }
        Role::Response(label) => Some(between(sent, sent.to, sent.from, label)),
        Role::NoPacket => None,
    }
}

/// The transaction of these nodes under this label, in the generation of the packet.
fn between(sent: &Sent, requester: u8, responder: u8, label: u8) -> Transaction
    ensures { result ≡ record { generation = sent.now.generation; requester = requester; responder = responder; label = label } }
{
    Transaction {
        generation: sent.generation.number(),
        requester,
        responder,
        label,
    }
}
