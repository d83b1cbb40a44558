ghost use Rattle.std.specs.Prelude.{◌≡◌, ◌+◌, ◌%◌, ◌^◌, ◌<◌, ◌≤◌, ◌↔◌, IsSome, IfSome};

use std::marker::Model;

/// A node ID: the bus in bits 15 to 6 and the physical ID in bits 5 to 0 (IEEE 1394-1995, node
/// addresses).
#[derive(Clone, Copy, Debug, PartialEq, Eq)]
pub struct NodeId {
    id: u16,
}

impl Model for NodeId {
    ghost use Rattle.std.specs.Prelude.{ℕ};

    ghost Value = { ℕ };

    ghost view = { λ node. node.id };

    ghost inverse = { λ id. record { id = id } };
}

impl NodeId {
    /// The node with this ID.
    pub fn from_raw(raw: u16) -> NodeId
        ensures { result ≡ raw }
    {
        NodeId { id: raw }
    }

    /// All 16 bits of the ID.
    pub fn raw(self) -> u16
        ensures value { result ≡ self }
        ensures small { self < 2 ^ 16 }
    {
        self.id
    }

    /// The low 6 bits.
    pub fn physical(self) -> u8
        ensures value { result ≡ self % 2 ^ 6 }
        ensures small { result < 2 ^ 6 }
    {
        (self.id & 0x3f) as u8
    }

    /// The node with this physical ID on the local bus, whose number is 3FFh. There is none exactly
    /// where the physical ID is above 62.
    pub fn local(physical: u8) -> Option<NodeId>
        ensures some { IsSome result ↔ (physical ≤ 62) }
        ensures value { IfSome result (λ node. node ≡ 0xffc0 + physical) }
    {
        if physical > 62 {
            return None;
        }
        Some(NodeId {
            id: 0xffc0 + u16::from(physical),
        })
    }
}
