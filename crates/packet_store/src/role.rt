ghost use Rattle.std.specs.Prelude.{◌≡◌};
ghost use Rattle.packet_store.specs.Roles.{asks, role_of};

use async_packet::{judge, label_at, tcode_at};

/// What bytes are in a transaction: its request, a response to it, each with its label, or no packet.
#[derive(Clone, Copy)]
pub enum Role {
    Request(u8),
    Response(u8),
    NoPacket,
}

/// The role of bytes. Of a packet its tcode and its label alone are read.
#[inline(always)]
#[tactic(auto, using(crate::proofs::Roles::long_without_fault, crate::proofs::Roles::role_of_fault, crate::proofs::Roles::role_of_request, crate::proofs::Roles::role_of_response))]
pub(crate) fn role_of(bytes: &[u8]) -> Role
    ensures { result ≡ role_of bytes.now }
{
    if judge(bytes).is_some() {
        return Role::NoPacket;
    }
    let label = label_at(bytes);
    if asks(tcode_at(bytes)) {
        Role::Request(label)
    } else {
        Role::Response(label)
    }
}

/// Whether packets of this tcode are requests.
fn asks(tcode: u8) -> bool
    ensures { result ≡ asks tcode }
{
    matches!(tcode, 0 | 1 | 4 | 5 | 9)
}
