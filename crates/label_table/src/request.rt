ghost use Rattle.std.specs.Prelude.{◌≡◌, ◌^◌, ◌<◌, ◌≤◌, length};
ghost use Rattle.label_table.specs.Requests.{label_of, with_label, is_write, kind_of, reply_kind};
ghost use Rattle.async_packet.specs.Packet.{view};

use crate::reply::ReplyKind;
use async_packet::{PacketRef, tcode_at};

/// The label, 6 bits.
#[tactic(auto, unfolding(crate::specs::Requests::label_of))]
pub(crate) fn label_at(bytes: &[u8]) -> u8
    requires { 4 ≤ length bytes.now }
    ensures value { result ≡ label_of bytes.now }
    ensures small { result < 64 }
{
    bytes[2] / 4
}

/// Writes a label, below 64, into the bytes.
#[tactic(auto, unfolding(crate::specs::Requests::with_label))]
pub(crate) fn put_label(bytes: &mut [u8], number: u8)
    requires size { 4 ≤ length bytes.old }
    requires small { number < 64 }
    ensures { bytes.new ≡ with_label number bytes.old }
{
    bytes[2] = number * 4 + bytes[2] % 4;
}

/// Whether a request is a write.
#[tactic(auto, unfolding(crate::specs::Requests::is_write))]
pub(crate) fn asks_write(bytes: &[u8]) -> bool
    requires { 4 ≤ length bytes.now }
    ensures { result ≡ is_write bytes.now }
{
    tcode_at(bytes) <= 1
}

/// The kind of the response that a request asks for.
#[tactic(auto, unfolding(crate::specs::Requests::kind_of))]
pub(crate) fn kind_at(bytes: &[u8]) -> ReplyKind
    requires { 4 ≤ length bytes.now }
    ensures { result ≡ kind_of bytes.now }
{
    match tcode_at(bytes) {
        4 => ReplyKind::ReadQuadlet,
        5 => ReplyKind::ReadBlock,
        9 => ReplyKind::Lock,
        _ => ReplyKind::Write,
    }
}

/// The kind of a response; a request has none.
pub(crate) fn kind_of_reply(packet: &PacketRef<'_>) -> Option<ReplyKind>
    ensures { result ≡ reply_kind (view packet.now) }
{
    match packet {
        PacketRef::WriteResponse { .. } => Some(ReplyKind::Write),
        PacketRef::ReadQuadletResponse { .. } => Some(ReplyKind::ReadQuadlet),
        PacketRef::ReadBlockResponse { .. } => Some(ReplyKind::ReadBlock),
        PacketRef::LockResponse { .. } => Some(ReplyKind::Lock),
        _ => None,
    }
}
