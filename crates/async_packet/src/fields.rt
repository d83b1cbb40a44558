ghost use Rattle.std.specs.Prelude.{◌≡◌, ◌+◌, ◌^◌, ◌<◌, ◌≤◌, length};
ghost use Rattle.async_packet.specs.Fields.{tcode_of, header_of, offset_of, rcode_of, length_of, extended_of, value_of, padded, largest};
ghost use Rattle.async_packet.specs.Spells.{HasPayload};

use crate::packet::Header;
use sbp_base::{NodeId, Offset, quad_at};

/// The most bytes of a payload.
pub(crate) const LARGEST: u16 = 2048;

/// The tcode of bytes that have a quadlet 0: its bits 7 to 4.
#[tactic(auto, unfolding(crate::specs::Fields::tcode_of))]
pub fn tcode_at(bytes: &[u8]) -> u8
    requires { 4 ≤ length bytes.now }
    ensures value { result ≡ tcode_of bytes.now }
    ensures small { result < 2 ^ 4 }
{
    ((quad_at(bytes, 0) >> 4) & 0xf) as u8
}

/// The label of bytes that have a quadlet 0: its bits 15 to 10.
#[tactic(auto, unfolding(crate::specs::Fields::header_of))]
pub fn label_at(bytes: &[u8]) -> u8
    requires { 4 ≤ length bytes.now }
    ensures value { result ≡ (header_of bytes.now).label }
    ensures small { result < 2 ^ 6 }
{
    ((quad_at(bytes, 0) >> 10) & 0x3f) as u8
}

/// The header.
#[tactic(auto, unfolding(crate::specs::Fields::header_of))]
pub(crate) fn header_at(bytes: &[u8]) -> Header
    requires { 12 ≤ length bytes.now }
    ensures { result ≡ header_of bytes.now }
{
    let first = quad_at(bytes, 0);
    let second = quad_at(bytes, 4);
    Header {
        destination: NodeId::from_raw((first >> 16) as u16),
        label: ((first >> 10) & 0x3f) as u8,
        retry: ((first >> 8) & 0x3) as u8,
        priority: (first & 0xf) as u8,
        source: NodeId::from_raw((second >> 16) as u16),
    }
}

/// The offset of a request.
#[tactic(auto, unfolding(crate::specs::Fields::offset_of))]
pub(crate) fn offset_at(bytes: &[u8]) -> Offset
    requires { 12 ≤ length bytes.now }
    ensures { result ≡ offset_of bytes.now }
{
    let high = u64::from(quad_at(bytes, 4) & 0xffff);
    let low = u64::from(quad_at(bytes, 8));
    let Some(offset) = Offset::new((high << 32) + low) else {
        unreachable!()
    };
    offset
}

/// The rcode of a response, 4 bits.
#[tactic(auto, unfolding(crate::specs::Fields::rcode_of))]
pub(crate) fn rcode_at(bytes: &[u8]) -> u8
    requires { 12 ≤ length bytes.now }
    ensures { result ≡ rcode_of bytes.now }
{
    ((quad_at(bytes, 4) >> 12) & 0xf) as u8
}

/// Quadlet 3 as a value.
#[tactic(auto, unfolding(crate::specs::Fields::value_of))]
pub(crate) fn value_at(bytes: &[u8]) -> u32
    requires { 16 ≤ length bytes.now }
    ensures { result ≡ value_of bytes.now }
{
    quad_at(bytes, 12)
}

/// The data_length, in bytes.
#[tactic(auto, unfolding(crate::specs::Fields::length_of))]
pub(crate) fn length_at(bytes: &[u8]) -> u16
    requires { 16 ≤ length bytes.now }
    ensures { result ≡ length_of bytes.now }
{
    (quad_at(bytes, 12) >> 16) as u16
}

/// The extended_tcode.
#[tactic(auto, unfolding(crate::specs::Fields::extended_of))]
pub(crate) fn extended_at(bytes: &[u8]) -> u16
    requires { 16 ≤ length bytes.now }
    ensures { result ≡ extended_of bytes.now }
{
    (quad_at(bytes, 12) & 0xffff) as u16
}

/// The payload behind the 16 bytes before it, lent.
pub(crate) fn payload_at(bytes: &[u8]) -> &[u8]
    requires small { length_of bytes.now ≤ largest }
    requires whole { length bytes.now ≡ 16 + padded (length_of bytes.now) }
    ensures { HasPayload bytes.now result.now }
{
    let declared = usize::from(length_at(bytes));
    &bytes[16..16 + declared]
}

/// A length padded to whole quadlets.
pub(crate) fn padded(count: usize) -> usize
    requires { count < 2 ^ 63 }
    ensures { result ≡ padded count }
{
    (count + 3) / 4 * 4
}
