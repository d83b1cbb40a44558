ghost use Rattle.std.specs.Prelude.{◌≡◌, ◌+◌, ◌%◌, ◌^◌, ◌<◌, ◌≤◌, ◌++◌, length, drop};
ghost use Rattle.async_packet.specs.Packet.{view};
ghost use Rattle.async_packet.specs.Fields.{padded, largest};
ghost use Rattle.async_packet.specs.Canon.{three, four, first_quad, request_quad, response_quad, length_quad, with_pad, canon, encoded_length, FitsHeader, IsValid, CanonSpells, CanonLength};

use crate::fields::padded;
use crate::packet::{Header, PacketRef};
use sbp_base::{Offset, put_quad};

/// Writes a valid packet at the front of `out`, and answers how many bytes it has. Reserved bits and
/// pad bytes are zero. The rest of `out` stays.
pub fn encode_into(packet: &PacketRef<'_>, out: &mut [u8]) -> usize
    requires valid { IsValid (view packet.now) }
    requires room { encoded_length (view packet.now) ≤ length out.old }
    ensures written { out.new ≡ canon (view packet.now) ++ drop (encoded_length (view packet.now)) out.old }
    ensures count { result ≡ encoded_length (view packet.now) }
{
    match packet {
        PacketRef::WriteQuadlet {
            header,
            offset,
            value,
        } => put_four(out, &request(0, header, *offset), *value),
        PacketRef::WriteBlock {
            header,
            offset,
            payload,
        } => {
            put_block(
                out,
                &request(1, header, *offset),
                length_and_code(payload, 0),
                payload,
            )
        }
        PacketRef::WriteResponse { header, rcode } => put_three(out, &response(2, header, *rcode)),
        PacketRef::ReadQuadlet { header, offset } => put_three(out, &request(4, header, *offset)),
        PacketRef::ReadBlock {
            header,
            offset,
            length,
        } => { put_four(out, &request(5, header, *offset), u32::from(*length) << 16) }
        PacketRef::ReadQuadletResponse {
            header,
            rcode,
            value,
        } => put_four(out, &response(6, header, *rcode), *value),
        PacketRef::ReadBlockResponse {
            header,
            rcode,
            payload,
        } => {
            put_block(
                out,
                &response(7, header, *rcode),
                length_and_code(payload, 0),
                payload,
            )
        }
        PacketRef::Lock {
            header,
            offset,
            extended,
            payload,
        } => {
            put_block(
                out,
                &request(9, header, *offset),
                length_and_code(payload, *extended),
                payload,
            )
        }
        PacketRef::LockResponse {
            header,
            rcode,
            extended,
            payload,
        } => {
            put_block(
                out,
                &response(11, header, *rcode),
                length_and_code(payload, *extended),
                payload,
            )
        }
    }
}

/// The law that a valid packet's canonical spelling spells it, so that reading it gives the packet.
pub fn canon_spells()
    ensures { CanonSpells }
{}

/// The law that the canonical spelling has as many bytes as the packet's encoded length.
pub fn canon_has_length()
    ensures { CanonLength }
{}

/// The first three quadlets of a packet.
#[derive(Drop)]
struct Head {
    first: u32,
    second: u32,
    third: u32,
}

/// The first three quadlets of a request.
fn request(tcode: u8, header: &Header, offset: Offset) -> Head
    requires small { tcode < 2 ^ 4 }
    requires fits { FitsHeader header.now }
    ensures { result ≡ record { first = first_quad tcode header.now; second = request_quad header.now offset; third = offset % 2 ^ 32 } }
{
    let place = offset.value();
    Head {
        first: first_quadlet(tcode, header),
        second: (u32::from(header.source.raw()) << 16) + (place >> 32) as u32,
        third: (place & 0xffff_ffff) as u32,
    }
}

/// The first three quadlets of a response.
fn response(tcode: u8, header: &Header, rcode: u8) -> Head
    requires small { tcode < 2 ^ 4 }
    requires fits { FitsHeader header.now }
    requires answer { rcode < 2 ^ 4 }
    ensures { result ≡ record { first = first_quad tcode header.now; second = response_quad header.now rcode; third = 0 } }
{
    Head {
        first: first_quadlet(tcode, header),
        second: (u32::from(header.source.raw()) << 16) + (u32::from(rcode) << 12),
        third: 0,
    }
}

/// Quadlet 0.
fn first_quadlet(tcode: u8, header: &Header) -> u32
    requires small { tcode < 2 ^ 4 }
    requires fits { FitsHeader header.now }
    ensures { result ≡ first_quad tcode header.now }
{
    let destination = u32::from(header.destination.raw()) << 16;
    let label = u32::from(header.label) << 10;
    let retry = u32::from(header.retry) << 8;
    let kind = u32::from(tcode) << 4;
    destination + label + retry + kind + u32::from(header.priority)
}

/// Quadlet 3, with the length of the payload as data_length.
fn length_and_code(payload: &[u8], extended: u8) -> u32
    requires { length payload.now ≤ largest }
    ensures { result ≡ length_quad (length payload.now) extended }
{
    ((payload.len() as u32) << 16) + u32::from(extended)
}

/// Writes a packet of three quadlets.
#[tactic(auto, unfolding(crate::specs::Canon::three))]
fn put_three(out: &mut [u8], head: &Head) -> usize
    requires { 12 ≤ length out.old }
    ensures written { out.new ≡ three head.now.first head.now.second head.now.third ++ drop 12 out.old }
    ensures count { result ≡ 12 }
{
    put_quad(out, 0, head.first);
    put_quad(out, 4, head.second);
    put_quad(out, 8, head.third);
    12
}

/// Writes a packet of four quadlets, or the front of a packet that has a payload.
#[tactic(auto, unfolding(crate::specs::Canon::four))]
fn put_four(out: &mut [u8], head: &Head, last: u32) -> usize
    requires { 16 ≤ length out.old }
    ensures written { out.new ≡ four head.now.first head.now.second head.now.third last ++ drop 16 out.old }
    ensures count { result ≡ 16 }
{
    put_quad(out, 0, head.first);
    put_quad(out, 4, head.second);
    put_quad(out, 8, head.third);
    put_quad(out, 12, last);
    16
}

/// Writes a packet of four quadlets and a payload.
fn put_block(out: &mut [u8], head: &Head, last: u32, payload: &[u8]) -> usize
    requires { 16 + padded (length payload.now) ≤ length out.old }
    ensures written { out.new ≡ (four head.now.first head.now.second head.now.third last ++ with_pad payload.now) ++ drop (16 + padded (length payload.now)) out.old }
    ensures count { result ≡ 16 + padded (length payload.now) }
{
    let (front, rest) = out.split_at_mut(16);
    let front_len = put_four(front, head, last);
    front_len + put_payload(rest, payload)
}

/// Writes a payload and its pad, and answers how many bytes they are.
fn put_payload(out: &mut [u8], payload: &[u8]) -> usize
    requires { padded (length payload.now) ≤ length out.old }
    ensures written { out.new ≡ with_pad payload.now ++ drop (padded (length payload.now)) out.old }
    ensures count { result ≡ padded (length payload.now) }
{
    let count = payload.len();
    let whole = padded(count);
    out[..count].copy_from_slice(payload);
    out[count..whole].fill(0);
    whole
}
