ghost use Rattle.std.specs.Prelude.{◌≡◌, ◌+◌, ◌≤◌, length, Option, Some, None, IsTrue, IfOk, IfErr, IsOkAnd};
ghost use Rattle.async_packet.specs.Packet.{Packet, view};
ghost use Rattle.async_packet.specs.Fields.{tcode_of, length_of, extended_of, padded, largest, is_extended, is_request_length, is_response_length};
ghost use Rattle.async_packet.specs.Canon.{DecodesBack};
ghost use Rattle.async_packet.specs.Faults.{fault_of};
ghost use Rattle.async_packet.specs.Reading.{ReadsSpelling, reading, viewed};
ghost use Rattle.async_packet.specs.Spells.{Spells, SpellsOnce};

use crate::fault::PacketFault;
use crate::fields::{
    extended_at, header_at, length_at, offset_at, payload_at, rcode_at, tcode_at, value_at,
};
use crate::judging::judge;
use crate::packet::PacketRef;

/// Reads the packet that the bytes spell. The payload is lent from them. Where they spell none, the
/// error is the first fault of the table that holds.
#[inline(always)]
pub fn decode(bytes: &[u8]) -> Result<PacketRef<'_>, PacketFault>
    ensures spelled { IfOk result (λ p. Spells bytes.now (view p)) }
    ensures only { (p : Packet) → Spells bytes.now p → IsOkAnd result (λ q. view q ≡ p) }
    ensures fault { IfErr result (λ f. fault_of bytes.now ≡ Some f) }
    ensures reading { reading bytes.now ≡ viewed result }
{
    match judge(bytes) {
        Some(fault) => Err(fault),
        None => Ok(packet_at(bytes)),
    }
}

/// The law that no bytes spell two packets.
#[tactic(auto, using(crate::proofs::Unique::spelled_once))]
pub fn spells_once()
    ensures { SpellsOnce }
{}

/// The law that reading a valid packet's canonical spelling gives the packet.
pub fn decodes_back()
    ensures { DecodesBack }
{}

/// The law that what bytes are, as a function of them, is the packet that they spell or their fault.
pub fn reads_spelling()
    ensures { ReadsSpelling }
{}

/// The packet of bytes that have no fault.
#[inline(always)]
fn packet_at(bytes: &[u8]) -> PacketRef<'_>
    requires { fault_of bytes.now ≡ None }
    ensures { Spells bytes.now (view result) }
{
    match tcode_at(bytes) {
        0 => write_quadlet(bytes),
        1 => write_block(bytes),
        2 => write_response(bytes),
        4 => read_quadlet(bytes),
        5 => read_block(bytes),
        6 => read_quadlet_response(bytes),
        7 => read_block_response(bytes),
        9 => lock(bytes),
        11 => lock_response(bytes),
        _ => unreachable!(),
    }
}

/// tcode 0: 16 bytes, the last 4 of them the value.
fn write_quadlet(bytes: &[u8]) -> PacketRef<'_>
    requires kind { tcode_of bytes.now ≡ 0 }
    requires whole { length bytes.now ≡ 16 }
    ensures { Spells bytes.now (view result) }
{
    PacketRef::WriteQuadlet {
        header: header_at(bytes),
        offset: offset_at(bytes),
        value: value_at(bytes),
    }
}

/// tcode 1: 16 bytes, and the payload and its pad.
fn write_block(bytes: &[u8]) -> PacketRef<'_>
    requires kind { tcode_of bytes.now ≡ 1 }
    requires small { length_of bytes.now ≤ largest }
    requires whole { length bytes.now ≡ 16 + padded (length_of bytes.now) }
    ensures { Spells bytes.now (view result) }
{
    PacketRef::WriteBlock {
        header: header_at(bytes),
        offset: offset_at(bytes),
        payload: payload_at(bytes),
    }
}

/// tcode 2: 12 bytes.
fn write_response(bytes: &[u8]) -> PacketRef<'_>
    requires kind { tcode_of bytes.now ≡ 2 }
    requires whole { length bytes.now ≡ 12 }
    ensures { Spells bytes.now (view result) }
{
    PacketRef::WriteResponse {
        header: header_at(bytes),
        rcode: rcode_at(bytes),
    }
}

/// tcode 4: 12 bytes.
fn read_quadlet(bytes: &[u8]) -> PacketRef<'_>
    requires kind { tcode_of bytes.now ≡ 4 }
    requires whole { length bytes.now ≡ 12 }
    ensures { Spells bytes.now (view result) }
{
    PacketRef::ReadQuadlet {
        header: header_at(bytes),
        offset: offset_at(bytes),
    }
}

/// tcode 5: 16 bytes and no payload; the data_length is asked for.
fn read_block(bytes: &[u8]) -> PacketRef<'_>
    requires kind { tcode_of bytes.now ≡ 5 }
    requires small { length_of bytes.now ≤ largest }
    requires whole { length bytes.now ≡ 16 }
    ensures { Spells bytes.now (view result) }
{
    PacketRef::ReadBlock {
        header: header_at(bytes),
        offset: offset_at(bytes),
        length: length_at(bytes),
    }
}

/// tcode 6: 16 bytes, the last 4 of them the value.
fn read_quadlet_response(bytes: &[u8]) -> PacketRef<'_>
    requires kind { tcode_of bytes.now ≡ 6 }
    requires whole { length bytes.now ≡ 16 }
    ensures { Spells bytes.now (view result) }
{
    PacketRef::ReadQuadletResponse {
        header: header_at(bytes),
        rcode: rcode_at(bytes),
        value: value_at(bytes),
    }
}

/// tcode 7: 16 bytes, and the payload and its pad.
fn read_block_response(bytes: &[u8]) -> PacketRef<'_>
    requires kind { tcode_of bytes.now ≡ 7 }
    requires small { length_of bytes.now ≤ largest }
    requires whole { length bytes.now ≡ 16 + padded (length_of bytes.now) }
    ensures { Spells bytes.now (view result) }
{
    PacketRef::ReadBlockResponse {
        header: header_at(bytes),
        rcode: rcode_at(bytes),
        payload: payload_at(bytes),
    }
}

/// tcode 9: 16 bytes, and the payload and its pad.
fn lock(bytes: &[u8]) -> PacketRef<'_>
    requires kind { tcode_of bytes.now ≡ 9 }
    requires small { length_of bytes.now ≤ largest }
    requires extended { IsTrue (is_extended (extended_of bytes.now)) }
    requires rule { IsTrue (is_request_length (extended_of bytes.now) (length_of bytes.now)) }
    requires whole { length bytes.now ≡ 16 + padded (length_of bytes.now) }
    ensures { Spells bytes.now (view result) }
{
    PacketRef::Lock {
        header: header_at(bytes),
        offset: offset_at(bytes),
        extended: lock_code_at(bytes),
        payload: payload_at(bytes),
    }
}

/// tcode B: 16 bytes, and the payload and its pad.
fn lock_response(bytes: &[u8]) -> PacketRef<'_>
    requires kind { tcode_of bytes.now ≡ 11 }
    requires small { length_of bytes.now ≤ largest }
    requires extended { IsTrue (is_extended (extended_of bytes.now)) }
    requires rule { IsTrue (is_response_length (length_of bytes.now)) }
    requires whole { length bytes.now ≡ 16 + padded (length_of bytes.now) }
    ensures { Spells bytes.now (view result) }
{
    PacketRef::LockResponse {
        header: header_at(bytes),
        rcode: rcode_at(bytes),
        extended: lock_code_at(bytes),
        payload: payload_at(bytes),
    }
}

/// The extended_tcode of a lock, 1 to 6.
fn lock_code_at(bytes: &[u8]) -> u8
    requires long { 16 ≤ length bytes.now }
    requires extended { IsTrue (is_extended (extended_of bytes.now)) }
    ensures { result ≡ extended_of bytes.now }
{
    extended_at(bytes) as u8
}
