ghost use Rattle.std.specs.Prelude.{◌≡◌, ◌+◌, ◌^◌, ◌<◌, ◌≤◌, ◌↔◌, IsTrue, length};
ghost use Rattle.async_packet.specs.Packet.{view};
ghost use Rattle.async_packet.specs.Fields.{padded, largest, is_extended, is_request_length, is_response_length};
ghost use Rattle.async_packet.specs.Canon.{IsValid, FitsHeader, encoded_length};

use crate::fields::{LARGEST, padded};
use crate::judging::{fits_request, fits_response, names_extended};
use crate::packet::{Header, PacketRef};

/// Whether each field fits its bits and each length keeps its rule. An offset or a value that is read
/// is known to fit its type, and nothing more is asked of it.
pub fn is_valid(packet: &PacketRef<'_>) -> bool
    ensures { IsTrue result ↔ IsValid (view packet.now) }
{
    match packet {
        PacketRef::WriteQuadlet {
            header,
            offset,
            value,
        } => {
            let _offset = offset.value();
            let _value = *value;
            fits_header(header)
        }
        PacketRef::WriteBlock {
            header,
            offset,
            payload,
        } => {
            let _offset = offset.value();
            fits_header(header) && fits_payload(payload)
        }
        PacketRef::WriteResponse { header, rcode } => fits_response_header(header, *rcode),
        PacketRef::ReadQuadlet { header, offset } => {
            let _offset = offset.value();
            fits_header(header)
        }
        PacketRef::ReadBlock {
            header,
            offset,
            length,
        } => {
            let _offset = offset.value();
            fits_header(header) && *length <= LARGEST
        }
        PacketRef::ReadQuadletResponse {
            header,
            rcode,
            value,
        } => {
            let _value = *value;
            fits_response_header(header, *rcode)
        }
        PacketRef::ReadBlockResponse {
            header,
            rcode,
            payload,
        } => fits_response_header(header, *rcode) && fits_payload(payload),
        PacketRef::Lock {
            header,
            offset,
            extended,
            payload,
        } => {
            let _offset = offset.value();
            fits_header(header) && fits_lock_request(*extended, payload)
        }
        PacketRef::LockResponse {
            header,
            rcode,
            extended,
            payload,
        } => { fits_response_header(header, *rcode) && fits_lock_response(*extended, payload) }
    }
}

/// The number of the packet's bytes.
pub fn encoded_len(packet: &PacketRef<'_>) -> usize
    ensures { result ≡ encoded_length (view packet.now) }
{
    match packet {
        PacketRef::WriteResponse { .. } | PacketRef::ReadQuadlet { .. } => 12,
        PacketRef::WriteQuadlet { .. }
        | PacketRef::ReadBlock { .. }
        | PacketRef::ReadQuadletResponse { .. } => 16,
        PacketRef::WriteBlock { payload, .. } => block_len(payload),
        PacketRef::ReadBlockResponse { payload, .. } => block_len(payload),
        PacketRef::Lock { payload, .. } => block_len(payload),
        PacketRef::LockResponse { payload, .. } => block_len(payload),
    }
}

/// The number of a packet's bytes with this payload.
fn block_len(payload: &[u8]) -> usize
    ensures { result ≡ 16 + padded (length payload.now) }
{
    16 + padded(payload.len())
}

/// Whether each field of a header fits its bits.
fn fits_header(header: &Header) -> bool
    ensures { IsTrue result ↔ FitsHeader header.now }
{
    let _destination = header.destination.raw();
    let _source = header.source.raw();
    header.label < 64 && header.retry < 4 && header.priority < 16
}

/// Whether each field of a response's header fits its bits, and its rcode too.
fn fits_response_header(header: &Header, rcode: u8) -> bool
    ensures { IsTrue result ↔ (FitsHeader header.now × (rcode < 2 ^ 4)) }
{
    fits_header(header) && rcode < 16
}

/// Whether a payload is not too big.
fn fits_payload(payload: &[u8]) -> bool
    ensures { IsTrue result ↔ (length payload.now ≤ largest) }
{
    payload.len() <= usize::from(LARGEST)
}

/// Whether a lock request has this extended_tcode and this payload.
fn fits_lock_request(extended: u8, payload: &[u8]) -> bool
    ensures { IsTrue result ↔ (IsTrue (is_extended extended) × IsTrue (is_request_length extended (length payload.now))) }
{
    let code = u16::from(extended);
    names_extended(code) && fits_request(code, payload.len())
}

/// Whether a lock response has this extended_tcode and this payload.
fn fits_lock_response(extended: u8, payload: &[u8]) -> bool
    ensures { IsTrue result ↔ (IsTrue (is_extended extended) × IsTrue (is_response_length (length payload.now))) }
{
    names_extended(u16::from(extended)) && fits_response(payload.len())
}
