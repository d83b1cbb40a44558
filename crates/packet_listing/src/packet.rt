ghost use Rattle.std.specs.Prelude.{◌≡◌, ◌∷◌, ◌++◌, [], codes, OnOk};
ghost use Rattle.line_text.specs.Fields.{Field, word, further, rest_of_line};
ghost use Rattle.async_packet.specs.Packet.{view};
ghost use Rattle.packet_listing.specs.Listing.{quadlet, header_fields, header_of, own_fields, block_fields, start_word, packet_text, refusal_text};
ghost use Rattle.packet_listing.specs.Listing as listing;

use crate::start::push_start;
use async_packet::{Header, PacketFault, PacketRef};
use byteorder::{BigEndian, ByteOrder};
use line_text::{end_line, push_digits, push_name, push_number, push_payload};
use sbp_base::{Bytes, NoMemory, NodeId, Offset};

/// Adds the line that tells the fault of bytes.
pub(crate) fn push_refusal(out: &mut Bytes, fault: PacketFault) -> Result<(), NoMemory>
    ensures { OnOk result (out.new ≡ out.old ++ refusal_text fault) }
{
    match fault {
        PacketFault::Short { need } => push_fault(out, 1, "Short", u64::from(need)),
        PacketFault::Code { tcode } => push_fault(out, 2, "Code", u64::from(tcode)),
        PacketFault::TooBig { length } => push_fault(out, 3, "TooBig", u64::from(length)),
        PacketFault::Long { extra } => push_fault(out, 4, "Long", extra as u64),
        PacketFault::Extended { code } => push_fault(out, 5, "Extended", u64::from(code)),
        PacketFault::LockLength { length } => push_fault(out, 6, "LockLength", u64::from(length)),
    }
}

/// Adds the line of a packet.
pub(crate) fn push_packet(out: &mut Bytes, packet: &PacketRef<'_>) -> Result<(), NoMemory>
    ensures { OnOk result (out.new ≡ out.old ++ packet_text (view packet.now)) }
{
    push_head(out, kind(packet), header(packet))?;
    push_own(out, packet)
}

/// The kind of a packet.
fn kind(packet: &PacketRef<'_>) -> &'static str
    ensures { result.now ≡ listing.kind (view packet.now) }
{
    match packet {
        PacketRef::WriteQuadlet { .. } => "write_quadlet",
        PacketRef::WriteBlock { .. } => "write_block",
        PacketRef::WriteResponse { .. } => "write_response",
        PacketRef::ReadQuadlet { .. } => "read_quadlet",
        PacketRef::ReadBlock { .. } => "read_block",
        PacketRef::ReadQuadletResponse { .. } => "read_quadlet_response",
        PacketRef::ReadBlockResponse { .. } => "read_block_response",
        PacketRef::Lock { .. } => "lock",
        PacketRef::LockResponse { .. } => "lock_response",
    }
}

/// The header of a packet.
fn header<'a>(packet: &'a PacketRef<'_>) -> &'a Header
    ensures { result.now ≡ header_of (view packet.now) }
{
    match packet {
        PacketRef::WriteQuadlet { header, .. }
        | PacketRef::WriteBlock { header, .. }
        | PacketRef::WriteResponse { header, .. }
        | PacketRef::ReadQuadlet { header, .. }
        | PacketRef::ReadBlock { header, .. }
        | PacketRef::ReadQuadletResponse { header, .. }
        | PacketRef::ReadBlockResponse { header, .. }
        | PacketRef::Lock { header, .. }
        | PacketRef::LockResponse { header, .. } => header,
    }
}

/// Adds the fields of a packet behind its header, and the line feed.
fn push_own(out: &mut Bytes, packet: &PacketRef<'_>) -> Result<(), NoMemory>
    ensures { OnOk result (out.new ≡ out.old ++ rest_of_line (own_fields (view packet.now))) }
{
    match packet {
        PacketRef::WriteQuadlet { offset, value, .. } => push_written(out, *offset, *value),
        PacketRef::WriteBlock {
            offset,
            payload,
            ..
        } => push_block_at(out, *offset, payload),
        PacketRef::WriteResponse { rcode, .. } => push_code(out, *rcode),
        PacketRef::ReadQuadlet { offset, .. } => push_place(out, *offset),
        PacketRef::ReadBlock { offset, length, .. } => push_asked(out, *offset, *length),
        PacketRef::ReadQuadletResponse { rcode, value, .. } => push_read(out, *rcode, *value),
        PacketRef::ReadBlockResponse { rcode, payload, .. } => push_block(out, *rcode, payload),
        PacketRef::Lock {
            offset,
            extended,
            payload,
            ..
        } => push_lock(out, *offset, *extended, payload),
        PacketRef::LockResponse {
            rcode,
            extended,
            payload,
            ..
        } => push_locked(out, *rcode, *extended, payload),
    }
}

/// Adds the kind of a packet and the fields of its header.
fn push_head(out: &mut Bytes, kind: &str, header: &Header) -> Result<(), NoMemory>
    ensures { OnOk result (out.new ≡ out.old ++ (kind.now ++ further (header_fields header.now))) }
{
    out.extend_from_slice(kind.as_bytes())?;
    push_node(out, header.destination)?;
    push_node(out, header.source)?;
    push_number(out, u64::from(header.label))?;
    push_number(out, u64::from(header.retry))?;
    push_number(out, u64::from(header.priority))
}

/// Adds a node ID as 4 digits.
fn push_node(out: &mut Bytes, node: NodeId) -> Result<(), NoMemory>
    ensures { OnOk result (out.new ≡ out.old ++ 32 ∷ word (listing.node node)) }
{
    let mut bytes = [0; 2];
    BigEndian::write_u16(&mut bytes, node.raw());
    push_digits(out, &bytes)
}

/// Adds an offset as 12 digits.
fn push_offset(out: &mut Bytes, offset: Offset) -> Result<(), NoMemory>
    ensures { OnOk result (out.new ≡ out.old ++ 32 ∷ word (listing.offset offset)) }
{
    let mut bytes = [0; 6];
    BigEndian::write_u48(&mut bytes, offset.value());
    push_digits(out, &bytes)
}

/// Adds a quadlet as 8 digits.
fn push_quadlet(out: &mut Bytes, value: u32) -> Result<(), NoMemory>
    ensures { OnOk result (out.new ≡ out.old ++ 32 ∷ word (quadlet value)) }
{
    let mut bytes = [0; 4];
    BigEndian::write_u32(&mut bytes, value);
    push_digits(out, &bytes)
}

/// Adds `fault C NAME VALUE`: the number of a fault of bytes, its name and its one field.
fn push_fault(out: &mut Bytes, number: u64, name: &str, value: u64) -> Result<(), NoMemory>
    ensures { OnOk result (out.new ≡ out.old ++ (codes "fault" ++ rest_of_line (Field.number number ∷ Field.name name.now ∷ Field.number value ∷ []))) }
{
    out.extend_from_slice(b"fault")?;
    push_number(out, number)?;
    push_name(out, name)?;
    push_number(out, value)?;
    end_line(out)
}

/// Adds the fields of a write of a quadlet.
fn push_written(out: &mut Bytes, offset: Offset, value: u32) -> Result<(), NoMemory>
    ensures { OnOk result (out.new ≡ out.old ++ rest_of_line (listing.offset offset ∷ quadlet value ∷ start_word offset)) }
{
    push_offset(out, offset)?;
    push_quadlet(out, value)?;
    push_start(out, offset)
}

/// Adds the fields of a write of a block.
fn push_block_at(out: &mut Bytes, offset: Offset, payload: &[u8]) -> Result<(), NoMemory>
    ensures { OnOk result (out.new ≡ out.old ++ rest_of_line (listing.offset offset ∷ block_fields payload.now (start_word offset))) }
{
    push_offset(out, offset)?;
    push_number(out, payload.len() as u64)?;
    push_payload(out, payload)?;
    push_start(out, offset)
}

/// Adds the one field of a write's response.
fn push_code(out: &mut Bytes, rcode: u8) -> Result<(), NoMemory>
    ensures { OnOk result (out.new ≡ out.old ++ rest_of_line (Field.number rcode ∷ [])) }
{
    push_number(out, u64::from(rcode))?;
    end_line(out)
}

/// Adds the one field of a read of a quadlet.
fn push_place(out: &mut Bytes, offset: Offset) -> Result<(), NoMemory>
    ensures { OnOk result (out.new ≡ out.old ++ rest_of_line (listing.offset offset ∷ start_word offset)) }
{
    push_offset(out, offset)?;
    push_start(out, offset)
}

/// Adds the fields of a read of a block.
fn push_asked(out: &mut Bytes, offset: Offset, length: u16) -> Result<(), NoMemory>
    ensures { OnOk result (out.new ≡ out.old ++ rest_of_line (listing.offset offset ∷ Field.number length ∷ start_word offset)) }
{
    push_offset(out, offset)?;
    push_number(out, u64::from(length))?;
    push_start(out, offset)
}

/// Adds the fields of the response to a read of a quadlet.
fn push_read(out: &mut Bytes, rcode: u8, value: u32) -> Result<(), NoMemory>
    ensures { OnOk result (out.new ≡ out.old ++ rest_of_line (Field.number rcode ∷ quadlet value ∷ [])) }
{
    push_number(out, u64::from(rcode))?;
    push_quadlet(out, value)?;
    end_line(out)
}

/// Adds the fields of the response to a read of a block.
fn push_block(out: &mut Bytes, rcode: u8, payload: &[u8]) -> Result<(), NoMemory>
    ensures { OnOk result (out.new ≡ out.old ++ rest_of_line (Field.number rcode ∷ block_fields payload.now [])) }
{
    push_number(out, u64::from(rcode))?;
    push_number(out, payload.len() as u64)?;
    push_payload(out, payload)?;
    end_line(out)
}

/// Adds the fields of a lock.
fn push_lock(out: &mut Bytes, offset: Offset, extended: u8, payload: &[u8]) -> Result<(), NoMemory>
    ensures { OnOk result (out.new ≡ out.old ++ rest_of_line (listing.offset offset ∷ Field.number extended ∷ block_fields payload.now (start_word offset))) }
{
    push_offset(out, offset)?;
    push_number(out, u64::from(extended))?;
    push_number(out, payload.len() as u64)?;
    push_payload(out, payload)?;
    push_start(out, offset)
}

/// Adds the fields of the response to a lock.
fn push_locked(out: &mut Bytes, rcode: u8, extended: u8, payload: &[u8]) -> Result<(), NoMemory>
    ensures { OnOk result (out.new ≡ out.old ++ rest_of_line (Field.number rcode ∷ Field.number extended ∷ block_fields payload.now [])) }
{
    push_number(out, u64::from(rcode))?;
    push_number(out, u64::from(extended))?;
    push_number(out, payload.len() as u64)?;
    push_payload(out, payload)?;
    end_line(out)
}
