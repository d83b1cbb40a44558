ghost use Rattle.std.specs.Prelude.{◌≡◌};
ghost use Rattle.async_packet.specs.Packet.{view, header_in};

use sbp_base::{NodeId, Offset};

/// What each packet begins with (IEEE 1394-1995, asynchronous packets).
#[derive(Clone, Copy, Debug, PartialEq, Eq)]
pub struct Header {
    /// The node that the packet goes to.
    pub destination: NodeId,
    /// The transaction label, 6 bits.
    pub label: u8,
    /// The retry code, 2 bits.
    pub retry: u8,
    /// The priority, 4 bits.
    pub priority: u8,
    /// The node that the packet comes from.
    pub source: NodeId,
}

/// An asynchronous packet, whose payload is lent from the bytes that it was read from (IEEE
/// 1394-1995, asynchronous packets). An rcode has 4 bits, and lengths are in bytes.
#[derive(Clone, Copy, Debug, PartialEq, Eq)]
pub enum PacketRef<'a> {
    /// tcode 0.
    WriteQuadlet {
        header: Header,
        offset: Offset,
        value: u32,
    },
    /// tcode 1; at most 2,048 bytes.
    WriteBlock {
        header: Header,
        offset: Offset,
        payload: &'a [u8],
    },
    /// tcode 2.
    WriteResponse {
        header: Header,
        rcode: u8,
    },
    /// tcode 4.
    ReadQuadlet {
        header: Header,
        offset: Offset,
    },
    /// tcode 5; asks for at most 2,048 bytes.
    ReadBlock {
        header: Header,
        offset: Offset,
        length: u16,
    },
    /// tcode 6.
    ReadQuadletResponse {
        header: Header,
        rcode: u8,
        value: u32,
    },
    /// tcode 7; at most 2,048 bytes.
    ReadBlockResponse {
        header: Header,
        rcode: u8,
        payload: &'a [u8],
    },
    /// tcode 9; 4 or 8 bytes for the extended_tcodes 3 and 4, 8 or 16 for 1, 2, 5 and 6.
    Lock {
        header: Header,
        offset: Offset,
        extended: u8,
        payload: &'a [u8],
    },
    /// tcode B; 0, 4 or 8 bytes.
    LockResponse {
        header: Header,
        rcode: u8,
        extended: u8,
        payload: &'a [u8],
    },
}

impl PacketRef<'_> {
    /// What the packet begins with.
    pub fn header(&self) -> Header
        ensures { result ≡ header_in (view self.now) }
    {
        match self {
            PacketRef::WriteQuadlet { header, .. }
            | PacketRef::WriteBlock { header, .. }
            | PacketRef::WriteResponse { header, .. }
            | PacketRef::ReadQuadlet { header, .. }
            | PacketRef::ReadBlock { header, .. }
            | PacketRef::ReadQuadletResponse { header, .. }
            | PacketRef::ReadBlockResponse { header, .. }
            | PacketRef::Lock { header, .. }
            | PacketRef::LockResponse { header, .. } => *header,
        }
    }
}
