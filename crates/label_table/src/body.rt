ghost use Rattle.std.specs.Prelude.{◌≡◌};
ghost use Rattle.async_packet.specs.Packet.{view, write_quadlet};
ghost use Rattle.async_packet.specs.Canon.{FitsHeader, IsValid};
ghost use Rattle.label_table.specs.Bodies.{FitsBody, body_of, request_with};

use async_packet::{Header, PacketRef};
use sbp_base::Offset;

/// What a node asks of a peer (IEEE 1394-1995, transaction layer). Lengths are in bytes, and at most
/// 2,048.
#[derive(Clone, Copy, Debug)]
pub enum RequestBody<'a> {
    /// That it writes a quadlet.
    WriteQuadlet { offset: Offset, value: u32 },
    /// That it writes a block.
    WriteBlock { offset: Offset, payload: &'a [u8] },
    /// A quadlet.
    ReadQuadlet { offset: Offset },
    /// A block of this length.
    ReadBlock { offset: Offset, length: u16 },
}

impl<'a> RequestBody<'a> {
    /// The request with this header. Reading an offset shows the prover that it has 48 bits.
    pub(crate) fn packet(&self, header: Header) -> PacketRef<'a>
        requires header { FitsHeader header }
        requires body { FitsBody (body_of self.now) }
        ensures packet { view result ≡ request_with header (body_of self.now) }
        ensures valid { IsValid (view result) }
    {
        match self {
            RequestBody::WriteQuadlet { offset, value } => write_quadlet(header, *offset, *value),
            RequestBody::WriteBlock { offset, payload } => {
                let _below = offset.value();
                PacketRef::WriteBlock {
                    header,
                    offset: *offset,
                    payload,
                }
            }
            RequestBody::ReadQuadlet { offset } => {
                let _below = offset.value();
                PacketRef::ReadQuadlet {
                    header,
                    offset: *offset,
                }
            }
            RequestBody::ReadBlock { offset, length } => {
                let _below = offset.value();
                PacketRef::ReadBlock {
                    header,
                    offset: *offset,
                    length: *length,
                }
            }
        }
    }
}

/// The write of a quadlet.
fn write_quadlet<'a>(header: Header, offset: Offset, value: u32) -> PacketRef<'a>
    requires { FitsHeader header }
    ensures packet { view result ≡ write_quadlet header offset value }
    ensures valid { IsValid (view result) }
{
    let _below = offset.value();
    PacketRef::WriteQuadlet {
        header,
        offset,
        value,
    }
}
