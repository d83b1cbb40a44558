ghost use Rattle.std.specs.Prelude.{◌≡◌, ◌≤◌, ◌++◌, length, drop};
ghost use Rattle.orb_layout.specs.CommandOrbs.{CommandFits, read_command, command_bytes, command_orb, command_options, command_quads};
ghost use Rattle.orb_layout.specs.Pointers.{quad_bytes};

use crate::fault::OrbFault;
use crate::fields::{bit_of, half, is_set, put_quads};
use crate::pointer::{OrbPointer, high_half, low_half, offset};
use sbp_base::{NodeId, Offset, quad_at};

/// A request for a command, 32 bytes (NCITS 325-1998, command block ORB).
#[derive(Clone, Copy, Debug, PartialEq, Eq)]
pub struct CommandOrb {
    pub next: OrbPointer,
    /// Where the buffer or its page table begins.
    pub descriptor: Offset,
    pub descriptor_node: NodeId,
    /// Request format, 2 bits: 0 standard, 2 vendor, 3 dummy.
    pub format: u8,
    pub notify: bool,
    /// The direction: true where the target writes the buffer.
    pub to_initiator: bool,
    /// 3 bits.
    pub speed: u8,
    /// 4 bits.
    pub max_payload: u8,
    pub has_table: bool,
    /// 3 bits.
    pub page_size: u8,
    /// The bytes of the buffer, or with a page table its elements.
    pub data_size: u16,
    /// The command block.
    pub cdb: [u8; 12],
}

impl CommandOrb {
    /// Reads a command ORB. The error is `Length`, exactly where there are fewer than 32 bytes;
    /// bytes behind it are not looked at.
    pub fn read(bytes: &[u8]) -> Result<CommandOrb, OrbFault>
        ensures { result ≡ read_command bytes.now }
    {
        if bytes.len() < 32 {
            return Err(OrbFault::Length { need: 32 });
        }
        Ok(command_at(bytes))
    }

    /// Writes the ORB over the first 32 bytes, whose number it answers. The other bytes stay.
    pub fn write(&self, out: &mut [u8]) -> usize
        requires room { 32 ≤ length out.old }
        requires fits { CommandFits self.now }
        ensures written { out.new ≡ command_bytes self.now ++ drop 32 out.old }
        ensures count { result ≡ 32 }
    {
        self.put_quadlets(out);
        out[20..32].copy_from_slice(&self.cdb);
        32
    }

    /// Writes the five quadlets before the command block.
    fn put_quadlets(&self, out: &mut [u8])
        requires room { 20 ≤ length out.old }
        requires fits { CommandFits self.now }
        ensures { out.new ≡ quad_bytes (command_quads self.now) ++ drop 20 out.old }
    {
        let node = half(self.descriptor_node.raw());
        let quads = [
            self.next.high(),
            self.next.low(),
            (node << 16) + high_half(self.descriptor),
            low_half(self.descriptor),
            self.options(),
        ];
        put_quads(out, &quads);
    }

    /// Quadlet 4: the bits and numbers of the request.
    fn options(&self) -> u32
        requires { CommandFits self.now }
        ensures { result ≡ command_options self.now }
    {
        let flags = (bit_of(self.notify) << 31)
            + (bit_of(self.to_initiator) << 27)
            + (bit_of(self.has_table) << 19);
        flags
            + (u32::from(self.format) << 29)
            + (u32::from(self.speed) << 24)
            + (u32::from(self.max_payload) << 20)
            + (u32::from(self.page_size) << 16)
            + half(self.data_size)
    }
}

/// The command ORB in the first 32 bytes, each field by its place.
fn command_at(bytes: &[u8]) -> CommandOrb
    requires { 32 ≤ length bytes.now }
    ensures { result ≡ command_orb bytes.now }
{
    let options = quad_at(bytes, 16);
    let mut cdb = [0u8; 12];
    cdb.copy_from_slice(&bytes[20..32]);
    CommandOrb {
        next: OrbPointer::read(bytes, 0),
        descriptor: offset(bytes, 8),
        descriptor_node: NodeId::from_raw((quad_at(bytes, 8) >> 16) as u16),
        format: (options >> 29 & 0x3) as u8,
        notify: is_set(options, 31),
        to_initiator: is_set(options, 27),
        speed: (options >> 24 & 0x7) as u8,
        max_payload: (options >> 20 & 0xf) as u8,
        has_table: is_set(options, 19),
        page_size: (options >> 16 & 0x7) as u8,
        data_size: (options & 0xffff) as u16,
        cdb,
    }
}
