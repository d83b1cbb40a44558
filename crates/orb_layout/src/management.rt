ghost use Rattle.std.specs.Prelude.{◌≡◌, ◌≤◌, ◌++◌, length, drop};
ghost use Rattle.orb_layout.specs.ManagementOrbs.{ManagementFits, read_management, management_bytes, management_orb, management_options};

use crate::fault::OrbFault;
use crate::fields::{bit_of, half, high_quad, is_set, low_quad, put_quads};
use crate::pointer::{high_half, low_half, offset};
use sbp_base::{Offset, quad_at};

/// A request for a management operation, 32 bytes (NCITS 325-1998, management ORB).
#[derive(Clone, Copy, Debug, PartialEq, Eq)]
pub struct ManagementOrb {
    /// Quadlets 0 and 1: the password of a login, or an ORB pointer.
    pub first: u64,
    /// Where the response goes (login, query).
    pub second: Offset,
    pub notify: bool,
    /// Request format, 2 bits.
    pub format: u8,
    /// Of a login.
    pub exclusive: bool,
    /// Of a login, 4 bits.
    pub reconnect: u8,
    /// Which operation, 4 bits.
    pub function: u8,
    /// The unit number (login, query) or the login ID.
    pub subject: u16,
    pub password_length: u16,
    pub response_length: u16,
    /// Where the status goes.
    pub fifo: Offset,
}

impl ManagementOrb {
    /// Reads a management ORB. The error is `Length`, exactly where there are fewer than 32 bytes;
    /// bytes behind it are not looked at.
    pub fn read(bytes: &[u8]) -> Result<ManagementOrb, OrbFault>
        ensures { result ≡ read_management bytes.now }
    {
        if bytes.len() < 32 {
            return Err(OrbFault::Length { need: 32 });
        }
        Ok(management_at(bytes))
    }

    /// Writes the ORB over the first 32 bytes, whose number it answers, with zero node IDs. The
    /// other bytes stay.
    pub fn write(&self, out: &mut [u8]) -> usize
        requires room { 32 ≤ length out.old }
        requires fits { ManagementFits self.now }
        ensures written { out.new ≡ management_bytes self.now ++ drop 32 out.old }
        ensures count { result ≡ 32 }
    {
        let quads = [
            high_quad(self.first),
            low_quad(self.first),
            high_half(self.second),
            low_half(self.second),
            self.options(),
            (half(self.password_length) << 16) + half(self.response_length),
            high_half(self.fifo),
            low_half(self.fifo),
        ];
        put_quads(out, &quads);
        32
    }

    /// Quadlet 4: the bits and numbers of the request.
    fn options(&self) -> u32
        requires { ManagementFits self.now }
        ensures { result ≡ management_options self.now }
    {
        (bit_of(self.notify) << 31)
            + (u32::from(self.format) << 29)
            + (bit_of(self.exclusive) << 28)
            + (u32::from(self.reconnect) << 20)
            + (u32::from(self.function) << 16)
            + half(self.subject)
    }
}

/// The management ORB in the first 32 bytes, each field by its place.
fn management_at(bytes: &[u8]) -> ManagementOrb
    requires { 32 ≤ length bytes.now }
    ensures { result ≡ management_orb bytes.now }
{
    let options = quad_at(bytes, 16);
    let lengths = quad_at(bytes, 20);
    ManagementOrb {
        first: (u64::from(quad_at(bytes, 0)) << 32) + u64::from(quad_at(bytes, 4)),
        second: offset(bytes, 8),
        notify: is_set(options, 31),
        format: (options >> 29 & 0x3) as u8,
        exclusive: is_set(options, 28),
        reconnect: (options >> 20 & 0xf) as u8,
        function: (options >> 16 & 0xf) as u8,
        subject: (options & 0xffff) as u16,
        password_length: (lengths >> 16) as u16,
        response_length: (lengths & 0xffff) as u16,
        fifo: offset(bytes, 24),
    }
}
