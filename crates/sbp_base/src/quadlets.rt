ghost use Rattle.std.specs.Prelude.{◌≡◌, ◌+◌, ◌≤◌, length};
ghost use Rattle.byteorder.specs.Endian.{big_bytes};
ghost use Rattle.sbp_base.specs.Quadlets.{quad, with_quad, ReadsBackQuadlets};

use byteorder::{BigEndian, ByteOrder};

/// The quadlet in the 4 bytes from place `at` on, the most significant byte first.
pub fn quad_at(bytes: &[u8], at: usize) -> u32
    requires { at + 4 ≤ length bytes.now }
    ensures { result ≡ quad bytes.now at }
{
    BigEndian::read_u32(&bytes[at..])
}

/// Writes a quadlet over the 4 bytes from place `at` on, the most significant byte first. The other
/// bytes stay.
pub fn put_quad(out: &mut [u8], at: usize, value: u32)
    requires { at + 4 ≤ length out.old }
    ensures { out.new ≡ with_quad out.old at value }
{
    BigEndian::write_u32(&mut out[at..], value);
}

/// The 4 bytes of a quadlet, the most significant byte first.
pub fn bytes_of_quad(value: u32) -> [u8; 4]
    ensures { result ≡ big_bytes 4 value }
{
    let mut bytes = [0; 4];
    BigEndian::write_u32(&mut bytes, value);
    bytes
}

/// The law that ties the two calls: what was written at a place is read there.
pub fn quadlets_read_back()
    ensures { ReadsBackQuadlets }
{}
