ghost use Rattle.std.specs.Prelude.{◌≡◌, ◌+◌, ◌*◌, ◌≤◌, ◌<◌, ◌/◌, ◌%◌, ◌^◌, ◌++◌, length, drop};
ghost use Rattle.orb_layout.specs.Pointers.{bit, flag, quad_bytes};

use sbp_base::put_quad;

/// Writes quadlets, one behind the other, over the first bytes. The other bytes stay.
pub(crate) fn put_quads(out: &mut [u8], quads: &[u32])
    requires { 4 * length quads.now ≤ length out.old }
    ensures { out.new ≡ quad_bytes quads.now ++ drop (4 * length quads.now) out.old }
{
    if let [first, rest @ ..] = quads {
        put_quad(out, 0, *first);
        put_quads(&mut out[4..], rest);
    }
}

/// A bit of a quadlet as a word: true where it is 1.
pub(crate) fn is_set(quad: u32, place: u32) -> bool
    requires { place < 32 }
    ensures { result ≡ flag quad place }
{
    (quad >> place) & 1 == 1
}

/// A word as a bit.
pub(crate) fn bit_of(word: bool) -> u32
    ensures value { result ≡ bit word }
    ensures small { result ≤ 1 }
{
    if word { 1 } else { 0 }
}

/// A number of 16 bits as the low half of a quadlet.
pub(crate) fn half(number: u16) -> u32
    ensures value { result ≡ number }
    ensures small { result < 2 ^ 16 }
{
    u32::from(number)
}

/// A number of 8 bits as the low byte of a quadlet.
pub(crate) fn byte(number: u8) -> u32
    ensures value { result ≡ number }
    ensures small { result < 2 ^ 8 }
{
    u32::from(number)
}

/// The high half of a number of 64 bits.
pub(crate) fn high_quad(number: u64) -> u32
    ensures { result ≡ number / 2 ^ 32 }
{
    (number >> 32) as u32
}

/// The low half of a number of 64 bits.
pub(crate) fn low_quad(number: u64) -> u32
    ensures { result ≡ number % 2 ^ 32 }
{
    (number & 0xffff_ffff) as u32
}
