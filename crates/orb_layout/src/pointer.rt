ghost use Rattle.std.specs.Prelude.{◌≡◌, ◌+◌, ◌/◌, ◌%◌, ◌≤◌, ◌<◌, ◌^◌, length};
ghost use Rattle.orb_layout.specs.Pointers.{offset_at, pointer_at, pointer_high, pointer_low};

use sbp_base::{Offset, quad_at};

/// Where the next ORB of a list stands (NCITS 325-1998, ORB pointers).
#[derive(Clone, Copy, Debug, PartialEq, Eq)]
pub enum OrbPointer {
    /// There is no next ORB.
    Null,
    At(Offset),
}

/// The 48 bits of an address in two quadlets: bits 47 to 32 are the low half of the first, and the
/// second is bits 31 to 0. The other half of the first quadlet is not looked at.
pub(crate) fn offset(bytes: &[u8], at: usize) -> Offset
    requires { at + 8 ≤ length bytes.now }
    ensures { result ≡ offset_at bytes.now at }
{
    let high = quad_at(bytes, at) & 0xffff;
    let low = quad_at(bytes, at + 4);
    let value = (u64::from(high) << 32) + u64::from(low);
    let Some(offset) = Offset::new(value) else {
        unreachable!()
    };
    offset
}

/// Bits 47 to 32 of an address.
pub(crate) fn high_half(offset: Offset) -> u32
    ensures half { result ≡ offset / 2 ^ 32 }
    ensures small { result < 2 ^ 16 }
{
    (offset.value() >> 32) as u32
}

/// Bits 31 to 0 of an address.
pub(crate) fn low_half(offset: Offset) -> u32
    ensures half { result ≡ offset % 2 ^ 32 }
{
    (offset.value() & 0xffff_ffff) as u32
}

impl OrbPointer {
    /// The pointer in two quadlets. Bit 31 of the first says that there is none; the other bits are
    /// then not looked at.
    pub fn read(bytes: &[u8], at: usize) -> OrbPointer
        requires { at + 8 ≤ length bytes.now }
        ensures { result ≡ pointer_at bytes.now at }
    {
        if quad_at(bytes, at) >> 31 == 1 {
            OrbPointer::Null
        } else {
            OrbPointer::At(offset(bytes, at))
        }
    }

    /// The first quadlet of the pointer.
    pub fn high(self) -> u32
        ensures { result ≡ pointer_high self }
    {
        match self {
            OrbPointer::Null => 0x8000_0000,
            OrbPointer::At(offset) => high_half(offset),
        }
    }

    /// The second quadlet of the pointer.
    pub fn low(self) -> u32
        ensures { result ≡ pointer_low self }
    {
        match self {
            OrbPointer::Null => 0,
            OrbPointer::At(offset) => low_half(offset),
        }
    }
}
