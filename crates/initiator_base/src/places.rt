//! Where the things of an initiator stand: its FIFOs, its ROM and the places of its management ORBs; and
//! what it reads and writes at the target.
ghost use Rattle.std.specs.Prelude.{◌≡◌, ◌+◌, ◌*◌, ◌%◌, ◌^◌, ◌<◌, ◌≤◌, length};
ghost use Rattle.sbp_base.specs.Quadlets.{quad};
ghost use Rattle.async_packet.specs.Packet.{view};
ghost use Rattle.orb_layout.specs.LoginResponses.{login_response};
ghost use Rattle.initiator_base.specs.Places.{behind_by, is_in_rom, login_fifo, management_at, names_place, place_fifo, reads_rom};

use async_packet::PacketRef;
use orb_layout::LoginResponse;
use sbp_base::{Offset, quad_at};

/// The address so many bytes behind another, of 48 bits.
pub fn behind_by(base: Offset, distance: u32) -> Offset
    ensures { result ≡ behind_by base distance }
{
    let value = (base.value() + u64::from(distance)) & 0xffff_ffff_ffff;
    let Some(offset) = Offset::new(value) else {
        unreachable!()
    };
    offset
}

/// The FIFO of a login number.
pub fn login_fifo(number: u32) -> Offset
    ensures { result ≡ login_fifo number }
{
    let Some(offset) = Offset::new(0x1300_0000 + 0x20 * u64::from(number)) else {
        unreachable!()
    };
    offset
}

/// The FIFO of a place of management, 0 or 1.
pub fn place_fifo(place: u8) -> Offset
    requires { place < 2 }
    ensures { result ≡ place_fifo place }
{
    let Some(offset) = Offset::new(0x1200_2000 + 0x20 * u64::from(place)) else {
        unreachable!()
    };
    offset
}

/// Whether so many bytes from an offset on lie inside the ROM of an initiator, which has 32.
fn is_in_rom(offset: Offset, count: u16) -> bool
    ensures { result ≡ is_in_rom offset count }
{
    let value = offset.value();
    0xffff_f000_0400 <= value && value + u64::from(count) <= 0xffff_f000_0420
}

/// Whether a packet is a read inside the ROM.
pub fn reads_rom(packet: &PacketRef<'_>) -> bool
    ensures { result ≡ reads_rom (view packet.now) }
{
    match packet {
        PacketRef::ReadQuadlet { offset, .. } => is_in_rom(*offset, 4),
        PacketRef::ReadBlock { offset, length, .. } => is_in_rom(*offset, *length),
        _ => false,
    }
}

/// Whether a status block names an ORB in a place of management.
pub fn names_place(payload: &[u8]) -> bool
    ensures { result ≡ names_place payload.now }
{
    if payload.len() < 8 {
        return false;
    }
    let high = u64::from(quad_at(payload, 0) & 0xffff);
    let orb = (high << 32) + u64::from(quad_at(payload, 4));
    orb == 0x1200_0000 || orb == 0x1200_0020
}

/// Where MANAGEMENT_AGENT stands, so many quadlets from the base of the registers on.
pub fn management_at(distance: u32) -> Offset
    ensures { result ≡ management_at distance }
{
    let value = (0xffff_f000_0000 + 4 * u64::from(distance)) & 0xffff_ffff_ffff;
    let Some(offset) = Offset::new(value) else {
        unreachable!()
    };
    offset
}

/// The login response in a response buffer.
pub fn login_response(bytes: &[u8]) -> LoginResponse
    requires { length bytes.now ≡ 256 }
    ensures { result ≡ login_response bytes.now }
{
    let Ok(response) = LoginResponse::read(bytes) else {
        unreachable!()
    };
    response
}

/// The address of a quadlet of the target's ROM.
pub fn quad_place(number: u32) -> Offset
    requires { number ≤ 256 }
    ensures { result ≡ behind_by 0xffff_f000_0400 (4 * number) }
{
    let Some(start) = Offset::new(0xffff_f000_0400) else {
        unreachable!()
    };
    behind_by(start, 4 * number)
}

/// Where the target's ROM begins.
pub fn rom_start() -> Offset
    ensures { result ≡ 0xffff_f000_0400 }
{
    let Some(offset) = Offset::new(0xffff_f000_0400) else {
        unreachable!()
    };
    offset
}

/// The 8 bytes of a password as one number.
pub fn password_of(password: &[u8]) -> u64
    requires { length password.now ≡ 8 }
    ensures { result ≡ quad password.now 0 * 2 ^ 32 + quad password.now 4 }
{
    (u64::from(quad_at(password, 0)) << 32) + u64::from(quad_at(password, 4))
}
