ghost use Rattle.std.specs.Prelude.{◌≡◌, ◌≤◌, ◌<◌, ◌^◌, length};
ghost use Rattle.orb_layout.specs.Pointers.{offset_at};
ghost use Rattle.async_packet.specs.Packet.{view};
ghost use Rattle.target_base.specs.Addresses.{IsWithin, accessed, demand_of, is_lock, is_read, is_write, is_start, length_in, managed, offset_in, register_at, register_by, reads_rom, served, writes_rom};

use crate::place::LoginPlace;
use async_packet::PacketRef;
use orb_layout::OrbPointer;
use sbp_base::{Offset, quad_at};

/// Where the configuration ROM begins (IEEE 1212).
const ROM: u64 = 0xffff_f000_0400;

/// MANAGEMENT_AGENT.
const MANAGEMENT: u64 = 0xffff_f001_0000;

/// The registers of the agent of place 0.
const AGENTS: u64 = 0xffff_f004_0000;

/// From the registers of one agent to those of the next.
const AGENT_SIZE: u64 = 0x20;

/// complete (IEEE 1394-1995, response codes).
pub const COMPLETE: u8 = 0;

/// conflict_error.
pub const CONFLICT: u8 = 4;

/// data_error.
pub const DATA: u8 = 5;

/// type_error.
pub const TYPE: u8 = 6;

/// address_error.
pub const ADDRESS: u8 = 7;

/// The registers of a command agent (NCITS 325-1998, command block agent registers).
#[derive(Clone, Copy)]
pub enum Register {
    AgentState,
    AgentReset,
    OrbPointer,
    Doorbell,
    UnsolicitedStatusEnable,
}

/// A register of the agent of a place.
#[derive(Clone, Copy)]
pub struct AgentRegister {
    pub place: LoginPlace,
    pub register: Register,
}

/// What is asked of an agent.
#[derive(Clone, Copy)]
pub enum Access {
    /// A read of its state.
    State,
    Reset,
    /// A write of ORB_POINTER.
    Point(OrbPointer),
    /// A read of ORB_POINTER.
    Pointer,
    Ring,
    Enable,
}

/// What a request that was got asks for.
#[derive(Clone, Copy)]
pub enum Demand {
    /// Nothing that is served: it is answered with this rcode.
    Refused(u8),
    /// `length` bytes of the ROM from byte `at` on.
    Rom { at: usize, length: usize },
    /// The start of an operation on the management ORB at this address.
    Manage(Offset),
    /// Something of the agent of a place.
    Agent(LoginPlace, Access),
}

/// The register that is so far from the base of an agent's registers.
fn register_by(distance: u64) -> Option<Register>
    ensures { result ≡ register_by distance }
{
    match distance {
        0x00 => Some(Register::AgentState),
        0x04 => Some(Register::AgentReset),
        0x08 => Some(Register::OrbPointer),
        0x10 => Some(Register::Doorbell),
        0x14 => Some(Register::UnsolicitedStatusEnable),
        _ => None,
    }
}

/// The agent register that starts at an address.
#[tactic(auto, unfolding(crate::specs::Addresses::register_at))]
pub fn register_at(offset: Offset) -> Option<AgentRegister>
    ensures { result ≡ register_at offset }
{
    let offset = offset.value();
    if offset < AGENTS || offset >= AGENTS + 8 * AGENT_SIZE {
        return None;
    }
    let distance = offset - AGENTS;
    let register = register_by(distance % AGENT_SIZE)?;
    Some(AgentRegister {
        place: LoginPlace::new((distance / AGENT_SIZE) as u8),
        register,
    })
}

/// What a request that is served asks of a register; there is nothing exactly where its kind or its
/// length is another.
fn accessed(register: Register, request: &PacketRef<'_>) -> Option<Access>
    ensures { result ≡ accessed register (view request.now) }
{
    match (register, request) {
        (Register::AgentState, PacketRef::ReadQuadlet { .. }) => Some(Access::State),
        (Register::AgentReset, PacketRef::WriteQuadlet { .. }) => Some(Access::Reset),
        (Register::OrbPointer, PacketRef::WriteBlock { payload, .. }) => {
            if payload.len() != 8 {
                return None;
            }
            Some(Access::Point(OrbPointer::read(payload, 0)))
        }
        (Register::OrbPointer, PacketRef::ReadBlock { length, .. }) => {
            if *length != 8 {
                return None;
            }
            Some(Access::Pointer)
        }
        (Register::Doorbell, PacketRef::WriteQuadlet { .. }) => Some(Access::Ring),
        (Register::UnsolicitedStatusEnable, PacketRef::WriteQuadlet { .. }) => Some(Access::Enable),
        _ => None,
    }
}

/// The 48 bits of an address in two quadlets (NCITS 325-1998, address pointers).
fn address(bytes: &[u8]) -> Offset
    requires { 8 ≤ length bytes.now }
    ensures { result ≡ offset_at bytes.now 0 }
{
    let high = u64::from(quad_at(bytes, 0) & 0xffff);
    match Offset::new((high << 32) + u64::from(quad_at(bytes, 4))) {
        Some(offset) => offset,
        None => unreachable!(),
    }
}

/// The operation that a write of MANAGEMENT_AGENT starts.
fn managed(request: &PacketRef<'_>) -> Option<Demand>
    ensures { result ≡ managed (view request.now) }
{
    match request {
        PacketRef::WriteBlock { payload, .. } => {
            if payload.len() != 8 {
                return None;
            }
            Some(Demand::Manage(address(payload)))
        }
        _ => None,
    }
}

/// What a request is served with at a start other than the ROM's.
fn served(offset: Offset, request: &PacketRef<'_>) -> Option<Demand>
    ensures { result ≡ served offset (view request.now) }
{
    if offset.value() == MANAGEMENT {
        return managed(request);
    }
    let found = register_at(offset)?;
    let access = accessed(found.register, request)?;
    Some(Demand::Agent(found.place, access))
}

/// Whether the ROM, MANAGEMENT_AGENT or an agent register starts at an address.
fn is_start(offset: Offset) -> bool
    ensures { result ≡ is_start offset }
{
    offset.value() == ROM || offset.value() == MANAGEMENT || register_at(offset).is_some()
}

/// The address that a request names; a response names none.
pub fn offset_in(packet: &PacketRef<'_>) -> Offset
    ensures { result ≡ offset_in (view packet.now) }
{
    match packet {
        PacketRef::WriteQuadlet { offset, .. }
        | PacketRef::WriteBlock { offset, .. }
        | PacketRef::ReadQuadlet { offset, .. }
        | PacketRef::ReadBlock { offset, .. }
        | PacketRef::Lock { offset, .. } => *offset,
        _ => Offset::zero(),
    }
}

/// The bytes that a read or a write is of.
fn length_in(packet: &PacketRef<'_>) -> usize
    ensures few { result < 2 ^ 63 }
    ensures length { result ≡ length_in (view packet.now) }
{
    match packet {
        PacketRef::WriteBlock { payload, .. } => payload.len(),
        PacketRef::ReadBlock { length, .. } => usize::from(*length),
        _ => 4,
    }
}

fn is_write(packet: &PacketRef<'_>) -> bool
    ensures { result ≡ is_write (view packet.now) }
{
    matches!(
        packet,
        PacketRef::WriteQuadlet { .. } | PacketRef::WriteBlock { .. }
    )
}

fn is_read(packet: &PacketRef<'_>) -> bool
    ensures { result ≡ is_read (view packet.now) }
{
    matches!(
        packet,
        PacketRef::ReadQuadlet { .. } | PacketRef::ReadBlock { .. }
    )
}

/// A lock request neither reads nor writes.
pub fn is_lock(packet: &PacketRef<'_>) -> bool
    ensures { result ≡ is_lock (view packet.now) }
{
    matches!(packet, PacketRef::Lock { .. })
}

/// Whether it is a write that starts inside the ROM of this size.
fn writes_rom(size: usize, packet: &PacketRef<'_>) -> bool
    requires { size ≤ 1024 }
    ensures { result ≡ writes_rom size (view packet.now) }
{
    let offset = offset_in(packet).value();
    is_write(packet) && (offset >= ROM && offset < ROM + size as u64)
}

/// Whether it is a read inside the ROM.
fn reads_rom(size: usize, packet: &PacketRef<'_>) -> bool
    requires { size ≤ 1024 }
    ensures { result ≡ reads_rom size (view packet.now) }
{
    let offset = offset_in(packet).value();
    let end = offset + length_in(packet) as u64;
    is_read(packet) && (offset >= ROM && end <= ROM + size as u64)
}

/// What a request that was got asks for, with a ROM of `size` bytes, 1,024 at most: the first row of
/// the table of addresses that holds.
#[tactic(auto, unfolding(crate::specs::Addresses::demand_of))]
pub fn demand_of(size: usize, request: &PacketRef<'_>) -> Demand
    requires { size ≤ 1024 }
    ensures demand { result ≡ demand_of size (view request.now) }
    ensures within { IsWithin size result }
{
    if is_lock(request) {
        return Demand::Refused(TYPE);
    }
    if length_in(request) == 0 {
        return Demand::Refused(TYPE);
    }
    if writes_rom(size, request) {
        return Demand::Refused(TYPE);
    }
    let offset = offset_in(request);
    if reads_rom(size, request) {
        return Demand::Rom {
            at: (offset.value() - ROM) as usize,
            length: length_in(request),
        };
    }
    if let Some(demand) = served(offset, request) {
        return demand;
    }
    if is_start(offset) {
        return Demand::Refused(TYPE);
    }
    Demand::Refused(ADDRESS)
}
