ghost use Rattle.std.specs.Prelude.{◌≡◌, ◌+◌, ◌≤◌, length};
ghost use Rattle.bus_memory.specs.Memory.{empty_place, empty_slot, is_written, patch};

use sbp_base::quad_at;

/// The memory of a command slot.
#[derive(Drop)]
pub struct SlotMemory {
    /// Whether the slot is in use or rests; only then its memory is served.
    pub is_armed: bool,
    pub orb: [u8; 32],
    pub table: [u8; 512],
    pub buffer: [u8; 32768],
}

/// The memory of a place for management operations.
#[derive(Drop)]
pub struct PlaceMemory {
    pub orb: [u8; 32],
    pub response: [u8; 256],
}

impl SlotMemory {
    /// A slot that is not armed, of zeros.
    #[tactic(auto, unfolding(crate::specs::Memory::empty_slot))]
    pub(crate) fn new() -> SlotMemory
        ensures { result ≡ empty_slot }
    {
        SlotMemory {
            is_armed: false,
            orb: [0; 32],
            table: [0; 512],
            buffer: [0; 32768],
        }
    }

    /// Whether the direction of the ORB is 1: the target writes the buffer.
    pub(crate) fn is_written(&self) -> bool
        ensures { result ≡ is_written self.now }
    {
        quad_at(&self.orb, 16) >> 27 & 1 == 1
    }
}

impl PlaceMemory {
    /// A place of zeros.
    #[tactic(auto, unfolding(crate::specs::Memory::empty_place))]
    pub(crate) fn new() -> PlaceMemory
        ensures { result ≡ empty_place }
    {
        PlaceMemory {
            orb: [0; 32],
            response: [0; 256],
        }
    }
}

/// Writes bytes over those from place `at` on. The other bytes stay.
pub(crate) fn put_bytes(out: &mut [u8], at: usize, bytes: &[u8])
    requires { at + length bytes.now ≤ length out.old }
    ensures { out.new ≡ patch out.old at bytes.now }
{
    out[at..at + bytes.len()].copy_from_slice(bytes);
}
