ghost use Rattle.std.specs.Prelude.{◌≡◌, ◌+◌, ◌≤◌, ◌<◌, true, false, length, replicate, IfOk};
ghost use Rattle.bus_memory.specs.Memory.{bytes_in, empty_slot, new_memory, place_at, rom_bytes, slot_at, with_armed, with_bytes};
ghost use Rattle.bus_memory.specs.Windows.{IsWindow};
ghost use Rattle.bus_memory.specs.Access.{IfServed, IfSpot, IsQuadlet, is_open, judged, read_step, serves, set_step, spot_of, takes_writes, write_step};

use crate::access::{Access, Rcode, Spot};
use crate::slot::{PlaceMemory, SlotMemory, put_bytes};
use crate::window::{Window, is_fifo};
use sbp_base::{NoMemory, Offset, bytes_of_quad};
use std::alloc::Global;
use std::marker::Model;

/// The command slots of an initiator.
const SLOTS: usize = 32;

/// An initiator's memory: its ROM, 32 command slots and two places of management.
#[derive(Drop)]
pub struct Image {
    rom: Vec<u8>,
    slots: Vec<SlotMemory>,
    places: [PlaceMemory; 2],
}

impl Model for Image {
    ghost use Rattle.std.specs.Prelude.{◌≡◌, length};
    ghost use Rattle.bus_memory.specs.Memory.{Memory};

    ghost Value = { Memory };

    ghost view = { λ a. record { rom = a.rom.items; slots = a.slots.items; places = a.places } };

    ghost invariant = { λ a. length a.slots.items ≡ 32 };
}

impl Image {
    /// The memory with the given quadlets as its ROM, in which no slot is armed and every other
    /// window holds zeros.
    #[tactic(auto, unfolding(crate::specs::Memory::new_memory))]
    pub fn new(alloc: Global, rom: &[u32]) -> Result<Image, NoMemory>
        ensures { IfOk result (λ image. image ≡ new_memory rom.now) }
    {
        Ok(Image {
            rom: rom_bytes(alloc, rom)?,
            slots: new_slots(alloc)?,
            places: [PlaceMemory::new(), PlaceMemory::new()],
        })
    }

    /// Serves a read of the bytes from an offset on, or answers the rcode of why not; then `out` stays.
    pub fn serve_read(&self, offset: Offset, out: &mut [u8]) -> u8
        ensures { (result, out.new) ≡ read_step self.now offset out.old }
    {
        match self.judge(Access::Read, offset, out.len()) {
            Ok(Spot { window, at }) => {
                out.copy_from_slice(&self.window(window)[at..at + out.len()]);
                0
            }
            Err(rcode) => rcode as u8,
        }
    }

    /// Serves a write over the bytes from an offset on, or answers the rcode of why not; then the
    /// memory stays.
    pub fn serve_write(&mut self, offset: Offset, bytes: &[u8]) -> u8
        ensures { (result, self.new) ≡ write_step self.old offset bytes.now }
    {
        match self.judge(Access::Write, offset, bytes.len()) {
            Ok(Spot { window, at }) => {
                self.put(window, at, bytes);
                0
            }
            Err(rcode) => rcode as u8,
        }
    }

    /// Arms a slot below 32, whose memory is served from now on.
    pub fn arm(&mut self, slot: u8)
        requires { slot < 32 }
        ensures { self.new ≡ with_armed self.old slot true }
    {
        self.slots[usize::from(slot)].is_armed = true;
    }

    /// Frees a slot below 32, whose memory is served no more.
    pub fn free(&mut self, slot: u8)
        requires { slot < 32 }
        ensures { self.new ≡ with_armed self.old slot false }
    {
        self.slots[usize::from(slot)].is_armed = false;
    }

    /// Sets a quadlet of an armed slot or of a place of management.
    pub fn set_quad(&mut self, offset: Offset, value: u32)
        requires { IsQuadlet self.old offset }
        ensures { self.new ≡ set_step self.old offset value }
    {
        let Some(Spot { window, at }) = self.spot(offset, 4) else {
            unreachable!()
        };
        self.put(window, at, &bytes_of_quad(value));
    }

    /// Sets bytes of a slot's buffer, from place `at` in it on.
    pub fn fill(&mut self, slot: u8, at: u16, bytes: &[u8])
        requires slot { slot < 32 }
        requires inside { at + length bytes.now ≤ 32768 }
        ensures { self.new ≡ with_bytes self.old (Window.Buffer slot) at bytes.now }
    {
        put_bytes(
            &mut self.slots[usize::from(slot)].buffer,
            usize::from(at),
            bytes,
        );
    }

    /// The buffer of a slot below 32, 32,768 bytes.
    pub fn buffer(&self, slot: u8) -> &[u8]
        requires { slot < 32 }
        ensures bytes { result.now ≡ (slot_at self.now slot).buffer }
        ensures size { length result.now ≡ 32768 }
    {
        &self.slots[usize::from(slot)].buffer
    }

    /// The response buffer of a place of management, 0 or 1, 256 bytes.
    pub fn response(&self, place: u8) -> &[u8]
        requires { place < 2 }
        ensures bytes { result.now ≡ (place_at self.now place).response }
        ensures size { length result.now ≡ 256 }
    {
        &self.places[usize::from(place)].response
    }

    /// Where a request for so many bytes is served, or why not: the first row of the table that holds.
    #[tactic(auto, unfolding(crate::specs::Access::judged))]
    fn judge(&self, access: Access, offset: Offset, count: usize) -> Result<Spot, Rcode>
        ensures judged { result ≡ judged self.now access offset count }
        ensures within { IfServed self.now count result }
    {
        if count == 0 || is_fifo(offset) {
            return Err(Rcode::TypeError);
        }
        let Some(spot) = self.spot(offset, count) else {
            return Err(Rcode::AddressError);
        };
        if !self.serves(access, spot.window) {
            return Err(Rcode::TypeError);
        }
        Ok(spot)
    }

    /// The place of a range of addresses in a window that is open and that it does not leave.
    #[tactic(auto, unfolding(crate::specs::Access::spot_of))]
    pub fn spot(&self, offset: Offset, count: usize) -> Option<Spot>
        ensures spot { result ≡ spot_of self.now offset count }
        ensures within { IfSpot self.now count result }
    {
        let window = Window::at(offset)?;
        let at = (offset.value() - window.start().value()) as usize;
        let size = self.window(window).len();
        if !self.is_open(window) || at > size || size - at < count {
            return None;
        }
        Some(Spot { window, at })
    }

    /// Whether a window is one of an armed slot or of none.
    fn is_open(&self, window: Window) -> bool
        requires { IsWindow window }
        ensures { result ≡ is_open self.now window }
    {
        match window {
            Window::Orb(slot) | Window::Table(slot) | Window::Buffer(slot) => {
                self.slots[usize::from(slot)].is_armed
            }
            Window::Rom | Window::Management(_) | Window::Response(_) => true,
        }
    }

    /// Whether a window is served in this direction.
    fn serves(&self, access: Access, window: Window) -> bool
        requires { IsWindow window }
        ensures { result ≡ serves self.now access window }
    {
        match access {
            Access::Read => !self.takes_writes(window),
            Access::Write => self.takes_writes(window),
        }
    }

    /// Whether the target writes a window; each other it reads.
    fn takes_writes(&self, window: Window) -> bool
        requires { IsWindow window }
        ensures { result ≡ takes_writes self.now window }
    {
        match window {
            Window::Buffer(slot) => self.slots[usize::from(slot)].is_written(),
            Window::Response(_) => true,
            Window::Rom | Window::Orb(_) | Window::Table(_) | Window::Management(_) => false,
        }
    }

    /// The bytes of a window.
    fn window(&self, window: Window) -> &[u8]
        requires { IsWindow window }
        ensures { result.now ≡ bytes_in self.now window }
    {
        match window {
            Window::Rom => &self.rom,
            Window::Orb(slot) => &self.slots[usize::from(slot)].orb,
            Window::Table(slot) => &self.slots[usize::from(slot)].table,
            Window::Buffer(slot) => &self.slots[usize::from(slot)].buffer,
            Window::Management(place) => &self.places[usize::from(place)].orb,
            Window::Response(place) => &self.places[usize::from(place)].response,
        }
    }

    /// Writes bytes into a window, from place `at` in it on, whether its slot is armed or not.
    pub fn put(&mut self, window: Window, at: usize, bytes: &[u8])
        requires exists { IsWindow window }
        requires inside { at + length bytes.now ≤ length (bytes_in self.old window) }
        ensures { self.new ≡ with_bytes self.old window at bytes.now }
    {
        match window {
            Window::Rom => put_bytes(&mut self.rom, at, bytes),
            Window::Orb(slot) => put_bytes(&mut self.slots[usize::from(slot)].orb, at, bytes),
            Window::Table(slot) => put_bytes(&mut self.slots[usize::from(slot)].table, at, bytes),
            Window::Buffer(slot) => put_bytes(&mut self.slots[usize::from(slot)].buffer, at, bytes),
            Window::Management(place) => {
                put_bytes(&mut self.places[usize::from(place)].orb, at, bytes)
            }
            Window::Response(place) => {
                put_bytes(&mut self.places[usize::from(place)].response, at, bytes)
            }
        }
    }
}

/// The bytes of quadlets.
fn rom_bytes(alloc: Global, quads: &[u32]) -> Result<Vec<u8>, NoMemory>
    ensures { IfOk result (λ bytes. bytes.items ≡ rom_bytes quads.now) }
{
    let mut bytes = Vec::new(alloc);
    for quad in quads {
        bytes.extend_from_slice(&bytes_of_quad(*quad))?;
    }
    Ok(bytes)
}

/// 32 slots that are not armed, of zeros.
fn new_slots(alloc: Global) -> Result<Vec<SlotMemory>, NoMemory>
    ensures { IfOk result (λ slots. slots.items ≡ replicate 32 empty_slot) }
{
    let mut slots = Vec::with_capacity(alloc, SLOTS)?;
    for _ in 0..SLOTS {
        slots.push(SlotMemory::new())?;
    }
    Ok(slots)
}
