ghost use Rattle.std.specs.Prelude.{◌≡◌, ◌+◌, ◌*◌, ◌%◌, ◌<◌, ◌≤◌, ◌^◌, sum, true, length, drop};
ghost use Rattle.sbp_base.specs.Quadlets.{quad};
ghost use Rattle.bus_memory.specs.Windows.{IsWindow, start};
ghost use Rattle.bus_memory.specs.Memory.{slot_at, with_bytes};
ghost use Rattle.bus_memory.specs.Access.{is_open};
ghost use Rattle.bus_memory.specs.Laws.{IsWhole};
ghost use Rattle.orb_layout.specs.CommandOrbs.{CommandFits, command_bytes};
ghost use Rattle.orb_list.specs.Requests.{IsRequest, asked_of};
ghost use Rattle.orb_list.specs.Layout.{IsSlotWindow, behind, data_in_segments, data_written, orb_of, slot_size, table_bytes, written};
ghost use Rattle.orb_list.specs.Table.{as_dummy, with_orb_quad};
ghost use Rattle.byteorder.specs.Endian.{big_bytes};

use crate::request::Request;
use bus_memory::{Image, Window};
use orb_layout::{CommandOrb, OrbPointer};
use sbp_base::{NodeId, Offset, bytes_of_quad, quad_at};

/// The place that is so many bytes into a window.
fn place(window: Window, at: u32) -> Offset
    requires { start window + at < 2 ^ 48 }
    ensures { result ≡ start window + at }
{
    let Some(offset) = window.start().plus(at) else {
        unreachable!()
    };
    offset
}

/// The ORB of a request in a slot, with a null next pointer.
fn orb_of(request: &Request<'_>, slot: u8) -> CommandOrb
    requires { IsRequest (asked_of request.now) }
    ensures orb { result ≡ orb_of (asked_of request.now) slot }
    ensures fits { CommandFits result }
{
    let has_table = !request.segments.is_empty();
    let data_size = if has_table {
        request.segments.len() as u16
    } else {
        request.length
    };
    let window = if has_table {
        Window::Table(slot)
    } else {
        Window::Buffer(slot)
    };
    let (descriptor, descriptor_node) = if data_size > 0 {
        (window.start(), request.node)
    } else {
        (Offset::zero(), NodeId::from_raw(0))
    };
    CommandOrb {
        next: OrbPointer::Null,
        descriptor,
        descriptor_node,
        format: 0,
        notify: true,
        to_initiator: request.to_initiator && request.length > 0,
        speed: 2,
        max_payload: request.max_payload,
        has_table,
        page_size: 0,
        data_size,
        cdb: request.cdb,
    }
}

/// Sets a quadlet in the ORB or the page table of an armed slot, `at` bytes into it.
pub(crate) fn put_slot_quad(image: &mut Image, window: Window, at: u32, value: u32)
    requires whole { IsWhole image.old }
    requires window { IsSlotWindow window }
    requires open { is_open image.old window ≡ true }
    requires inside { at + 4 ≤ slot_size window }
    ensures set { image.new ≡ with_bytes image.old window at (big_bytes 4 value) }
    ensures whole { IsWhole image.new }
    ensures open { is_open image.new window ≡ true }
{
    image.put(window, at as usize, &bytes_of_quad(value));
}

/// Writes an ORB into an armed slot.
fn put_orb(image: &mut Image, slot: u8, orb: &CommandOrb)
    requires whole { IsWhole image.old }
    requires small { slot < 32 }
    requires armed { (slot_at image.old slot).is_armed ≡ true }
    requires fits { CommandFits orb.now }
    requires cdb { length orb.now.cdb ≡ 12 }
    ensures written { image.new ≡ with_bytes image.old (Window.Orb slot) 0 (command_bytes orb.now) }
    ensures whole { IsWhole image.new }
    ensures armed { (slot_at image.new slot).is_armed ≡ true }
{
    let mut bytes = [0u8; 32];
    orb.write(&mut bytes);
    image.put(Window::Orb(slot), 0, &bytes);
}

/// Writes a page table into an armed slot, from element `number` on: the segments stand in the slot's
/// buffer from place `at` on.
#[tactic(auto, using(crate::proofs::Quads::none_written))]
fn put_table(image: &mut Image, slot: u8, number: u32, at: u32, segments: &[u16])
    requires whole { IsWhole image.old }
    requires small { slot < 32 }
    requires armed { (slot_at image.old slot).is_armed ≡ true }
    requires room { number + length segments.now ≤ 64 }
    requires inside { at + sum segments.now + 19 * length segments.now ≤ 32768 }
    ensures { image.new ≡ with_bytes image.old (Window.Table slot) (8 * number) (table_bytes slot at segments.now) }
{
    let table = Window::Table(slot);
    if let [first, rest @ ..] = segments {
        put_slot_quad(image, table, 8 * number, u32::from(*first) << 16);
        put_slot_quad(
            image,
            table,
            8 * number + 4,
            place(Window::Buffer(slot), at).value() as u32,
        );
        put_table(image, slot, number + 1, behind(at, *first), rest);
    }
}

/// The place of the segment behind one, in a buffer: the length rounded up to 4 bytes, and 16 bytes on.
fn behind(at: u32, count: u16) -> u32
    requires { at ≤ 32768 }
    ensures { result ≡ behind at count }
{
    at + (u32::from(count) + 3) / 4 * 4 + 16
}

/// Writes data into the segments of a slot's buffer, in order, from place `at` on.
fn put_segments(image: &mut Image, slot: u8, at: u32, segments: &[u16], payload: &[u8])
    requires small { slot < 32 }
    requires inside { at + sum segments.now + 19 * length segments.now ≤ 32768 }
    ensures { image.new ≡ data_in_segments image.old slot at segments.now payload.now }
{
    if let [first, rest @ ..] = segments {
        let count = payload.len().min(usize::from(*first));
        image.fill(slot, at as u16, &payload[..count]);
        put_segments(image, slot, behind(at, *first), rest, &payload[count..]);
    }
}

/// Writes the data of a request into a slot's buffer.
fn put_data(image: &mut Image, slot: u8, request: &Request<'_>)
    requires small { slot < 32 }
    requires request { IsRequest (asked_of request.now) }
    ensures { image.new ≡ data_written image.old slot request.now.segments.now request.now.payload.now }
{
    if request.segments.is_empty() {
        image.fill(slot, 0, request.payload);
    } else {
        put_segments(image, slot, 0, request.segments, request.payload);
    }
}

/// Arms a slot and writes a request into it: its ORB, its page table and its data.
pub(crate) fn write_slot(image: &mut Image, request: &Request<'_>, slot: u8)
    requires whole { IsWhole image.old }
    requires small { slot < 32 }
    requires request { IsRequest (asked_of request.now) }
    ensures { image.new ≡ written image.old slot (asked_of request.now) }
{
    image.arm(slot);
    put_orb(image, slot, &orb_of(request, slot));
    put_table(image, slot, 0, 0, request.segments);
    put_data(image, slot, request);
}

/// Sets the request format of the ORB in an armed slot to 3.
pub(crate) fn make_dummy(image: &mut Image, slot: u8)
    requires whole { IsWhole image.old }
    requires small { slot < 32 }
    requires armed { (slot_at image.old slot).is_armed ≡ true }
    ensures { image.new ≡ with_orb_quad image.old slot 16 (as_dummy (quad (slot_at image.old slot).orb 16)) }
{
    let options = orb_quad(image, slot, 16);
    put_orb_quad(image, slot, 16, as_dummy(options));
}

/// Quadlet 4 of an ORB, with the request format 3 in bits 30 to 29.
fn as_dummy(options: u32) -> u32
    ensures { result ≡ as_dummy options }
{
    (options >> 31 << 31) + (3 << 29) + (options & 0x1fff_ffff)
}

/// A quadlet of the ORB in an armed slot.
fn orb_quad(image: &Image, slot: u8, at: u32) -> u32
    requires whole { IsWhole image.now }
    requires small { slot < 32 }
    requires armed { (slot_at image.now slot).is_armed ≡ true }
    requires inside { at + 4 ≤ 32 }
    ensures { result ≡ quad (slot_at image.now slot).orb at }
{
    let mut bytes = [0u8; 4];
    let _rcode = image.serve_read(place(Window::Orb(slot), at), &mut bytes);
    quad_at(&bytes, 0)
}

/// Sets a quadlet of the ORB in an armed slot.
pub(crate) fn put_orb_quad(image: &mut Image, slot: u8, at: u32, value: u32)
    requires whole { IsWhole image.old }
    requires small { slot < 32 }
    requires armed { (slot_at image.old slot).is_armed ≡ true }
    requires inside { at + 4 ≤ 32 }
    ensures { image.new ≡ with_orb_quad image.old slot at value }
{
    put_slot_quad(image, Window::Orb(slot), at, value);
}
