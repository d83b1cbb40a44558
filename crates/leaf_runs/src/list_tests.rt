ghost use Rattle.std.specs.Prelude.{◌≡◌, length, IsTrue};
ghost use Rattle.orb_list.specs.Requests.{IsRequest, asked_of};
ghost use Rattle.orb_list.specs.Holds.{HoldsSlots};

use bus_memory::{Image, Window};
use orb_layout::{StatusBlock, StatusKind};
use orb_list::{ListFault, Request, Slots, Ticket};
use sbp_base::{NoMemory, NodeId, Offset};
use std::alloc::Global;

/// Slots with the image that holds them.
#[derive(Drop)]
struct Desk {
    slots: Slots,
    image: Image,
    ghost holds: { HoldsSlots slots.slots image },
}

/// Whether bytes are as many as a command block has.
fn is_block(bytes: &[u8]) -> bool
    ensures { IsTrue result → length bytes.now ≡ 12 }
{
    bytes.len() == 12
}

/// Whether a request is one of a command, with no page table or one of three segments.
fn fits(request: &Request<'_>) -> bool
    ensures { IsTrue result → IsRequest (asked_of request.now) }
{
    is_block(request.cdb.as_slice())
        && request.length <= 16_384
        && request.payload.len() <= usize::from(request.length)
        && request.max_payload < 16
        && match request.segments {
            [] => true,
            [first, second, third] => {
                u32::from(*first) + u32::from(*second) + u32::from(*third)
                    <= u32::from(request.length)
            }
            _ => false,
        }
}

impl Desk {
    fn new(alloc: Global, rom: &[u32]) -> Result<Desk, NoMemory> {
        let image = Image::new(alloc, rom)?;
        let slots = Slots::new();
        Ok(Desk { slots, image })
    }

    fn prepare(&mut self, request: &Request<'_>) -> Option<Result<Ticket, ListFault>> {
        if self.slots.calls() > 1000 || self.slots.acts() > 1000 || !fits(request) {
            return None;
        }
        Some(self.slots.prepare(&mut self.image, request))
    }

    fn link_low(&mut self) -> Option<Result<Ticket, ListFault>> {
        if self.slots.calls() > 1000 {
            return None;
        }
        Some(self.slots.link_low(&mut self.image))
    }

    fn link_high(&mut self) -> Option<Result<Ticket, ListFault>> {
        if self.slots.calls() > 1000 {
            return None;
        }
        Some(self.slots.link_high(&mut self.image))
    }

    /// Takes the status good of the ORB in a slot.
    fn take(&mut self, slot: u8, src: u8) -> Option<Result<Ticket, ListFault>> {
        if self.slots.calls() > 1000 {
            return None;
        }
        let status = StatusBlock {
            src,
            kind: StatusKind::Good,
            orb: Window::Orb(slot).start(),
        };
        Some(self.slots.take_status(&mut self.image, &status))
    }

    /// Pins the slot of an ORB where no slot is pinned.
    fn pin(&mut self, ticket: &Ticket) -> bool {
        if self.slots.calls() > 1000 || self.slots.is_pinned() {
            return false;
        }
        self.slots.pin(ticket) == Ok(())
    }

    fn unpin(&mut self) -> bool {
        if self.slots.calls() > 1000 {
            return false;
        }
        self.slots.unpin(&mut self.image);
        true
    }

    /// Whether the bytes from an address on are these, as they are served.
    fn serves(&self, window: Window, expected: &[u8]) -> bool {
        let mut bytes = [0u8; 32];
        if expected.len() > 32 {
            return false;
        }
        let count = expected.len();
        self.image.serve_read(window.start(), &mut bytes[0..count]) == 0
            && &bytes[0..count] == expected
    }
}

/// TEST UNIT READY: no data.
fn test_ready() -> Request<'static> {
    Request {
        cdb: [0; 12],
        to_initiator: false,
        length: 0,
        payload: &[],
        segments: &[],
        max_payload: 9,
        node: NodeId::from_raw(0xffc1),
        login: 1,
    }
}

/// Prepares an ORB without data and links it where it is to be; the slot that it is in.
fn append(desk: &mut Desk) -> Option<Result<u8, ListFault>> {
    let ticket = match desk.prepare(&test_ready())? {
        Ok(ticket) => ticket,
        Err(fault) => return Some(Err(fault)),
    };
    if ticket.number() > 0 {
        let _low = desk.link_low()?;
        let _high = desk.link_high()?;
    }
    Some(Ok(ticket.slot()))
}

/// Whether a pointer whose low quadlet alone is written is still null: its bytes before the link, between its
/// steps and after it.
fn links_by_halves(desk: &mut Desk) -> Option<bool> {
    let is_first = append(desk) == Some(Ok(0));
    let second = desk.prepare(&test_ready())?;
    let is_null = second.is_ok() && desk.serves(Window::Orb(0), &[0x80, 0, 0, 0, 0, 0, 0, 0]);
    let must_link = desk.prepare(&test_ready())? == Err(ListFault::MidLink);
    let is_half = desk.link_low()? == second
        && desk.serves(Window::Orb(0), &[0x80, 0, 0, 0, 0x10, 0, 0, 0x40]);
    let is_linked = desk.link_high()? == second
        && desk.serves(Window::Orb(0), &[0, 0, 0, 0, 0x10, 0, 0, 0x40]);
    let is_over = desk.link_high()? == Err(ListFault::NotLinking);
    Some(is_first && is_null && must_link && is_half && is_linked && is_over)
}

/// Whether the 33rd ORB finds no slot.
fn runs_out(desk: &mut Desk) -> bool {
    for slot in 0..32_u8 {
        if append(desk) != Some(Ok(slot)) {
            return false;
        }
    }
    append(desk) == Some(Err(ListFault::NoSlot))
}

/// Whether a pinned slot stays in use, so the next ORB takes another, and without the pin it is free again.
fn keeps_pinned(desk: &mut Desk) -> Option<bool> {
    let are_two = append(desk) == Some(Ok(0)) && append(desk) == Some(Ok(1));
    let first = desk.slots.find(0)?;
    let is_taken = desk.pin(&first) && desk.take(0, 0)? == Ok(first);
    let is_taken_once = desk.take(0, 0)? == Err(ListFault::Slot);
    let is_another = append(desk) == Some(Ok(2))
        && desk.serves(Window::Orb(1), &[0, 0, 0, 0, 0x10, 0, 0, 0x80]);
    let is_free = desk.unpin() && append(desk) == Some(Ok(0));
    Some(are_two && is_taken && is_taken_once && is_another && is_free)
}

/// Whether a buffer has the bytes of the first request, in its segments.
fn has_segments(buffer: &[u8]) -> bool {
    buffer.get(511) == Some(&0x11)
        && buffer.get(512) == Some(&0)
        && buffer.get(0x414) == Some(&0x11)
        && buffer.get(0x420) == Some(&0)
}

/// Whether a write of two blocks in three segments has its ORB's fifth quadlet, its page table and its data.
fn has_page_table(desk: &mut Desk) -> Option<bool> {
    let request = Request {
        cdb: [0x2a, 0, 0, 0, 0, 8, 0, 0, 2, 0, 0, 0],
        to_initiator: false,
        length: 1024,
        payload: &[0x11; 1024],
        segments: &[512, 500, 12],
        max_payload: 7,
        node: NodeId::from_raw(0xffc1),
        login: 1,
    };
    let is_so = desk.prepare(&request)?.is_ok()
        && desk.serves(Window::Orb(0), &ORB)
        && desk.serves(Window::Table(0), &TABLE)
        && has_segments(desk.image.buffer(0));
    Some(is_so)
}

/// The ORB up to its options.
const ORB: [u8; 20] = [
    0x80, 0, 0, 0, 0, 0, 0, 0, 0xff, 0xc1, 0, 0, 0x10, 0x10, 0, 0, 0x82, 0x78, 0, 3,
];

/// Segments of 512, 500 and 12 bytes.
const TABLE: [u8; 24] = [
    0x02, 0x00, 0x00, 0x00, 0x11, 0x00, 0x00, 0x00, 0x01, 0xf4, 0x00, 0x00, 0x11, 0x00, 0x02, 0x10,
    0x00, 0x0c, 0x00, 0x00, 0x11, 0x00, 0x04, 0x14,
];

/// What is done with a list.
#[derive(Clone, Copy)]
enum Course {
    Halves,
    Full,
    Pinned,
    Table,
}

/// Whether it is so from no ORB on.
fn is_so(alloc: Global, course: Course) -> Option<bool> {
    let mut desk = Desk::new(alloc, &[]).ok()?;
    match course {
        Course::Halves => links_by_halves(&mut desk),
        Course::Full => Some(runs_out(&mut desk)),
        Course::Pinned => keeps_pinned(&mut desk),
        Course::Table => has_page_table(&mut desk),
    }
}

#[test]
fn lists(rt: HostRuntime) {
    assert!(rt; is_so(rt.alloc(), Course::Halves) == Some(true));
    assert!(rt; is_so(rt.alloc(), Course::Full) == Some(true));
    assert!(rt; is_so(rt.alloc(), Course::Pinned) == Some(true));
    assert!(rt; is_so(rt.alloc(), Course::Table) == Some(true));
}
