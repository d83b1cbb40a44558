use bus_memory::{Image, Spot, Window};
use sbp_base::Offset;
use std::alloc::Global;

/// An access that is tried: the address, the bytes, at most 64, and the rcode that it must have.
type Case = (u64, usize, u8);

/// The rcode of a read.
fn read(image: &Image, value: u64, count: usize) -> Option<u8> {
    let mut out = [0u8; 64];
    if count > 64 {
        return None;
    }
    Some(image.serve_read(Offset::new(value)?, &mut out[0..count]))
}

/// The rcode of a write of zeros.
fn write(image: &mut Image, value: u64, count: usize) -> Option<u8> {
    let zeros = [0u8; 64];
    if count > 64 {
        return None;
    }
    Some(image.serve_write(Offset::new(value)?, &zeros[0..count]))
}

/// Whether each read has its rcode.
fn reads(image: &Image, cases: &[Case]) -> bool {
    for (value, count, rcode) in cases {
        if read(image, *value, *count) != Some(*rcode) {
            return false;
        }
    }
    true
}

/// Whether each write has its rcode.
fn writes(image: &mut Image, cases: &[Case]) -> bool {
    for (value, count, rcode) in cases {
        if write(image, *value, *count) != Some(*rcode) {
            return false;
        }
    }
    true
}

/// Sets a quadlet where the address is one that may be set.
fn set(image: &mut Image, value: u64, quad: u32) -> Option<()> {
    let offset = Offset::new(value)?;
    match image.spot(offset, 4) {
        Some(
            Spot {
                window: Window::Orb(_) | Window::Management(_),
                ..
            },
        ) => {
            image.set_quad(offset, quad);
            Some(())
        }
        _ => None,
    }
}

/// The ROM, FIFOs, requests of no bytes, and what lies outside.
const ALWAYS: [Case; 11] = [
    (0xffff_f000_0400, 8, 0),
    (0xffff_f000_0403, 5, 0),
    (0xffff_f000_0401, 8, 7),
    (0xffff_f000_03ff, 1, 7),
    (0x1200_2020, 4, 6),
    (0x1200_2040, 4, 7),
    (0x1300_0000, 4, 6),
    (0x1300_0010, 4, 7),
    (0x20_12ff_ffe0, 4, 6),
    (0x20_1300_0000, 4, 7),
    (0x5, 0, 6),
];

/// Reads of the last slot where it is armed and its direction is 0.
const LAST_SLOT: [Case; 8] = [
    (0x1000_07c0, 32, 0),
    (0x1000_07c0, 33, 7),
    (0x1000_07e0, 1, 7),
    (0x1000_0780, 1, 7),
    (0x1010_3fff, 1, 0),
    (0x1010_3fff, 2, 7),
    (0x110f_fffc, 4, 0),
    (0x1110_0000, 1, 7),
];

/// Writes where the direction of the last slot is 0.
const WRITES: [Case; 6] = [
    (0xffff_f000_0400, 4, 6),
    (0x1000_07c0, 4, 6),
    (0x110f_fffc, 4, 6),
    (0x1200_0020, 4, 6),
    (0x1200_10ff, 1, 0),
    (0x1200_11ff, 2, 7),
];

/// A read of the whole last slot where it is not armed.
const UNARMED: [Case; 1] = [(0x1000_07c0, 32, 7)];

/// Whether windows have their edges: one byte past a window, windows of slots that are not armed, the gap
/// behind an ORB, FIFOs, and what lies outside.
fn has_edges(image: &mut Image) -> bool {
    let is_unarmed = reads(image, &ALWAYS) && reads(image, &UNARMED);
    image.arm(31);
    let is_armed = reads(image, &LAST_SLOT) && writes(image, &WRITES);
    image.free(31);
    is_unarmed && is_armed && reads(image, &UNARMED)
}

/// Whether the bytes last set are read, and the direction of a slot's ORB decides whether its buffer is read
/// or written.
fn keeps_bytes(image: &mut Image) -> Option<bool> {
    let end = Offset::new(0x1100_fffd)?;
    let mut last = [0u8; 3];
    image.arm(1);
    image.fill(1, 32_764, &[1, 2, 3, 4]);
    let is_read = image.serve_read(end, &mut last) == 0 && last == [2, 3, 4];
    set(image, 0x1000_0050, 0x0800_0000)?;
    let is_turned = image.serve_read(end, &mut last) == 6;
    let is_written = image.serve_write(end, &[9, 8, 7]) == 0
        && image.serve_write(Window::Response(1).start(), &[6, 5]) == 0;
    Some(is_read && is_turned && is_written)
}

/// Whether what was written is lent.
fn lends_bytes(image: &Image) -> bool {
    image.buffer(1)[32_764..] == [1, 9, 8, 7] && image.response(1)[0..3] == [6, 5, 0]
}

/// Whether a memory with a ROM of two quadlets has those edges.
fn new_has_edges(alloc: Global) -> Option<bool> {
    let mut image = Image::new(alloc, &[0x0404_0000, 0x3133_3934]).ok()?;
    Some(has_edges(&mut image))
}

/// Whether one without a ROM keeps and lends bytes.
fn new_keeps_bytes(alloc: Global) -> Option<bool> {
    let mut image = Image::new(alloc, &[]).ok()?;
    Some(keeps_bytes(&mut image)? && lends_bytes(&image))
}

#[test]
fn memory(rt: HostRuntime) {
    assert!(rt; new_has_edges(rt.alloc()) == Some(true));
    assert!(rt; new_keeps_bytes(rt.alloc()) == Some(true));
}
