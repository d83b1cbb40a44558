use page_table::{Chunk, PageFault, SegmentTable, elements};
use sbp_base::Offset;

/// Segments of 512, 500 and 12 bytes.
const TABLE: [u8; 24] = [
    0x02, 0x00, 0x00, 0x00, 0x11, 0x00, 0x00, 0x00, 0x01, 0xf4, 0x00, 0x00, 0x11, 0x00, 0x02, 0x10,
    0x00, 0x0c, 0x00, 0x00, 0x11, 0x00, 0x04, 0x14,
];

const NO_BYTES: [u8; 8] = [0, 0, 0, 0, 0x11, 0, 0, 0];

const ONE_PAST: [u8; 8] = [0, 8, 0xff, 0xff, 0xff, 0xff, 0xff, 0xfc];

const TO_THE_END: [u8; 8] = [0, 4, 0xff, 0xff, 0xff, 0xff, 0xff, 0xfc];

/// The last one, and then one past the end.
const PAST_BEHIND: [u8; 24] = [
    0, 4, 0xff, 0xff, 0xff, 0xff, 0xff, 0xfc, 0, 8, 0xff, 0xff, 0xff, 0xff, 0xff, 0xfc, 0, 0, 0, 0,
    0, 0, 0, 0,
];

/// A chunk that is asked for: the place, the limit, and the address and the length that it must have;
/// where there is none, both are 0.
type Case = (u32, u16, u64, u16);

/// The chunk at a place that is inside the buffer or at its end.
fn chunk_at(table: &SegmentTable, done: u32, limit: u16) -> (u64, u16) {
    if done > table.total() || limit < 4 {
        return (0, 0);
    }
    match table.next_chunk(done, limit) {
        Some(Chunk { offset, length }) => (offset.value(), length),
        None => (0, 0),
    }
}

/// Whether the buffer has so many bytes, and each chunk is so.
fn has_chunks(table: &SegmentTable, total: u32, cases: &[Case]) -> bool {
    for (done, limit, offset, length) in cases {
        if chunk_at(table, *done, *limit) != (*offset, *length) {
            return false;
        }
    }
    table.total() == total
}

/// The chunks of a table, under limits that fit its segments and that do not.
const CHUNKS: [Case; 6] = [
    (0, 512, 0x1100_0000, 512),
    (512, 512, 0x1100_0210, 500),
    (1012, 512, 0x1100_0414, 12),
    (1024, 512, 0, 0),
    (511, 512, 0x1100_01ff, 1),
    (512, 8, 0x1100_0210, 8),
];

/// Whether a table has its chunks; and a buffer without a page table, which is one segment, and of which one
/// without bytes has none.
fn is_cut(table: &mut SegmentTable) -> Option<bool> {
    let base = Offset::new(0x1100_0000)?;
    let is_table = table.total() == 0
        && elements(&TABLE, table) == Ok(())
        && has_chunks(table, 1024, &CHUNKS);
    table.set_single(base, 513);
    let is_single = has_chunks(table, 513, &[(512, 512, 0x1100_0200, 1)]);
    table.set_single(base, 0);
    Some(is_table && is_single && has_chunks(table, 0, &[(0, 512, 0, 0)]))
}

/// Whether an element has its fault, an end at 2^48 itself has none, and a table stays as it is at a fault.
/// The first of two faulty elements decides.
fn has_faults(table: &mut SegmentTable) -> bool {
    elements(&PAST_BEHIND, table) == Err(PageFault::PastEnd { at: 1 })
        && table.total() == 0
        && elements(&TO_THE_END, table) == Ok(())
        && elements(&NO_BYTES, table) == Err(PageFault::ZeroSegment { at: 0 })
        && elements(&ONE_PAST, table) == Err(PageFault::PastEnd { at: 0 })
        && chunk_at(table, 0, 512) == (0xffff_ffff_fffc, 4)
}

#[test]
fn tables(rt: HostRuntime) {
    assert!(rt; is_cut(&mut SegmentTable::new()) == Some(true));
    assert!(rt; has_faults(&mut SegmentTable::new()));
}
