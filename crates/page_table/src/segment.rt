ghost use Rattle.std.specs.Prelude.{◌≡◌, ℕ, ◌+◌, ◌-◌, ◌≤◌, ◌<◌, min, length, slice_index_or, Some};
ghost use Rattle.std.specs.List.Sorted.{IsNonDecreasingBy};
ghost use Rattle.page_table.specs.Buffer.{IsSegment, chunk};

use sbp_base::Offset;

/// A piece of a buffer: the first address, below 2^48, and the length in bytes.
#[derive(Clone, Copy, Debug, Default, PartialEq, Eq)]
pub struct Segment {
    pub base: u64,
    pub length: u16,
}

/// Bytes of a buffer that are moved at once: where they begin, and how many there are.
#[derive(Clone, Copy, Debug, PartialEq, Eq)]
pub struct Chunk {
    pub offset: Offset,
    pub length: u16,
}

/// The first segment that ends behind so many bytes of the buffer, by where each ends; as many as there
/// are where none does.
pub(crate) fn place_of(ends: &[u32], done: u32) -> usize
    requires { IsNonDecreasingBy (λ (end : ℕ). end) ends.now }
    ensures bound { result ≤ length ends.now }
    ensures before { (k : ℕ) → k < result → slice_index_or ends.now k 0 ≤ done }
    ensures here { result < length ends.now → done < slice_index_or ends.now result 0 }
{
    ends.partition_point(|end| *end <= done)
}

/// The chunk that begins `done` bytes into a segment: it ends with the segment and has at most `limit`
/// bytes.
pub(crate) fn chunk_in(segment: &Segment, done: u16, limit: u16) -> Option<Chunk>
    requires segment { IsSegment segment.now }
    requires inside { done < segment.now.length }
    ensures { result ≡ Some (chunk (segment.now.base + done) (min limit (segment.now.length - done))) }
{
    Some(Chunk {
        offset: Offset::new(segment.base + u64::from(done))?,
        length: limit.min(segment.length - done),
    })
}
