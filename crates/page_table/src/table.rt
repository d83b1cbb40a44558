ghost use Rattle.std.specs.Prelude.{◌≡◌, ◌+◌, ◌*◌, ◌/◌, ◌%◌, ◌≤◌, ◌<◌, ◌^◌, ◌↔◌, [], ◌∷◌, ◌++◌, length, None, IfOk, IfSome, OnErr, IsNone};
ghost use Rattle.page_table.specs.Buffer.{AreSegments, IsSegment, chunk_from, bytes_of, single};
ghost use Rattle.page_table.specs.Elements.{elements_of, elements_from, first_fault, told};

use crate::fault::PageFault;
use crate::read::{element_at, fault_from};
use crate::segment::{Chunk, Segment, chunk_in, place_of};
use arrayvec::ArrayVec;
use sbp_base::Offset;
use std::marker::Model;

/// The segments of a buffer in their order, with room for 64 of them.
#[derive(Drop)]
pub struct SegmentTable {
    segments: ArrayVec<Segment, 64>,
    /// How many bytes of the buffer there are up to the end of each segment.
    ends: ArrayVec<u32, 64>,
}

impl Model for SegmentTable {
    ghost use Rattle.std.specs.Prelude.{◌≡◌, List};
    ghost use Rattle.page_table.specs.Buffer.{AreSegments};
    ghost use Rattle.page_table.specs.Ends.{ends_from};
    ghost use Rattle.page_table.specs.declared.segment.Segment.{Segment};

    ghost Value = { List Segment };

    ghost view = { λ table. table.segments.items };

    ghost invariant = { λ table. AreSegments table.segments.items × (table.ends.items ≡ ends_from 0 table.segments.items) };
}

impl SegmentTable {
    /// A table without segments: the buffer is empty.
    pub fn new() -> Self
        ensures { result ≡ [] }
    {
        SegmentTable {
            segments: ArrayVec::new(),
            ends: ArrayVec::new(),
        }
    }

    /// The buffer without a page table takes the place of the segments: `length` bytes from `base` on,
    /// none where `length` is zero. It ends at 2^48 at most.
    pub fn set_single(&mut self, base: Offset, length: u16)
        requires { base + length ≤ 2 ^ 48 }
        ensures { self.new ≡ single base length }
    {
        self.clear();
        if length != 0 {
            self.push(Segment {
                base: base.value(),
                length,
            });
        }
    }

    /// The length of the buffer in bytes.
    pub fn total(&self) -> u32
        ensures { result ≡ bytes_of self.now }
    {
        match self.ends.as_slice() {
            [.., end] => *end,
            [] => 0,
        }
    }

    /// The chunk that begins `done` bytes into the buffer: it ends with its segment and has at most
    /// `limit` bytes. There is none exactly at the buffer's end.
    #[tactic(auto, using(crate::proofs::Ends::ends_length, crate::proofs::Ends::rises))]
    pub fn next_chunk(&self, done: u32, limit: u16) -> Option<Chunk>
        requires within { done ≤ bytes_of self.now }
        requires some { 4 ≤ limit }
        ensures chunk { result ≡ chunk_from self.now done limit }
        ensures end { IsNone result ↔ (done ≡ bytes_of self.now) }
        ensures few { IfSome result (λ chunk. chunk.length ≤ limit) }
        ensures some { IfSome result (λ chunk. 0 < chunk.length) }
    {
        let at = place_of(self.ends.as_slice(), done);
        if at == self.segments.len() {
            return None;
        }
        let segment = self.segments.as_slice()[at];
        let left = self.ends.as_slice()[at] - done;
        chunk_in(&segment, segment.length - left as u16, limit)
    }

    /// Removes all segments.
    fn clear(&mut self)
        ensures { self.new ≡ [] }
    {
        self.segments.clear();
        self.ends.clear();
    }

    /// Adds a segment behind the others.
    fn push(&mut self, segment: Segment)
        requires room { length self.old < 64 }
        requires sound { IsSegment segment }
        ensures { self.new ≡ self.old ++ segment ∷ [] }
    {
        let end = self.total() + u32::from(segment.length);
        self.segments.push(segment);
        self.ends.push(end);
    }

    /// Adds the elements of a page table without a fault, from element `at` on.
    #[tactic(auto, using(crate::proofs::ElementSteps::elements_step, crate::proofs::ElementSteps::none_behind, crate::proofs::ElementSteps::one_behind, crate::proofs::ElementSteps::rest_sound))]
    fn fill(&mut self, bytes: &[u8], at: u8)
        requires whole { length bytes.now % 8 ≡ 0 }
        requires inside { 8 * at ≤ length bytes.now }
        requires room { length bytes.now ≤ 512 }
        requires behind { length self.old ≡ at }
        requires sound { AreSegments (elements_from at bytes.now) }
        ensures { self.new ≡ self.old ++ elements_from at bytes.now }
    {
        if 8 * usize::from(at) == bytes.len() {
            return;
        }
        self.push(element_at(bytes, at));
        self.fill(bytes, at + 1);
    }
}

/// Reads a page table of whole elements, at most 64, into `out`, whose earlier segments go (NCITS
/// 325-1998, page tables). The error is the first fault by place, and then `out` stays as it is.
pub fn elements(bytes: &[u8], out: &mut SegmentTable) -> Result<(), PageFault>
    requires whole { length bytes.now % 8 ≡ 0 }
    requires room { length bytes.now ≤ 512 }
    ensures told { result ≡ told (first_fault 0 (elements_of bytes.now)) }
    ensures ok { IfOk result (λ _done. out.new ≡ elements_of bytes.now) }
    ensures err { OnErr result (out.new ≡ out.old) }
{
    if let Some(fault) = fault_from(bytes, 0) {
        return Err(fault);
    }
    out.clear();
    out.fill(bytes, 0);
    Ok(())
}
