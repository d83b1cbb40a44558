ghost use Rattle.std.specs.Prelude.{◌≡◌, ◌+◌, ◌*◌, ◌/◌, ◌%◌, ◌^◌, ◌<◌, ◌≤◌, length, None};
ghost use Rattle.page_table.specs.Buffer.{AreSegments};
ghost use Rattle.page_table.specs.Elements.{element, elements_from, first_fault};

use crate::fault::PageFault;
use crate::segment::Segment;
use sbp_base::quad_at;

/// Element `at` of a page table, counted from 0 (NCITS 325-1998, page tables).
pub(crate) fn element_at(bytes: &[u8], at: u8) -> Segment
    requires { 8 * at + 8 ≤ length bytes.now }
    ensures element { result ≡ element bytes.now at }
    ensures small { result.base < 2 ^ 48 }
{
    let place = 8 * usize::from(at);
    let high = quad_at(bytes, place);
    let low = quad_at(bytes, place + 4);
    Segment {
        base: (u64::from(high & 0xffff) << 32) + u64::from(low),
        length: (high >> 16) as u16,
    }
}

/// The first fault by place of the elements from element `at` on.
#[tactic(auto, using(crate::proofs::ElementSteps::elements_none, crate::proofs::ElementSteps::elements_step))]
pub(crate) fn fault_from(bytes: &[u8], at: u8) -> Option<PageFault>
    requires whole { length bytes.now % 8 ≡ 0 }
    requires room { length bytes.now ≤ 512 }
    requires inside { 8 * at ≤ length bytes.now }
    ensures fault { result ≡ first_fault at (elements_from at bytes.now) }
    ensures sound { result ≡ None → AreSegments (elements_from at bytes.now) }
{
    if 8 * usize::from(at) == bytes.len() {
        return None;
    }
    let segment = element_at(bytes, at);
    if segment.length == 0 {
        return Some(PageFault::ZeroSegment { at });
    }
    if segment.base + u64::from(segment.length) > 1 << 48 {
        return Some(PageFault::PastEnd { at });
    }
    fault_from(bytes, at + 1)
}
