ghost use Rattle.std.specs.Prelude.{◌≡◌, ◌++◌, ◌<◌, ◌≤◌, length, take, drop, [], IfOk, OnOk};
ghost use Rattle.orb_list.specs.Layout.{behind};
ghost use Rattle.orb_list.specs.Requests.{asked_of};
ghost use Rattle.orb_list.specs.Lists.{answer_by, answer_in, in_segments, no_answer, plan_for};

use crate::request::Request;
use sbp_base::{Bytes, Lengths, NoMemory};
use std::alloc::Global;

/// The bytes that a good status of a command brings: so many of its slot's buffer, in one piece or in
/// the segments of these lengths.
#[derive(Drop)]
pub struct AnswerPlan {
    pub count: u16,
    pub segments: Lengths,
}

impl AnswerPlan {
    /// No bytes.
    pub(crate) fn none(alloc: Global) -> AnswerPlan
        ensures { result ≡ no_answer }
    {
        AnswerPlan {
            count: 0,
            segments: Lengths::new(alloc),
        }
    }

    /// The bytes that a command brings to the initiator.
    pub(crate) fn of(alloc: Global, request: &Request<'_>) -> Result<AnswerPlan, NoMemory>
        ensures { IfOk result (λ plan. plan ≡ plan_for (asked_of request.now)) }
    {
        Ok(AnswerPlan {
            count: if request.to_initiator {
                request.length
            } else {
                0
            },
            segments: Lengths::from_slice(alloc, request.segments)?,
        })
    }

    /// These bytes of a buffer.
    pub(crate) fn answer(&self, alloc: Global, buffer: &[u8]) -> Result<Bytes, NoMemory>
        ensures { IfOk result (λ bytes. bytes ≡ answer_by self.now buffer.now) }
    {
        let mut bytes = Bytes::new(alloc);
        if self.count > 0 {
            push_answer(
                &mut bytes,
                buffer,
                usize::from(self.count),
                self.segments.as_slice(),
            )?;
        }
        Ok(bytes)
    }
}

/// The first bytes of a buffer, as many as it has at most.
fn front(buffer: &[u8], count: usize) -> &[u8]
    ensures { result.now ≡ take count buffer.now }
{
    &buffer[..count.min(buffer.len())]
}

/// The bytes behind the first ones.
fn rest(buffer: &[u8], count: usize) -> &[u8]
    ensures { result.now ≡ drop count buffer.now }
{
    &buffer[count.min(buffer.len())..]
}

/// How far behind the start of a segment the next one begins: its length rounded up to 4 bytes, and 16
/// bytes on.
fn distance(count: u16) -> usize
    ensures { result ≡ behind 0 count }
{
    (usize::from(count) + 3) / 4 * 4 + 16
}

/// Adds the first bytes of a buffer, or those in segments.
fn push_answer(
    out: &mut Bytes,
    buffer: &[u8],
    count: usize,
    segments: &[u16],
) -> Result<(), NoMemory>
    ensures { OnOk result (out.new ≡ out.old ++ answer_in buffer.now count segments.now) }
{
    if segments.is_empty() {
        return out.extend_from_slice(front(buffer, count));
    }
    push_segments(out, buffer, segments)
}

/// Adds the bytes in segments, in order.
fn push_segments(out: &mut Bytes, buffer: &[u8], segments: &[u16]) -> Result<(), NoMemory>
    ensures { OnOk result (out.new ≡ out.old ++ in_segments buffer.now segments.now) }
{
    if let [first, others @ ..] = segments {
        out.extend_from_slice(front(buffer, usize::from(*first)))?;
        push_segments(out, rest(buffer, distance(*first)), others)?;
    }
    Ok(())
}
