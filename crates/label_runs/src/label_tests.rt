ghost use Rattle.std.specs.Prelude.{IsTrue};
ghost use Rattle.label_table.specs.Requests.{IsRequest};

use async_packet::{Label, PacketRef, decode};
use label_table::{Labels, NoLabel, Seen, Stale, Verdict};
use sbp_base::{Generation, NodeId};
use std::alloc::Global;

/// A write of the quadlet 1 from node FFC1h to a doorbell of node FFC0h, with label 0.
const DOORBELL: [u8; 16] = [
    0xff, 0xc0, 0x01, 0x00, 0xff, 0xc1, 0xff, 0xff, 0xf0, 0x04, 0x00, 0x10, 0, 0, 0, 1,
];

/// A read of a quadlet from node FFC1h.
const READ: [u8; 12] = [
    0xff, 0xc0, 0x01, 0x40, 0xff, 0xc1, 0xff, 0xff, 0xf0, 0x04, 0x00, 0x10,
];

/// Whether the bytes spell a request.
fn is_request(bytes: &[u8]) -> bool
    ensures { IsTrue result → IsRequest bytes.now }
{
    match decode(bytes) {
        Ok(PacketRef::WriteQuadlet { .. } | PacketRef::ReadQuadlet { .. }) => true,
        _ => false,
    }
}

/// `begin` of the write to a doorbell, while few calls were made.
fn ring(labels: &mut Labels) -> Option<Label> {
    let mut bytes = DOORBELL;
    if labels.calls() > 1000 || !is_request(&bytes) {
        return None;
    }
    labels.begin(&mut bytes).ok()
}

/// `expire` of a label, while few calls were made.
fn expire(labels: &mut Labels, label: Label) -> Option<Result<(), Stale>> {
    if labels.calls() > 1000 {
        return None;
    }
    Some(labels.expire(label))
}

/// `clear`, while few calls were made.
fn clear(labels: &mut Labels) -> bool {
    if labels.calls() > 1000 {
        return false;
    }
    labels.clear(Generation::first());
    true
}

/// Whether a handle made before `clear`, which frees its resting label, is stale, also for the same number.
fn makes_stale(labels: &mut Labels) -> Option<bool> {
    let early = ring(labels)?;
    let is_resting = expire(labels, early) == Some(Ok(())) && labels.free() == 63;
    let is_cleared = clear(labels) && labels.free() == 64;
    let is_same = ring(labels)?.number() == early.number();
    let is_stale = expire(labels, early) == Some(Err(Stale));
    Some(is_resting && is_cleared && is_same && is_stale)
}

/// Whether after 64 requests under way the next finds no label, and its bytes stay.
fn runs_out(labels: &mut Labels) -> Option<bool> {
    for number in 0..64 {
        if ring(labels)?.number() != number {
            return Some(false);
        }
    }
    let mut bytes = READ;
    if labels.calls() > 1000 || !is_request(&bytes) {
        return None;
    }
    Some(labels.begin(&mut bytes) == Err(NoLabel) && bytes == READ)
}

/// The same of new labels each.
fn labels_are_used(alloc: Global) -> Option<bool> {
    let is_stale = makes_stale(&mut Labels::new(alloc).ok()?)?;
    Some(is_stale && runs_out(&mut Labels::new(alloc).ok()?)?)
}

/// Judges a request, and remembers it with an rcode unless it is crowded.
fn deliver(seen: &mut Seen, source: u16, bytes: &[u8], rcode: u8) -> Option<Verdict> {
    if !is_request(bytes) {
        return None;
    }
    let source = NodeId::from_raw(source);
    let verdict = seen.judge(source, bytes);
    if verdict != Verdict::Crowded {
        seen.remember(source, bytes, rcode);
    }
    Some(verdict)
}

/// A sixth source is crowded; of the five a repeated write comes again, with its rcode, until a read
/// comes under its label. Each row has the source, the bytes, the rcode and the verdict.
const JUDGED: [(u16, &[u8], u8, Verdict); 9] = [
    (0xffc0, &DOORBELL, 4, Verdict::Fresh),
    (0xffc1, &DOORBELL, 4, Verdict::Fresh),
    (0xffc2, &DOORBELL, 4, Verdict::Fresh),
    (0xffc3, &DOORBELL, 4, Verdict::Fresh),
    (0xffc4, &DOORBELL, 4, Verdict::Fresh),
    (0xffc5, &DOORBELL, 4, Verdict::Crowded),
    (0xffc0, &DOORBELL, 4, Verdict::Again { rcode: 4 }),
    (0xffc0, &READ, 0, Verdict::Fresh),
    (0xffc0, &DOORBELL, 4, Verdict::Fresh),
];

/// Whether requests are judged so; once all are forgotten, the sixth source is heard.
fn judges(alloc: Global) -> Option<bool> {
    let mut seen = Seen::new(alloc).ok()?;
    for (source, bytes, rcode, verdict) in &JUDGED {
        if deliver(&mut seen, *source, bytes, *rcode) != Some(*verdict) {
            return Some(false);
        }
    }
    seen.clear();
    Some(deliver(&mut seen, 0xffc5, &DOORBELL, 4) == Some(Verdict::Fresh))
}

/// Labels that rest and that run out, and requests that are judged.
#[test]
fn labels_and_sources(rt: HostRuntime) {
    assert!(rt; labels_are_used(rt.alloc()) == Some(true));
    assert!(rt; judges(rt.alloc()) == Some(true));
}
