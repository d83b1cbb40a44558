use async_packet::{Label, PacketRef};
use label_table::{Judgement, RequestBody, Stale, Transactions};
use sbp_base::{Generation, NodeId, Offset};
use std::alloc::Global;

/// The target's node and the initiator's.
const TARGET: u16 = 0xffc0;

const INITIATOR: u16 = 0xffc1;

/// The packets 1 to 4 of a TEST UNIT READY: the write of a pointer and its response, the read of the
/// ORB there and its response.
const POINTER: [u8; 24] = [
    0xff, 0xc0, 0x01, 0x10, 0xff, 0xc1, 0xff, 0xff, 0xf0, 0x04, 0x00, 0x08, 0, 8, 0, 0, 0, 0, 0, 0,
    0x10, 0, 0, 0,
];

const WRITTEN: [u8; 12] = [0xff, 0xc1, 0x01, 0x20, 0xff, 0xc0, 0, 0, 0, 0, 0, 0];

const FETCH: [u8; 16] = [
    0xff, 0xc1, 0x01, 0x50, 0xff, 0xc0, 0, 0, 0x10, 0, 0, 0, 0, 0x20, 0, 0,
];

const FETCHED: [u8; 48] = [
    0xff, 0xc0, 0x01, 0x70, 0xff, 0xc1, 0, 0, 0, 0, 0, 0, 0, 0x20, 0, 0, 0x80, 0, 0, 0, 0, 0, 0, 0,
    0, 0, 0, 0, 0, 0, 0, 0, 0x82, 0x90, 0, 0, 0, 0, 0, 0, 0, 0, 0, 0, 0, 0, 0, 0,
];

/// `ask` while few calls were made, for something, which finds a label and spells these bytes.
fn ask(
    layer: &mut Transactions<u8>,
    alloc: Global,
    peer: u16,
    body: &RequestBody<'_>,
    purpose: u8,
    spelled: &[u8],
) -> Option<Label> {
    let fits = match body {
        RequestBody::WriteBlock { payload, .. } => payload.len() <= 2048,
        RequestBody::ReadBlock { length, .. } => *length <= 2048,
        _ => false,
    };
    if layer.calls() > 1000 || !fits {
        return None;
    }
    match layer.ask(alloc, NodeId::from_raw(peer), body, purpose) {
        Ok(Some(asked)) if asked.bytes.as_slice() == spelled => Some(asked.label),
        _ => None,
    }
}

/// `judge` while few calls were made: the row by which a packet is ignored, or else what a response was
/// for.
fn row(
    layer: &mut Transactions<u8>,
    generation: Generation,
    bytes: &[u8],
) -> (&'static str, Option<u8>) {
    if layer.calls() > 1000 {
        return ("condition", None);
    }
    match layer.judge(generation, bytes) {
        Judgement::Generation => ("generation", None),
        Judgement::Grammar => ("grammar", None),
        Judgement::Label => ("label", None),
        Judgement::Response { purpose, .. } => ("response", purpose),
        _ => ("served", None),
    }
}

/// Judges the write of the pointer, and answers it with an rcode, or with that of the first time; whether
/// the response is that of rcode 0.
fn serves_write(layer: &mut Transactions<u8>, alloc: Global, rcode: u8) -> bool {
    if layer.calls() > 1000 || rcode > 15 {
        return false;
    }
    let (packet, rcode) = match layer.judge(Generation::first(), &POINTER) {
        Judgement::Again { packet, rcode } => (packet, rcode),
        Judgement::Request { packet } => (packet, rcode),
        _ => return false,
    };
    if !matches!(packet, PacketRef::WriteBlock { .. }) {
        return false;
    }
    match layer.answer(alloc, &packet, &POINTER, rcode, &[]) {
        Ok(response) => response.as_slice() == WRITTEN.as_slice(),
        Err(_) => false,
    }
}

/// Whether an initiator sends the request of that write, and its response tells what it was for, once.
fn asks_for_write(layer: &mut Transactions<u8>, alloc: Global) -> Option<bool> {
    let body = RequestBody::WriteBlock {
        offset: Offset::new(0xffff_f004_0008)?,
        payload: &POINTER[16..24],
    };
    let _label = ask(layer, alloc, TARGET, &body, 1, &POINTER)?;
    let first = Generation::first();
    let is_told = row(layer, first, &WRITTEN) == ("response", Some(1));
    Some(is_told && row(layer, first, &WRITTEN) == ("label", None))
}

/// Whether a packet is ignored by each row where the ones before it do not hold.
fn ignores_by_rows(layer: &mut Transactions<u8>) -> bool {
    let first = Generation::first();
    row(layer, first.next(), &POINTER[0..3]) == ("generation", None)
        && row(layer, first, &POINTER[0..3]) == ("grammar", None)
        && row(layer, first, &WRITTEN) == ("grammar", None)
        && row(layer, first, &FETCHED) == ("label", None)
}

/// Whether a transaction that was left to nobody tells nothing, and one from before a reset is stale.
fn leaves_and_resets(layer: &mut Transactions<u8>, alloc: Global) -> Option<bool> {
    let first = Generation::first();
    let initiator = NodeId::from_raw(INITIATOR);
    let body = RequestBody::ReadBlock {
        offset: Offset::new(0x1000_0000)?,
        length: 32,
    };
    let left = ask(layer, alloc, INITIATOR, &body, 2, &FETCH)?;
    layer.disown(initiator, left);
    let tells_nothing = row(layer, first, &FETCHED) == ("response", None);
    let stale = ask(layer, alloc, INITIATOR, &body, 2, &FETCH)?;
    if layer.calls() > 1000 || !layer.see(first.next(), NodeId::from_raw(TARGET)) {
        return None;
    }
    if layer.calls() > 1000 {
        return None;
    }
    Some(tells_nothing && layer.expire(initiator, stale) == Err(Stale))
}

/// Whether a target's layer serves a write that comes again as the first time.
fn serves_twice(alloc: Global) -> Option<bool> {
    let mut target = Transactions::new(alloc, NodeId::from_raw(TARGET)).ok()?;
    Some(serves_write(&mut target, alloc, 0) && serves_write(&mut target, alloc, 7))
}

/// Whether new layers of an initiator and of a target do the rest.
fn asks_and_ignores(alloc: Global) -> Option<bool> {
    let mut initiator = Transactions::new(alloc, NodeId::from_raw(INITIATOR)).ok()?;
    let is_asked = asks_for_write(&mut initiator, alloc)?;
    let mut target = Transactions::new(alloc, NodeId::from_raw(TARGET)).ok()?;
    let is_ignored = ignores_by_rows(&mut target);
    Some(is_asked && is_ignored && leaves_and_resets(&mut target, alloc)?)
}

/// A pointer is written and answered; the write comes again, and is answered as the first time. The request
/// that an initiator sends for it; the rows; and transactions that are left, and that a reset ends.
#[test]
fn transactions(rt: HostRuntime) {
    assert!(rt; serves_twice(rt.alloc()) == Some(true));
    assert!(rt; asks_and_ignores(rt.alloc()) == Some(true));
}
