use packet_store::{Sent, Store};
use sbp_base::{Bytes, Generation};
use std::alloc::Global;

/// A read of a quadlet from node FFC1h to node FFC0h, with label 0.
const READ: [u8; 12] = [
    0xff, 0xc0, 0x01, 0x40, 0xff, 0xc1, 0xff, 0xff, 0xf0, 0x04, 0x00, 0x10,
];

/// The answer to it.
const ANSWER: [u8; 16] = [
    0xff, 0xc1, 0x01, 0x60, 0xff, 0xc0, 0x00, 0x00, 0, 0, 0, 0, 0, 0, 0, 1,
];

/// Sends a packet between initiator 0 and the target.
fn send(store: &mut Store, alloc: Global, from: u8, bytes: &[u8], injected: bool) -> Option<u64> {
    if store.calls() > 10_000 {
        return None;
    }
    let sent = Sent {
        generation: Generation::first(),
        from,
        to: if from == 0 { 1 } else { 0 },
        bytes: Bytes::from_slice(alloc, bytes).ok()?,
        injected,
    };
    store.send(sent).ok()
}

/// Sends the request, or the same as one that is injected.
fn ask(store: &mut Store, alloc: Global, injected: bool) -> Option<u64> {
    send(store, alloc, 1, &READ, injected)
}

/// Sends the answer.
fn answer(store: &mut Store, alloc: Global) -> Option<u64> {
    send(store, alloc, 0, &ANSWER, false)
}

/// Delivers a packet that is in flight, or else tells that it is none.
fn deliver(store: &mut Store, serial: u64) -> Option<()> {
    if store.calls() > 10_000 || !store.is_in_flight(serial) {
        return None;
    }
    store.delivered(serial);
    Some(())
}

/// Loses a packet that is in flight.
fn lose(store: &mut Store, serial: u64) -> Option<()> {
    if store.calls() > 10_000 || !store.is_in_flight(serial) {
        return None;
    }
    store.lost(serial);
    Some(())
}

/// Sends answers and delivers each; whether so many packets at most are kept behind each.
fn keeps_few(store: &mut Store, alloc: Global, count: u32, most: usize) -> Option<bool> {
    for _ in 0..count {
        let serial = answer(store, alloc)?;
        deliver(store, serial)?;
        if store.kept() > most {
            return Some(false);
        }
    }
    Some(true)
}

/// Whether after 2,000 packets the delivered ones among the last 1,024 serials are kept.
fn old_packet_goes(store: &mut Store, alloc: Global) -> Option<bool> {
    let is_so = keeps_few(store, alloc, 2000, 1024)?
        && store.get(1).is_none()
        && store.get(976).is_none()
        && store.get(977).is_some()
        && store.kept() == 1024
        && store.in_flight() == 0
        && store.lowest() == None;
    Some(is_so)
}

/// Whether a label used again withdraws the request that was delivered and its answer in flight.
fn label_is_used_again(store: &mut Store, alloc: Global) -> Option<bool> {
    let request = ask(store, alloc, false)?;
    deliver(store, request)?;
    let answered = answer(store, alloc)?;
    let again = ask(store, alloc, false)?;
    let is_so = !store.is_in_flight(answered)
        && store.get(request).is_none()
        && store.lowest() == Some(again);
    Some(is_so)
}

/// Whether an injected request withdraws nothing and is never withdrawn.
fn injected_stays(store: &mut Store, alloc: Global) -> Option<bool> {
    let request = ask(store, alloc, false)?;
    let injected = ask(store, alloc, true)?;
    let withdraws = !store.is_in_flight(request) || !store.is_in_flight(injected);
    let again = ask(store, alloc, false)?;
    let is_so = !withdraws
        && !store.is_in_flight(request)
        && store.is_in_flight(injected)
        && store.is_in_flight(again);
    Some(is_so)
}

/// Whether a packet stays in flight however old it is, and one that is older than 1,023 serials is dropped
/// as it arrives. A lost packet is gone.
fn late_and_lost(store: &mut Store, alloc: Global) -> Option<bool> {
    let late = ask(store, alloc, false)?;
    let is_lowest = keeps_few(store, alloc, 1024, 1025)? && store.lowest() == Some(late);
    deliver(store, late)?;
    let is_dropped = store.get(late).is_none();
    let lost = answer(store, alloc)?;
    lose(store, lost)?;
    let is_gone = store.get(lost).is_none() && store.in_flight() == 0;
    Some(is_lowest && is_dropped && is_gone)
}

/// Courses of new stores each.
#[test]
fn stores(rt: HostRuntime) {
    let alloc = rt.alloc();
    assert!(rt; old_packet_goes(&mut Store::new(alloc), alloc) == Some(true));
    assert!(rt; label_is_used_again(&mut Store::new(alloc), alloc) == Some(true));
    assert!(rt; injected_stays(&mut Store::new(alloc), alloc) == Some(true));
    assert!(rt; late_and_lost(&mut Store::new(alloc), alloc) == Some(true));
}
