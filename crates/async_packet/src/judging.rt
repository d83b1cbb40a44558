ghost use Rattle.std.specs.Prelude.{◌≡◌, ◌≤◌, length, IsTrue};
ghost use Rattle.async_packet.specs.Fields.{tcode_of, length_of, extended_of, is_kind, has_length, is_lock, is_extended, is_request_length, is_response_length, is_lock_length, head_of, whole_of, padded, largest};
ghost use Rattle.async_packet.specs.Faults.{first, length_rows, end_rows, fault_of};

use crate::fault::PacketFault;
use crate::fields::{LARGEST, extended_at, length_at, padded, tcode_at};

/// The fault of bytes, if they are no packet: the first of the table that holds.
#[tactic(auto, unfolding(crate::specs::Faults::fault_of))]
#[inline(always)]
pub fn judge(bytes: &[u8]) -> Option<PacketFault>
    ensures { result ≡ fault_of bytes.now }
{
    if bytes.len() < 4 {
        return Some(PacketFault::Short { need: 4 });
    }
    let tcode = tcode_at(bytes);
    if !names_kind(tcode) {
        return Some(PacketFault::Code { tcode });
    }
    let head = head_bytes(tcode);
    if bytes.len() < usize::from(head) {
        return Some(PacketFault::Short { need: head });
    }
    if tells_length(tcode) {
        judge_length(bytes, tcode)
    } else {
        judge_end(bytes, head)
    }
}

/// The fault of bytes on their data_length, and on how many they are.
fn judge_length(bytes: &[u8], tcode: u8) -> Option<PacketFault>
    requires long { 16 ≤ length bytes.now }
    requires kind { IsTrue (has_length tcode) }
    ensures { result ≡ first (length_rows (length bytes.now) tcode (length_of bytes.now) (extended_of bytes.now)) }
{
    let declared = length_at(bytes);
    if declared > LARGEST {
        return Some(PacketFault::TooBig { length: declared });
    }
    let code = extended_at(bytes);
    let locks = names_lock(tcode);
    if locks && !names_extended(code) {
        return Some(PacketFault::Extended { code });
    }
    if locks && !fits_lock(tcode, code, usize::from(declared)) {
        return Some(PacketFault::LockLength { length: declared });
    }
    judge_end(bytes, whole_bytes(tcode, declared))
}

/// The fault of bytes that should be so many.
fn judge_end(bytes: &[u8], whole: u16) -> Option<PacketFault>
    ensures { result ≡ first (end_rows (length bytes.now) whole) }
{
    let count = bytes.len();
    if count < usize::from(whole) {
        return Some(PacketFault::Short { need: whole });
    }
    if count > usize::from(whole) {
        return Some(PacketFault::Long {
            extra: count - usize::from(whole),
        });
    }
    None
}

/// Whether packets have this tcode.
fn names_kind(tcode: u8) -> bool
    ensures { result ≡ is_kind tcode }
{
    (tcode <= 2 || (4 <= tcode && tcode <= 7)) || (tcode == 9 || tcode == 11)
}

/// Whether packets of this tcode have a data_length.
fn tells_length(tcode: u8) -> bool
    ensures { result ≡ has_length tcode }
{
    (tcode == 1 || tcode == 5) || (tcode == 7 || (tcode == 9 || tcode == 11))
}

/// Whether packets of this tcode are locks.
fn names_lock(tcode: u8) -> bool
    ensures { result ≡ is_lock tcode }
{
    tcode == 9 || tcode == 11
}

/// Whether locks have this extended_tcode.
pub(crate) fn names_extended(code: u16) -> bool
    ensures { result ≡ is_extended code }
{
    1 <= code && code <= 6
}

/// The bytes before the payload.
fn head_bytes(tcode: u8) -> u16
    ensures { result ≡ head_of tcode }
{
    if tcode == 2 || tcode == 4 { 12 } else { 16 }
}

/// The bytes of a whole packet with this data_length.
fn whole_bytes(tcode: u8, declared: u16) -> u16
    requires kind { IsTrue (has_length tcode) }
    requires small { declared ≤ largest }
    ensures { result ≡ whole_of tcode declared }
{
    if tcode == 5 {
        16
    } else {
        (16 + padded(usize::from(declared))) as u16
    }
}

/// Whether a lock of this tcode and extended_tcode has payloads of so many bytes.
fn fits_lock(tcode: u8, code: u16, count: usize) -> bool
    ensures { result ≡ is_lock_length tcode code count }
{
    if tcode == 9 {
        fits_request(code, count)
    } else {
        fits_response(count)
    }
}

/// Whether a lock request of this extended_tcode has payloads of so many bytes.
pub(crate) fn fits_request(code: u16, count: usize) -> bool
    ensures { result ≡ is_request_length code count }
{
    if code == 3 || code == 4 {
        count == 4 || count == 8
    } else {
        count == 8 || count == 16
    }
}

/// Whether a lock response has payloads of so many bytes.
pub(crate) fn fits_response(count: usize) -> bool
    ensures { result ≡ is_response_length count }
{
    count == 0 || (count == 4 || count == 8)
}
