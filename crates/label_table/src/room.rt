ghost use Rattle.std.specs.Prelude.{◌≡◌, ◌<◌, ◌≤◌, length, None, Some, IfOk, IsTrue};
ghost use Rattle.label_table.specs.Requests.{is_last, with_label};
ghost use Rattle.std.specs.Str.{bytes_eq};

use sbp_base::NoMemory;
use std::alloc::Global;
use std::marker::Model;

/// The most bytes of a request: 16 bytes and a payload of 2,048.
pub(crate) const LONGEST: usize = 2064;

/// Room for the bytes of one request, taken when it is made; no byte of it is written before a
/// request is kept. Contracts see the request that is kept in it, or none.
#[derive(Drop)]
pub struct RequestRoom {
    room: Vec<u8>,
    is_kept: bool,
}

impl Model for RequestRoom {
    ghost use Rattle.std.specs.Prelude.{◌≤◌, ℕ, List, vec_capacity, Option, Some, None, if◌then◌else◌};

    ghost Value = { Option (List ℕ) };

    ghost view = { λ a. if a.is_kept then Some a.room.items else None };

    ghost invariant = { λ a. 2064 ≤ vec_capacity a.room };
}

impl RequestRoom {
    /// Room with no request in it.
    pub(crate) fn new(alloc: Global) -> Result<RequestRoom, NoMemory>
        ensures { IfOk result (λ room. room ≡ None) }
    {
        Ok(RequestRoom {
            room: Vec::with_capacity(alloc, LONGEST)?,
            is_kept: false,
        })
    }

    /// Keeps a request of at most 2,064 bytes in place of the one before.
    pub(crate) fn keep(&mut self, bytes: &[u8])
        requires { length bytes.now ≤ 2064 }
        ensures { self.new ≡ Some bytes.now }
    {
        self.room.clear();
        let Ok(()) = self.room.extend_from_slice(bytes) else {
            unreachable!()
        };
        self.is_kept = true;
    }

    /// Keeps none.
    pub(crate) fn forget(&mut self)
        ensures { self.new ≡ None }
    {
        self.is_kept = false;
    }

    /// Whether a request is kept and has these bytes.
    pub(crate) fn is(&self, bytes: &[u8]) -> bool
        ensures { result ≡ is_last self.now bytes.now }
    {
        self.is_kept && are_same(self.room.as_slice(), bytes)
    }

    /// Whether a request is kept and has these bytes with this label, below 64, in them.
    #[tactic(auto, unfolding(crate::specs::Requests::with_label))]
    pub(crate) fn is_labelled(&self, bytes: &[u8], number: u8) -> bool
        requires size { 12 ≤ length bytes.now }
        requires small { number < 64 }
        ensures { result ≡ is_last self.now (with_label number bytes.now) }
    {
        self.is_kept && has_label(self.room.as_slice(), bytes, number)
    }
}

/// Whether these are the bytes of a request with this label, below 64, in them.
fn has_label(last: &[u8], bytes: &[u8], number: u8) -> bool
    requires size { 12 ≤ length bytes.now }
    requires small { number < 64 }
    ensures { result ≡ bytes_eq last.now (with_label number bytes.now) }
{
    last.len() == bytes.len() && has_label_within(last, bytes, number)
}

/// Whether the last bytes are the same, if there are any.
#[inline(always)]
fn ends_alike(last: &[u8], bytes: &[u8]) -> bool
    ensures { last.now ≡ bytes.now → IsTrue result }
{
    match (last.last(), bytes.last()) {
        (Some(one), Some(other)) => one == other,
        _ => true,
    }
}

/// Whether two have the same bytes. Of two writes that differ most do so in the last byte, which is looked at
/// first.
#[tactic(auto, using(crate::proofs::Parts::unlike))]
fn are_same(last: &[u8], bytes: &[u8]) -> bool
    ensures { result ≡ bytes_eq last.now bytes.now }
{
    ends_alike(last, bytes) && last == bytes
}

/// The same for as many bytes: those before byte 2, that byte, and those behind it.
fn has_label_within(last: &[u8], bytes: &[u8], number: u8) -> bool
    requires size { 12 ≤ length bytes.now }
    requires same { length last.now ≡ length bytes.now }
    requires small { number < 64 }
    ensures { result ≡ bytes_eq last.now (with_label number bytes.now) }
{
    let is_front = last[0..2] == bytes[0..2];
    let is_labelled = last[2] == number * 4 + bytes[2] % 4;
    let is_rest = are_same(&last[3..], &bytes[3..]);
    is_front && (is_labelled && is_rest)
}
