ghost use Rattle.std.specs.Prelude.{◌≡◌, ◌+◌, ◌^◌, ◌<◌, ◌↔◌, IsSome, IfSome};

use std::marker::Model;

/// A place in a node's space of addresses, 48 bits (IEEE 1394-1995, node addresses).
#[derive(Clone, Copy, Debug, PartialEq, Eq)]
pub struct Offset {
    bytes: u64,
}

impl Model for Offset {
    ghost use Rattle.std.specs.Prelude.{ℕ, ◌^◌, ◌<◌};

    ghost Value = { ℕ };

    ghost view = { λ offset. offset.bytes };

    ghost invariant = { λ offset. offset.bytes < 2 ^ 48 };

    ghost inverse = { λ bytes. record { bytes = bytes } };
}

impl Offset {
    /// The first offset, 0, which stands where an address is wanted and none is meant.
    pub fn zero() -> Offset
        ensures { result ≡ 0 }
    {
        Offset { bytes: 0 }
    }

    /// The offset of this value; there is none exactly from 2^48 on.
    pub fn new(value: u64) -> Option<Offset>
        ensures some { IsSome result ↔ (value < 2 ^ 48) }
        ensures value { IfSome result (λ offset. offset ≡ value) }
    {
        if value >= 1 << 48 {
            return None;
        }
        Some(Offset { bytes: value })
    }

    /// The offset as a number, below 2^48.
    pub fn value(self) -> u64
        ensures value { result ≡ self }
        ensures small { self < 2 ^ 48 }
    {
        self.bytes
    }

    /// The offset so many bytes on; there is none exactly where the sum reaches 2^48.
    pub fn plus(self, bytes: u32) -> Option<Offset>
        ensures some { IsSome result ↔ (self + bytes < 2 ^ 48) }
        ensures value { IfSome result (λ offset. offset ≡ self + bytes) }
    {
        Offset::new(self.bytes + u64::from(bytes))
    }
}
