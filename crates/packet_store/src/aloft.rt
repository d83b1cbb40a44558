ghost use Rattle.std.specs.Prelude.{◌≡◌, ℕ, ◌+◌, ◌^◌, ◌<◌, Option};
ghost use Rattle.packet_store.specs.declared.sent.Kept.{Kept};
ghost use Rattle.packet_store.specs.Packets.{holds};
ghost use Rattle.packet_store.specs.Flights.{Least, Landed, NoneAbove, lowest_with};

use crate::packets::Packets;

/// What is in flight: the lowest serial, and how many there are.
#[derive(Clone, Copy, Drop)]
pub(crate) struct Flights {
    pub(crate) lowest: Option<u64>,
    pub(crate) count: usize,
}

impl Flights {
    /// A serial above all others takes off.
    pub(crate) fn take_off(&mut self, serial: u64)
        requires { self.old.count + 1 < 2 ^ 64 }
        ensures lowest { self.new.lowest ≡ lowest_with serial self.old.lowest }
        ensures count { self.new.count ≡ self.old.count + 1 }
    {
        if self.lowest.is_none() {
            self.lowest = Some(serial);
        }
        self.count += 1;
    }

    /// A serial that was in flight, up to the last one, is in flight no more. What is above the lowest
    /// serial is looked at only once, as that only rises.
    #[tactic(auto, using(crate::proofs::Airborne::next_least, crate::proofs::Airborne::same_least))]
    #[inline(always)]
    pub(crate) fn land(&mut self, packets: &Packets, serial: u64, last: u64)
        requires count { 0 < self.old.count }
        ensures lowest { (f : ℕ → Option Kept) → Landed serial f (holds packets.now) → NoneAbove last f → Least f self.old.lowest → Least (holds packets.now) self.new.lowest }
        ensures count { self.new.count + 1 ≡ self.old.count }
    {
        self.count -= 1;
        if self.lowest == Some(serial) {
            self.lowest = packets.next_flying(serial, last);
        }
    }
}
