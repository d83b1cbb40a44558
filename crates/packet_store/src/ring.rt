ghost use Rattle.std.specs.Prelude.{◌≡◌, ℕ, ◌^◌, ◌<◌, ◌≤◌, ◌==◌, if◌then◌else◌, length, false, true, None, Some, OnOk, OnErr, IfSome, IfNone};
ghost use Rattle.std.specs.Option.{option_copied};
ghost use Rattle.packet_store.specs.Rings.{slot_of, slot, is_of, older, finds, IsRing};

use crate::transaction::Transaction;
use sbp_base::NoMemory;
use std::alloc::Global;
use std::collections::HashMap;

/// The slots of a ring.
const SLOTS: u64 = 2048;

/// A serial, and the key of its packet in the slab with its transaction.
#[derive(Clone, Copy, Drop)]
pub(crate) struct Place {
    pub(crate) serial: u64,
    pub(crate) key: usize,
    pub(crate) transaction: Option<Transaction>,
}

/// Places by their serials: each in the slot of its serial or, where a later one has that slot, among
/// the older ones.
#[derive(Drop)]
pub(crate) struct Ring {
    pub(crate) slots: Vec<Option<Place>>,
    pub(crate) older: HashMap<u64, Place>,
}

/// The slot of a serial.
fn slot_of(serial: u64) -> usize
    ensures slot { result ≡ slot_of serial }
    ensures below { result < 2048 }
    ensures fits { serial < 2 ^ 64 }
{
    (serial % SLOTS) as usize
}

impl Ring {
    /// No place.
    #[tactic(auto, unfolding(crate::specs::Rings::finds))]
    pub(crate) fn new(alloc: Global) -> Ring
        ensures none { (q : ℕ) → finds result q ≡ None }
        ensures ring { IsRing result }
    {
        Ring {
            slots: Vec::new(alloc),
            older: HashMap::new(alloc),
        }
    }

    /// Makes the slots, where there are none yet.
    #[tactic(auto, using(crate::proofs::Rings::ring_more, crate::proofs::Rings::slot_more), unfolding(crate::specs::Rings::finds))]
    fn prepare(&mut self) -> Result<(), NoMemory>
        requires { IsRing self.old }
        ensures same { (q : ℕ) → finds self.new q ≡ finds self.old q }
        ensures ring { IsRing self.new }
        ensures size { OnOk result (2048 ≤ length self.new.slots.items) }
    {
        while (self.slots.len() as u64) < SLOTS {
            self.slots.push(None)?;
        }
        Ok(())
    }

    /// What a slot has.
    #[tactic(auto, using(crate::proofs::Rings::beyond, crate::proofs::Rings::read))]
    fn slot(&self, at: usize) -> Option<&Place>
        ensures { option_copied result ≡ slot self.now.slots.items at }
    {
        if at < self.slots.len() {
            self.slots[at].as_ref()
        } else {
            None
        }
    }

    /// Whether the place of a serial is in its slot.
    fn is_in_slot(&self, serial: u64) -> bool
        ensures { result ≡ is_of serial (slot self.now.slots.items (slot_of serial)) }
    {
        matches!(self.slot(slot_of(serial)), Some(place) if place.serial == serial)
    }

    /// The place of a serial.
    #[inline(always)]
    #[tactic(auto, unfolding(crate::specs::Rings::finds))]
    pub(crate) fn get(&self, serial: u64) -> Option<&Place>
        ensures { option_copied result ≡ finds self.now serial }
    {
        if self.is_in_slot(serial) {
            return self.slot(slot_of(serial));
        }
        self.older.get(&serial)
    }

    /// Moves the place in a slot to the older ones.
    #[tactic(auto, using(crate::proofs::Rings::spilled), unfolding(crate::specs::Rings::finds))]
    fn spill(&mut self, at: usize) -> Result<(), NoMemory>
        requires at { at < length self.old.slots.items }
        requires ring { IsRing self.old }
        ensures same { (q : ℕ) → finds self.new q ≡ finds self.old q }
        ensures ring { IsRing self.new }
        ensures size { length self.new.slots.items ≡ length self.old.slots.items }
        ensures free { OnOk result (slot self.new.slots.items at ≡ None) }
    {
        if let Some(place) = self.slots[at] {
            self.older.insert(place.serial, place)?;
            self.slots[at] = None;
        }
        Ok(())
    }

    /// Puts a place under its serial.
    #[tactic(auto, using(crate::proofs::Rings::put_there), unfolding(crate::specs::Rings::finds))]
    pub(crate) fn put(&mut self, place: Place) -> Result<(), NoMemory>
        requires ring { IsRing self.old }
        requires fresh { finds self.old place.serial ≡ None }
        ensures put { OnOk result ((q : ℕ) → finds self.new q ≡ (if place.serial == q then Some place else finds self.old q)) }
        ensures failed { OnErr result ((q : ℕ) → finds self.new q ≡ finds self.old q) }
        ensures ring { IsRing self.new }
        ensures fits { place.serial < 2 ^ 64 }
    {
        let at = slot_of(place.serial);
        self.prepare()?;
        self.spill(at)?;
        self.slots[at] = Some(place);
        Ok(())
    }

    /// Takes out the place of a serial.
    #[tactic(auto, using(crate::proofs::Rings::of_range), unfolding(crate::specs::Rings::finds))]
    pub(crate) fn take(&mut self, serial: u64) -> Option<Place>
        requires { IsRing self.old }
        ensures taken { result ≡ finds self.old serial }
        ensures removed { (q : ℕ) → finds self.new q ≡ (if serial == q then None else finds self.old q) }
        ensures ring { IsRing self.new }
    {
        if self.is_in_slot(serial) {
            return self.slots[slot_of(serial)].take();
        }
        self.take_older(serial)
    }

    /// Takes out the place of a serial from among the older ones.
    #[cold]
    #[inline(never)]
    fn take_older(&mut self, serial: u64) -> Option<Place>
        ensures taken { result ≡ older self.old.older.entries serial }
        ensures removed { (q : ℕ) → older self.new.older.entries q ≡ (if serial == q then None else older self.old.older.entries q) }
        ensures slots { self.new.slots ≡ self.old.slots }
    {
        self.older.remove(&serial)
    }
}
