ghost use Rattle.std.specs.Prelude.{◌≡◌, ℕ, ◌^◌, ◌<◌, ◌≤◌, ◌==◌, ◌++◌, ◌∷◌, [], if◌then◌else◌, false, List, Option, None, Some, IfOk, OnOk, OnErr, IfSome, IfNone};
ghost use Rattle.std.specs.Option.{option_copied};
ghost use Rattle.packet_store.specs.Kept.{in_air, marked};
ghost use Rattle.packet_store.specs.Flights.{IsNext};
ghost use Rattle.packet_store.specs.Packets.{Exact, Goes, IsGoing, holds, key_in};
ghost use Rattle.packet_store.specs.Bags.{begun_if};
ghost use Rattle.packet_store.specs.declared.sent.Kept.{Kept};
ghost use Rattle.packet_store.specs.declared.transaction.Transaction.{Transaction};
ghost use Rattle.packet_store.specs.Rings.{IsRing, finds};
ghost use Rattle.packet_store.specs.Transactions.{transaction_of};

use crate::bags::Bags;
use crate::ring::{Place, Ring};
use crate::sent::Kept;
use crate::transaction::Transaction;
use sbp_base::NoMemory;
use slab::Slab;
use smallvec::SmallVec;
use std::alloc::Global;

/// Packets in a slab, and beside it its keys: by serial in a ring, by transaction in bags.
#[derive(Drop)]
pub(crate) struct Packets {
    pub(crate) slab: Slab<Kept>,
    pub(crate) ring: Ring,
    pub(crate) bags: Bags,
}

impl Packets {
    /// No packet.
    #[tactic(auto, using(crate::proofs::Keyed::none_tied), unfolding(crate::specs::Packets::holds))]
    pub(crate) fn new(alloc: Global) -> Packets
        ensures none { (q : ℕ) → holds result q ≡ None }
        ensures exact { Exact result }
    {
        Packets {
            slab: Slab::new(alloc),
            ring: Ring::new(alloc),
            bags: Bags::new(alloc),
        }
    }

    /// The packet of a serial.
    #[inline(always)]
    #[tactic(auto, unfolding(crate::specs::Packets::holds))]
    pub(crate) fn get(&self, serial: u64) -> Option<&Kept>
        ensures { option_copied result ≡ holds self.now serial }
    {
        self.slab.get(self.key_of(serial)?)
    }

    /// The key of the packet of a serial.
    #[inline(always)]
    fn key_of(&self, serial: u64) -> Option<usize>
        ensures { result ≡ key_in (finds self.now.ring serial) }
    {
        Some(self.ring.get(serial)?.key)
    }

    /// The lowest serial in flight above one, up to the last one.
    #[inline(always)]
    pub(crate) fn next_flying(&self, serial: u64, last: u64) -> Option<u64>
        ensures found { IfSome result (λ s. IsNext (holds self.now) serial s) }
        ensures none { IfNone result ((q : ℕ) → serial < q → q ≤ last → in_air (holds self.now q) ≡ false) }
    {
        let mut at = serial;
        while at < last {
            at += 1;
            if matches!(self.get(at), Some(kept) if kept.in_flight) {
                return Some(at);
            }
        }
        None
    }

    /// Puts a packet, which belongs to this transaction, under its serial. Where it begins the
    /// transaction, the keys of the packets before it are given, which have to leave.
    pub(crate) fn put(
        &mut self,
        kept: Kept,
        transaction: Option<Transaction>,
        begins: bool,
    ) -> Result<SmallVec<usize, 3>, NoMemory>
        requires exact { Exact self.old }
        requires fresh { holds self.old kept.serial ≡ None }
        requires named { transaction ≡ transaction_of kept.sent }
        ensures put { OnOk result ((q : ℕ) → holds self.new q ≡ (if kept.serial == q then Some kept else holds self.old q)) }
        ensures failed { OnErr result ((q : ℕ) → holds self.new q ≡ holds self.old q) }
        ensures exact { OnErr result (Exact self.new) }
        ensures going { IfOk result (λ gone. IsGoing self.new (begun_if begins transaction) gone.items kept.serial) }
        ensures fits { kept.serial < 2 ^ 64 }
    {
        let serial = kept.serial;
        self.slab.reserve(1)?;
        let key = self.slab.vacant_key();
        self.ring.put(Place {
            serial,
            key,
            transaction,
        })?;
        match self.bags.insert(transaction, key, begins) {
            Ok(gone) => {
                self.slab.insert_reserved(kept);
                Ok(gone)
            }
            Err(error) => {
                self.ring.take(serial);
                Err(error)
            }
        }
    }

    /// Takes out the packet of a serial.
    pub(crate) fn take(&mut self, serial: u64) -> Option<Kept>
        requires { Exact self.old }
        ensures taken { result ≡ holds self.old serial }
        ensures removed { (q : ℕ) → holds self.new q ≡ (if serial == q then None else holds self.old q) }
        ensures exact { Exact self.new }
    {
        let place = self.ring.take(serial)?;
        let kept = self.slab.try_remove(place.key)?;
        self.bags.remove(place.transaction, place.key);
        Some(kept)
    }

    /// The packet of a serial becomes delivered. Whether it was in flight.
    pub(crate) fn deliver(&mut self, serial: u64) -> bool
        requires { Exact self.old }
        ensures flew { result ≡ in_air (holds self.old serial) }
        ensures marked { (q : ℕ) → holds self.new q ≡ (if serial == q then marked (holds self.old q) else holds self.old q) }
        ensures exact { Exact self.new }
    {
        let Some(key) = self.key_of(serial) else {
            return false
        };
        if let Some(kept) = self.slab.get_mut(key) {
            let flew = kept.in_flight;
            kept.in_flight = false;
            return flew;
        }
        false
    }

    /// Takes out the packet of the last one of the keys that have to leave.
    pub(crate) fn take_going(&mut self, key: usize) -> Option<Kept>
        requires { IsRing self.old.ring }
        ensures some { (begun : Option Transaction) (gone : List ℕ) (serial : ℕ) → IsGoing self.old begun (gone ++ key ∷ []) serial → (k : Kept) × (result ≡ Some k) }
        ensures goes { IfSome result (λ k. (begun : Option Transaction) (gone : List ℕ) (serial : ℕ) → IsGoing self.old begun (gone ++ key ∷ []) serial → Goes self.old self.new begun gone serial k) }
    {
        let kept = self.slab.try_remove(key)?;
        self.ring.take(kept.serial);
        Some(kept)
    }
}
