ghost use Rattle.std.specs.Prelude.{◌≡◌, ℕ, ◌+◌, ◌-◌, ◌^◌, ◌<◌, ◌++◌, [], ◌∷◌, OnOk, OnErr};
ghost use Rattle.std.specs.List.{filter};
ghost use Rattle.packet_store.specs.Transactions.{transaction_of};
ghost use Rattle.packet_store.specs.Bags.{begun_if};
ghost use Rattle.packet_store.specs.Stored.{by_bus_rule, newest, stays};
ghost use Rattle.packet_store.specs.Kept.{without, with_delivered, found, is_delivered};
ghost use Rattle.packet_store.specs.Sound.{AreKept};

use crate::sent::Sent;
use crate::shelf::Shelf;
use crate::store::KEPT_SERIALS;
use crate::transaction::Transaction;
use sbp_base::NoMemory;
use std::alloc::Global;

/// The kept packets, and the last serial.
#[derive(Drop)]
pub(crate) struct Tables {
    pub(crate) shelf: Shelf,
    pub(crate) last: u64,
}

impl Tables {
    /// No packet, and no serial given.
    pub(crate) fn new(alloc: Global) -> Tables
        ensures shelf { result.shelf ≡ [] }
        ensures last { result.last ≡ 0 }
    {
        Tables {
            shelf: Shelf::new(alloc),
            last: 0,
        }
    }

    /// The packet of a serial becomes delivered.
    pub(crate) fn deliver(&mut self, serial: u64)
        ensures shelf { self.new.shelf ≡ with_delivered serial self.old.shelf }
        ensures last { self.new.last ≡ self.old.last }
        ensures sound { (since : ℕ) → since < serial → AreKept self.old.last since 0 self.old.shelf → AreKept self.new.last since 0 self.new.shelf }
    {
        self.shelf.deliver(serial);
    }

    /// Takes out the packet of a serial.
    #[inline(always)]
    pub(crate) fn drop_packet(&mut self, serial: u64)
        ensures shelf { self.new.shelf ≡ without serial self.old.shelf }
        ensures last { self.new.last ≡ self.old.last }
        ensures sound { (since : ℕ) → AreKept self.old.last since 0 self.old.shelf → AreKept self.new.last since 0 self.new.shelf }
    {
        self.shelf.remove(serial);
    }

    /// Puts a packet, which belongs to this transaction, in flight under the next serial. Where it begins
    /// the transaction, the packets before it are withdrawn.
    pub(crate) fn add(
        &mut self,
        sent: Sent,
        transaction: Option<Transaction>,
        begins: bool,
    ) -> Result<(), NoMemory>
        requires room { self.old.last < 2 ^ 63 }
        requires named { transaction ≡ transaction_of sent }
        requires sound { AreKept self.old.last (self.old.last - 1024) 0 self.old.shelf }
        ensures added { OnOk result (self.new.shelf ≡ by_bus_rule (begun_if begins transaction) (self.old.last + 1) (self.old.shelf ++ newest (self.old.last + 1) sent ∷ [])) }
        ensures failed { OnErr result (self.new.shelf ≡ self.old.shelf) }
        ensures last { OnOk result (self.new.last ≡ self.old.last + 1) }
        ensures no_last { OnErr result (self.new.last ≡ self.old.last) }
        ensures sound { AreKept self.new.last (self.old.last - 1024) 0 self.new.shelf }
    {
        let serial = self.last + 1;
        self.shelf.push(serial, sent, transaction, begins)?;
        self.last = serial;
        Ok(())
    }

    /// Drops the delivered packet that is not among the last 1,024 serials any more.
    pub(crate) fn drop_aged(&mut self)
        requires { AreKept self.old.last (self.old.last - 1025) 0 self.old.shelf }
        ensures shelf { self.new.shelf ≡ filter (stays (self.old.last - 1024)) self.old.shelf }
        ensures last { self.new.last ≡ self.old.last }
        ensures sound { AreKept self.new.last (self.new.last - 1024) 0 self.new.shelf }
    {
        if self.last <= KEPT_SERIALS {
            return;
        }
        let aged = self.last - KEPT_SERIALS;
        if self.is_delivered(aged) {
            self.drop_packet(aged);
        }
    }

    /// Whether the packet of a serial is kept as delivered.
    fn is_delivered(&self, serial: u64) -> bool
        ensures { result ≡ is_delivered (found serial self.now.shelf) }
    {
        matches!(self.shelf.get(serial), Some(kept) if !kept.in_flight)
    }
}
