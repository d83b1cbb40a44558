ghost use Rattle.std.specs.Prelude.{◌≡◌, ◌+◌, ◌-◌, ◌^◌, ◌<◌, ◌≤◌, length, IsTrue, IfOk, IfSome, IfNone, OnOk, OnErr};
ghost use Rattle.std.specs.Option.{option_copied};
ghost use Rattle.packet_store.specs.Kept.{flying, found_sent, is_flying, first, recent, IsLowest, NoneFlies};
ghost use Rattle.packet_store.specs.Stored.{empty, send_step, deliver_step, lose_step};

use crate::role::{Role, role_of};
use crate::sent::Sent;
use crate::tables::Tables;
use crate::transaction::transaction_of;
use sbp_base::{Bytes, NoMemory};
use std::alloc::Global;
use std::marker::Model;

/// For how many serials a delivered packet is kept.
pub(crate) const KEPT_SERIALS: u64 = 1024;

/// The packets in flight, and the delivered ones among the last 1,024 serials.
#[derive(Drop)]
pub struct Store {
    tables: Tables,
    calls: u64,
}

impl Model for Store {
    ghost use Rattle.packet_store.specs.Stored.{Stored, IsStored};

    ghost Value = { Stored };

    ghost view = { λ a. record { kept = a.tables.shelf; last = a.tables.last; calls = a.calls } };

    ghost invariant = { λ a. IsStored a.tables.shelf a.tables.last a.calls };
}

impl Store {
    /// The store with no packet, in which no serial is given.
    pub fn new(alloc: Global) -> Store
        ensures { result ≡ empty }
    {
        Store {
            tables: Tables::new(alloc),
            calls: 0,
        }
    }

    /// Sends a packet: it is in flight under the next serial, counted from 1. A request that was
    /// not injected withdraws each earlier packet of its transaction. Where there is no memory the
    /// store stays.
    #[tactic(auto, unfolding(crate::specs::Transactions::transaction_of, crate::specs::Transactions::begun_by))]
    pub fn send(&mut self, packet: Sent) -> Result<u64, NoMemory>
        requires { self.old.calls < 2 ^ 56 }
        ensures serial { IfOk result (λ serial. serial ≡ self.old.last + 1) }
        ensures sent { OnOk result (self.new ≡ send_step self.old packet) }
        ensures failed { OnErr result (self.new ≡ self.old) }
    {
        let role = role_of(packet.bytes.as_slice());
        let transaction = transaction_of(role, &packet);
        let begins = matches!(role, Role::Request(_));
        self.tables.add(packet, transaction, begins)?;
        self.tables.drop_aged();
        self.calls += 1;
        Ok(self.tables.last)
    }

    /// The lowest serial in flight.
    pub fn lowest(&self) -> Option<u64>
        ensures first { result ≡ first (flying self.now.kept) }
        ensures lowest { IfSome result (IsLowest self.now.kept) }
        ensures none { IfNone result (NoneFlies self.now.kept) }
    {
        self.tables.shelf.lowest()
    }

    /// The packet of a serial, in flight or delivered among the last 1,024 serials.
    #[inline(always)]
    pub fn get(&self, serial: u64) -> Option<&Sent>
        ensures { option_copied result ≡ found_sent serial self.now.kept }
    {
        Some(&self.tables.shelf.get(serial)?.sent)
    }

    /// Whether a serial is in flight.
    pub fn is_in_flight(&self, serial: u64) -> bool
        ensures { result ≡ is_flying serial self.now.kept }
    {
        self.tables.shelf.is_flying(serial)
    }

    /// A packet in flight is delivered.
    pub fn delivered(&mut self, serial: u64)
        requires flight { IsTrue (is_flying serial self.old.kept) }
        requires count { self.old.calls < 2 ^ 56 }
        ensures { self.new ≡ deliver_step self.old serial }
    {
        if self.tables.last.saturating_sub(KEPT_SERIALS) < serial {
            self.tables.deliver(serial);
        } else {
            self.tables.drop_packet(serial);
        }
        self.calls += 1;
    }

    /// A packet in flight is lost.
    pub fn lost(&mut self, serial: u64)
        requires flight { IsTrue (is_flying serial self.old.kept) }
        requires count { self.old.calls < 2 ^ 56 }
        ensures { self.new ≡ lose_step self.old serial }
    {
        self.tables.drop_packet(serial);
        self.calls += 1;
    }

    /// Bytes of a packet that is kept no more, if there are any: their room serves for other bytes.
    pub fn take_spare(&mut self) -> Option<Bytes>
        ensures { self.new ≡ self.old }
    {
        self.tables.shelf.take_spare()
    }

    /// How many packets are in flight.
    pub fn in_flight(&self) -> usize
        ensures { result ≡ length (flying self.now.kept) }
    {
        self.tables.shelf.flying()
    }

    /// How many packets are kept: those in flight and the delivered ones among the last 1,024
    /// serials.
    pub fn kept(&self) -> usize
        ensures all { result ≡ length self.now.kept }
        ensures shares { result ≡ length (flying self.now.kept) + length (recent (self.now.last - 1024) self.now.kept) }
    {
        self.tables.shelf.len()
    }

    /// How many calls changed the store.
    pub fn calls(&self) -> u64
        ensures { result ≡ self.now.calls }
    {
        self.calls
    }
}
