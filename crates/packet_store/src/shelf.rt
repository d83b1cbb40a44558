ghost use Rattle.std.specs.Prelude.{◌≡◌, ◌<◌, ◌≤◌, ◌++◌, [], ◌∷◌, length, OnOk, OnErr};
ghost use Rattle.std.specs.Option.{option_copied};
ghost use Rattle.packet_store.specs.Kept.{without, with_delivered, found, flying, in_air, AreBelow};
ghost use Rattle.packet_store.specs.Flights.{Least};
ghost use Rattle.packet_store.specs.Bags.{begun_if};
ghost use Rattle.packet_store.specs.Transactions.{transaction_of};
ghost use Rattle.packet_store.specs.Stored.{by_bus_rule, newest};

use crate::aloft::Flights;
use crate::packets::Packets;
use crate::sent::{Kept, Sent};
use crate::transaction::Transaction;
use sbp_base::{Bytes, NoMemory};
use std::alloc::Global;
use std::marker::Model;

/// Packets, with the last one's serial, how many there are, and what is in flight of them. The bytes of
/// sixteen packets that were taken out, at most, are set aside for others.
#[derive(Drop)]
pub(crate) struct Shelf {
    packets: Packets,
    last: u64,
    count: usize,
    flights: Flights,
    spares: Vec<Bytes>,
}

impl Model for Shelf {
    ghost use Rattle.std.specs.Prelude.{◌≤◌, List, length};
    ghost use Rattle.packet_store.specs.declared.sent.Kept.{Kept};
    ghost use Rattle.packet_store.specs.Packets.{Exact, holds};
    ghost use Rattle.packet_store.specs.Shelves.{listed, IsShelf};
    ghost use Rattle.packet_store.specs.Flights.{AreFlights};

    ghost Value = { List Kept };

    ghost view = { λ a. listed (holds a.packets) a.last };

    ghost invariant = { λ a. IsShelf a.packets a.last a.count × AreFlights a.packets a.last a.flights × (length a.spares.items ≤ 16) × Exact a.packets };
}

impl Shelf {
    /// The empty shelf.
    pub(crate) fn new(alloc: Global) -> Shelf
        ensures { result ≡ [] }
    {
        Shelf {
            packets: Packets::new(alloc),
            last: 0,
            count: 0,
            flights: Flights {
                lowest: None,
                count: 0,
            },
            spares: Vec::new(alloc),
        }
    }

    /// How many packets there are.
    pub(crate) fn len(&self) -> usize
        ensures { result ≡ length self.now }
    {
        self.count
    }

    /// The packet of a serial.
    #[inline(always)]
    pub(crate) fn get(&self, serial: u64) -> Option<&Kept>
        ensures { option_copied result ≡ found serial self.now }
    {
        self.packets.get(serial)
    }

    /// Whether the packet of a serial is in flight.
    pub(crate) fn is_flying(&self, serial: u64) -> bool
        ensures { result ≡ in_air (found serial self.now) }
    {
        matches!(self.get(serial), Some(kept) if kept.in_flight)
    }

    /// The lowest serial in flight.
    pub(crate) fn lowest(&self) -> Option<u64>
        ensures { Least (λ q. found q self.now) result }
    {
        self.flights.lowest
    }

    /// How many packets are in flight.
    pub(crate) fn flying(&self) -> usize
        ensures { result ≡ length (flying self.now) }
    {
        self.flights.count
    }

    /// Puts a packet, which belongs to this transaction, in flight under a new serial, from 1 on, behind
    /// all others. Where it begins the transaction, the packets before it are withdrawn.
    pub(crate) fn push(
        &mut self,
        serial: u64,
        sent: Sent,
        transaction: Option<Transaction>,
        begins: bool,
    ) -> Result<(), NoMemory>
        requires named { transaction ≡ transaction_of sent }
        requires counted { 0 < serial }
        requires above { AreBelow serial self.old }
        ensures pushed { OnOk result (self.new ≡ by_bus_rule (begun_if begins transaction) serial (self.old ++ newest serial sent ∷ [])) }
        ensures failed { OnErr result (self.new ≡ self.old) }
    {
        let kept = Kept {
            serial,
            in_flight: true,
            sent,
        };
        let mut going = self.packets.put(kept, transaction, begins)?;
        self.last = serial;
        self.count += 1;
        self.flights.take_off(serial);
        while let Some(key) = going.pop() {
            if let Some(kept) = self.packets.take_going(key) {
                self.count -= 1;
                let (gone, flew) = (kept.serial, kept.in_flight);
                set_aside(&mut self.spares, kept.sent.bytes);
                if flew {
                    self.flights.land(&self.packets, gone, serial);
                }
            }
        }
        Ok(())
    }

    /// Takes out the packet of a serial.
    pub(crate) fn remove(&mut self, serial: u64)
        ensures { self.new ≡ without serial self.old }
    {
        if let Some(kept) = self.packets.take(serial) {
            self.count -= 1;
            let flew = kept.in_flight;
            set_aside(&mut self.spares, kept.sent.bytes);
            if flew {
                self.flights.land(&self.packets, serial, self.last);
            }
        }
    }

    /// Bytes of a packet that was taken out, if there are any, for their room.
    pub(crate) fn take_spare(&mut self) -> Option<Bytes>
        ensures { self.new ≡ self.old }
    {
        self.spares.pop()
    }

    /// The packet of a serial becomes delivered.
    pub(crate) fn deliver(&mut self, serial: u64)
        ensures { self.new ≡ with_delivered serial self.old }
    {
        let flew = self.packets.deliver(serial);
        if flew {
            self.flights.land(&self.packets, serial, self.last);
        }
    }
}

/// Sets bytes aside, where they are among the first sixteen.
#[inline(always)]
fn set_aside(spares: &mut Vec<Bytes>, bytes: Bytes)
    ensures { length spares.old.items ≤ 16 → length spares.new.items ≤ 16 }
{
    if spares.len() < 16 {
        let _kept = spares.push(bytes);
    }
}
