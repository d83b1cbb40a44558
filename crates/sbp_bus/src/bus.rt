ghost use Rattle.std.specs.Prelude.{◌≡◌, ◌+◌, ◌-◌, ◌≤◌, ◌∷◌, [], length, IfOk, OnOk};
ghost use Rattle.std.specs.List.{AllByRecursion};
ghost use Rattle.packet_store.specs.Kept.{flying, recent};
ghost use Rattle.sbp_bus.specs.Buses.{new_bus, with_note, without_notes};
ghost use Rattle.sbp_journal.specs.Written.{IsTyped};

use crate::generations::Generations;
use crate::loads::Loads;
use crate::places::Places;
use crate::requests::Requests;
use packet_store::Store;
use sbp_base::NoMemory;
use sbp_journal::{Journal, Note};
use std::alloc::Global;
use std::marker::Model;

mod packets;
mod sending;
mod settling;
mod sights;
mod telling;

/// The calls that a store counts.
const STORE_CALLS: u64 = 1 << 56;

/// The bus: its generations with every node's IDs, the packets, the requests under way, who has each
/// place of the target's logins, what the budget counts, and the notes of the line. After want of memory
/// it must not be used again.
#[derive(Drop)]
pub struct Bus {
    alloc: Global,
    generations: Generations,
    store: Store,
    /// The last serial that was given.
    last: u64,
    requests: Requests,
    places: Places,
    loads: Loads,
    fresh: Journal,
}

impl Model for Bus {
    ghost use Rattle.sbp_bus.specs.Buses.{BusState, IsSound};

    ghost Value = { BusState };

    ghost view = { λ a. record {
      generations = a.generations;
      store = a.store;
      requests = a.requests;
      places = a.places;
      loads = a.loads;
      fresh = a.fresh;
    } };

    ghost invariant = { λ a. IsSound a.generations a.store a.last };
}

/// The notes of a line that has one.
fn one_note(alloc: Global, note: Note) -> Result<Journal, NoMemory>
    ensures { IfOk result (λ notes. notes ≡ note ∷ []) }
{
    let mut fresh = Journal::new(alloc);
    fresh.push(note)?;
    Ok(fresh)
}

impl Bus {
    /// The bus as a run begins, with the note of its line: the target and at most four initiators, of
    /// which so many have a login.
    pub fn new(alloc: Global, initiators: u8, logins: u8, note: Note) -> Result<Bus, NoMemory>
        requires { initiators ≤ 4 }
        ensures made { IfOk result (λ bus. bus ≡ new_bus initiators logins note) }
        ensures seen { IfOk result (λ bus. length bus.generations.seen ≡ initiators + 1) }
        ensures ids { IfOk result (λ bus. length bus.generations.latest.ids ≡ initiators + 1) }
    {
        Ok(Bus {
            alloc,
            generations: Generations::new(alloc, initiators + 1)?,
            store: Store::new(alloc),
            last: 0,
            requests: Requests::new(alloc)?,
            places: Places::new(alloc, logins)?,
            loads: Loads::new(alloc, initiators)?,
            fresh: one_note(alloc, note)?,
        })
    }

    /// The notes of the line, each inside the types of its fields.
    pub fn fresh(&self) -> &Journal
        ensures same { result.now ≡ self.now.fresh }
        ensures typed { AllByRecursion IsTyped self.now.fresh }
    {
        self.fresh.each_fits();
        &self.fresh
    }

    /// A note behind those of the line.
    pub fn tell(&mut self, note: Note) -> Result<(), NoMemory>
        ensures step { OnOk result (self.new ≡ with_note note self.old) }
        ensures known { self.new.generations ≡ self.old.generations }
    {
        self.fresh.push(note)
    }

    /// A line begins without notes.
    pub fn clear(&mut self)
        ensures { self.new ≡ without_notes self.old }
    {
        self.fresh.clear();
    }

    /// How many packets are kept: those in flight, and the delivered ones among the last 1,024 serials.
    pub fn kept(&self) -> usize
        ensures all { result ≡ length self.now.store.kept }
        ensures shares { result ≡ length (flying self.now.store.kept) + length (recent (self.now.store.last - 1024) self.now.store.kept) }
    {
        self.store.kept()
    }
}
