ghost use Rattle.std.specs.Prelude.{◌≡◌, ◌+◌, ◌≤◌, length, map, IfOk, OnOk};
ghost use Rattle.std.specs.List.{AllByRecursion};
ghost use Rattle.packet_store.specs.Kept.{flying, recent};
ghost use Rattle.sbp_journal.specs.Written.{IsTyped};
ghost use Rattle.sbp_target.specs.Faults.{NoneFell};
ghost use Rattle.sbp_world.specs.Lines.{Happens, IsEvent};
ghost use Rattle.sbp_world.specs.Making.{new_world};
ghost use Rattle.sbp_world.specs.Settling.{HasSettled};
ghost use Rattle.sbp_world.specs.Wire.Keeping.{BeginsLawfully, KeepsLaws, SettlesLawfully, SettlesWhereItMay};
ghost use Rattle.sbp_world.specs.Worlds.{scene};

use crate::parts::Parts;
use rbc_disk::Medium;
use sbp_base::NoMemory;
use sbp_journal::{Event, Journal, Outbox};
use std::alloc::Global;
use std::marker::Model;

/// The bus with its nodes, and the notes of the last line. After want of memory it must not be used again.
#[derive(Drop)]
pub struct World {
    parts: Parts,
    outbox: Outbox,
}

impl Model for World {
    ghost use Rattle.sbp_world.specs.Worlds.{WorldState};

    ghost Value = { WorldState };

    ghost view = { λ world. world.parts };
}

impl World {
    /// A run begins: with 1 to 4 initiators, each logged in on unit 0 where they are ready, and 1 to 4
    /// units. Its note is inside the types of its fields.
    pub fn begin(alloc: Global, initiators: u8, ready: bool, units: u8) -> Result<World, NoMemory>
        requires some { 1 ≤ initiators }
        requires few { initiators ≤ 4 }
        requires one { 1 ≤ units }
        requires units { units ≤ 4 }
        ensures world { IfOk result (λ world. world ≡ new_world initiators ready units) }
        ensures lawful { IfOk result (λ world. BeginsLawfully initiators ready units world) }
        ensures typed { IfOk result (λ world. AllByRecursion IsTyped world.fresh) }
    {
        let parts = Parts::new(alloc, initiators, ready, units)?;
        // Its clause has that the note is inside its types.
        let _fresh = parts.fresh();
        Ok(World {
            parts,
            outbox: Outbox::new(alloc),
        })
    }

    /// Runs the event of the line with this number; its notes are then [`World::fresh`], each inside the
    /// types of its fields. A refused action is a note.
    pub fn step(
        &mut self,
        media: &mut Vec<Box<dyn Medium>>,
        line: u32,
        event: &Event,
    ) -> Result<(), NoMemory>
        requires event { IsEvent event.now (length self.old.initiators) }
        requires media { length media.old.items ≡ length self.old.target.units }
        ensures size { length media.new.items ≡ length media.old.items }
        ensures fell { NoneFell (map media_faults media.old.items) (map media_faults media.new.items) }
        ensures units { length self.new.target.units ≡ length self.old.target.units }
        ensures happens { OnOk result (Happens line event.now (scene self.old (map disk media.old.items) (map media_faults media.old.items)) (scene self.new (map disk media.new.items) (map media_faults media.new.items))) }
        ensures lawful { OnOk result (KeepsLaws line event.now (scene self.old (map disk media.old.items) (map media_faults media.old.items)) (scene self.new (map disk media.new.items) (map media_faults media.new.items))) }
        ensures typed { OnOk result (AllByRecursion IsTyped self.new.fresh) }
    {
        self.parts.step(media, &mut self.outbox, line, event)?;
        // Its clause has that the notes are inside their types.
        let _fresh = self.parts.fresh();
        Ok(())
    }

    /// Runs a `settle`; true exactly where nothing is in flight at the end, and so behind each lossless run
    /// in which nobody injected packets and whose budget is 10,000,000 at most. Its notes are inside the types
    /// of their fields.
    pub fn settle(&mut self, media: &mut Vec<Box<dyn Medium>>, line: u32) -> Result<bool, NoMemory>
        requires media { length media.old.items ≡ length self.old.target.units }
        ensures size { length media.new.items ≡ length media.old.items }
        ensures fell { NoneFell (map media_faults media.old.items) (map media_faults media.new.items) }
        ensures units { length self.new.target.units ≡ length self.old.target.units }
        ensures settles { IfOk result (λ settled. HasSettled settled (scene self.old (map disk media.old.items) (map media_faults media.old.items)) (scene self.new (map disk media.new.items) (map media_faults media.new.items))) }
        ensures lawful { OnOk result (SettlesLawfully line (scene self.old (map disk media.old.items) (map media_faults media.old.items)) (scene self.new (map disk media.new.items) (map media_faults media.new.items))) }
        ensures done { IfOk result (λ settled. SettlesWhereItMay line settled (scene self.old (map disk media.old.items) (map media_faults media.old.items)) (scene self.new (map disk media.new.items) (map media_faults media.new.items))) }
        ensures typed { OnOk result (AllByRecursion IsTyped self.new.fresh) }
    {
        self.parts.clear();
        let settled = self.parts.settle(media, &mut self.outbox)?;
        // Its clause has that the notes are inside their types.
        let _fresh = self.parts.fresh();
        Ok(settled)
    }

    /// The notes of the last line alone, each inside the types of its fields; after `begin` that of its line.
    pub fn fresh(&self) -> &Journal
        ensures same { result.now ≡ self.now.fresh }
        ensures typed { AllByRecursion IsTyped self.now.fresh }
    {
        self.parts.fresh()
    }

    /// How many initiators there are.
    pub fn initiators(&self) -> usize
        ensures count { result ≡ length self.now.initiators }
        ensures few { result ≤ 4 }
    {
        self.parts.initiators()
    }

    /// How many packets are kept: those in flight, and the delivered ones among the last 1,024 serials.
    pub fn kept(&self) -> usize
        ensures all { result ≡ length self.now.store.kept }
        ensures shares { result ≡ length (flying self.now.store.kept) + length (recent (self.now.store.last - 1024) self.now.store.kept) }
    {
        self.parts.kept()
    }
}

ghost use Rattle.std.specs.Prelude.{◌-◌};
