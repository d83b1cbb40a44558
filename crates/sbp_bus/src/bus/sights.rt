ghost use Rattle.std.specs.Prelude.{◌≡◌, ◌<◌, length, OnOk};
ghost use Rattle.sbp_bus.specs.Generations.{id_of};
ghost use Rattle.sbp_bus.specs.Packets.{reset_line, seen_line};

use super::Bus;
use sbp_base::{Generation, NoMemory, NodeId};
use sbp_journal::Note;

impl Bus {
    /// The latest generation.
    pub fn latest(&self) -> Generation
        ensures { result ≡ self.now.generations.latest.generation }
    {
        self.generations.latest()
    }

    /// The ID of a node in the latest generation.
    pub fn latest_id(&self, node: u8) -> NodeId
        requires { node < length self.now.generations.latest.ids }
        ensures { result ≡ id_of self.now.generations.latest node }
    {
        self.generations.latest_id(node)
    }

    /// A bus reset: the next generation, with new physical IDs, and its note. No node has seen it yet.
    /// Want of memory is answered too where there is no next generation.
    pub fn reset(&mut self, ids: &[u8]) -> Result<(), NoMemory>
        requires { length ids.now ≡ length self.old.generations.latest.ids }
        ensures step { OnOk result (self.new ≡ reset_line ids.now self.old) }
        ensures seen { length self.new.generations.seen ≡ length self.old.generations.seen }
        ensures ids { length self.new.generations.latest.ids ≡ length self.old.generations.latest.ids }
    {
        self.generations.reset(self.alloc, ids)?;
        let generation = self.generations.latest().number();
        self.fresh.push(Note::Reset { generation })
    }

    /// A node sees the latest generation, and this is told.
    pub fn see(&mut self, node: u8) -> Result<(), NoMemory>
        requires { node < length self.old.generations.seen }
        ensures step { OnOk result (self.new ≡ seen_line node self.old) }
        ensures latest { self.new.generations.latest ≡ self.old.generations.latest }
        ensures seen { length self.new.generations.seen ≡ length self.old.generations.seen }
    {
        let generation = self.generations.latest().number();
        self.fresh.push(Note::Seen { node, generation })?;
        self.generations.see(self.alloc, node)
    }
}
