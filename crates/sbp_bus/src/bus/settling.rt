ghost use Rattle.std.specs.Prelude.{◌≡◌, length, IfOk};
ghost use Rattle.packet_store.specs.Kept.{flying};
ghost use Rattle.sbp_bus.specs.Buses.{with_note};
ghost use Rattle.sbp_bus.specs.Loads.{lists_weight};
ghost use Rattle.sbp_bus.specs.Packets.{end_note, is_settled, lowest};

use super::Bus;
use sbp_base::NoMemory;
use sbp_journal::Note;

/// The note at the end of a `settle`.
fn end_note(settled: bool) -> Note
    ensures { result ≡ end_note settled }
{
    if settled {
        Note::Settled
    } else {
        Note::Stopped
    }
}

impl Bus {
    /// The lowest serial in flight.
    pub fn lowest(&self) -> Option<u64>
        ensures { result ≡ lowest self.now.store }
    {
        self.store.lowest()
    }

    /// How many packets are in flight.
    pub fn in_flight(&self) -> usize
        ensures { result ≡ length (flying self.now.store.kept) }
    {
        self.store.in_flight()
    }

    /// What the ORBs without a status count together in the budget, of lists that were not cut.
    pub fn weight(&self) -> u64
        ensures { result ≡ lists_weight self.now.loads }
    {
        self.loads.weight()
    }

    /// Tells at the end of a `settle` whether nothing is in flight.
    pub fn tell_end(&mut self) -> Result<bool, NoMemory>
        ensures done { IfOk result (λ settled. settled ≡ is_settled self.old) }
        ensures told { IfOk result (λ settled. self.new ≡ with_note (end_note settled) self.old) }
        ensures known { self.new.generations ≡ self.old.generations }
    {
        let settled = self.lowest().is_none();
        self.fresh.push(end_note(settled))?;
        Ok(settled)
    }
}
