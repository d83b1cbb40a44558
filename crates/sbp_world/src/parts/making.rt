ghost use Rattle.std.specs.List.{AllByRecursion};
ghost use Rattle.packet_store.specs.Kept.{flying, recent};
ghost use Rattle.sbp_journal.specs.Written.{IsTyped};
ghost use Rattle.std.specs.Prelude.{◌≡◌, ◌+◌, ◌-◌, ◌≤◌, length, IfOk};
ghost use Rattle.sbp_world.specs.Making.{new_initiators, new_world, ready_logins};

use super::Parts;
use sbp_base::NoMemory;
use sbp_bus::Bus;
use sbp_initiator::Initiator;
use sbp_journal::{Journal, Note};
use sbp_target::Target;
use std::alloc::Global;

/// Initiators 0 and so on.
#[tactic(auto, using(crate::proofs::Making::initiators_none, crate::proofs::Making::initiators_more, crate::proofs::Making::initiators_size))]
fn new_initiators(alloc: Global, initiators: u8, ready: bool) -> Result<Vec<Initiator>, NoMemory>
    requires { initiators ≤ 4 }
    ensures made { IfOk result (λ list. list.items ≡ new_initiators initiators ready) }
    ensures size { IfOk result (λ list. length list.items ≡ initiators) }
{
    let mut list = Vec::new(alloc);
    for number in 0..usize::from(initiators) {
        list.push(Initiator::new(alloc, number as u8, ready)?)?;
    }
    Ok(list)
}

/// How many initiators have a login from the start.
fn ready_logins(initiators: u8, ready: bool) -> u8
    ensures result { result ≡ ready_logins initiators ready }
    ensures few { result ≤ initiators }
{
    if ready { initiators } else { 0 }
}

impl Parts {
    /// A run begins.
    #[tactic(auto, unfolding(crate::specs::Making::new_world))]
    pub(crate) fn new(
        alloc: Global,
        initiators: u8,
        ready: bool,
        units: u8,
    ) -> Result<Parts, NoMemory>
        requires initiators { initiators ≤ 4 }
        requires some { 1 ≤ units }
        requires units { units ≤ 4 }
        ensures { IfOk result (λ parts. parts ≡ new_world initiators ready units) }
    {
        let logins = ready_logins(initiators, ready);
        let note = Note::Begin { initiators, ready };
        Ok(Parts {
            bus: Bus::new(alloc, initiators, logins, note)?,
            target: Target::new(alloc, units, logins)?,
            initiators: new_initiators(alloc, initiators, ready)?,
        })
    }

    /// The notes of the last line.
    pub(crate) fn fresh(&self) -> &Journal
        ensures same { result.now ≡ self.now.fresh }
        ensures typed { AllByRecursion IsTyped self.now.fresh }
    {
        self.bus.fresh()
    }

    /// How many initiators there are.
    pub(crate) fn initiators(&self) -> usize
        ensures count { result ≡ length self.now.initiators }
        ensures few { result ≤ 4 }
    {
        self.initiators.len()
    }

    /// How many packets are kept.
    pub(crate) fn kept(&self) -> usize
        ensures all { result ≡ length self.now.store.kept }
        ensures shares { result ≡ length (flying self.now.store.kept) + length (recent (self.now.store.last - 1024) self.now.store.kept) }
    {
        self.bus.kept()
    }

    /// A line begins without notes.
    pub(crate) fn clear(&mut self)
        ensures { self.new ≡ without_notes self.old }
    {
        self.bus.clear();
    }
}

ghost use Rattle.sbp_world.specs.Worlds.{without_notes};
