ghost use Rattle.std.specs.Prelude.{◌≡◌, ◌+◌, ◌-◌, ◌^◌, ◌<◌, ◌≤◌, length, map, false, IfOk, OnErr, OnOk};
ghost use Rattle.label_table.specs.Layer.{seeing_step};
ghost use Rattle.login_table.specs.Table.{place_at};
ghost use Rattle.sbp_target.specs.Desks.{disabled};
ghost use Rattle.sbp_target.specs.Nodes.{scene};
ghost use Rattle.sbp_target.specs.Receiving.{expire_agent, expired, expired_from, held_all, held_from, seen, tell_held, ticked, timed_out, with_key};

use super::Node;
use crate::desk::Desk;
use crate::purpose::Purpose;
use async_packet::Label;
use label_table::{Stale, Transactions};
use login_table::{Login, Logins};
use orb_layout::Reply;
use sbp_base::{Generation, NoMemory, NodeId};
use sbp_journal::{CutCause, Outbox, Side};
use target_base::LoginPlace;

/// Tells that the live login of a place is held.
fn tell_held(outbox: &mut Outbox, login: Option<Login>) -> Result<(), NoMemory>
    ensures { OnOk result (outbox.new ≡ tell_held login outbox.old) }
{
    match login {
        Some(login) if login.remaining.is_none() => outbox.tell(Side::Held(login.login)),
        _ => Ok(()),
    }
}

/// Tells that each live login is held, by rising place.
#[tactic(auto, using(crate::proofs::Turns::holding, crate::proofs::Turns::held))]
fn tell_all_held(outbox: &mut Outbox, logins: &Logins) -> Result<(), NoMemory>
    ensures { OnOk result (outbox.new ≡ held_from 8 0 logins.now.places outbox.old) }
{
    for place in 0..8_usize {
        tell_held(outbox, logins.at(place as u8))?;
    }
    Ok(())
}

/// Tells that logins ran out.
#[tactic(auto, using(crate::proofs::Turns::expiring, crate::proofs::Turns::expired))]
fn tell_expired(outbox: &mut Outbox, logins: &[u16]) -> Result<(), NoMemory>
    ensures { OnOk result (outbox.new ≡ expired_from (length logins.now) 0 logins.now outbox.old) }
{
    for at in 0..logins.len() {
        outbox.tell(Side::Expired(logins[at]))?;
    }
    Ok(())
}

/// The transaction layer sees a generation; whether it is a later one.
#[tactic(auto, unfolding(label_table::specs::Layer::seeing_step))]
fn sees(layer: &mut Transactions<Purpose>, generation: Generation, id: NodeId) -> bool
    requires { layer.old.calls < 2 ^ 56 }
    ensures step { (result, layer.new) ≡ seeing_step layer.old generation id }
    ensures same { result ≡ false → layer.new ≡ layer.old }
    ensures count { layer.new.calls ≤ layer.old.calls + 1 }
{
    layer.see(generation, id)
}

/// Disables each register for unsolicited status.
fn disable_each(desks: &mut [Desk])
    ensures { desks.new ≡ map disabled desks.old }
{
    for place in 0..desks.len() {
        desks[place].disable();
    }
}

impl Node {
    /// A transaction times out; it is stale exactly where it is not the one under way, and nothing
    /// changes then. Memory is wanting only where it is under way.
    #[tactic(auto, unfolding(crate::specs::Receiving::expired))]
    pub(crate) fn expire(
        &mut self,
        outbox: &mut Outbox,
        peer: NodeId,
        label: Label,
    ) -> Result<Result<(), Stale>, NoMemory>
        requires count { self.old.layer.calls + 4 ≤ 2 ^ 56 }
        ensures step { IfOk result (λ done. (done, scene self.new outbox.new) ≡ expired peer label (scene self.old outbox.old)) }
        ensures stale { IfOk result (λ done. OnErr done ((self.new ≡ self.old) × (outbox.new ≡ outbox.old))) }
        ensures wanting { OnErr result ((expired peer label (scene self.old outbox.old)).0 ≡ Ok tt) }
        ensures count { self.new.layer.calls ≤ self.old.layer.calls + 4 }
        ensures units { length self.new.units ≡ length self.old.units }
    {
        match self.layer.expire(peer, label) {
            Err(stale) => Ok(Err(stale)),
            Ok(None) => Ok(Ok(())),
            Ok(Some(purpose)) => {
                self.time_out(outbox, &purpose, peer, &label)?;
                Ok(Ok(()))
            }
        }
    }

    /// What a time-out brings, by what its transaction was for.
    fn time_out(
        &mut self,
        outbox: &mut Outbox,
        purpose: &Purpose,
        peer: NodeId,
        label: &Label,
    ) -> Result<(), NoMemory>
        requires count { self.old.layer.calls + 3 ≤ 2 ^ 56 }
        ensures step { OnOk result (scene self.new outbox.new ≡ timed_out (Some purpose.now) peer label.now (scene self.old outbox.old)) }
        ensures count { self.new.layer.calls ≤ self.old.layer.calls + 3 }
        ensures units { length self.new.units ≡ length self.old.units }
    {
        match purpose {
            Purpose::Agent(place) => self.expire_agent(outbox, *place, peer, label),
            Purpose::Management => self.manage(outbox, Reply::Expired),
            Purpose::Unsolicited => Ok(()),
        }
    }

    /// A transaction of the agent of a place timed out, if it is one that the agent waits for.
    #[tactic(auto, unfolding(crate::specs::Receiving::expire_agent))]
    fn expire_agent(
        &mut self,
        outbox: &mut Outbox,
        place: LoginPlace,
        peer: NodeId,
        label: &Label,
    ) -> Result<(), NoMemory>
        requires count { self.old.layer.calls + 3 ≤ 2 ^ 56 }
        ensures step { OnOk result (scene self.new outbox.new ≡ expire_agent place peer label.now (scene self.old outbox.old)) }
        ensures count { self.new.layer.calls ≤ self.old.layer.calls + 3 }
        ensures units { length self.new.units ≡ length self.old.units }
    {
        let Some(login) = self.logins.at(place.number()) else {
            return Ok(());
        };
        let Some(which) = self.awaited(place, peer, label) else {
            return Ok(());
        };
        let step = self.desks[place.index()].expire(which);
        self.follow(outbox, place, &login, step)
    }

    /// Sees a generation, and the node's ID in that; whether it is a later one. Where it is not,
    /// nothing changes.
    #[tactic(auto, unfolding(crate::specs::Receiving::seen))]
    pub(crate) fn see(
        &mut self,
        outbox: &mut Outbox,
        generation: Generation,
        id: NodeId,
    ) -> Result<bool, NoMemory>
        requires count { self.old.layer.calls < 2 ^ 56 }
        ensures step { IfOk result (λ later. (later, scene self.new outbox.new) ≡ seen generation id (scene self.old outbox.old)) }
        ensures count { self.new.layer.calls ≤ self.old.layer.calls + 1 }
        ensures same { IfOk result (λ later. later ≡ false → self.new.layer.calls ≡ self.old.layer.calls) }
        ensures units { length self.new.units ≡ length self.old.units }
    {
        if !sees(&mut self.layer, generation, id) {
            return Ok(false);
        }
        self.manager.clear();
        self.cut_all(outbox, CutCause::Reset, None)?;
        self.hold_all(outbox)?;
        Ok(true)
    }

    /// Holds every live login, and disables the registers.
    fn hold_all(&mut self, outbox: &mut Outbox) -> Result<(), NoMemory>
        ensures step { OnOk result (scene self.new outbox.new ≡ held_all (scene self.old outbox.old)) }
        ensures count { self.new.layer.calls ≡ self.old.layer.calls }
        ensures units { length self.new.units ≡ length self.old.units }
    {
        tell_all_held(outbox, &self.logins)?;
        self.logins.hold();
        disable_each(&mut self.desks);
        self.pending.clear();
        Ok(())
    }

    /// Takes one second from each held login.
    #[tactic(auto, unfolding(crate::specs::Receiving::ticked))]
    pub(crate) fn tick(&mut self, outbox: &mut Outbox) -> Result<(), NoMemory>
        ensures step { OnOk result (scene self.new outbox.new ≡ ticked (scene self.old outbox.old)) }
        ensures count { self.new.layer.calls ≡ self.old.layer.calls }
        ensures units { length self.new.units ≡ length self.old.units }
    {
        let expired = self.logins.tick();
        tell_expired(outbox, expired.as_slice())
    }

    /// Sets the key of a unit that exists.
    pub(crate) fn set_key(&mut self, unit: u8, key: [u8; 8])
        requires { unit < length self.old.units }
        ensures left { self.new ≡ with_key unit key self.old }
        ensures count { self.new.layer.calls ≡ self.old.layer.calls }
        ensures units { length self.new.units ≡ length self.old.units }
    {
        self.keys[usize::from(unit)] = key;
    }
}
