ghost use Rattle.std.specs.Prelude.{◌≡◌, ◌+◌, ◌*◌, ◌^◌, ◌<◌, ◌≤◌, length, map, IfOk, OnOk};
ghost use Rattle.sbp_target.specs.Counting.{counted, counted_if};
ghost use Rattle.sbp_target.specs.Faults.{NoneFell};
ghost use Rattle.sbp_target.specs.Nodes.{scene};
ghost use Rattle.sbp_target.specs.Receiving.{Receives, seen, ticked, with_key};
ghost use Rattle.sbp_target.specs.Replies.{whole};
ghost use Rattle.sbp_target.specs.Targets.{Expires, new_target};

use crate::node::Node;
use async_packet::Label;
use rbc_disk::Medium;
use sbp_base::{Generation, NoMemory, NodeId};
use sbp_journal::{Judged, Outbox, TargetFault};
use std::alloc::Global;
use std::marker::Model;

/// The target node (NCITS 325-1998): its transaction layer, its management agent with the logins, an
/// agent for each place of their table, its units, and its configuration ROM.
#[derive(Drop)]
pub struct Target {
    calls: u64,
    node: Node,
}

impl Model for Target {
    ghost use Rattle.sbp_target.specs.Targets.{TargetState, IsCounted};

    ghost Value = { TargetState };

    ghost view = { λ a. record { calls = a.calls; node = a.node } };

    ghost invariant = { λ a. IsCounted (record { calls = a.calls; node = a.node }) };
}

impl Target {
    /// A target of 1 to 4 units, with physical ID 0 in generation 0. `ready` initiators, 4 at most,
    /// have a login from the start.
    pub fn new(alloc: Global, units: u8, ready: u8) -> Result<Target, NoMemory>
        requires some { 1 ≤ units }
        requires units { units ≤ 4 }
        requires ready { ready ≤ 4 }
        ensures { IfOk result (λ target. target ≡ new_target units ready) }
    {
        Ok(Target {
            calls: 0,
            node: Node::new(alloc, units, ready)?,
        })
    }

    /// The number of the calls that changed it.
    pub fn calls(&self) -> u64
        ensures { result ≡ self.now.calls }
    {
        self.calls
    }

    /// Judges a packet that is delivered, by the first row that holds; `generation` is that of the
    /// packet. What it brings is handed out: its response first, then requests. After `NoMemory` the
    /// target is not used again.
    pub fn receive(
        &mut self,
        media: &mut Vec<Box<dyn Medium>>,
        generation: Generation,
        bytes: &[u8],
        outbox: &mut Outbox,
    ) -> Result<Judged, NoMemory>
        requires media { length media.old.items ≡ length self.old.node.units }
        requires calls { self.old.calls < 2 ^ 48 }
        ensures size { length media.new.items ≡ length media.old.items }
        ensures fell { NoneFell (map media_faults media.old.items) (map media_faults media.new.items) }
        ensures units { length self.new.node.units ≡ length self.old.node.units }
        ensures step { IfOk result (λ judged. Receives generation bytes.now (whole (scene self.old.node outbox.old) (map disk media.old.items)) judged (whole (scene self.new.node outbox.new) (map disk media.new.items)) (map media_faults media.old.items) (map media_faults media.new.items)) }
        ensures calls { self.new.calls ≤ self.old.calls + 1 }
        ensures counts { IfOk result (λ judged. self.new.calls ≡ counted judged self.old.calls) }
    {
        let judged = self.node.receive(media, outbox, generation, bytes);
        if !matches!(judged, Ok(Judged::Ignored(_))) {
            self.calls += 1;
        }
        judged
    }

    /// A request times out. `Stale` exactly where it is not under way; nothing changes then. No command
    /// runs, so the media stay as they are. `NoMemory` only where it is under way; then the target is not
    /// used again.
    #[tactic(auto, unfolding(crate::specs::Receiving::expired))]
    pub fn expire(
        &mut self,
        _media: &mut Vec<Box<dyn Medium>>,
        peer: NodeId,
        label: Label,
        outbox: &mut Outbox,
    ) -> Result<(), TargetFault>
        requires media { length _media.old.items ≡ length self.old.node.units }
        requires calls { self.old.calls < 2 ^ 48 }
        ensures media { map disk _media.new.items ≡ map disk _media.old.items }
        ensures faults { map media_faults _media.new.items ≡ map media_faults _media.old.items }
        ensures units { length self.new.node.units ≡ length self.old.node.units }
        ensures step { Expires peer label result self.old outbox.old self.new outbox.new }
        ensures calls { self.new.calls ≤ self.old.calls + 1 }
    {
        match self.node.expire(outbox, peer, label) {
            Ok(Ok(())) => {
                self.calls += 1;
                Ok(())
            }
            Ok(Err(_)) => Err(TargetFault::Stale),
            Err(NoMemory) => {
                self.calls += 1;
                Err(TargetFault::NoMemory)
            }
        }
    }

    /// Sees a generation, and the target's ID in that. A later one than its own is a reset; without a
    /// new generation nothing changes.
    pub fn see(
        &mut self,
        generation: Generation,
        id: NodeId,
        outbox: &mut Outbox,
    ) -> Result<(), NoMemory>
        requires calls { self.old.calls < 2 ^ 48 }
        ensures units { length self.new.node.units ≡ length self.old.node.units }
        ensures step { OnOk result (scene self.new.node outbox.new ≡ (seen generation id (scene self.old.node outbox.old)).1) }
        ensures calls { self.new.calls ≤ self.old.calls + 1 }
        ensures counts { OnOk result (self.new.calls ≡ counted_if (seen generation id (scene self.old.node outbox.old)).0 self.old.calls) }
    {
        let later = self.node.see(outbox, generation, id);
        if !matches!(later, Ok(false)) {
            self.calls += 1;
        }
        later?;
        Ok(())
    }

    /// Takes one second from each held login.
    pub fn tick(&mut self, outbox: &mut Outbox) -> Result<(), NoMemory>
        requires calls { self.old.calls < 2 ^ 48 }
        ensures units { length self.new.node.units ≡ length self.old.node.units }
        ensures step { OnOk result (scene self.new.node outbox.new ≡ ticked (scene self.old.node outbox.old)) }
        ensures calls { self.new.calls ≡ self.old.calls + 1 }
    {
        self.calls += 1;
        self.node.tick(outbox)
    }

    /// Sets the key of a unit that exists, for later logins; zeros mean that there is none.
    pub fn set_key(&mut self, unit: u8, key: [u8; 8])
        requires unit { unit < length self.old.node.units }
        requires calls { self.old.calls < 2 ^ 48 }
        ensures units { length self.new.node.units ≡ length self.old.node.units }
        ensures left { self.new ≡ record { calls = self.old.calls + 1; node = with_key unit key self.old.node } }
    {
        self.calls += 1;
        self.node.set_key(unit, key);
    }
}
