ghost use Rattle.std.specs.Prelude.{◌≡◌, ◌+◌, ◌^◌, ◌<◌, ◌≤◌, IfOk};
ghost use Rattle.sbp_target.specs.Counting.{counted};
ghost use Rattle.task_target.specs.Nodes.{scene};
ghost use Rattle.task_target.specs.Receiving.{Receives};
ghost use Rattle.task_target.specs.Replies.{whole};
ghost use Rattle.task_target.specs.Targets.{Expires, new_target};

use crate::node::Node;
use async_packet::Label;
use rbc_disk::Medium;
use sbp_base::{Generation, NoMemory, NodeId};
use sbp_journal::{Judged, Outbox, TargetFault};
use std::alloc::Global;
use std::marker::Model;

/// The target node over an unordered unit (NCITS 325-1998): its transaction layer, its one login with its
/// agent, the unit, and its configuration ROM. It has no management agent: MANAGEMENT_AGENT is answered as
/// an address where no register is.
#[derive(Drop)]
pub struct TaskTarget {
    calls: u64,
    node: Node,
}

impl Model for TaskTarget {
    ghost use Rattle.task_target.specs.Targets.{TargetState, IsCounted};

    ghost Value = { TargetState };

    ghost view = { λ a. record { calls = a.calls; node = a.node } };

    ghost invariant = { λ a. IsCounted (record { calls = a.calls; node = a.node }) };
}

impl TaskTarget {
    /// A target of one unit, with physical ID 0 in generation 0. Initiator 0 has a login from the start.
    pub fn new(alloc: Global) -> Result<TaskTarget, NoMemory>
        ensures { IfOk result (λ target. target ≡ new_target) }
    {
        Ok(TaskTarget {
            calls: 0,
            node: Node::new(alloc)?,
        })
    }

    /// The number of the calls that changed it.
    pub fn calls(&self) -> u64
        ensures { result ≡ self.now.calls }
    {
        self.calls
    }

    /// Judges a packet that is delivered, by the first row that holds; `generation` is that of the
    /// packet, and `medium` that of the unit. What it brings is handed out: its response first, then
    /// requests. After `NoMemory` the target is not used again.
    pub fn receive(
        &mut self,
        medium: &mut dyn Medium,
        generation: Generation,
        bytes: &[u8],
        outbox: &mut Outbox,
    ) -> Result<Judged, NoMemory>
        requires calls { self.old.calls < 2 ^ 48 }
        ensures fell { media_faults medium.old ≤ media_faults medium.new }
        ensures step { IfOk result (λ judged. Receives generation bytes.now (whole (scene self.old.node outbox.old) (disk medium.old)) judged (whole (scene self.new.node outbox.new) (disk medium.new)) (media_faults medium.old) (media_faults medium.new)) }
        ensures calls { self.new.calls ≤ self.old.calls + 1 }
        ensures counts { IfOk result (λ judged. self.new.calls ≡ counted judged self.old.calls) }
    {
        let judged = self.node.receive(medium, outbox, generation, bytes);
        if !matches!(judged, Ok(Judged::Ignored(_))) {
            self.calls += 1;
        }
        judged
    }

    /// A request times out. `Stale` exactly where it is not under way; nothing changes then. No command
    /// runs, so the medium stays as it is. `NoMemory` only where it is under way; then the target is not
    /// used again.
    #[tactic(auto, unfolding(crate::specs::Receiving::expired))]
    pub fn expire(
        &mut self,
        medium: &mut dyn Medium,
        peer: NodeId,
        label: Label,
        outbox: &mut Outbox,
    ) -> Result<(), TargetFault>
        requires calls { self.old.calls < 2 ^ 48 }
        ensures medium { disk medium.new ≡ disk medium.old }
        ensures faults { media_faults medium.new ≡ media_faults medium.old }
        ensures step { Expires peer label result self.old outbox.old self.new outbox.new }
        ensures calls { self.new.calls ≤ self.old.calls + 1 }
    {
        match self.node.expire(medium, outbox, peer, label) {
            Ok(Ok(())) => {
                self.calls += 1;
                Ok(())
            }
            Ok(Err(_)) => Err(TargetFault::Stale),
            Err(NoMemory) => {
                self.calls += 1;
                Err(TargetFault::NoMemory)
            }
        }
    }
}
