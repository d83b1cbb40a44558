use async_packet::Label;
use rbc_disk::Medium;
use sbp_base::{Generation, NoMemory, NodeId};
use sbp_journal::{Judged, Outbox, TargetFault};
use std::alloc::Global;
use task_target::TaskTarget;

/// The most calls of a course.
const MANY: u64 = 1000;

/// A target with the medium of its unit.
#[derive(Drop)]
pub(crate) struct Bench {
    target: TaskTarget,
    medium: Box<dyn Medium>,
}

impl Bench {
    pub(crate) fn new(alloc: Global, medium: Box<dyn Medium>) -> Result<Bench, NoMemory> {
        Ok(Bench {
            target: TaskTarget::new(alloc)?,
            medium,
        })
    }

    pub(crate) fn receive(
        &mut self,
        bytes: &[u8],
        outbox: &mut Outbox,
    ) -> Result<Judged, NoMemory> {
        if self.target.calls() >= MANY {
            return Err(NoMemory);
        }
        self.target
            .receive(&mut *self.medium, Generation::first(), bytes, outbox)
    }

    pub(crate) fn expire(
        &mut self,
        peer: NodeId,
        label: Label,
        outbox: &mut Outbox,
    ) -> Result<(), TargetFault> {
        if self.target.calls() >= MANY {
            return Err(TargetFault::NoMemory);
        }
        self.target.expire(&mut *self.medium, peer, label, outbox)
    }
}
