ghost use Rattle.std.specs.Prelude.{◌≡◌, ◌≤◌, nat_lt};

use async_packet::Label;
use rbc_disk::Medium;
use sbp_base::{Generation, NoMemory, NodeId};
use sbp_journal::{Judged, Outbox, TargetFault};
use sbp_target::Target;
use std::alloc::Global;
use std::marker::Model;

/// The most calls of a course.
const MANY: u64 = 1000;

/// A target with its media, as many as its units.
#[derive(Drop)]
pub(crate) struct Bench {
    target: Target,
    media: Vec<Box<dyn Medium>>,
}

impl Model for Bench {
    ghost use Rattle.std.specs.Prelude.{◌≡◌, length};
    ghost use Rattle.sbp_target.specs.Targets.{TargetState};

    ghost Value = { TargetState };

    ghost view = { λ bench. bench.target };

    ghost invariant = { λ bench. length bench.media.items ≡ length bench.target.node.units };
}

impl Bench {
    /// A target of three units, of which unit 0 has this medium and the others those; so many
    /// initiators, 4 at most, have a login.
    pub(crate) fn new(
        alloc: Global,
        ready: u8,
        first: Box<dyn Medium>,
        second: Box<dyn Medium>,
        third: Box<dyn Medium>,
    ) -> Result<Bench, NoMemory>
        requires { ready ≤ 4 }
    {
        let mut media = Vec::new(alloc);
        media.push(first)?;
        media.push(second)?;
        media.push(third)?;
        Ok(Bench {
            target: Target::new(alloc, 3, ready)?,
            media,
        })
    }

    /// Whether it may be called once more.
    fn is_fresh(&self) -> bool
        ensures { result ≡ nat_lt self.now.calls 1000 }
    {
        self.target.calls() < MANY
    }

    pub(crate) fn receive(
        &mut self,
        generation: Generation,
        bytes: &[u8],
        outbox: &mut Outbox,
    ) -> Result<Judged, NoMemory> {
        if !self.is_fresh() {
            return Err(NoMemory);
        }
        self.target
            .receive(&mut self.media, generation, bytes, outbox)
    }

    pub(crate) fn expire(
        &mut self,
        peer: NodeId,
        label: Label,
        outbox: &mut Outbox,
    ) -> Result<(), TargetFault> {
        if !self.is_fresh() {
            return Err(TargetFault::NoMemory);
        }
        self.target.expire(&mut self.media, peer, label, outbox)
    }

    pub(crate) fn see(
        &mut self,
        generation: Generation,
        id: NodeId,
        outbox: &mut Outbox,
    ) -> Result<(), NoMemory> {
        if !self.is_fresh() {
            return Err(NoMemory);
        }
        self.target.see(generation, id, outbox)
    }

    pub(crate) fn tick(&mut self, outbox: &mut Outbox) -> Result<(), NoMemory> {
        if !self.is_fresh() {
            return Err(NoMemory);
        }
        self.target.tick(outbox)
    }

    /// Sets the key of a unit, if it exists.
    pub(crate) fn set_key(&mut self, unit: u8, key: [u8; 8]) {
        if self.is_fresh() && usize::from(unit) < self.media.len() {
            self.target.set_key(unit, key);
        }
    }
}
