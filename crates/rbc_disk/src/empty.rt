ghost use Rattle.std.specs.Prelude.{◌≡◌, ◌≤◌, Err, IsErr};
ghost use Rattle.sbp_base.specs.Faults.{HasCause};
ghost use Rattle.rbc_disk.specs.Disk.{Disk, absent, blank_disk};

use crate::medium::Medium;
use sbp_base::Failed;
use std::marker::Model;

/// A medium that is not present, of zeros. Each read, write and verify fails.
#[derive(Drop)]
pub struct EmptyMedium {
    blocks: u32,
    faults: u64,
    ghost some: { 1 ≤ blocks },
    ghost few: { blocks ≤ 65536 },
}

impl Model for EmptyMedium {
    ghost use Rattle.rbc_disk.specs.Disk.{EmptyBlocks};

    ghost Value = { EmptyBlocks };

    ghost view = { λ medium. record { blocks = medium.blocks; faults = medium.faults } };
}

impl EmptyMedium {
    /// A medium of `blocks` blocks that is not present.
    pub fn new(blocks: u32) -> EmptyMedium
        requires some { 1 ≤ blocks }
        requires few { blocks ≤ 65536 }
        ensures { result ≡ record { blocks = blocks; faults = 0 } }
    {
        EmptyMedium { blocks, faults: 0 }
    }

    /// Counts a call, which fails.
    fn fail(&mut self) -> Failed
        ensures kept { self.new.blocks ≡ self.old.blocks }
        ensures cause { HasCause {A = Unit {0}} self.old.faults self.new.faults (Err result) }
    {
        self.faults = self.faults.saturating_add(1);
        Failed
    }
}

impl Medium for EmptyMedium {
    ghost disk = { λ medium. absent (blank_disk medium.blocks 0) };

    ghost media_faults = { λ medium. medium.faults };

    #[tactic(auto, unfolding(crate::specs::Disk::blank_bytes))]
    fn blocks(&self) -> u32 {
        self.blocks
    }

    fn is_protected(&self) -> bool {
        false
    }

    fn is_present(&self) -> bool {
        false
    }

    fn read(&mut self, _lba: u32, _into: &mut [u8]) -> Result<(), Failed>
        ensures kept { self.new.blocks ≡ self.old.blocks }
        ensures cause { HasCause self.old.faults self.new.faults result }
        ensures refused { IsErr result }
    {
        Err(self.fail())
    }

    fn write(&mut self, _lba: u32, _from: &[u8]) -> Result<(), Failed>
        ensures kept { self.new.blocks ≡ self.old.blocks }
        ensures cause { HasCause self.old.faults self.new.faults result }
        ensures refused { IsErr result }
    {
        Err(self.fail())
    }

    fn verify(&mut self, _lba: u32, _count: u32) -> Result<(), Failed>
        ensures kept { self.new.blocks ≡ self.old.blocks }
        ensures cause { HasCause self.old.faults self.new.faults result }
        ensures refused { IsErr result }
    {
        Err(self.fail())
    }

    fn is_bay(&self) -> bool {
        false
    }

    fn load(&mut self) -> bool {
        false
    }

    fn eject(&mut self) {}
}
