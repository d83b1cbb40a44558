ghost use Rattle.std.specs.Prelude.{◌≡◌, ◌*◌, ◌≤◌, length, IfOk, OnOk, OnErr, IsOk, IsErr};
ghost use Rattle.sbp_base.specs.Faults.{HasCause};
ghost use Rattle.rbc_disk.specs.Disk.{Disk, IsInside, Gives, written, protected, open_disk, blank_bytes};

use crate::medium::Medium;
use crate::ram::RamMedium;
use sbp_base::{Failed, NoMemory};
use std::alloc::Global;
use std::marker::Model;

/// A medium in memory that can be read and not written. Of its calls a write alone fails.
#[derive(Drop)]
pub struct ProtectedMedium {
    ram: RamMedium,
    faults: u64,
}

impl Model for ProtectedMedium {
    ghost use Rattle.rbc_disk.specs.Disk.{CountedBlocks};

    ghost Value = { CountedBlocks };

    ghost view = { λ medium. record { bytes = medium.ram.bytes.items; blocks = medium.ram.blocks; faults = medium.faults } };
}

impl ProtectedMedium {
    /// A medium of `blocks` blocks, each byte of which is `fill`.
    pub fn new(alloc: Global, blocks: u32, fill: u8) -> Result<Self, NoMemory>
        requires some { 1 ≤ blocks }
        requires few { blocks ≤ 65536 }
        ensures { IfOk result (λ medium. medium ≡ record { bytes = blank_bytes blocks fill; blocks = blocks; faults = 0 }) }
    {
        let ram = RamMedium::new(alloc, blocks, fill)?;
        Ok(ProtectedMedium { ram, faults: 0 })
    }
}

impl Medium for ProtectedMedium {
    ghost disk = { λ medium. protected (open_disk medium.bytes medium.blocks) };

    ghost media_faults = { λ medium. medium.faults };

    fn blocks(&self) -> u32 {
        self.ram.blocks()
    }

    fn is_protected(&self) -> bool {
        true
    }

    fn is_present(&self) -> bool {
        true
    }

    fn read(&mut self, lba: u32, into: &mut [u8]) -> Result<(), Failed>
        requires inside { IsInside (open_disk self.old.bytes self.old.blocks) lba (length into.old) }
        ensures bytes { Gives (open_disk self.old.bytes self.old.blocks) lba into.new }
        ensures kept { self.new ≡ self.old }
        ensures cause { HasCause self.old.faults self.new.faults result }
        ensures good { IsOk result }
    {
        // The count is read, since its range is claimed.
        let _faults = self.faults;
        self.ram.copy_to(lba, into);
        Ok(())
    }

    fn write(&mut self, _lba: u32, _from: &[u8]) -> Result<(), Failed>
        ensures kept { self.new.bytes ≡ self.old.bytes }
        ensures same { self.new.blocks ≡ self.old.blocks }
        ensures cause { HasCause self.old.faults self.new.faults result }
        ensures refused { IsErr result }
    {
        self.faults = self.faults.saturating_add(1);
        Err(Failed)
    }

    fn verify(&mut self, _lba: u32, _count: u32) -> Result<(), Failed>
        ensures kept { self.new ≡ self.old }
        ensures cause { HasCause self.old.faults self.new.faults result }
        ensures good { IsOk result }
    {
        // The count is read, since its range is claimed.
        let _faults = self.faults;
        Ok(())
    }

    fn is_bay(&self) -> bool {
        false
    }

    fn load(&mut self) -> bool {
        false
    }

    fn eject(&mut self) {}
}
