ghost use Rattle.std.specs.Prelude.{◌≡◌, ◌*◌, ◌≤◌, length, IfOk};
ghost use Rattle.rbc_disk.specs.Disk.{Disk, IsInside, Gives, written, open_disk, blank_disk};

use crate::command::BLOCK;
use crate::medium::Medium;
use sbp_base::{Failed, NoMemory};
use std::alloc::Global;

/// A medium in memory, open, present and no bay. None of its calls fails.
#[derive(Drop)]
pub struct RamMedium {
    bytes: Vec<u8>,
    blocks: u32,
    ghost whole: { length bytes.items ≡ 512 * blocks },
    ghost some: { 1 ≤ blocks },
    ghost few: { blocks ≤ 65536 },
}

impl RamMedium {
    /// A medium of `blocks` blocks, each byte of which is `fill`.
    #[tactic(auto, unfolding(crate::specs::Disk::blank_bytes))]
    pub fn new(alloc: Global, blocks: u32, fill: u8) -> Result<Self, NoMemory>
        requires some { 1 ≤ blocks }
        requires few { blocks ≤ 65536 }
        ensures disk { IfOk result (λ medium. ⟦<RamMedium as Medium>⟧.disk medium ≡ blank_disk blocks fill) }
        ensures faults { IfOk result (λ medium. ⟦<RamMedium as Medium>⟧.media_faults medium ≡ 0) }
    {
        let bytes = vec![in alloc; fill; BLOCK as usize * blocks as usize]?;
        Ok(RamMedium { bytes, blocks })
    }

    /// Copies the bytes from block `lba` on.
    pub(crate) fn copy_to(&self, lba: u32, into: &mut [u8])
        requires { IsInside (⟦<RamMedium as Medium>⟧.disk self.now) lba (length into.old) }
        ensures { Gives (⟦<RamMedium as Medium>⟧.disk self.now) lba into.new }
    {
        let at = BLOCK as usize * lba as usize;
        into.copy_from_slice(&self.bytes[at..at + into.len()]);
    }

    /// Replaces the bytes from block `lba` on.
    pub(crate) fn copy_from(&mut self, lba: u32, from: &[u8])
        requires { IsInside (⟦<RamMedium as Medium>⟧.disk self.old) lba (length from.now) }
        ensures { ⟦<RamMedium as Medium>⟧.disk self.new ≡ written (⟦<RamMedium as Medium>⟧.disk self.old) lba from.now }
    {
        let at = BLOCK as usize * lba as usize;
        self.bytes[at..at + from.len()].copy_from_slice(from);
    }
}

impl Medium for RamMedium {
    ghost disk = { λ medium. open_disk medium.bytes.items medium.blocks };

    ghost media_faults = { λ _. 0 };

    fn blocks(&self) -> u32 {
        self.blocks
    }

    fn is_protected(&self) -> bool {
        false
    }

    fn is_present(&self) -> bool {
        true
    }

    fn read(&mut self, lba: u32, into: &mut [u8]) -> Result<(), Failed> {
        self.copy_to(lba, into);
        Ok(())
    }

    fn write(&mut self, lba: u32, from: &[u8]) -> Result<(), Failed> {
        self.copy_from(lba, from);
        Ok(())
    }

    fn verify(&mut self, _lba: u32, _count: u32) -> Result<(), Failed> {
        Ok(())
    }

    fn is_bay(&self) -> bool {
        false
    }

    fn load(&mut self) -> bool {
        false
    }

    fn eject(&mut self) {}
}
