ghost use Rattle.std.specs.Prelude.{◌≡◌, ◌+◌, ◌*◌, ◌≤◌, ◌↔◌, length, IfOk, OnOk, OnErr, IsErr, IsTrue};
ghost use Rattle.std.specs.Bool.{IsFalse};
ghost use Rattle.sbp_base.specs.Faults.{HasCause};
ghost use Rattle.sbp_base.specs.Failing.{Plan, fails_next, after_call};
ghost use Rattle.rbc_disk.specs.Disk.{Disk, IsInside, Gives, written, blank_disk};

use crate::medium::Medium;
use crate::ram::RamMedium;
use sbp_base::{Failed, FailingCalls, NoMemory};
use std::alloc::Global;
use std::marker::Model;

/// A medium in memory, open, present and no bay, some of whose calls fail. Its read, write and verify
/// calls are counted together from 1.
#[derive(Drop)]
pub struct FaultyMedium {
    ram: RamMedium,
    plan: FailingCalls,
}

impl Model for FaultyMedium {
    ghost use Rattle.rbc_disk.specs.Disk.{FaultyDisk, open_disk};

    ghost Value = { FaultyDisk };

    ghost view = { λ medium. record {
      held = open_disk medium.ram.bytes.items medium.ram.blocks;
      plan = medium.plan;
    } };
}

impl FaultyMedium {
    /// A medium of `blocks` blocks, each byte of which is `fill`, of which the calls with the given
    /// numbers fail.
    pub fn new(alloc: Global, blocks: u32, fill: u8, failing: Vec<u32>) -> Result<Self, NoMemory>
        requires some { 1 ≤ blocks }
        requires few { blocks ≤ 65536 }
        ensures { IfOk result (λ medium. medium ≡ record { held = blank_disk blocks fill; plan = record { failing = failing.items; calls = 0; faults = 0 } }) }
    {
        let ram = RamMedium::new(alloc, blocks, fill)?;
        Ok(FaultyMedium {
            ram,
            plan: FailingCalls::new(failing),
        })
    }
}

impl Medium for FaultyMedium {
    ghost disk = { λ medium. medium.held };

    ghost media_faults = { λ medium. medium.plan.faults };

    fn blocks(&self) -> u32 {
        self.ram.blocks()
    }

    fn is_protected(&self) -> bool {
        self.ram.is_protected()
    }

    fn is_present(&self) -> bool {
        self.ram.is_present()
    }

    fn read(&mut self, lba: u32, into: &mut [u8]) -> Result<(), Failed>
        requires present { IsTrue self.old.held.is_present }
        requires inside { IsInside self.old.held lba (length into.old) }
        ensures bytes { OnOk result (Gives self.old.held lba into.new) }
        ensures kept { self.new.held ≡ self.old.held }
        ensures cause { HasCause self.old.plan.faults self.new.plan.faults result }
        ensures plan { self.new.plan ≡ after_call self.old.plan }
        ensures failing { IsErr result ↔ IsTrue (fails_next self.old.plan) }
    {
        if self.plan.next_fails() {
            return Err(Failed);
        }
        self.ram.read(lba, into)
    }

    fn write(&mut self, lba: u32, from: &[u8]) -> Result<(), Failed>
        requires present { IsTrue self.old.held.is_present }
        requires open { IsFalse self.old.held.is_protected }
        requires inside { IsInside self.old.held lba (length from.now) }
        ensures written { OnOk result (self.new.held ≡ written self.old.held lba from.now) }
        ensures failed { OnErr result (self.new.held ≡ self.old.held) }
        ensures cause { HasCause self.old.plan.faults self.new.plan.faults result }
        ensures plan { self.new.plan ≡ after_call self.old.plan }
        ensures failing { IsErr result ↔ IsTrue (fails_next self.old.plan) }
    {
        if self.plan.next_fails() {
            return Err(Failed);
        }
        self.ram.write(lba, from)
    }

    fn verify(&mut self, lba: u32, count: u32) -> Result<(), Failed>
        requires present { IsTrue self.old.held.is_present }
        requires inside { IsInside self.old.held lba (512 * count) }
        ensures kept { self.new.held ≡ self.old.held }
        ensures cause { HasCause self.old.plan.faults self.new.plan.faults result }
        ensures plan { self.new.plan ≡ after_call self.old.plan }
        ensures failing { IsErr result ↔ IsTrue (fails_next self.old.plan) }
    {
        if self.plan.next_fails() {
            return Err(Failed);
        }
        self.ram.verify(lba, count)
    }

    fn is_bay(&self) -> bool {
        self.ram.is_bay()
    }

    fn load(&mut self) -> bool {
        self.ram.load()
    }

    fn eject(&mut self) {
        self.ram.eject();
    }
}
