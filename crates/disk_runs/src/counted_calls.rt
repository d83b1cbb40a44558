ghost use Rattle.std.specs.Prelude.{None, false, true, []};

use rbc_disk::Medium;
use sbp_base::Failed;

/// A medium of 64 blocks that counts its calls and tells nothing of its bytes.
#[derive(Drop)]
pub(crate) struct CountedCalls {
    reads: u32,
    writes: u32,
    verifies: u32,
}

impl CountedCalls {
    /// A medium without a call.
    pub(crate) fn new() -> CountedCalls {
        CountedCalls {
            reads: 0,
            writes: 0,
            verifies: 0,
        }
    }

    /// The calls of read, of write and of verify.
    pub(crate) fn calls(&self) -> [u32; 3] {
        [self.reads, self.writes, self.verifies]
    }
}

impl Medium for CountedCalls {
    ghost disk = { λ _. record {
      bytes = None;
      blocks = 64;
      is_protected = false;
      is_present = true;
      is_bay = false;
      shelf = [];
    } };

    ghost media_faults = { λ _. 0 };

    fn blocks(&self) -> u32 {
        64
    }

    fn is_protected(&self) -> bool {
        false
    }

    fn is_present(&self) -> bool {
        true
    }

    fn read(&mut self, _lba: u32, _into: &mut [u8]) -> Result<(), Failed> {
        self.reads = self.reads.saturating_add(1);
        Ok(())
    }

    fn write(&mut self, _lba: u32, _from: &[u8]) -> Result<(), Failed> {
        self.writes = self.writes.saturating_add(1);
        Ok(())
    }

    fn verify(&mut self, _lba: u32, _count: u32) -> Result<(), Failed> {
        self.verifies = self.verifies.saturating_add(1);
        Ok(())
    }

    fn is_bay(&self) -> bool {
        false
    }

    fn load(&mut self) -> bool {
        false
    }

    fn eject(&mut self) {}
}
