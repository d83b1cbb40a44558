ghost use Rattle.std.specs.Prelude.{None, false, true, []};
ghost use Rattle.rbc_disk.specs.Disk.{Disk};

use rbc_disk::Medium;
use sbp_base::{Failed, NoMemory};
use std::cell::Cell;
use std::rc::Rc;

/// A disc of one block that counts its drops and tells nothing of its bytes.
pub(crate) struct CountedDisc {
    drops: Rc<Cell<u32>>,
}

impl CountedDisc {
    pub(crate) fn new(drops: &Rc<Cell<u32>>) -> Result<CountedDisc, NoMemory> {
        Ok(CountedDisc {
            drops: Rc::clone(drops)?,
        })
    }
}

impl Drop for CountedDisc {
    fn drop(self) {
        self.drops.set(self.drops.get().saturating_add(1));
        let CountedDisc { drops: _ } = self;
    }
}

impl Medium for CountedDisc {
    ghost disk = { λ _. record {
      bytes = None;
      blocks = 1;
      is_protected = false;
      is_present = true;
      is_bay = false;
      shelf = [];
    } };

    ghost media_faults = { λ _. 0 };

    fn blocks(&self) -> u32 {
        1
    }

    fn is_protected(&self) -> bool {
        false
    }

    fn is_present(&self) -> bool {
        true
    }

    fn read(&mut self, _lba: u32, _into: &mut [u8]) -> Result<(), Failed> {
        Ok(())
    }

    fn write(&mut self, _lba: u32, _from: &[u8]) -> Result<(), Failed> {
        Ok(())
    }

    fn verify(&mut self, _lba: u32, _count: u32) -> Result<(), Failed> {
        Ok(())
    }

    fn is_bay(&self) -> bool {
        false
    }

    fn load(&mut self) -> bool {
        false
    }

    fn eject(&mut self) {}
}
