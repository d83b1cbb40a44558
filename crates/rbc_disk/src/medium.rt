ghost use Rattle.std.specs.Prelude.{◌≡◌, ℕ, ◌+◌, ◌*◌, ◌≤◌, length, OnOk, OnErr, IsTrue};
ghost use Rattle.std.specs.Bool.{IsFalse};
ghost use Rattle.sbp_base.specs.Faults.{HasCause};
ghost use Rattle.rbc_disk.specs.Disk.{Disk, IsSound, IsInside, Gives, written, loads, loaded, ejected};

use sbp_base::Failed;

/// A medium of 1 to 65,536 blocks of 512 bytes, or a bay for such discs.
pub trait Medium: Drop {
    /// All that it holds.
    ghost disk: { Self → Disk };

    /// How many of its calls failed; it stays at its last value, 2^64 - 1.
    ghost media_faults: { Self → ℕ };

    /// The number of its blocks.
    fn blocks(&self) -> u32
        ensures told { result ≡ (disk self.now).blocks }
        ensures sound { IsSound (disk self.now) };

    /// Whether it can't be written.
    fn is_protected(&self) -> bool
        ensures { result ≡ (disk self.now).is_protected };

    /// Whether there is a disc to read.
    fn is_present(&self) -> bool
        ensures { result ≡ (disk self.now).is_present };

    /// Reads whole blocks from block `lba` on.
    fn read(&mut self, lba: u32, into: &mut [u8]) -> Result<(), Failed>
        requires present { IsTrue (disk self.old).is_present }
        requires inside { IsInside (disk self.old) lba (length into.old) }
        ensures bytes { OnOk result (Gives (disk self.old) lba into.new) }
        ensures kept { disk self.new ≡ disk self.old }
        ensures cause { HasCause (media_faults self.old) (media_faults self.new) result };

    /// Writes whole blocks from block `lba` on; a failed write leaves the bytes as they were.
    fn write(&mut self, lba: u32, from: &[u8]) -> Result<(), Failed>
        requires present { IsTrue (disk self.old).is_present }
        requires open { IsFalse (disk self.old).is_protected }
        requires inside { IsInside (disk self.old) lba (length from.now) }
        ensures written { OnOk result (disk self.new ≡ written (disk self.old) lba from.now) }
        ensures failed { OnErr result (disk self.new ≡ disk self.old) }
        ensures cause { HasCause (media_faults self.old) (media_faults self.new) result };

    /// Reads `count` blocks from block `lba` on, and gives none of their bytes.
    fn verify(&mut self, lba: u32, count: u32) -> Result<(), Failed>
        requires present { IsTrue (disk self.old).is_present }
        requires inside { IsInside (disk self.old) lba (512 * count) }
        ensures kept { disk self.new ≡ disk self.old }
        ensures cause { HasCause (media_faults self.old) (media_faults self.new) result };

    /// Whether it is a bay, with a tray and a shelf.
    fn is_bay(&self) -> bool
        ensures { result ≡ (disk self.now).is_bay };

    /// Moves the shelf's first disc into an empty tray, and answers whether it did.
    fn load(&mut self) -> bool
        ensures moved { result ≡ loads (disk self.old) }
        ensures loaded { disk self.new ≡ loaded (disk self.old) }
        ensures faults { media_faults self.new ≡ media_faults self.old };

    /// Drops the disc in the tray of a bay.
    fn eject(&mut self)
        ensures ejected { disk self.new ≡ ejected (disk self.old) }
        ensures faults { media_faults self.new ≡ media_faults self.old };
}
