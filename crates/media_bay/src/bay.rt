ghost use Rattle.std.specs.Prelude.{◌≡◌, ◌*◌, ◌≤◌, length, map, Option, OnOk, OnErr, IsTrue, true};
ghost use Rattle.std.specs.Option.{option_map};
ghost use Rattle.std.specs.Bool.{IsFalse};
ghost use Rattle.sbp_base.specs.Faults.{HasCause, count_after};
ghost use Rattle.rbc_disk.specs.Disk.{Disk, IsInside, Gives, written};
ghost use Rattle.media_bay.specs.Trays.{held, new_bay, fits_tray, are_discs};

use rbc_disk::Medium;
use sbp_base::Failed;
use std::marker::Model;

/// A bay: a tray that holds a disc or none, and a shelf of discs in order. Its discs are media of one
/// kind, each present and of as many blocks as the bay.
#[derive(Drop)]
pub struct Bay<M: Medium> {
    blocks: u32,
    tray: Option<M>,
    shelf: Vec<M>,
    faults: u64,
    ghost some: { 1 ≤ blocks },
    ghost few: { blocks ≤ 65536 },
    ghost tray_fits: { IsTrue (fits_tray blocks (option_map M.disk tray)) },
    ghost shelf_fits: { IsTrue (are_discs blocks (map M.disk shelf.items)) },
}

impl<M: Medium> Model for Bay<M> {
    ghost use Rattle.std.specs.Prelude.{map};
    ghost use Rattle.std.specs.Option.{option_map};
    ghost use Rattle.media_bay.specs.Trays.{BayState, tray_faults};

    ghost Value = { BayState };

    ghost view = { λ bay. record {
      blocks = bay.blocks;
      tray = option_map M.disk bay.tray;
      shelf = map M.disk bay.shelf.items;
      disc_faults = tray_faults (option_map M.media_faults bay.tray);
      faults = bay.faults;
    } };
}

impl<M: Medium> Bay<M> {
    /// A bay with these discs, of which the first, where there is one, is put into the tray at once.
    #[tactic(auto, using(crate::proofs::TrayLemmas::bay_steps))]
    pub fn new(blocks: u32, shelf: Vec<M>) -> Bay<M>
        requires some { 1 ≤ blocks }
        requires few { blocks ≤ 65536 }
        requires discs { IsTrue (are_discs blocks (map M.disk shelf.items)) }
        ensures held { held result ≡ new_bay blocks (map M.disk shelf.items) }
        ensures faults { result.faults ≡ 0 }
    {
        let mut bay = Bay {
            blocks,
            tray: None,
            shelf,
            faults: 0,
        };
        let _moved = bay.load();
        bay
    }
}

impl<M: Medium> Medium for Bay<M> {
    ghost disk = { held };

    ghost media_faults = { λ bay. bay.faults };

    #[tactic(auto, using(crate::proofs::TrayLemmas::sound_steps))]
    fn blocks(&self) -> u32 {
        match &self.tray {
            Some(disc) => disc.blocks(),
            None => self.blocks,
        }
    }

    fn is_protected(&self) -> bool {
        match &self.tray {
            Some(disc) => disc.is_protected(),
            None => false,
        }
    }

    fn is_present(&self) -> bool {
        self.tray.is_some()
    }

    fn read(&mut self, lba: u32, into: &mut [u8]) -> Result<(), Failed>
        requires present { IsTrue (held self.old).is_present }
        requires inside { IsInside (held self.old) lba (length into.old) }
        ensures bytes { OnOk result (Gives (held self.old) lba into.new) }
        ensures kept { held self.new ≡ held self.old }
        ensures cause { HasCause self.old.faults self.new.faults result }

        // It fails exactly where the disc in the tray failed.
        ensures disc { self.new.disc_faults ≡ count_after self.old.disc_faults result }
    {
        let Some(disc) = &mut self.tray else {
            unreachable!("an empty tray is not read")
        };
        let outcome = disc.read(lba, into);
        count_fault(&mut self.faults, outcome)
    }

    fn write(&mut self, lba: u32, from: &[u8]) -> Result<(), Failed>
        requires present { IsTrue (held self.old).is_present }
        requires open { IsFalse (held self.old).is_protected }
        requires inside { IsInside (held self.old) lba (length from.now) }
        ensures written { OnOk result (held self.new ≡ written (held self.old) lba from.now) }
        ensures failed { OnErr result (held self.new ≡ held self.old) }
        ensures cause { HasCause self.old.faults self.new.faults result }

        // It fails exactly where the disc in the tray failed.
        ensures disc { self.new.disc_faults ≡ count_after self.old.disc_faults result }
    {
        let Some(disc) = &mut self.tray else {
            unreachable!("an empty tray is not written")
        };
        let outcome = disc.write(lba, from);
        count_fault(&mut self.faults, outcome)
    }

    fn verify(&mut self, lba: u32, count: u32) -> Result<(), Failed>
        requires present { IsTrue (held self.old).is_present }
        requires inside { IsInside (held self.old) lba (512 * count) }
        ensures kept { held self.new ≡ held self.old }
        ensures cause { HasCause self.old.faults self.new.faults result }

        // It fails exactly where the disc in the tray failed.
        ensures disc { self.new.disc_faults ≡ count_after self.old.disc_faults result }
    {
        let Some(disc) = &mut self.tray else {
            unreachable!("an empty tray is not verified")
        };
        let outcome = disc.verify(lba, count);
        count_fault(&mut self.faults, outcome)
    }

    fn is_bay(&self) -> bool {
        true
    }

    #[tactic(auto, using(crate::proofs::TrayLemmas::bay_steps))]
    fn load(&mut self) -> bool {
        if self.tray.is_some() || self.shelf.is_empty() {
            return false;
        }
        self.tray = Some(self.shelf.remove(0));
        true
    }

    #[tactic(auto, using(crate::proofs::TrayLemmas::bay_steps))]
    fn eject(&mut self) {
        self.tray = None;
    }
}

/// Counts a call that failed; the count stays at its last value.
fn count_fault(faults: &mut u64, outcome: Result<(), Failed>) -> Result<(), Failed>
    ensures same { result ≡ outcome }
    ensures cause { HasCause faults.old faults.new result }
{
    let counted = *faults;
    if outcome.is_err() {
        *faults = counted.saturating_add(1);
    }
    outcome
}
