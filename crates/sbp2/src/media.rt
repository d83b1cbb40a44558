ghost use Rattle.std.specs.Prelude.{◌≡◌, IfOk};
ghost use Rattle.sbp2.specs.ProgramMedia.{two_discs, locked, second_fails};

use media_bay::Bay;
use rbc_disk::{FaultyMedium, Medium, ProtectedMedium, RamMedium};
use sbp_base::NoMemory;
use std::alloc::Global;

/// The blocks of each medium.
const BLOCKS: u32 = 64;

/// The medium of unit 0: a bay with two discs, both free to read and write, the first one in its tray.
pub(crate) fn two_discs(alloc: Global) -> Result<Bay<RamMedium>, NoMemory>
    ensures held { IfOk result (λ bay. ⟦<Bay<RamMedium> as Medium>⟧.disk bay ≡ two_discs) }
    ensures count { IfOk result (λ bay. ⟦<Bay<RamMedium> as Medium>⟧.media_faults bay ≡ 0) }
{
    let first = RamMedium::new(alloc, BLOCKS, 0x00)?;
    let second = RamMedium::new(alloc, BLOCKS, 0x77)?;
    let mut shelf = Vec::new(alloc);
    shelf.push(first)?;
    shelf.push(second)?;
    Ok(Bay::new(BLOCKS, shelf))
}

/// The medium of unit 1, which can't be written.
pub(crate) fn locked(alloc: Global) -> Result<ProtectedMedium, NoMemory>
    ensures held { IfOk result (λ medium. ⟦<ProtectedMedium as Medium>⟧.disk medium ≡ locked) }
    ensures count { IfOk result (λ medium. ⟦<ProtectedMedium as Medium>⟧.media_faults medium ≡ 0) }
{
    ProtectedMedium::new(alloc, BLOCKS, 0x5a)
}

/// The medium of unit 2, whose second call fails.
pub(crate) fn second_fails(alloc: Global) -> Result<FaultyMedium, NoMemory>
    ensures { IfOk result (λ medium. medium ≡ second_fails) }
{
    FaultyMedium::new(alloc, BLOCKS, 0x00, vec![in alloc; 2u32; 1]?)
}
