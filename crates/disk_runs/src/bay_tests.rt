use crate::case::{Case, GOOD, Sent, plays};
use crate::counted_disc::CountedDisc;
use media_bay::{Bay, read_unsolicited, write_unsolicited};
use rbc_disk::{FaultyMedium, Medium, Outcome, RamMedium, Sense};
use sbp_base::NoMemory;
use std::alloc::Global;
use std::cell::Cell;
use std::rc::Rc;
use std::test::Fail;

const PREVENT: [u8; 12] = [0x1e, 0, 0, 0, 1, 0, 0, 0, 0, 0, 0, 0];

const ALLOW: [u8; 12] = [0x1e, 0, 0, 0, 0, 0, 0, 0, 0, 0, 0, 0];

const EJECT: [u8; 12] = [0x1b, 0, 0, 0, 2, 0, 0, 0, 0, 0, 0, 0];

const LOAD: [u8; 12] = [0x1b, 0, 0, 0, 3, 0, 0, 0, 0, 0, 0, 0];

const VERIFY: [u8; 12] = [0x2f, 0, 0, 0, 0, 0, 0, 0, 1, 0, 0, 0];

const VERIFY_SEVEN: [u8; 12] = [0x2f, 0, 0, 0, 0, 1, 0, 0, 7, 0, 0, 0];

/// A bay of one block with two discs, of which the first is in the tray.
fn two_discs(alloc: Global) -> Result<Bay<RamMedium>, NoMemory> {
    let mut shelf = Vec::new(alloc);
    shelf.push(RamMedium::new(alloc, 1, 0x00)?)?;
    shelf.push(RamMedium::new(alloc, 1, 0x77)?)?;
    Ok(Bay::new(1, shelf))
}

/// An eject that is prevented, and ejects of both discs.
const EJECTS: [Case; 7] = [
    (Sent::Block(PREVENT), GOOD),
    (Sent::Block(EJECT), Outcome::Check(Sense::REMOVAL_PREVENTED)),
    (Sent::Block(ALLOW), GOOD),
    (Sent::Block(EJECT), GOOD),
    (Sent::Block(LOAD), GOOD),
    (Sent::Block(EJECT), GOOD),
    (Sent::Block(LOAD), Outcome::Check(Sense::NO_MEDIUM)),
];

/// A bay of eight blocks with a disc whose first and third call fail.
fn failing_disc(alloc: Global) -> Result<Bay<FaultyMedium>, NoMemory> {
    let failing = Vec::from_slice(alloc, &[1, 3])?;
    let mut shelf = Vec::new(alloc);
    shelf.push(FaultyMedium::new(alloc, 8, 0x77, failing)?)?;
    Ok(Bay::new(8, shelf))
}

/// A VERIFY makes one call of the disc in the tray.
const VERIFIES: [Case; 3] = [
    (
        Sent::Block(VERIFY_SEVEN),
        Outcome::Check(Sense::READ_FAILED),
    ),
    (Sent::Block(VERIFY), GOOD),
    (
        Sent::Block(VERIFY_SEVEN),
        Outcome::Check(Sense::READ_FAILED),
    ),
];

/// A bay of one block with discs that count their drops.
fn counted_discs(alloc: Global, drops: &Rc<Cell<u32>>) -> Result<Bay<CountedDisc>, NoMemory> {
    let mut shelf = Vec::new(alloc);
    shelf.push(CountedDisc::new(drops)?)?;
    shelf.push(CountedDisc::new(drops)?)?;
    Ok(Bay::new(1, shelf))
}

/// Whether an eject drops the disc in the tray once, and no other.
fn drops_once(alloc: Global) -> Result<bool, NoMemory> {
    let drops = Rc::new(alloc, Cell::new(0))?;
    let mut bay = counted_discs(alloc, &drops)?;
    let before = drops.get();
    bay.eject();
    let ejected = drops.get();
    bay.eject();
    let ejected_again = drops.get();
    let is_loaded = bay.load();
    let loaded = drops.get();
    bay.eject();
    let both = drops.get();
    drop(bay);
    let counts = [before, ejected, ejected_again, loaded, both, drops.get()];
    Ok(is_loaded && counts == [0, 1, 1, 1, 2, 2])
}

const UNSOLICITED: [u8; 24] = [
    0x85, 0, 0, 0, 0, 0, 0, 0, 2, 6, 0x28, 0, 0, 0, 0, 0, 0, 0, 0, 0, 0, 0, 0, 0,
];

/// Whether an unsolicited status is written and read so, and another one is not.
fn is_unsolicited() -> bool {
    let mut block = [0xff; 24];
    let is_written = write_unsolicited(&mut block) == 24
        && block == UNSOLICITED
        && read_unsolicited(&block) == Some(Sense::MEDIUM_CHANGED);
    block[23] = 1;
    let is_free = read_unsolicited(&block) == Some(Sense::MEDIUM_CHANGED);
    block[11] = 1;
    is_written && is_free && read_unsolicited(&block) == None
}

/// Bays, and the status that a changed disc brings.
#[test]
fn bays(rt: HostRuntime) -> Result<(), Fail> {
    let alloc = rt.alloc();
    assert!(rt; plays(alloc, &mut two_discs(alloc)?, &EJECTS, 0, b""));
    assert!(rt; plays(alloc, &mut failing_disc(alloc)?, &VERIFIES, 0, b""));
    assert!(rt; drops_once(alloc)?);
    assert!(rt; is_unsolicited());
    Ok(())
}
