use crate::case::{Case, GOOD, Sent, holds, play, plays};
use rbc_disk::{
    EmptyMedium, FaultyMedium, Medium, Outcome, ProtectedMedium, RamMedium, Sense, Unit,
};
use sbp_base::NoMemory;
use std::alloc::Global;
use std::test::Fail;

const TEST_READY: [u8; 12] = [0; 12];

const INQUIRY: [u8; 12] = [0x12, 0, 0, 0, 36, 0, 0, 0, 0, 0, 0, 0];

const STOP: [u8; 12] = [0x1b, 0, 0, 0, 0, 0, 0, 0, 0, 0, 0, 0];

const START: [u8; 12] = [0x1b, 0, 0, 0, 1, 0, 0, 0, 0, 0, 0, 0];

const EJECT: [u8; 12] = [0x1b, 0, 0, 0, 2, 0, 0, 0, 0, 0, 0, 0];

const CAPACITY: [u8; 12] = [0x25, 0, 0, 0, 0, 0, 0, 0, 0, 0, 0, 0];

/// An answer of a block.
const BLOCK: Outcome = Outcome::Good { answer: 512 };

/// An absent medium: INQUIRY alone is good.
const EMPTY: [Case; 2] = [
    (Sent::Block(TEST_READY), Outcome::Check(Sense::NO_MEDIUM)),
    (Sent::Block(INQUIRY), Outcome::Good { answer: 36 }),
];

/// The answer of an INQUIRY.
const STANDARD: &[u8] = b"\x0e\x00\x04\x02\x1f\x00\x00\x00SBP2DISKPROFILE DISK    0001";

/// A login with a mark of a reset and one of a changed medium, one with the first alone, and one with none.
const BOTH_MARKS: [Case; 4] = [
    (Sent::Block(INQUIRY), Outcome::Good { answer: 36 }),
    (Sent::Block(TEST_READY), Outcome::Check(Sense::WAS_RESET)),
    (
        Sent::Block(TEST_READY),
        Outcome::Check(Sense::MEDIUM_CHANGED),
    ),
    (Sent::Block(TEST_READY), GOOD),
];

const ONE_MARK: [Case; 2] = [
    (Sent::Block(TEST_READY), Outcome::Check(Sense::WAS_RESET)),
    (Sent::Block(TEST_READY), GOOD),
];

const NO_MARK: [Case; 1] = [(Sent::Block(TEST_READY), GOOD)];

/// Whether each login is told of a reset before of a changed medium, each once, and by no INQUIRY.
fn tells_marks(alloc: Global, medium: &mut dyn Medium) -> bool {
    let mut unit = Unit::new();
    unit.changed(1);
    unit.clear(3);
    play(alloc, &mut unit, medium, 0, &BOTH_MARKS).is_some()
        && play(alloc, &mut unit, medium, 1, &ONE_MARK).is_some()
        && play(alloc, &mut unit, medium, 2, &NO_MARK).is_some()
}

/// A medium of 64 blocks that is stopped and started, and has no tray; its last block, the one behind
/// it, none of the last, more than 32; 32 blocks written; the capacity.
const WHOLE: [Case; 11] = [
    (Sent::Block(STOP), GOOD),
    (Sent::Block(TEST_READY), Outcome::Check(Sense::NOT_STARTED)),
    (Sent::Block(START), GOOD),
    (Sent::Block(EJECT), Outcome::Check(Sense::BAD_FIELD)),
    (Sent::Read(63, 1), BLOCK),
    (Sent::Read(64, 1), Outcome::Check(Sense::OUTSIDE)),
    (Sent::Read(63, 0), GOOD),
    (Sent::Read(0, 33), Outcome::Check(Sense::BAD_FIELD)),
    (Sent::WriteAll(0x33), GOOD),
    (Sent::Read(31, 2), Outcome::Good { answer: 1024 }),
    (Sent::Block(CAPACITY), Outcome::Good { answer: 8 }),
];

/// Whether a medium does that, with the bytes of its answers.
fn is_whole_disk(alloc: Global, medium: &mut dyn Medium) -> bool {
    match play(alloc, &mut Unit::new(), medium, 0, &WHOLE) {
        Some(room) => {
            holds(room.as_slice(), 0, &[0, 0, 0, 63, 0, 0, 2, 0])
                && holds(room.as_slice(), 510, &[0x33, 0x33, 0, 0])
        }
        None => false,
    }
}

/// A protected medium is read and not written.
const PROTECTED: [Case; 2] = [
    (Sent::WriteAll(0x33), Outcome::Check(Sense::PROTECTED)),
    (Sent::Read(7, 1), BLOCK),
];

/// Media that work.
#[test]
fn working_media(rt: HostRuntime) -> Result<(), Fail> {
    let alloc = rt.alloc();
    assert!(rt; plays(alloc, &mut EmptyMedium::new(64), &EMPTY, 0, STANDARD));
    assert!(rt; tells_marks(alloc, &mut RamMedium::new(alloc, 1, 0)?));
    assert!(rt; is_whole_disk(alloc, &mut RamMedium::new(alloc, 64, 0)?));
    let mut protected = ProtectedMedium::new(alloc, 64, 0x5a)?;
    assert!(rt;
        plays(
            alloc,
            &mut protected,
            &PROTECTED,
            510,
            &[0x5a, 0x5a, 0xee, 0xee]
        )
    );
    Ok(())
}

/// A medium of 64 blocks of 5Ah, of which the call with this number fails.
fn fails_at(alloc: Global, call: u32) -> Result<FaultyMedium, NoMemory> {
    let failing = Vec::from_slice(alloc, &[call])?;
    FaultyMedium::new(alloc, 64, 0x5a, failing)
}

/// Commands of no blocks, which make no call of the medium.
const NO_CALLS: [Case; 3] = [
    (Sent::Block(TEST_READY), GOOD),
    (Sent::Read(5, 0), GOOD),
    (Sent::Verify(5, 0), GOOD),
];

/// Whether the first call of a medium is that of this command, which fails, and the next one is good.
fn fails_first(alloc: Global, medium: &mut dyn Medium, sent: Sent) -> bool {
    let mut unit = Unit::new();
    let failing = [(sent, Outcome::Check(Sense::READ_FAILED))];
    let is_first = play(alloc, &mut unit, medium, 0, &NO_CALLS).is_some()
        && play(alloc, &mut unit, medium, 0, &failing).is_some();
    match play(alloc, &mut unit, medium, 0, &[(Sent::Read(0, 1), BLOCK)]) {
        Some(room) => is_first && holds(room.as_slice(), 0, &[0x5a, 0x5a]),
        None => false,
    }
}

/// Whether it is that of a READ, or of a VERIFY of any place, which so makes it.
fn each_fails_first(alloc: Global) -> Result<bool, NoMemory> {
    for sent in [
        Sent::Read(0, 1),
        Sent::Verify(0, 2),
        Sent::Verify(9, 7),
        Sent::Verify(63, 1),
    ] {
        if !fails_first(alloc, &mut fails_at(alloc, 1)?, sent) {
            return Ok(false);
        }
    }
    Ok(true)
}

/// A WRITE makes one call: the second call that fails is that of the second WRITE, and leaves the
/// blocks of the first.
const SECOND_FAILS: [Case; 3] = [
    (Sent::WriteAll(0x33), GOOD),
    (Sent::WriteAll(0x44), Outcome::Check(Sense::WRITE_FAILED)),
    (Sent::Read(31, 1), BLOCK),
];

/// Media whose calls fail.
#[test]
fn failing_media(rt: HostRuntime) -> Result<(), Fail> {
    let alloc = rt.alloc();
    assert!(rt; each_fails_first(alloc)?);
    let mut medium = fails_at(alloc, 2)?;
    assert!(rt;
        plays(
            alloc,
            &mut medium,
            &SECOND_FAILS,
            510,
            &[0x33, 0x33, 0xee, 0xee]
        )
    );
    Ok(())
}
