use crate::case::{GOOD, Sent, play};
use crate::counted_calls::CountedCalls;
use rbc_disk::{Outcome, Sense, Unit};
use std::alloc::Global;
use std::test::Fail;

/// No call of a medium: of its reads, writes and verifies.
const NONE: [u32; 3] = [0, 0, 0];

const ONE_READ: [u32; 3] = [1, 0, 0];

const ONE_WRITE: [u32; 3] = [0, 1, 0];

const ONE_VERIFY: [u32; 3] = [0, 0, 1];

/// Whether a command to a new unit ends so, and makes these calls of its medium.
fn makes(alloc: Global, sent: Sent, ended: Outcome, calls: [u32; 3]) -> bool {
    let mut medium = CountedCalls::new();
    let is_played = play(alloc, &mut Unit::new(), &mut medium, 0, &[(sent, ended)]).is_some();
    is_played && medium.calls() == calls
}

/// A command block of a START STOP UNIT or a PREVENT ALLOW.
const fn of_byte_4(code: u8, byte: u8) -> Sent {
    Sent::Block([code, 0, 0, 0, byte, 0, 0, 0, 0, 0, 0, 0])
}

/// Each command of a unit makes the one call of its kind, or none: also where it has no blocks, or one past the
/// last block of the medium.
#[test]
fn commands_make_their_calls(rt: HostRuntime) -> Result<(), Fail> {
    let outside = Outcome::Check(Sense::OUTSIDE);
    let bad_field = Outcome::Check(Sense::BAD_FIELD);
    for (sent, ended, calls) in [
        (of_byte_4(0x00, 0), GOOD, NONE),
        (of_byte_4(0x12, 36), Outcome::Good { answer: 36 }, NONE),
        (of_byte_4(0x1b, 0), GOOD, NONE),
        (of_byte_4(0x1b, 1), GOOD, NONE),
        (of_byte_4(0x1b, 2), bad_field, NONE),
        (of_byte_4(0x1b, 3), bad_field, NONE),
        (of_byte_4(0x1e, 1), GOOD, NONE),
        (of_byte_4(0x1e, 0), GOOD, NONE),
        (of_byte_4(0x25, 0), Outcome::Good { answer: 8 }, NONE),
        (of_byte_4(0x35, 0), GOOD, NONE),
        (
            Sent::ReadTen(5, 2),
            Outcome::Good { answer: 1024 },
            ONE_READ,
        ),
        (Sent::Read(63, 1), Outcome::Good { answer: 512 }, ONE_READ),
        (Sent::Read(0, 32), Outcome::Good { answer: 16384 }, ONE_READ),
        (Sent::Read(5, 0), GOOD, NONE),
        (Sent::Read(63, 2), outside, NONE),
        (Sent::WriteTen(0x33), GOOD, ONE_WRITE),
        (Sent::WriteAll(0x33), GOOD, ONE_WRITE),
        (Sent::Verify(0, 1), GOOD, ONE_VERIFY),
        (Sent::Verify(9, 7), GOOD, ONE_VERIFY),
        (Sent::Verify(9, 0), GOOD, NONE),
        (Sent::Verify(60, 5), outside, NONE),
    ] {
        assert!(rt; makes(rt.alloc(), sent, ended, calls));
    }
    Ok(())
}
