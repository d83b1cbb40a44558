ghost use Rattle.std.specs.Prelude.{◌<◌};

use rbc_disk::{BufferPlan, Medium, Need, Outcome, Sense, Unit};
use std::alloc::Global;

/// The bytes of the room for answers, of each buffer and of each payload: 32 blocks.
pub(crate) const ROOM: usize = 16384;

pub(crate) const GOOD: Outcome = Outcome::Good { answer: 0 };

/// A command that is sent.
#[derive(Clone, Copy)]
pub(crate) enum Sent {
    /// This one, which sends no data.
    Block([u8; 12]),
    /// READ(12) from this block on, of so many.
    Read(u8, u8),
    /// The same by READ(10).
    ReadTen(u8, u8),
    /// VERIFY from this block on, of so many.
    Verify(u8, u8),
    /// WRITE(12) of 32 blocks of this byte.
    WriteAll(u8),
    /// The same by WRITE(10).
    WriteTen(u8),
}

/// A command, and how it is to end.
pub(crate) type Case = (Sent, Outcome);

/// The command block, the direction of the buffer, and the byte that a payload is filled with.
fn command(sent: Sent) -> ([u8; 12], bool, u8) {
    match sent {
        Sent::Block(cdb) => (cdb, true, 0),
        Sent::Read(lba, count) => ([0xa8, 0, 0, 0, 0, lba, 0, 0, 0, count, 0, 0], true, 0),
        Sent::ReadTen(lba, count) => ([0x28, 0, 0, 0, 0, lba, 0, 0, count, 0, 0, 0], true, 0),
        Sent::Verify(lba, count) => ([0x2f, 0, 0, 0, 0, lba, 0, 0, count, 0, 0, 0], true, 0),
        Sent::WriteAll(fill) => ([0xaa, 0, 0, 0, 0, 0, 0, 0, 0, 32, 0, 0], false, fill),
        Sent::WriteTen(fill) => ([0x2a, 0, 0, 0, 0, 0, 0, 0, 32, 0, 0, 0], false, fill),
    }
}

/// How a command of a login ends, where its data are none or 32 blocks.
fn run(
    alloc: Global,
    unit: &mut Unit,
    medium: &mut dyn Medium,
    login: u8,
    sent: Sent,
    room: &mut [u8],
) -> Option<Outcome>
    requires { login < 8 }
{
    let (cdb, to_initiator, fill) = command(sent);
    let payload = vec![in alloc; fill; ROOM].ok()?;
    let buffer = BufferPlan {
        to_initiator,
        bytes: 16384,
    };
    if payload.len() != ROOM || room.len() != ROOM {
        return None;
    }
    let payload = match unit.needs(medium, login, &cdb, buffer) {
        Need::RunNow => &[],
        Need::Payload(16384) => payload.as_slice(),
        Need::Payload(_) => return None,
    };
    Some(unit.run(medium, login, &cdb, buffer, payload, room))
}

/// Runs commands of a login in turn; the room for answers, where each ends as its case says.
pub(crate) fn play(
    alloc: Global,
    unit: &mut Unit,
    medium: &mut dyn Medium,
    login: u8,
    cases: &[Case],
) -> Option<Vec<u8>>
    requires { login < 8 }
{
    let mut room = vec![in alloc; 0xee; ROOM].ok()?;
    for (sent, ended) in cases {
        if run(alloc, unit, medium, login, *sent, room.as_mut_slice()) != Some(*ended) {
            return None;
        }
    }
    Some(room)
}

/// Whether a new unit plays so for login 0, with these bytes in the room for answers from `at` on.
pub(crate) fn plays(
    alloc: Global,
    medium: &mut dyn Medium,
    cases: &[Case],
    at: usize,
    bytes: &[u8],
) -> bool {
    match play(alloc, &mut Unit::new(), medium, 0, cases) {
        Some(room) => holds(room.as_slice(), at, bytes),
        None => false,
    }
}

/// Whether a room has these bytes from `at` on.
pub(crate) fn holds(room: &[u8], at: usize, bytes: &[u8]) -> bool {
    match room.get(at..) {
        Some(rest) => rest.starts_with(bytes),
        None => false,
    }
}
