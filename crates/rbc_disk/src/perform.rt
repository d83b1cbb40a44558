ghost use Rattle.std.specs.Prelude.{◌≡◌, ℕ, List, ◌-◌, ◌*◌, ◌≤◌, [], ◌++◌, length, take, min, None, true};
ghost use Rattle.byteorder.specs.Endian.{big_bytes};
ghost use Rattle.rbc_disk.specs.Requests.{Passes, data_length};
ghost use Rattle.rbc_disk.specs.Checks.{tray_check};
ghost use Rattle.rbc_disk.specs.Runs.{inquiry_bytes, need_at, Feeds, Performs};

use crate::command::{BLOCK, Outcome};
use crate::medium::Medium;
use crate::request::{CAPACITY, INQUIRY, Request};
use rbc_command::{Command, Sense};
use sbp_base::{Failed, put_quad};

/// Makes the medium calls of a request that passed its checks, and writes its answer.
pub(crate) fn perform(
    medium: &mut dyn Medium,
    request: Request,
    payload: &[u8],
    answer: &mut [u8],
) -> Outcome
    requires passes { Passes request (disk medium.old) }
    requires fed { Feeds (need_at (tray_check request (disk medium.old)) (data_length request)) payload.now }
    requires room { length answer.old ≡ 16384 }
    ensures { Performs request payload.now (disk medium.old) (disk medium.new) (media_faults medium.old) (media_faults medium.new) result answer.new }
{
    match request {
        Request::Load => load(medium),
        Request::Eject => {
            medium.eject();
            Outcome::Good { answer: 0 }
        }
        Request::Plain(command) => transfer(medium, command, payload, answer),
    }
}

/// Loads the tray of a bay; a full tray stays as it is.
fn load(medium: &mut dyn Medium) -> Outcome
    requires { (disk medium.old).is_bay ≡ true }
    ensures { (payload room : List ℕ) → Performs Request.Load payload (disk medium.old) (disk medium.new) (media_faults medium.old) (media_faults medium.new) result room }
{
    let is_full = medium.is_present();
    let is_moved = medium.load();
    if is_full || is_moved {
        Outcome::Good { answer: 0 }
    } else {
        Outcome::Check(Sense::NO_MEDIUM)
    }
}

/// Makes the medium call of a command of the table, and writes its answer.
fn transfer(medium: &mut dyn Medium, command: Command, payload: &[u8], answer: &mut [u8]) -> Outcome
    requires passes { Passes (Request.Plain command) (disk medium.old) }
    requires fed { Feeds (need_at None (data_length (Request.Plain command))) payload.now }
    requires room { length answer.old ≡ 16384 }
    ensures { Performs (Request.Plain command) payload.now (disk medium.old) (disk medium.new) (media_faults medium.old) (media_faults medium.new) result answer.new }
{
    match command {
        Command::Inquiry { allocation } => inquiry(allocation, answer),
        Command::Capacity => capacity(medium, answer),
        Command::Read { lba, count } => read_blocks(medium, lba, count, answer),
        Command::Write { lba, count } => write_blocks(medium, lba, count, payload),
        Command::Verify { lba, count } => verify_blocks(medium, lba, count),
        Command::TestReady | Command::StartStop { .. } | Command::Prevent { .. } | Command::Sync =>
            Outcome::Good { answer: 0 },
    }
}

/// The standard inquiry data (SPC): a simplified direct-access device (RBC) with removable medium, of
/// vendor `SBP2DISK`, product `PROFILE DISK` and revision `0001`.
const INQUIRY_DATA: &[u8; 36] = b"\x0e\x00\x04\x02\x1f\x00\x00\x00SBP2DISKPROFILE DISK    0001";

/// Writes the inquiry data, cut to the allocation.
fn inquiry(allocation: u8, answer: &mut [u8]) -> Outcome
    requires { length answer.old ≡ 16384 }
    ensures good { result ≡ Outcome.Good (min allocation 36) }
    ensures answered { take (min allocation 36) answer.new ≡ take allocation inquiry_bytes }
{
    let len = allocation.min(INQUIRY);
    let size = usize::from(len);
    copy_front(INQUIRY_DATA, size, answer);
    Outcome::Good {
        answer: u16::from(len),
    }
}

/// Copies the first `len` bytes to the front of `out`.
fn copy_front(bytes: &[u8], len: usize, out: &mut [u8])
    requires known { len ≤ length bytes.now }
    requires room { len ≤ length out.old }
    ensures { take len out.new ≡ take len bytes.now }
{
    out[..len].copy_from_slice(&bytes[..len]);
}

/// Writes the last block and the length of a block.
fn capacity(medium: &dyn Medium, answer: &mut [u8]) -> Outcome
    requires { length answer.old ≡ 16384 }
    ensures good { result ≡ Outcome.Good 8 }
    ensures answered { take 8 answer.new ≡ big_bytes 4 ((disk medium.now).blocks - 1) ++ big_bytes 4 512 }
{
    put_quad(answer, 0, medium.blocks() - 1);
    put_quad(answer, 4, BLOCK);
    Outcome::Good {
        answer: u16::from(CAPACITY),
    }
}

/// READ: the blocks are the answer. Without a block there is no medium call.
fn read_blocks(medium: &mut dyn Medium, lba: u32, count: u32, answer: &mut [u8]) -> Outcome
    requires passes { Passes (Request.Plain (Command.Read lba count)) (disk medium.old) }
    requires room { length answer.old ≡ 16384 }
    ensures { (payload : List ℕ) → Performs (Request.Plain (Command.Read lba count)) payload (disk medium.old) (disk medium.new) (media_faults medium.old) (media_faults medium.new) result answer.new }
{
    if count == 0 {
        return Outcome::Good { answer: 0 };
    }
    let len = BLOCK * count;
    match medium.read(lba, &mut answer[..len as usize]) {
        Ok(()) => Outcome::Good { answer: len as u16 },
        Err(Failed) => Outcome::Check(Sense::READ_FAILED),
    }
}

/// WRITE: the blocks are replaced by the payload. Without a block there is no medium call.
fn write_blocks(medium: &mut dyn Medium, lba: u32, count: u32, payload: &[u8]) -> Outcome
    requires passes { Passes (Request.Plain (Command.Write lba count)) (disk medium.old) }
    requires fed { Feeds (need_at None (512 * count)) payload.now }
    ensures { (room : List ℕ) → Performs (Request.Plain (Command.Write lba count)) payload.now (disk medium.old) (disk medium.new) (media_faults medium.old) (media_faults medium.new) result room }
{
    if count == 0 {
        return Outcome::Good { answer: 0 };
    }
    match medium.write(lba, payload) {
        Ok(()) => Outcome::Good { answer: 0 },
        Err(Failed) => Outcome::Check(Sense::WRITE_FAILED),
    }
}

/// VERIFY: the medium reads its blocks. Without a block there is no medium call.
fn verify_blocks(medium: &mut dyn Medium, lba: u32, count: u16) -> Outcome
    requires { Passes (Request.Plain (Command.Verify lba count)) (disk medium.old) }
    ensures { (payload room : List ℕ) → Performs (Request.Plain (Command.Verify lba count)) payload (disk medium.old) (disk medium.new) (media_faults medium.old) (media_faults medium.new) result room }
{
    if count == 0 {
        return Outcome::Good { answer: 0 };
    }
    match medium.verify(lba, u32::from(count)) {
        Ok(()) => Outcome::Good { answer: 0 },
        Err(Failed) => Outcome::Check(Sense::READ_FAILED),
    }
}
