ghost use Rattle.std.specs.Prelude.{◌≡◌, ◌<◌, ◌≤◌, nat_lt, false, IfOk, IfErr};
ghost use Rattle.rbc_command.specs.Commands.{command_of, command_in, flag, unless_bad, moved_blocks};

use crate::command::Command;
use crate::operation::Operation;
use crate::sense::Sense;
use byteorder::{BigEndian, ByteOrder};

/// The most blocks that a READ or a WRITE moves.
const MOST_BLOCKS: u32 = 32;

/// A command block (CDB, command descriptor block): 12 bytes, byte 0 the operation code.
pub struct Cdb;

impl Cdb {
    /// Reads a command block.
    ///
    /// The error is 5/20/00 exactly where the operation code is not in the table of [`Operation`];
    /// 5/24/00 exactly where load or eject is set in START STOP UNIT, bit 1 of byte 1 is set in
    /// VERIFY, or a READ or WRITE counts more than 32 blocks.
    pub fn read(bytes: &[u8; 12]) -> Result<Command, Sense>
        ensures read { result ≡ command_of bytes.now }
        ensures illegal { IfErr result (λ check. check.key ≡ 5) }
        ensures few { IfOk result (λ command. moved_blocks command ≤ 32) }
    {
        match Operation::of(bytes[0]) {
            Some(operation) => fields(operation, bytes),
            None => Err(Sense::NO_COMMAND),
        }
    }
}

/// The fields of an operation.
fn fields(operation: Operation, bytes: &[u8; 12]) -> Result<Command, Sense>
    ensures read { result ≡ command_in operation bytes.now }
    ensures illegal { IfErr result (λ check. check.key ≡ 5) }
    ensures few { IfOk result (λ command. moved_blocks command ≤ 32) }
{
    let lba = BigEndian::read_u32(&bytes[2..]);
    let blocks_of_ten = BigEndian::read_u16(&bytes[7..]);
    let count_of_ten = u32::from(blocks_of_ten);
    let count_of_twelve = BigEndian::read_u32(&bytes[6..]);
    match operation {
        Operation::TestReady => Ok(Command::TestReady),
        Operation::Inquiry => Ok(Command::Inquiry {
            allocation: bytes[4],
        }),
        Operation::StartStop => unless(
            is_set(bytes, 4, 1),
            Command::StartStop {
                start: is_set(bytes, 4, 0),
            },
        ),
        Operation::Prevent => Ok(Command::Prevent {
            on: is_set(bytes, 4, 0),
        }),
        Operation::Capacity => Ok(Command::Capacity),
        Operation::Read10 => unless_many(
            count_of_ten,
            Command::Read {
                lba,
                count: count_of_ten,
            },
        ),
        Operation::Write10 => unless_many(
            count_of_ten,
            Command::Write {
                lba,
                count: count_of_ten,
            },
        ),
        Operation::Verify => unless(
            is_set(bytes, 1, 1),
            Command::Verify {
                lba,
                count: blocks_of_ten,
            },
        ),
        Operation::Sync => Ok(Command::Sync),
        Operation::Read12 => unless_many(
            count_of_twelve,
            Command::Read {
                lba,
                count: count_of_twelve,
            },
        ),
        Operation::Write12 => unless_many(
            count_of_twelve,
            Command::Write {
                lba,
                count: count_of_twelve,
            },
        ),
    }
}

/// Whether a bit of a byte is set.
fn is_set(bytes: &[u8; 12], byte: usize, bit: u8) -> bool
    requires byte { byte < 12 }
    requires bit { bit < 8 }
    ensures { result ≡ flag bytes.now byte bit }
{
    bytes[byte] >> bit & 1 == 1
}

/// The command, but 5/24/00 where its fields don't fit it.
fn unless(bad: bool, command: Command) -> Result<Command, Sense>
    ensures told { result ≡ unless_bad bad command }
    ensures illegal { IfErr result (λ check. check.key ≡ 5) }
    ensures same { IfOk result (λ kept. kept ≡ command) }
    ensures fits { IfOk result (λ kept. bad ≡ false) }
{
    if bad {
        return Err(Sense::BAD_FIELD);
    }
    Ok(command)
}

/// A READ or a WRITE of so many blocks, where they are few enough.
fn unless_many(count: u32, command: Command) -> Result<Command, Sense>
    requires { moved_blocks command ≡ count }
    ensures told { result ≡ unless_bad (nat_lt 32 count) command }
    ensures illegal { IfErr result (λ check. check.key ≡ 5) }
    ensures few { IfOk result (λ kept. moved_blocks kept ≤ 32) }
{
    unless(count > MOST_BLOCKS, command)
}
