ghost use Rattle.std.specs.Prelude.{true, false, Some, IfErr, ◌≡◌, ◌≤◌, ◌^◌, ◌<◌, IfOk};
ghost use Rattle.rbc_command.specs.Commands.{operation_of};
ghost use Rattle.rbc_disk.specs.Requests.{request_of, is_start_stop, is_load, is_eject, needs_medium, is_outside, is_past, is_write, is_unfit, data_length, answer_length};
ghost use Rattle.rbc_disk.specs.Runs.{is_failure};

use crate::command::{BLOCK, BufferPlan};
use rbc_command::{Cdb, Command, Operation, Sense};

/// Bytes of the inquiry data.
pub(crate) const INQUIRY: u8 = 36;

/// Bytes of the answer to READ CAPACITY(10).
pub(crate) const CAPACITY: u8 = 8;

/// What a command block asks of a unit.
#[derive(Clone, Copy, Debug, PartialEq, Eq)]
pub enum Request {
    /// A command of the table.
    Plain(Command),
    /// START STOP UNIT with load, over a bay.
    Load,
    /// START STOP UNIT with eject, over a bay.
    Eject,
}

impl Request {
    /// Reads a command block for a unit whose medium is a bay or is none. The errors are those of
    /// [`Cdb::read`], but over a bay load and eject are requests.
    #[tactic(auto, unfolding(crate::specs::Requests::request_of))]
    pub fn read(cdb: &[u8; 12], is_bay: bool) -> Result<Request, Sense>
        ensures request { result ≡ request_of is_bay cdb.now }
        ensures few_data { IfOk result (λ request. data_length request ≤ 16384) }
        ensures few_answered { IfOk result (λ request. answer_length request ≤ 16384) }
        ensures no_fault { IfErr result (λ check. is_failure (Some check) ≡ false) }
        ensures bay { IfOk result (λ request. is_load request ≡ true → is_bay ≡ true) }
    {
        if is_bay && is_start_stop(cdb[0]) && cdb[4] >> 1 & 1 == 1 {
            return if cdb[4] & 1 == 1 {
                Ok(Request::Load)
            } else {
                Ok(Request::Eject)
            };
        }
        match Cdb::read(cdb) {
            Ok(command) => Ok(Request::Plain(command)),
            Err(sense) => Err(sense),
        }
    }

    /// Whether it is a load.
    pub(crate) fn is_load(self) -> bool
        ensures { result ≡ is_load self }
    {
        matches!(self, Request::Load)
    }

    /// Whether it is an eject.
    pub(crate) fn is_eject(self) -> bool
        ensures { result ≡ is_eject self }
    {
        matches!(self, Request::Eject)
    }

    /// Whether it asks for a medium that is present and a unit that is started.
    pub(crate) fn needs_medium(self) -> bool
        ensures { result ≡ needs_medium self }
    {
        match self {
            Request::Plain(command) => match command {
                Command::TestReady
                | Command::Capacity
                | Command::Read { .. }
                | Command::Write { .. }
                | Command::Verify { .. }
                | Command::Sync => true,
                Command::Inquiry { .. } | Command::StartStop { .. } | Command::Prevent { .. } => {
                    false
                }
            },
            Request::Load | Request::Eject => false,
        }
    }

    /// Whether its blocks are not all inside a medium of so many blocks.
    pub(crate) fn is_outside(self, blocks: u32) -> bool
        ensures { result ≡ is_outside self blocks }
    {
        match self {
            Request::Plain(Command::Read { lba, count })
            | Request::Plain(Command::Write { lba, count }) => is_past(lba, count, blocks),
            Request::Plain(Command::Verify { lba, count }) => {
                is_past(lba, u32::from(count), blocks)
            }
            _ => false,
        }
    }

    /// Whether it is a WRITE.
    pub(crate) fn is_write(self) -> bool
        ensures { result ≡ is_write self }
    {
        matches!(self, Request::Plain(Command::Write { .. }))
    }

    /// The bytes of its data.
    pub(crate) fn data_length(self) -> u32
        requires { data_length self < 2 ^ 32 }
        ensures { result ≡ data_length self }
    {
        match self {
            Request::Plain(Command::Write { count, .. }) => BLOCK * count,
            _ => 0,
        }
    }

    /// The bytes of its answer.
    pub(crate) fn answer_length(self) -> u32
        requires { answer_length self < 2 ^ 32 }
        ensures { result ≡ answer_length self }
    {
        match self {
            Request::Plain(Command::Inquiry { allocation }) => u32::from(allocation.min(INQUIRY)),
            Request::Plain(Command::Capacity) => u32::from(CAPACITY),
            Request::Plain(Command::Read { count, .. }) => BLOCK * count,
            _ => 0,
        }
    }

    /// Whether it has data or an answer, and the buffer is shorter or has the other direction.
    pub(crate) fn is_unfit(self, buffer: BufferPlan) -> bool
        requires data { data_length self < 2 ^ 32 }
        requires answer { answer_length self < 2 ^ 32 }
        ensures { result ≡ is_unfit self buffer }
    {
        let sent = self.data_length();
        let answered = self.answer_length();
        (sent != 0 && (buffer.bytes < sent || buffer.to_initiator))
            || (answered != 0 && (buffer.bytes < answered || !buffer.to_initiator))
    }
}

/// Whether an operation code is that of START STOP UNIT.
fn is_start_stop(code: u8) -> bool
    ensures { result ≡ is_start_stop (operation_of code) }
{
    matches!(Operation::of(code), Some(Operation::StartStop))
}

/// Whether `count` blocks from block `lba` on are not all among so many blocks.
fn is_past(lba: u32, count: u32, blocks: u32) -> bool
    ensures { result ≡ is_past lba count blocks }
{
    lba >= blocks || count > blocks - lba
}
