use crate::cause::{Cause, CutCause};
use crate::operation::{FunctionWord, OpWord, Operation};
use orb_layout::{FailCause, StatusKind};
use rbc_command::Sense;
use sbp_base::Bytes;

/// The buffer of an ORB.
#[derive(Drop)]
pub enum NoteBuffer {
    /// No bytes.
    Nothing,
    /// So many bytes to the initiator.
    In(u16),
    /// These bytes to the target.
    Out(Bytes),
}

/// One line of the journal. An initiator has lists of ORBs, numbered from 0, and a list has ORBs,
/// numbered from 0. A node is 0 for the target and i + 1 for initiator i. A list or an ORB that the
/// target can't name is `None`.
#[derive(Drop)]
pub enum Note {
    /// The run begins.
    Begin {
        initiators: u8,
        ready: bool,
    },
    /// An ORB was prepared.
    Append {
        initiator: u8,
        list: u32,
        orb: u32,
        cdb: [u8; 12],
        buffer: NoteBuffer,
    },
    /// The low quadlet of the next pointer of the ORB before was written.
    Low {
        initiator: u8,
        list: u32,
        orb: u32,
    },
    /// The ORB was linked behind the one before.
    Linked {
        initiator: u8,
        list: u32,
        orb: u32,
    },
    /// The target was told of the ORB, the last one linked.
    Rung {
        initiator: u8,
        list: u32,
        orb: u32,
    },
    /// The ORB was made a dummy.
    Dummied {
        initiator: u8,
        list: u32,
        orb: u32,
    },
    /// A packet was sent.
    Sent {
        serial: u64,
        generation: u32,
        from: u8,
        to: u8,
        bytes: Bytes,
    },
    /// The packet that is sent next was injected.
    Injected {
        serial: u64,
    },
    /// A packet was taken.
    Got {
        serial: u64,
    },
    /// A packet was ignored.
    Ignored {
        serial: u64,
        cause: Cause,
    },
    /// A packet was lost.
    Lost {
        serial: u64,
    },
    /// The time for the answer to a request ran out.
    TimedOut {
        serial: u64,
    },
    /// The ORB's command ran on a unit, with the data that was read for it.
    Ran {
        initiator: u8,
        list: Option<u32>,
        orb: Option<u32>,
        unit: u8,
        cdb: [u8; 12],
        bytes: Bytes,
        check: Option<Sense>,
    },
    /// The target ended the ORB.
    Ended {
        initiator: u8,
        list: Option<u32>,
        orb: Option<u32>,
        status: StatusKind,
    },
    /// The initiator took the ORB's status, with the command's answer.
    Taken {
        initiator: u8,
        list: u32,
        orb: u32,
        status: StatusKind,
        answer: Bytes,
    },
    /// The target ended a list.
    Cut {
        initiator: u8,
        list: Option<u32>,
        cause: CutCause,
    },
    /// The agent of a list is dead.
    Dead {
        initiator: u8,
        list: Option<u32>,
        cause: FailCause,
    },
    /// The initiator dropped a list.
    Drop {
        initiator: u8,
        list: u32,
    },
    /// The target decided a management ORB; `subject` is the unit or the login ID that it names.
    Managed {
        initiator: u8,
        function: FunctionWord,
        subject: u16,
        status: u8,
        login: Option<u16>,
    },
    /// A management operation failed at the target.
    ManageFailed {
        initiator: u8,
        cause: FailCause,
    },
    /// A login is held for its initiator after a reset.
    Held {
        login: u16,
    },
    /// A held login ran out.
    Expired {
        login: u16,
    },
    /// A held login was taken back.
    Back {
        login: u16,
    },
    /// A login was given back.
    Left {
        login: u16,
    },
    /// A unit was cleared.
    Cleared {
        unit: u8,
    },
    /// An operation of an initiator ended.
    Op {
        initiator: u8,
        operation: Operation,
        word: OpWord,
    },
    /// The session of an initiator is stuck until a reset.
    Stuck {
        initiator: u8,
    },
    /// The bus was reset.
    Reset {
        generation: u32,
    },
    /// A node saw the reset.
    Seen {
        node: u8,
        generation: u32,
    },
    /// A second passed.
    Tick,
    /// The action of a line was refused.
    Refused {
        line: u32,
        number: u8,
    },
    /// Nothing is in flight any more.
    Settled,
    /// Packets are in flight still.
    Stopped,
    /// The key of a unit was set.
    Key {
        unit: u8,
    },
    /// An unsolicited status is sent to an initiator.
    Unsolicited {
        initiator: u8,
    },
    /// An unsolicited status for an initiator was not sent.
    Unsent {
        initiator: u8,
    },
    /// An initiator got an unsolicited status.
    Told {
        initiator: u8,
    },
}
