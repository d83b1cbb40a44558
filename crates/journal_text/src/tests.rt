ghost use Rattle.std.specs.Prelude.{◌<◌, length, IsTrue};
ghost use Rattle.sbp_journal.specs.Form.{IsBuffer, IsStatus, HasForm};

use orb_layout::{FailCause, StatusKind};
use rbc_command::Sense;
use sbp_base::{Bytes, NoMemory, NodeId};
use sbp_journal::{
    Cause, CutCause, FunctionWord, Note, NoteBuffer, OpWord, Operation, Outbox, Outgoing, Side,
    Text, write_note,
};
use std::alloc::Global;
use std::test::Fail;

const WRITE: [u8; 12] = [0x2a, 0, 0, 0, 0, 5, 0, 0, 1, 0, 0, 0];

const READ: [u8; 12] = [0x28, 0, 0, 0, 0, 5, 0, 0, 1, 0, 0, 0];

/// The lines of a write and a read.
const LINES: &str = "begin 1 ready
append 0 0 0 2A0000000005000001000000 out AA*512
append 0 0 1 280000000005000001000000 in 512
low 0 0 1
ran 0 0 0 u0 2A0000000005000001000000 AA*512 good
ended 0 0 0 good
taken 0 0 1 good AA*512
taken 0 0 0 check 5/21/00
";

/// The canonical forms of some bytes, as answers, and of no bytes.
const FORMS: &str = "taken 0 0 1 good 111111
taken 0 0 1 good 11*4
taken 0 0 1 good 0102+03*4+04
ran 0 - - u3 280000000005000001000000 - check 5/21/00
";

/// An ORB whose buffer is as given is prepared.
fn write_append(
    alloc: Global,
    orb: u32,
    cdb: &[u8; 12],
    buffer: NoteBuffer,
    out: &mut Text,
) -> Result<(), NoMemory>
    requires { IsBuffer buffer }
{
    let note = Note::Append {
        initiator: 0,
        list: 0,
        orb,
        cdb: *cdb,
        buffer,
    };
    write_note(alloc, &note, out)
}

/// The data of a write as a buffer.
fn write_append_out(alloc: Global, bytes: &[u8], out: &mut Text) -> Result<(), NoMemory>
    requires { 0 < length bytes.now }
{
    let buffer = NoteBuffer::Out(Bytes::from_slice(alloc, bytes)?);
    write_append(alloc, 0, &WRITE, buffer, out)
}

/// A command ran on a unit, good or with a check.
fn write_ran(
    alloc: Global,
    at: Option<u32>,
    unit: u8,
    cdb: &[u8; 12],
    bytes: &[u8],
    refused: bool,
    out: &mut Text,
) -> Result<(), NoMemory> {
    let check = if refused { Some(Sense::OUTSIDE) } else { None };
    let note = Note::Ran {
        initiator: 0,
        list: at,
        orb: at,
        unit,
        cdb: *cdb,
        bytes: Bytes::from_slice(alloc, bytes)?,
        check,
    };
    write_note(alloc, &note, out)
}

/// A good status was taken with an answer.
fn write_taken(alloc: Global, answer: &[u8], out: &mut Text) -> Result<(), NoMemory> {
    let note = Note::Taken {
        initiator: 0,
        list: 0,
        orb: 1,
        status: StatusKind::Good,
        answer: Bytes::from_slice(alloc, answer)?,
    };
    write_note(alloc, &note, out)
}

/// A status of a check was taken.
fn write_refused(alloc: Global, out: &mut Text) -> Result<(), NoMemory> {
    let note = Note::Taken {
        initiator: 0,
        list: 0,
        orb: 0,
        status: StatusKind::Check(Sense::OUTSIDE),
        answer: Bytes::new(alloc),
    };
    write_note(alloc, &note, out)
}

/// The notes of `LINES`, of a block that is not empty.
fn write_run(alloc: Global, block: &[u8], out: &mut Text) -> Result<(), NoMemory>
    requires { 0 < length block.now }
{
    let begin = Note::Begin {
        initiators: 1,
        ready: true,
    };
    write_note(alloc, &begin, out)?;
    write_append_out(alloc, block, out)?;
    write_append(alloc, 1, &READ, NoteBuffer::In(512), out)?;
    let low = Note::Low {
        initiator: 0,
        list: 0,
        orb: 1,
    };
    write_note(alloc, &low, out)?;
    write_ran(alloc, Some(0), 0, &WRITE, block, false, out)?;
    let ended = Note::Ended {
        initiator: 0,
        list: Some(0),
        orb: Some(0),
        status: StatusKind::Good,
    };
    write_note(alloc, &ended, out)?;
    write_taken(alloc, block, out)?;
    write_refused(alloc, out)
}

/// The notes of `FORMS`.
fn write_forms(alloc: Global, out: &mut Text) -> Result<(), NoMemory> {
    write_taken(alloc, &[0x11, 0x11, 0x11], out)?;
    write_taken(alloc, &[0x11, 0x11, 0x11, 0x11], out)?;
    write_taken(alloc, &[1, 2, 3, 3, 3, 3, 4], out)?;
    write_ran(alloc, None, 3, &READ, &[], true, out)
}

/// A packet was sent.
fn write_sent(
    alloc: Global,
    from: u8,
    to: u8,
    bytes: &[u8],
    out: &mut Text,
) -> Result<(), NoMemory> {
    let note = Note::Sent {
        serial: 2,
        generation: 1,
        from,
        to,
        bytes: Bytes::from_slice(alloc, bytes)?,
    };
    write_note(alloc, &note, out)
}

/// A write response.
const RESPONSE: [u8; 12] = [0xff, 0xc1, 0x01, 0x20, 0xff, 0xc0, 0, 0, 0, 0, 0, 0];

/// Packets that were sent.
const SENT: &str = "sent 2 1 t 0 FFC10120FFC0000000000000
sent 2 1 3 t 0A
";

/// Whether notes with bytes have these lines, as they were written by hand.
fn has_lines(alloc: Global) -> Result<bool, NoMemory> {
    let mut run = Text::new(alloc);
    write_run(alloc, &[0xaa; 512], &mut run)?;
    let mut forms = Text::new(alloc);
    write_forms(alloc, &mut forms)?;
    let mut sent = Text::new(alloc);
    write_sent(alloc, 0, 1, &RESPONSE, &mut sent)?;
    write_sent(alloc, 4, 0, &[0x0a], &mut sent)?;
    let is_so = run.as_slice() == LINES.as_bytes()
        && forms.as_slice() == FORMS.as_bytes()
        && sent.as_slice() == SENT.as_bytes();
    Ok(is_so)
}

/// Whether a status is one that an ORB of a list ends with, but for a check.
fn is_status(status: StatusKind) -> bool
    ensures { IsTrue result → IsStatus status }
{
    match status {
        StatusKind::Good
        | StatusKind::Dummy
        | StatusKind::Aborted
        | StatusKind::Illegal(_)
        | StatusKind::Failed => true,
        _ => false,
    }
}

/// Whether a note is one without bytes, and has its form.
fn has_form(note: &Note) -> bool
    ensures { IsTrue result → HasForm note.now }
{
    match note {
        Note::Ended { status, .. } => is_status(*status),
        Note::Managed {
            function,
            status,
            login,
            ..
        } => {
            let gives = matches!(function, FunctionWord::Login) && *status == 0;
            login.is_some() == gives
        }
        Note::Append { .. } | Note::Ran { .. } | Note::Taken { .. } => false,
        _ => true,
    }
}

/// Whether notes without bytes have these lines.
fn tell(alloc: Global, notes: &[Note], lines: &str) -> Result<bool, NoMemory> {
    let mut text = Text::new(alloc);
    for note in notes {
        if !has_form(note) {
            return Ok(false);
        }
        write_note(alloc, note, &mut text)?;
    }
    Ok(text.as_slice() == lines.as_bytes())
}

/// Packets.
const PACKETS: [Note; 11] = [
    Note::Injected { serial: 1 },
    Note::Got { serial: u64::MAX },
    Note::Lost { serial: 3 },
    Note::TimedOut { serial: 4 },
    Note::Ignored {
        serial: 7,
        cause: Cause::Generation,
    },
    Note::Ignored {
        serial: 7,
        cause: Cause::Grammar,
    },
    Note::Ignored {
        serial: 7,
        cause: Cause::Label,
    },
    Note::Ignored {
        serial: 7,
        cause: Cause::Again,
    },
    Note::Ignored {
        serial: 7,
        cause: Cause::Source,
    },
    Note::Ignored {
        serial: 7,
        cause: Cause::Login,
    },
    Note::Ignored {
        serial: 7,
        cause: Cause::Slot,
    },
];

const PACKET_LINES: &str = "injected 1
got 18446744073709551615
lost 3
timedout 4
ignored 7 generation
ignored 7 grammar
ignored 7 label
ignored 7 again
ignored 7 source
ignored 7 login
ignored 7 slot
";

/// The ends of ORBs and of lists.
const ENDS: [Note; 14] = [
    Note::Ended {
        initiator: 1,
        list: Some(2),
        orb: None,
        status: StatusKind::Dummy,
    },
    Note::Ended {
        initiator: 1,
        list: Some(2),
        orb: None,
        status: StatusKind::Aborted,
    },
    Note::Ended {
        initiator: 1,
        list: Some(2),
        orb: None,
        status: StatusKind::Illegal(1),
    },
    Note::Ended {
        initiator: 1,
        list: Some(2),
        orb: None,
        status: StatusKind::Failed,
    },
    Note::Cut {
        initiator: 0,
        list: Some(3),
        cause: CutCause::AgentReset,
    },
    Note::Cut {
        initiator: 0,
        list: Some(3),
        cause: CutCause::AbortSet,
    },
    Note::Cut {
        initiator: 0,
        list: Some(3),
        cause: CutCause::UnitReset,
    },
    Note::Cut {
        initiator: 0,
        list: Some(3),
        cause: CutCause::TargetReset,
    },
    Note::Cut {
        initiator: 0,
        list: Some(3),
        cause: CutCause::Logout,
    },
    Note::Cut {
        initiator: 0,
        list: Some(3),
        cause: CutCause::Reset,
    },
    Note::Dead {
        initiator: 2,
        list: None,
        cause: FailCause::Timeout,
    },
    Note::Dead {
        initiator: 2,
        list: None,
        cause: FailCause::Label,
    },
    Note::Dead {
        initiator: 2,
        list: None,
        cause: FailCause::Refused,
    },
    Note::Dead {
        initiator: 2,
        list: None,
        cause: FailCause::Grammar,
    },
];

const END_LINES: &str = "ended 1 2 - dummy
ended 1 2 - aborted
ended 1 2 - illegal 01
ended 1 2 - failed
cut 0 3 agentreset
cut 0 3 abortset
cut 0 3 unitreset
cut 0 3 targetreset
cut 0 3 logout
cut 0 3 reset
dead 2 - timeout
dead 2 - label
dead 2 - refused
dead 2 - grammar
";

/// Steps of a list, each with its keyword.
const STEPS: [Note; 4] = [
    Note::Linked {
        initiator: 3,
        list: 1,
        orb: 65535,
    },
    Note::Rung {
        initiator: 3,
        list: 1,
        orb: 65535,
    },
    Note::Dummied {
        initiator: 3,
        list: 1,
        orb: 65535,
    },
    Note::Drop {
        initiator: 3,
        list: 1,
    },
];

const STEP_LINES: &str = "linked 3 1 65535
rung 3 1 65535
dummied 3 1 65535
drop 3 1
";

/// Decisions of the management agent, and what comes of logins and units.
const LOGINS: [Note; 12] = [
    Note::Managed {
        initiator: 0,
        function: FunctionWord::Login,
        subject: 0,
        status: 0,
        login: Some(1),
    },
    Note::Managed {
        initiator: 0,
        function: FunctionWord::Login,
        subject: 3,
        status: 5,
        login: None,
    },
    Note::Managed {
        initiator: 0,
        function: FunctionWord::Reconnect,
        subject: 1,
        status: 0,
        login: None,
    },
    Note::Managed {
        initiator: 0,
        function: FunctionWord::UnitReset,
        subject: 1,
        status: 0xa,
        login: None,
    },
    Note::Managed {
        initiator: 0,
        function: FunctionWord::Other,
        subject: 0,
        status: 9,
        login: None,
    },
    Note::ManageFailed {
        initiator: 1,
        cause: FailCause::Refused,
    },
    Note::Held { login: 1 },
    Note::Expired { login: 2 },
    Note::Back { login: 3 },
    Note::Left { login: 65535 },
    Note::Cleared { unit: 2 },
    Note::Key { unit: 3 },
];

const LOGIN_LINES: &str = "mgmt 0 login 0 00 1
mgmt 0 login 3 05
mgmt 0 reconnect 1 00
mgmt 0 lureset 1 0A
mgmt 0 other 0 09
mgmtfail 1 refused
held 1
expired 2
back 3
left 65535
cleared 2
key 3
";

/// Ends of operations.
const OPERATIONS: [Note; 11] = [
    Note::Op {
        initiator: 1,
        operation: Operation::Rom,
        word: OpWord::Bad(4),
    },
    Note::Op {
        initiator: 1,
        operation: Operation::Rom,
        word: OpWord::NoUnit,
    },
    Note::Op {
        initiator: 1,
        operation: Operation::Login,
        word: OpWord::Refused(4),
    },
    Note::Op {
        initiator: 1,
        operation: Operation::Query,
        word: OpWord::Count(Some(2)),
    },
    Note::Op {
        initiator: 1,
        operation: Operation::Query,
        word: OpWord::Count(None),
    },
    Note::Op {
        initiator: 1,
        operation: Operation::Logout,
        word: OpWord::Conflict,
    },
    Note::Op {
        initiator: 1,
        operation: Operation::TargetReset,
        word: OpWord::Error,
    },
    Note::Op {
        initiator: 1,
        operation: Operation::UnitReset,
        word: OpWord::Done,
    },
    Note::Op {
        initiator: 1,
        operation: Operation::AgentReset,
        word: OpWord::Reset,
    },
    Note::Op {
        initiator: 1,
        operation: Operation::State,
        word: OpWord::State(3),
    },
    Note::Op {
        initiator: 1,
        operation: Operation::Enable,
        word: OpWord::Done,
    },
];

const OPERATION_LINES: &str = "op 1 rom bad 4
op 1 rom none
op 1 login refused 04
op 1 query done 2
op 1 query done -
op 1 logout conflict
op 1 treset error
op 1 lureset done
op 1 agentreset reset
op 1 state 3
op 1 enable done
";

/// What else a run tells.
const RUN: [Note; 12] = [
    Note::Begin {
        initiators: 2,
        ready: false,
    },
    Note::Reset { generation: 1 },
    Note::Seen {
        node: 0,
        generation: 1,
    },
    Note::Seen {
        node: 1,
        generation: 2,
    },
    Note::Refused {
        line: 65536,
        number: 12,
    },
    Note::Stuck { initiator: 0 },
    Note::Tick,
    Note::Settled,
    Note::Stopped,
    Note::Unsolicited { initiator: 1 },
    Note::Unsent { initiator: 1 },
    Note::Told { initiator: 1 },
];

const RUN_LINES: &str = "begin 2 cold
reset 1
seen t 1
seen 0 2
refused 65536 12
stuck 0
tick
settled
stopped
unsolicited 1
unsent 1
told 1 6/28/00
";

/// Each form of a line, as it was written by hand.
#[test]
fn lines_of_notes(rt: HostRuntime) -> Result<(), Fail> {
    assert!(rt; has_lines(rt.alloc())?);
    let alloc = rt.alloc();
    assert!(rt; tell(alloc, &PACKETS, PACKET_LINES)?);
    assert!(rt; tell(alloc, &ENDS, END_LINES)?);
    assert!(rt; tell(alloc, &STEPS, STEP_LINES)?);
    assert!(rt; tell(alloc, &LOGINS, LOGIN_LINES)?);
    assert!(rt; tell(alloc, &OPERATIONS, OPERATION_LINES)?);
    assert!(rt; tell(alloc, &RUN, RUN_LINES)?);
    Ok(())
}

/// Puts two packets and two sides into an outbox.
fn put_in(alloc: Global, outbox: &mut Outbox) -> Result<(), NoMemory> {
    for id in [0xffc0, 0xffc1] {
        let packet = Outgoing {
            to: NodeId::from_raw(id),
            label: None,
            bytes: Bytes::new(alloc),
        };
        outbox.send(packet)?;
    }
    outbox.tell(Side::Held(1))?;
    outbox.tell(Side::Own(Note::Stuck { initiator: 0 }))
}

/// Whether the first of each are taken out, and none behind a clear.
fn is_taken(outbox: &mut Outbox) -> bool {
    let packet = outbox.take_packet().map(|packet| packet.to.raw());
    let is_held = matches!(outbox.take_side(), Some(Side::Held(1)));
    outbox.clear();
    packet == Some(0xffc0)
        && is_held
        && outbox.take_packet().is_none()
        && outbox.take_side().is_none()
}

/// Packets and sides are taken out in the order in which they were put in.
#[test]
fn outbox_keeps_order(rt: HostRuntime) -> Result<(), Fail> {
    let mut outbox = Outbox::new(rt.alloc());
    put_in(rt.alloc(), &mut outbox)?;
    assert!(rt; is_taken(&mut outbox));
    Ok(())
}
