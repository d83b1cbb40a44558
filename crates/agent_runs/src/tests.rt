use command_agent::{Agent, AgentState, AgentStep, PointRefusal, Which};
use orb_layout::{Ask, FailCause, OrbPointer, Reply, StatusKind};
use rbc_disk::{Medium, Outcome, RamMedium, Unit};
use sbp_base::{NoMemory, Offset};
use std::alloc::Global;
use std::test::Fail;

/// An ORB with a buffer at 11000000h. Its next one is at this address, or there is none where it is 0.
#[derive(Clone, Copy)]
enum Orb {
    /// TEST UNIT READY.
    Ready(u32),
    /// READ(10) of block 3, by chunks of 128 bytes.
    Read(u32),
    /// WRITE(10) of blocks 8 and 9 in three segments.
    Write(u32),
    /// The same options and bytes of the buffer, with no next one.
    Options(u32),
    /// A buffer of two bytes from the last address on.
    PastTheEnd,
}

/// What comes to an agent: the payload of the main transaction, or what else came of it; what came of
/// the read ahead; a pointer, a doorbell, a reset, or an abort.
#[derive(Clone, Copy)]
enum Input {
    Orb(Orb),
    Table,
    /// So many zero bytes, at most 512.
    Zeros(usize),
    Null,
    Done,
    Expired,
    Refused,
    NoLabel,
    Ahead(Orb),
    AheadExpired,
    Point(u64),
    Bell,
    Reset,
    Abort(u64),
}

/// What the last step tells.
#[derive(Clone, Copy)]
enum Told {
    Quiet,
    Reads(u64, u16),
    Writes(u64, u16),
    Promoted,
    /// A command ran, and its ORB ended good; the next one is read ahead at this address.
    RanAhead(u64),
    Ran,
    Ended(StatusKind),
    /// The ORB ended, and the agent is dead.
    Failed(StatusKind, FailCause),
    Dead(FailCause),
}

/// An agent, and its last step.
#[derive(Drop)]
struct Course {
    agent: Agent,
    step: AgentStep,
}

fn quiet() -> AgentStep {
    AgentStep {
        ask: Ask::Nothing,
        ahead: Ask::Nothing,
        promoted: false,
        ran: None,
        ended: None,
        dead: None,
    }
}

fn asking(ask: Ask) -> AgentStep {
    AgentStep { ask, ..quiet() }
}

/// An agent of place 0 over a disk of 16 blocks of 5Ah, pointed to 10000000h, after these inputs.
fn run(alloc: Global, inputs: &[Input]) -> Result<Course, NoMemory> {
    let mut agent = Agent::new(alloc)?;
    let mut unit = Unit::new();
    let mut medium = RamMedium::new(alloc, 16, 0x5a)?;
    let mut step = quiet();
    let _ = agent.point(at(0x1000_0000));
    for input in inputs {
        step = give(&mut agent, &mut unit, &mut medium, *input);
    }
    Ok(Course { agent, step })
}

/// The step of an input.
fn give(agent: &mut Agent, unit: &mut Unit, medium: &mut dyn Medium, input: Input) -> AgentStep {
    match input {
        Input::Point(pointer) => point_to(agent, pointer),
        Input::Bell => asking(agent.doorbell()),
        Input::Reset => {
            agent.reset();
            quiet()
        }
        Input::Abort(orb) => {
            if let Some(orb) = Offset::new(orb) {
                agent.abort(orb);
            }
            quiet()
        }
        Input::Ahead(orb) => {
            hear(
                agent,
                unit,
                medium,
                Which::Ahead,
                Reply::Payload(&bytes(orb)),
            )
        }
        Input::AheadExpired => hear(agent, unit, medium, Which::Ahead, Reply::Expired),
        Input::Orb(orb) => hear(
            agent,
            unit,
            medium,
            Which::Main,
            Reply::Payload(&bytes(orb)),
        ),
        _ => hear(agent, unit, medium, Which::Main, reply_of(input)),
    }
}

/// The reply that an input is to the main transaction, but for an ORB.
fn reply_of(input: Input) -> Reply<'static> {
    match input {
        Input::Table => Reply::Payload(TABLE),
        Input::Null => Reply::Payload(NULL),
        Input::Zeros(count) => Reply::Payload(&ZEROS[..count.min(512)]),
        Input::Expired => Reply::Expired,
        Input::Refused => Reply::Refused(4),
        Input::NoLabel => Reply::NoLabel,
        _ => Reply::Done,
    }
}

const ZEROS: [u8; 512] = [0; 512];

/// The read that a pointer brings about, or nothing where it is not taken.
fn point_to(agent: &mut Agent, pointer: u64) -> AgentStep {
    match agent.point(at(pointer)) {
        Ok(ask) => asking(ask),
        Err(_) => quiet(),
    }
}

/// The step of a reply; one to a transaction that is not under way is passed over.
fn hear(
    agent: &mut Agent,
    unit: &mut Unit,
    medium: &mut dyn Medium,
    which: Which,
    reply: Reply<'_>,
) -> AgentStep {
    if agent.is_under_way(which) {
        agent.reply(unit, medium, 0, which, reply)
    } else {
        quiet()
    }
}

fn at(offset: u64) -> OrbPointer {
    match Offset::new(offset) {
        Some(offset) => OrbPointer::At(offset),
        None => OrbPointer::Null,
    }
}

fn read(offset: u64, length: u16) -> Ask {
    match Offset::new(offset) {
        Some(offset) => Ask::Read { offset, length },
        None => Ask::Nothing,
    }
}

fn write(offset: u64, length: u16) -> Ask {
    match Offset::new(offset) {
        Some(offset) => Ask::Write { offset, length },
        None => Ask::Nothing,
    }
}

/// An ORB ends, with a status block of 8 bytes.
fn ended(kind: StatusKind) -> AgentStep {
    AgentStep {
        ended: Some(kind),
        ..asking(write(0, 8))
    }
}

/// A command without an answer ran.
fn ran(ahead: Ask) -> AgentStep {
    AgentStep {
        ran: Some(Outcome::Good { answer: 0 }),
        ahead,
        ..ended(StatusKind::Good)
    }
}

fn step(told: Told) -> AgentStep {
    match told {
        Told::Quiet => quiet(),
        Told::Reads(offset, length) => asking(read(offset, length)),
        Told::Writes(offset, length) => asking(write(offset, length)),
        Told::Promoted => AgentStep {
            promoted: true,
            ..quiet()
        },
        Told::RanAhead(offset) => ran(read(offset, 32)),
        Told::Ran => ran(Ask::Nothing),
        Told::Ended(kind) => ended(kind),
        Told::Failed(kind, cause) => AgentStep {
            dead: Some(cause),
            ..ended(kind)
        },
        Told::Dead(cause) => AgentStep {
            dead: Some(cause),
            ..quiet()
        },
    }
}

fn bytes(orb: Orb) -> [u8; 32] {
    match orb {
        Orb::Ready(next) => laid_out(next, 0x8290_0000, [0, 0, 0]),
        Orb::Read(next) => laid_out(next, 0x8a50_0200, [0x28, 3, 1]),
        Orb::Write(next) => laid_out(next, 0x8278_0003, [0x2a, 8, 2]),
        Orb::Options(options) => laid_out(0, options, [0, 0, 0]),
        Orb::PastTheEnd => {
            let mut bytes = laid_out(0, 0x8290_0002, [0, 0, 0]);
            bytes[10..16].copy_from_slice(&[0xff; 6]);
            bytes
        }
    }
}

/// The next one's address, quadlet 4, and of the command the operation code, the block and the number of
/// blocks.
fn laid_out(next: u32, options: u32, command: [u8; 3]) -> [u8; 32] {
    let mut bytes = [0; 32];
    if next == 0 {
        bytes[0] = 0x80;
    }
    bytes[4..8].copy_from_slice(&next.to_be_bytes());
    bytes[12] = 0x11;
    bytes[16..20].copy_from_slice(&options.to_be_bytes());
    bytes[20] = command[0];
    bytes[25] = command[1];
    bytes[28] = command[2];
    bytes
}

/// Segments of 512, 500 and 12 bytes.
const TABLE: &[u8] =
    b"\x02\x00\x00\x00\x11\x00\x00\x00\x01\xf4\x00\x00\x11\x00\x02\x10\x00\x0c\x00\x00\x11\x00\x04\x14";

const NULL: &[u8] = b"\x80\x00\x00\x00\x00\x00\x00\x00";

const LAST: Input = Input::Orb(Orb::Ready(0));

/// It has a next one.
const FIRST: Input = Input::Orb(Orb::Ready(0x1000_0040));

const NEXT: Input = Input::Ahead(Orb::Ready(0));

const READ: Input = Input::Orb(Orb::Read(0));

const WRITE: Input = Input::Orb(Orb::Write(0));

const ABORT: Input = Input::Abort(0x1000_0002);

/// The data of an ORB with a page table, its answer, and what is done where there is no more of them.
const MOVED: [(&[Input], Told); 9] = [
    (&[LAST], Told::Ran),
    (&[WRITE], Told::Reads(0x1100_0000, 24)),
    (&[WRITE, Input::Table], Told::Reads(0x1100_0000, 512)),
    (
        &[WRITE, Input::Table, Input::Zeros(512)],
        Told::Reads(0x1100_0210, 500),
    ),
    (
        &[WRITE, Input::Table, Input::Zeros(512), Input::Zeros(500)],
        Told::Reads(0x1100_0414, 12),
    ),
    (
        &[
            WRITE,
            Input::Table,
            Input::Zeros(512),
            Input::Zeros(500),
            Input::Zeros(12),
        ],
        Told::Ran,
    ),
    (
        &[READ, Input::Done, Input::Done, Input::Done],
        Told::Writes(0x1100_0180, 128),
    ),
    (
        &[READ, Input::Done, Input::Done, Input::Done, Input::Done],
        Told::Ended(StatusKind::Good),
    ),
    (&[LAST, Input::Done], Told::Quiet),
];

/// Doorbells, one of them while the next pointer is read, and what was read ahead: answered before the
/// turn of its ORB, after it and never, and kept and then dropped by a reset.
const FOLLOWED: [(&[Input], Told); 13] = [
    (
        &[LAST, Input::Bell, Input::Done],
        Told::Reads(0x1000_0000, 8),
    ),
    (
        &[LAST, Input::Done, Input::Bell],
        Told::Reads(0x1000_0000, 8),
    ),
    (&[LAST, Input::Bell, Input::Done, Input::Null], Told::Quiet),
    (
        &[LAST, Input::Done, Input::Bell, Input::Bell, Input::Null],
        Told::Reads(0x1000_0000, 8),
    ),
    (
        &[
            LAST,
            Input::Done,
            Input::Bell,
            Input::Bell,
            Input::Null,
            Input::Null,
        ],
        Told::Quiet,
    ),
    (
        &[Input::Orb(Orb::Ready(0x1000_0041))],
        Told::RanAhead(0x1000_0040),
    ),
    (&[FIRST, NEXT, Input::Done], Told::Ran),
    (&[FIRST, Input::Done], Told::Promoted),
    (&[FIRST, Input::Done, LAST], Told::Ran),
    (
        &[FIRST, Input::AheadExpired, Input::Done],
        Told::Reads(0x1000_0040, 32),
    ),
    (
        &[FIRST, NEXT, Input::Reset, Input::Point(0x1000_0040)],
        Told::Reads(0x1000_0040, 32),
    ),
    (
        &[FIRST, NEXT, Input::Reset, Input::Point(0x2000_0000), FIRST],
        Told::RanAhead(0x1000_0040),
    ),
    (
        &[
            FIRST,
            NEXT,
            Input::Reset,
            Input::Point(0x2000_0000),
            FIRST,
            Input::Done,
            DUMMY,
        ],
        Told::Ended(StatusKind::Dummy),
    ),
];

const DUMMY: Input = Input::Orb(Orb::Options(0xe3b0_0000));

/// ORBs that end without a run: dummy, illegal, or aborted before the run; aborts that change nothing; and
/// failing transactions.
const ENDED: [(&[Input], Told); 25] = [
    (&[DUMMY], Told::Ended(StatusKind::Dummy)),
    (&[Input::Orb(Orb::Options(0xa390_0000))], ILLEGAL_FORMAT),
    (&[Input::Orb(Orb::Options(0xc290_0000))], ILLEGAL_FORMAT),
    (
        &[Input::Orb(Orb::Options(0x83b9_0041))],
        Told::Failed(StatusKind::Illegal(0x02), FailCause::Grammar),
    ),
    (&[Input::Orb(Orb::Options(0x82a9_0041))], ILLEGAL),
    (
        &[Input::Orb(Orb::Options(0x8299_0041))],
        Told::Failed(StatusKind::Illegal(0x03), FailCause::Grammar),
    ),
    (&[Input::Orb(Orb::Options(0x8298_0041))], ILLEGAL),
    (&[Input::Orb(Orb::PastTheEnd)], ILLEGAL),
    (&[WRITE, Input::Zeros(24)], ILLEGAL),
    (&[ABORT, WRITE], Told::Ended(StatusKind::Aborted)),
    (
        &[WRITE, ABORT, Input::Table],
        Told::Ended(StatusKind::Aborted),
    ),
    (
        &[WRITE, Input::Table, ABORT, Input::Zeros(512)],
        Told::Ended(StatusKind::Aborted),
    ),
    (
        &[Input::Abort(4), READ, Input::Done],
        Told::Writes(0x1100_0080, 128),
    ),
    (&[READ, ABORT, Input::Done], Told::Writes(0x1100_0080, 128)),
    (&[FIRST, NEXT, ABORT, Input::Done], Told::Ran),
    (&[FIRST, ABORT, Input::Done, LAST], Told::Ran),
    (
        &[Input::Expired],
        Told::Failed(StatusKind::Failed, FailCause::Timeout),
    ),
    (
        &[WRITE, Input::Refused],
        Told::Failed(StatusKind::Failed, FailCause::Refused),
    ),
    (
        &[WRITE, Input::Table, Input::Zeros(4)],
        Told::Failed(StatusKind::Failed, FailCause::Grammar),
    ),
    (
        &[READ, Input::NoLabel],
        Told::Failed(StatusKind::Failed, FailCause::Label),
    ),
    (&[LAST, Input::NoLabel], Told::Dead(FailCause::Label)),
    (&[Input::NoLabel, Input::NoLabel], Told::Quiet),
    (
        &[LAST, Input::Done, Input::Bell, Input::Zeros(4)],
        Told::Dead(FailCause::Grammar),
    ),
    (&[LAST, ABORT, Input::Done], Told::Quiet),
    (
        &[Input::Orb(Orb::PastTheEnd), ABORT, Input::Done],
        Told::Quiet,
    ),
];

const ILLEGAL: Told = Told::Failed(StatusKind::Illegal(0xff), FailCause::Grammar);

const ILLEGAL_FORMAT: Told = Told::Failed(StatusKind::Illegal(0x01), FailCause::Grammar);

/// The place of the first run whose last step is another one.
fn other_step(alloc: Global, runs: &[(&[Input], Told)]) -> Result<Option<usize>, NoMemory> {
    for (place, (inputs, told)) in runs.iter().enumerate() {
        if run(alloc, inputs)?.step != step(*told) {
            return Ok(Some(place));
        }
    }
    Ok(None)
}

#[test]
fn last_steps(rt: HostRuntime) -> Result<(), Fail> {
    for runs in [MOVED.as_slice(), FOLLOWED.as_slice(), ENDED.as_slice()] {
        assert_eq!(rt; other_step(rt.alloc(), runs)?, None);
    }
    Ok(())
}

/// The state and the bytes last written: src is 1 of an ORB that was not read, and else as its next
/// pointer says.
const STATES: [(&[Input], AgentState, &[u8]); 6] = [
    (
        &[LAST],
        AgentState::Active,
        b"\x41\x00\x00\x00\x10\x00\x00\x00",
    ),
    (
        &[LAST, ABORT, Input::Done],
        AgentState::Suspended,
        b"\x41\x00\x00\x00\x10\x00\x00\x00",
    ),
    (
        &[Input::Expired],
        AgentState::Dead,
        b"\x59\xff\x00\x00\x10\x00\x00\x00",
    ),
    (
        &[Input::Orb(Orb::Write(0x1000_0040)), Input::Expired],
        AgentState::Dead,
        b"\x19\xff\x00\x00\x10\x00\x00\x00",
    ),
    (
        &[Input::Orb(Orb::PastTheEnd), ABORT, Input::Done],
        AgentState::Dead,
        b"\x69\xff\x00\x00\x10\x00\x00\x00",
    ),
    (&[READ, Input::Done], AgentState::Active, &[0x5a; 128]),
];

/// The place of the first run whose state or bytes are others.
fn other_state(alloc: Global) -> Result<Option<usize>, NoMemory> {
    for (place, (inputs, state, bytes)) in STATES.iter().enumerate() {
        let agent = run(alloc, inputs)?.agent;
        if agent.state() != *state || agent.outgoing() != *bytes {
            return Ok(Some(place));
        }
    }
    Ok(None)
}

/// Whether pointers are refused that are null, or come to an active agent; and a reset leaves no ORB.
fn refuses(agent: &mut Agent) -> bool {
    agent.point(OrbPointer::Null) == Err(PointRefusal::Null)
        && agent.point(at(0x1000_0003)) == Ok(read(0x1000_0000, 32))
        && agent.point(at(0x1000_0000)) == Err(PointRefusal::Conflict)
        && agent.present() == Offset::new(0x1000_0000)
        && agent.reset()
        && !agent.reset()
        && agent.present() == None
}

/// What a transaction that is lost brings, without a unit and a medium, where it is under way.
fn lose(agent: &mut Agent, which: Which, cause: FailCause) -> Option<AgentStep> {
    if agent.is_under_way(which) {
        Some(agent.lose(which, cause))
    } else {
        None
    }
}

/// Whether the read ahead is lost, and then the status write.
fn loses(agent: &mut Agent) -> bool {
    lose(agent, Which::Ahead, FailCause::Label) == Some(quiet())
        && !agent.is_under_way(Which::Ahead)
        && lose(agent, Which::Main, FailCause::Timeout)
            == Some(step(Told::Dead(FailCause::Timeout)))
        && agent.state() == AgentState::Dead
}

#[test]
fn states_and_losses(rt: HostRuntime) -> Result<(), Fail> {
    assert_eq!(rt; other_state(rt.alloc())?, None);
    assert!(rt; refuses(&mut Agent::new(rt.alloc())?));
    let mut course = run(rt.alloc(), &[FIRST, Input::Bell])?;
    assert!(rt; loses(&mut course.agent));
    Ok(())
}
