use command_agent::AgentState;
use orb_layout::{Ask, FailCause, OrbPointer, Reply, StatusKind};
use rbc_disk::{Medium, RamMedium, Unit};
use sbp_base::{NoMemory, Offset};
use std::test::Fail;
use unordered_agent::{TaskAgent, TaskStep};

/// An ORB with a buffer of 512 bytes at 11000000h. Its next one is at this address, or there is none
/// where it is 0.
#[derive(Clone, Copy)]
enum Orb {
    /// TEST UNIT READY.
    Ready(u32),
    /// READ(10) of block 3.
    Read(u32),
    /// WRITE(10) of block 3.
    Write(u32),
    /// A request format of 1.
    Illegal,
}

/// What comes to an agent: the ORB or the next pointer that its fetcher read, or its read failed or found
/// no label; a task's data of this byte, the answer to its write, or what it waits for failed; a pointer, a
/// doorbell or a reset.
#[derive(Clone, Copy)]
enum Input {
    Orb(Orb),
    Next(u32),
    FetchFails,
    NoLabel,
    Data(u8, u8),
    Done(u8),
    Fails(u8),
    Point(u64),
    Bell,
    Reset,
}

/// A request of a place.
#[derive(Clone, Copy)]
enum Sent {
    No,
    Reads(u8, u64, u16),
    Writes(u8, u64, u16),
}

/// What a step tells.
#[derive(Clone, Copy, Debug, PartialEq, Eq)]
struct Seen {
    first: Option<(u8, Ask)>,
    second: Option<(u8, Ask)>,
    ended: Option<StatusKind>,
    dead: Option<FailCause>,
}

/// An agent, and what its last step tells.
#[derive(Drop)]
struct Course {
    agent: TaskAgent,
    seen: Seen,
}

fn quiet() -> Seen {
    Seen {
        first: None,
        second: None,
        ended: None,
        dead: None,
    }
}

fn told_by(step: &TaskStep) -> Seen {
    let asks = step.asks.as_slice();
    Seen {
        first: asks.first().copied(),
        second: asks.get(1).copied(),
        ended: step.ended,
        dead: step.dead,
    }
}

/// The fetcher asks for this.
fn fetching(ask: Ask) -> Seen {
    match ask {
        Ask::Nothing => quiet(),
        _ => Seen {
            first: Some((8, ask)),
            ..quiet()
        },
    }
}

/// An agent of place 0 over a disk of 16 blocks, pointed to 10000000h, after these inputs.
fn run(rt: &impl AllocGlobal, inputs: &[Input]) -> Result<Course, NoMemory> {
    let mut agent = TaskAgent::new(rt.alloc())?;
    let mut unit = Unit::new();
    let mut medium = RamMedium::new(rt.alloc(), 16, 0x5a)?;
    let mut seen = quiet();
    let _ = agent.point(at(0x1000_0000));
    for input in inputs {
        seen = give(&mut agent, &mut unit, &mut medium, *input);
    }
    Ok(Course { agent, seen })
}

/// What the step of an input tells.
fn give(agent: &mut TaskAgent, unit: &mut Unit, medium: &mut dyn Medium, input: Input) -> Seen {
    match input {
        Input::Point(pointer) => match agent.point(at(pointer)) {
            Ok(ask) => fetching(ask),
            Err(_) => quiet(),
        },
        Input::Bell => fetching(agent.doorbell()),
        Input::Reset => {
            agent.reset();
            quiet()
        }
        Input::Orb(orb) => hear(agent, unit, medium, 8, Reply::Payload(&bytes(orb))),
        Input::Next(next) => hear(agent, unit, medium, 8, Reply::Payload(&pointer(next))),
        Input::FetchFails => hear(agent, unit, medium, 8, Reply::Expired),
        Input::NoLabel => hear(agent, unit, medium, 8, Reply::NoLabel),
        Input::Data(place, byte) => {
            hear(agent, unit, medium, place, Reply::Payload(&[byte; 512]))
        }
        Input::Done(place) => hear(agent, unit, medium, place, Reply::Done),
        Input::Fails(place) => hear(agent, unit, medium, place, Reply::Expired),
    }
}

/// What the step of a reply tells; one to a transaction that is not under way is passed over.
fn hear(
    agent: &mut TaskAgent,
    unit: &mut Unit,
    medium: &mut dyn Medium,
    place: u8,
    reply: Reply<'_>,
) -> Seen {
    if agent.is_under_way(place) {
        told_by(&agent.reply(unit, medium, 0, place, reply))
    } else {
        quiet()
    }
}

fn at(offset: u64) -> OrbPointer {
    match Offset::new(offset) {
        Some(offset) => OrbPointer::At(offset),
        None => OrbPointer::Null,
    }
}

fn request(sent: Sent) -> Option<(u8, Ask)> {
    match sent {
        Sent::No => None,
        Sent::Reads(place, offset, length) => {
            let offset = Offset::new(offset)?;
            Some((place, Ask::Read { offset, length }))
        }
        Sent::Writes(place, offset, length) => {
            let offset = Offset::new(offset)?;
            Some((place, Ask::Write { offset, length }))
        }
    }
}

fn pointer(next: u32) -> [u8; 8] {
    let mut bytes = [0; 8];
    if next == 0 {
        bytes[0] = 0x80;
    }
    bytes[4..8].copy_from_slice(&next.to_be_bytes());
    bytes
}

fn bytes(orb: Orb) -> [u8; 32] {
    match orb {
        Orb::Ready(next) => laid_out(next, 0x8290_0000, [0, 0, 0]),
        Orb::Read(next) => laid_out(next, 0x8a90_0200, [0x28, 3, 1]),
        Orb::Write(next) => laid_out(next, 0x8290_0200, [0x2a, 3, 1]),
        Orb::Illegal => laid_out(0, 0xa390_0000, [0, 0, 0]),
    }
}

/// The next one's address, quadlet 4, and of the command the operation code, the block and the number of
/// blocks.
fn laid_out(next: u32, options: u32, command: [u8; 3]) -> [u8; 32] {
    let mut bytes = [0; 32];
    bytes[0..8].copy_from_slice(&pointer(next));
    bytes[12] = 0x11;
    bytes[16..20].copy_from_slice(&options.to_be_bytes());
    bytes[20] = command[0];
    bytes[25] = command[1];
    bytes[28] = command[2];
    bytes
}

/// Inputs, the requests of the last step, how an ORB ended in it, why the agent died, and its state.
type Row<'a> = (
    &'a [Input],
    [Sent; 2],
    Option<StatusKind>,
    Option<FailCause>,
    AgentState,
);

const NEXT: u32 = 0x1000_0040;

const WRITE: Input = Input::Orb(Orb::Write(NEXT));

const LAST: Input = Input::Orb(Orb::Ready(0));

const MORE: Input = Input::Orb(Orb::Ready(NEXT));

const AGAIN: Sent = Sent::Reads(8, 0x1000_0000, 8);

const FETCH: Sent = Sent::Reads(8, 0x1000_0040, 32);

const GOOD: Option<StatusKind> = Some(StatusKind::Good);

const FAILED: Option<StatusKind> = Some(StatusKind::Failed);

const TIMEOUT: Option<FailCause> = Some(FailCause::Timeout);

const STATUS_0: Sent = Sent::Writes(0, 0, 8);

const STATUS_1: Sent = Sent::Writes(1, 0, 8);

/// Two tasks, of which the second one ends first.
const OVERLAPPED: [Row<'static>; 6] = [
    (
        &[WRITE],
        [Sent::Reads(0, 0x1100_0000, 512), FETCH],
        None,
        None,
        AgentState::Active,
    ),
    (
        &[WRITE, Input::Orb(Orb::Read(0))],
        [Sent::Writes(1, 0x1100_0000, 512), Sent::No],
        None,
        None,
        AgentState::Suspended,
    ),
    (
        &[WRITE, Input::Orb(Orb::Read(0)), Input::Data(0, 0xaa)],
        [STATUS_0, Sent::No],
        GOOD,
        None,
        AgentState::Suspended,
    ),
    (
        &[WRITE, Input::Orb(Orb::Read(0)), Input::Done(1)],
        [STATUS_1, Sent::No],
        GOOD,
        None,
        AgentState::Suspended,
    ),
    (
        &[WRITE, Input::Orb(Orb::Read(0)), Input::Point(0x2000_0000)],
        [Sent::No, Sent::No],
        None,
        None,
        AgentState::Suspended,
    ),
    (
        &[LAST, Input::Done(0), Input::Point(0x2000_0003)],
        [Sent::Reads(8, 0x2000_0000, 32), Sent::No],
        None,
        None,
        AgentState::Active,
    ),
];

/// Nine ORBs with eight places: the fetcher waits for one, and the ninth takes the lowest.
const CROWDED: [Row<'static>; 4] = [
    (
        &[MORE, MORE, MORE, MORE, MORE, MORE, MORE, MORE],
        [Sent::Writes(7, 0, 8), Sent::No],
        GOOD,
        None,
        AgentState::Active,
    ),
    (
        &[
            MORE,
            MORE,
            MORE,
            MORE,
            MORE,
            MORE,
            MORE,
            MORE,
            Input::Done(5),
        ],
        [FETCH, Sent::No],
        None,
        None,
        AgentState::Active,
    ),
    (
        &[
            MORE,
            MORE,
            MORE,
            MORE,
            MORE,
            MORE,
            MORE,
            MORE,
            Input::Bell,
            Input::Done(5),
            Input::Done(1),
            LAST,
        ],
        [STATUS_1, Sent::No],
        GOOD,
        None,
        AgentState::Suspended,
    ),
    (
        &[
            MORE,
            MORE,
            MORE,
            MORE,
            MORE,
            MORE,
            MORE,
            MORE,
            Input::Done(5),
            Input::Bell,
            LAST,
        ],
        [Sent::Writes(5, 0, 8), Sent::Reads(8, 0x1000_0040, 8)],
        GOOD,
        None,
        AgentState::Active,
    ),
];

/// A doorbell in each state.
const RUNG: [Row<'static>; 6] = [
    (
        &[Input::Reset, Input::Bell],
        [Sent::No, Sent::No],
        None,
        None,
        AgentState::Reset,
    ),
    (
        &[Input::Bell, LAST],
        [STATUS_0, AGAIN],
        GOOD,
        None,
        AgentState::Active,
    ),
    (
        &[LAST, Input::Bell],
        [AGAIN, Sent::No],
        None,
        None,
        AgentState::Active,
    ),
    (
        &[LAST, Input::Bell, Input::Bell, Input::Next(0)],
        [AGAIN, Sent::No],
        None,
        None,
        AgentState::Active,
    ),
    (
        &[LAST, Input::Bell, Input::Next(NEXT)],
        [FETCH, Sent::No],
        None,
        None,
        AgentState::Active,
    ),
    (
        &[Input::FetchFails, Input::Bell],
        [Sent::No, Sent::No],
        None,
        None,
        AgentState::Dead,
    ),
];

/// What makes an agent dead: a failing fetch, task, read of a next pointer and status write, and an
/// illegal ORB; and that the other tasks are dropped then.
const FAILING: [Row<'static>; 11] = [
    (
        &[Input::FetchFails],
        [STATUS_0, Sent::No],
        FAILED,
        TIMEOUT,
        AgentState::Dead,
    ),
    (
        &[WRITE, Input::FetchFails],
        [STATUS_1, Sent::No],
        FAILED,
        TIMEOUT,
        AgentState::Dead,
    ),
    (
        &[WRITE, MORE, Input::Done(1), Input::NoLabel],
        [STATUS_1, Sent::No],
        FAILED,
        Some(FailCause::Label),
        AgentState::Dead,
    ),
    (
        &[MORE, LAST, Input::Fails(0), Input::Done(1)],
        [Sent::No, Sent::No],
        None,
        None,
        AgentState::Dead,
    ),
    (
        &[WRITE, Input::FetchFails, Input::Data(0, 0)],
        [Sent::No, Sent::No],
        None,
        None,
        AgentState::Dead,
    ),
    (
        &[WRITE, Input::Fails(0)],
        [STATUS_0, Sent::No],
        FAILED,
        TIMEOUT,
        AgentState::Dead,
    ),
    (
        &[WRITE, Input::Fails(0), LAST],
        [Sent::No, Sent::No],
        None,
        None,
        AgentState::Dead,
    ),
    (
        &[WRITE, Input::Orb(Orb::Illegal)],
        [STATUS_1, Sent::No],
        Some(StatusKind::Illegal(1)),
        Some(FailCause::Grammar),
        AgentState::Dead,
    ),
    (
        &[LAST, Input::Fails(0)],
        [Sent::No, Sent::No],
        None,
        TIMEOUT,
        AgentState::Dead,
    ),
    (
        &[LAST, Input::Bell, Input::FetchFails],
        [Sent::No, Sent::No],
        None,
        TIMEOUT,
        AgentState::Dead,
    ),
    (
        &[WRITE, Input::Fails(0), Input::Fails(0)],
        [Sent::No, Sent::No],
        None,
        None,
        AgentState::Dead,
    ),
];

/// The first run whose last step or state is another one.
fn check(rt: &impl AllocGlobal, rows: &[Row<'static>]) -> Option<usize> {
    for (number, (inputs, sent, ended, dead, state)) in rows.iter().enumerate() {
        let told = Seen {
            first: request(sent[0]),
            second: request(sent[1]),
            ended: *ended,
            dead: *dead,
        };
        match run(rt, inputs) {
            Ok(course) if course.seen == told && course.agent.state() == *state => {}
            _ => return Some(number),
        }
    }
    None
}

#[test]
fn last_steps(rt: HostRuntime) -> Result<(), Fail> {
    assert_eq!(rt; check(&rt, &OVERLAPPED), None);
    assert_eq!(rt; check(&rt, &CROWDED), None);
    assert_eq!(rt; check(&rt, &RUNG), None);
    assert_eq!(rt; check(&rt, &FAILING), None);
    Ok(())
}

/// What a place last wrote: an answer of the state before its own run, though a task before it then writes
/// the block; of two tasks that write one block the later one, in either order; and a status whose src goes
/// by the next pointer as the fetcher read it later.
const WRITTEN: [(&[Input], u8, &[u8]); 4] = [
    (
        &[WRITE, Input::Orb(Orb::Read(0)), Input::Data(0, 0xaa)],
        1,
        &[0x5a; 512],
    ),
    (
        &[
            WRITE,
            WRITE,
            Input::Data(0, 1),
            Input::Data(1, 2),
            Input::Orb(Orb::Read(0)),
        ],
        2,
        &[2; 512],
    ),
    (
        &[
            WRITE,
            WRITE,
            Input::Data(1, 2),
            Input::Data(0, 1),
            Input::Orb(Orb::Read(0)),
        ],
        2,
        &[1; 512],
    ),
    (
        &[
            Input::Orb(Orb::Write(0)),
            Input::Bell,
            Input::Next(NEXT),
            Input::Data(0, 1),
        ],
        0,
        b"\x01\x00\x00\x00\x10\x00\x00\x00",
    ),
];

#[test]
fn written(rt: HostRuntime) -> Result<(), Fail> {
    for (inputs, place, bytes) in WRITTEN {
        let course = run(&rt, inputs).ok().ok_or("memory")?;
        assert_eq!(rt; course.agent.outgoing(place.min(7)), bytes);
    }
    Ok(())
}
