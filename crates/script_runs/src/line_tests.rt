ghost use Rattle.std.specs.Prelude.{◌≤◌};

use sbp_base::NoMemory;
use sbp_journal::{Action, Event};
use script_text::{LineFault, read_line, read_write};
use std::alloc::Global;
use std::test::Fail;

/// What a line says, without the event's fields.
#[derive(Clone, Copy, Debug, PartialEq, Eq)]
enum Said {
    Nothing,
    Event,
    Fault(LineFault),
}

const SHAPE: Said = Said::Fault(LineFault::Shape);

const RANGE: Said = Said::Fault(LineFault::Range);

fn said_by(alloc: Global, line: &[u8], initiators: u8) -> Said
    requires { initiators ≤ 4 }
{
    match read_line(alloc, line, initiators) {
        Ok(Some(_)) => Said::Event,
        Ok(None) => Said::Nothing,
        Err(fault) => Said::Fault(fault),
    }
}

/// One line of every row.
const ROWS: [&str; 30] = [
    "rom 0",
    "reconnect 1",
    "logout 0",
    "abortset 0",
    "lureset 0",
    "treset 0",
    "agentreset 0",
    "state 0",
    "enable 0",
    "login 1 3 15",
    "query 0 3",
    "abort 0 65535",
    "dummy 1 0",
    "put 0 tur",
    "append 1 sync",
    "low 0",
    "link 0",
    "ring 0",
    "reset 62 0 1",
    "see t",
    "see 1",
    "key 3 0011223344556677",
    "deliver 1",
    "repeat 4294967295",
    "lose 9",
    "timeout 10",
    "step 10000",
    "settle",
    "tick",
    "inject 0 ffC00000",
];

/// Lines whose words do not have their row's shape.
const SHAPES: [&str; 28] = [
    "rom",
    "rom 0 ",
    "rom  0",
    "rom 00",
    "rom +1",
    "settle 1",
    "login 0 0",
    "login 0 0 0 pass 0011223344556677 excl",
    "login 0 0 0 pass 001122334455667",
    "login 0 0 0 excl excl",
    "key 0 00112233445566778",
    "key 0 001122334455667g",
    "reset 0 1",
    "reset 0 1 2 3",
    "see i",
    "inject 0 ",
    "inject 0 abc",
    "append 4 foo",
    "append 0 write 4294967296 AA*512+",
    "append 0 write 0 AA*01",
    "append 0 write 0 AA*",
    "append 0 write 0 A*512",
    "append 0 write 0 +AA*512",
    "append 0 read 0",
    "append 0 read 0 1 pay 1 seg 512",
    "append 0 read 0 1 seg ",
    "append 0 read 0 1 seg 256,,256",
    "append 0 tur 0",
];

/// Lines of their row's shape with a number out of its range, equal IDs, or a sum or length that is
/// not as it has to be.
const RANGES: [&str; 26] = [
    "append 4 tur",
    "append 18446744073709551616 tur",
    "login 0 4 0",
    "login 0 0 16",
    "abort 0 65536",
    "reset 0 63 1",
    "reset 5 1 5",
    "see 4",
    "key 4 0011223344556677",
    "deliver 0",
    "deliver 4294967296",
    "step 0",
    "step 10001",
    "inject 0 ffc0ff",
    "append 0 read 4294967296 1",
    "append 0 read 0 33",
    "append 0 read 0 1 pay 10",
    "append 0 read 0 1 seg 256,255",
    "append 0 read 0 1 seg 0,512",
    "append 0 read 0 32 seg 16385",
    "append 0 tur seg 1",
    "append 0 verify 0 1 seg 512",
    "append 0 write 0 AA*0",
    "append 0 write 0 AA*16385",
    "append 0 write 0 AA*511",
    "append 0 write 0 AA*16384+BB*512",
];

/// The first of these lines, on a bus of two initiators, that says something else.
fn other(alloc: Global, lines: &[&'static str], want: Said) -> Option<&'static str> {
    for line in lines {
        if said_by(alloc, line.as_bytes(), 2) != want {
            return Some(*line);
        }
    }
    None
}

/// The other faults, each before those behind it in the order, and lines that say nothing: the line, the
/// number of initiators and what the line says.
const ORDER: [(&str, u8, Said); 22] = [
    ("settle", 0, Said::Fault(LineFault::Place)),
    ("jump", 1, Said::Fault(LineFault::Unknown)),
    ("append 4 tur", 1, RANGE),
    ("append 1 tur", 1, Said::Fault(LineFault::NoInitiator)),
    ("begin", 1, Said::Fault(LineFault::Place)),
    ("begin 1 ready", 2, Said::Fault(LineFault::Place)),
    ("begin 0 ready", 0, RANGE),
    ("begin 5 cold", 0, RANGE),
    ("begin 4 warm", 0, SHAPE),
    ("begin 4 cold", 0, Said::Event),
    ("jump", 0, Said::Fault(LineFault::Unknown)),
    (" settle", 1, Said::Fault(LineFault::Unknown)),
    (" #", 1, Said::Fault(LineFault::Unknown)),
    ("submit 0 AA*512", 1, Said::Fault(LineFault::Unknown)),
    ("settle\r", 1, Said::Fault(LineFault::Byte)),
    ("jump\t1", 1, Said::Fault(LineFault::Byte)),
    ("see 3", 2, Said::Fault(LineFault::NoInitiator)),
    ("inject 2 ffc00000", 2, Said::Fault(LineFault::NoInitiator)),
    ("", 0, Said::Nothing),
    (" \t ", 0, Said::Nothing),
    ("#\tany\r", 0, Said::Nothing),
    ("\r", 0, Said::Fault(LineFault::Byte)),
];

/// The first line of these that says something else.
fn out_of_order(alloc: Global) -> Option<&'static str> {
    for (line, initiators, want) in &ORDER {
        if *initiators > 4 || said_by(alloc, line.as_bytes(), *initiators) != *want {
            return Some(*line);
        }
    }
    None
}

/// What a comment of so many bytes says.
fn comment_says(alloc: Global, count: usize) -> Result<Said, NoMemory> {
    let line = vec![in alloc; b'#'; count]?;
    Ok(said_by(alloc, line.as_slice(), 1))
}

/// Lines and the faults that they have. A comment has 8,192 bytes at most.
#[test]
fn lines_are_judged(rt: HostRuntime) -> Result<(), Fail> {
    let alloc = rt.alloc();
    for (lines, want) in [
        (ROWS.as_slice(), Said::Event),
        (SHAPES.as_slice(), SHAPE),
        (RANGES.as_slice(), RANGE),
    ] {
        assert_eq!(rt; other(alloc, lines, want), None);
    }
    assert_eq!(rt; out_of_order(alloc), None);
    assert!(rt; comment_says(alloc, 8192)? == Said::Nothing);
    assert!(rt; comment_says(alloc, 8193)? == Said::Fault(LineFault::TooLong));
    Ok(())
}

/// The fields of a login line.
fn login_by(alloc: Global, line: &str) -> Option<(u8, u8, u8, bool, [u8; 8])> {
    match read_line(alloc, line.as_bytes(), 4) {
        Ok(
            Some(
                Event::Act {
                    initiator,
                    action: Action::Login {
                        unit,
                        reconnect,
                        exclusive,
                        password,
                    },
                },
            ),
        ) => Some((initiator, unit, reconnect, exclusive, password)),
        _ => None,
    }
}

const KEY: [u8; 8] = [0xab, 0xcd, 0xef, 0x01, 0x23, 0x45, 0x67, 0x89];

/// Whether a login is read with each choice of what may follow; digits of both cases are.
fn logins_are_read(alloc: Global) -> bool {
    login_by(alloc, "login 1 2 3") == Some((1, 2, 3, false, [0; 8]))
        && login_by(alloc, "login 0 3 15 excl") == Some((0, 3, 15, true, [0; 8]))
        && login_by(alloc, "login 3 0 0 pass abCDef0123456789") == Some((3, 0, 0, false, KEY))
        && login_by(alloc, "login 2 0 0 excl pass ABcdEF0123456789") == Some((2, 0, 0, true, KEY))
}

/// What a command line says of its CMD: the command block, the direction, the length, how many bytes
/// are sent and the last of them, how many segments there are, and max_payload.
type Ordered = ([u8; 12], Rest);

type Rest = (bool, u16, usize, u8, usize, u8);

fn cmd_by(alloc: Global, line: &str) -> Option<Ordered> {
    match read_line(alloc, line.as_bytes(), 1) {
        Ok(
            Some(
                Event::Act {
                    action: Action::Put(cmd),
                    ..
                },
            ),
        ) => {
            let bytes = cmd.payload.as_slice();
            let last = bytes.last().copied().unwrap_or(0);
            let segments = cmd.segments.as_slice().len();
            let sent = bytes.len();
            let rest = (
                cmd.to_initiator,
                cmd.length,
                sent,
                last,
                segments,
                cmd.max_payload,
            );
            Some((cmd.cdb, rest))
        }
        _ => None,
    }
}

/// Commands without blocks: the opcode, byte 4, the direction and the length.
const PLAIN: [(&str, u8, u8, bool, u16); 10] = [
    ("put 0 tur", 0x00, 0, false, 0),
    ("put 0 inquiry", 0x12, 36, true, 36),
    ("put 0 start", 0x1b, 1, false, 0),
    ("put 0 stop", 0x1b, 0, false, 0),
    ("put 0 eject", 0x1b, 2, false, 0),
    ("put 0 load", 0x1b, 3, false, 0),
    ("put 0 prevent", 0x1e, 1, false, 0),
    ("put 0 allow", 0x1e, 0, false, 0),
    ("put 0 capacity", 0x25, 0, true, 8),
    ("put 0 sync", 0x35, 0, false, 0),
];

/// The first of these that is read as another one.
fn other_plain(alloc: Global) -> Option<&'static str> {
    for (line, opcode, fourth, to_initiator, length) in &PLAIN {
        let cdb = [*opcode, 0, 0, 0, *fourth, 0, 0, 0, 0, 0, 0, 0];
        if cmd_by(alloc, line) != Some((cdb, (*to_initiator, *length, 0, 0, 0, 9))) {
            return Some(*line);
        }
    }
    None
}

/// Commands on blocks, with their segments and their max_payload.
const ON_BLOCKS: [(&str, [u8; 12], Rest); 6] = [
    (
        "put 0 read 16909060 2",
        [0x28, 0, 1, 2, 3, 4, 0, 0, 2, 0, 0, 0],
        (true, 1024, 0, 0, 0, 9),
    ),
    (
        "put 0 read12 4294967295 32 seg 16383,1 pay 0",
        [0xa8, 0, 255, 255, 255, 255, 0, 0, 0, 32, 0, 0],
        (true, 16384, 0, 0, 2, 0),
    ),
    (
        "put 0 read 0 0 pay 3",
        [0x28, 0, 0, 0, 0, 0, 0, 0, 0, 0, 0, 0],
        (false, 0, 0, 0, 0, 3),
    ),
    (
        "put 0 verify 5 4",
        [0x2f, 0, 0, 0, 0, 5, 0, 0, 4, 0, 0, 0],
        (false, 0, 0, 0, 0, 9),
    ),
    (
        "put 0 write 5 AA*510+0bBc",
        [0x2a, 0, 0, 0, 0, 5, 0, 0, 1, 0, 0, 0],
        (false, 512, 512, 0xbc, 0, 9),
    ),
    (
        "put 0 write12 5 11*1000+22*24 seg 512,512",
        [0xaa, 0, 0, 0, 0, 5, 0, 0, 0, 2, 0, 0],
        (false, 1024, 1024, 0x22, 2, 9),
    ),
];

/// The first of these that is read as another one.
fn other_on_blocks(alloc: Global) -> Option<&'static str> {
    for (line, cdb, rest) in &ON_BLOCKS {
        if cmd_by(alloc, line) != Some((*cdb, *rest)) {
            return Some(*line);
        }
    }
    None
}

/// The two words of a write.
const WRITES: [(&str, Said); 7] = [
    ("5 AA*512", Said::Event),
    ("5 AA*512 pay 1", SHAPE),
    ("5", SHAPE),
    ("", SHAPE),
    ("5 AA\t", SHAPE),
    ("5 AA*511", RANGE),
    ("4294967296 AA*512", RANGE),
];

/// The first of these that says something else.
fn other_write(alloc: Global) -> Option<&'static str> {
    for (words, want) in &WRITES {
        let said = match read_write(alloc, words.as_bytes()) {
            Ok(_) => Said::Event,
            Err(fault) => Said::Fault(fault),
        };
        if said != *want {
            return Some(*words);
        }
    }
    None
}

/// The fields of logins and of commands.
#[test]
fn fields_are_read(rt: HostRuntime) {
    let alloc = rt.alloc();
    assert!(rt; logins_are_read(alloc));
    assert_eq!(rt; other_plain(alloc), None);
    assert_eq!(rt; other_on_blocks(alloc), None);
    assert_eq!(rt; other_write(alloc), None);
}
