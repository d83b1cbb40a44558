use crate::calls::{Case, Kind, ends_so, other_end};
use crate::packet_boundaries::BOUNDARIES;
use line_session::Status;
use sbp_base::{Bytes, NoMemory};
use std::alloc::Global;
use std::test::Fail;

const SHORT: &str = "fault 1 Short 4\n";

/// The faults of packets and the first kinds, each line with its line of the listing.
const FAULTS: [Case; 10] = [
    (
        "FFC01500 FFC1FFFF F0040010 00000001",
        "write_quadlet FFC0 FFC1 5 1 0 FFFFF0040010 00000001 @agent0.doorbell\n",
    ),
    ("FFC01500 FFC1FFFF F0040010 000000", "fault 1 Short 16\n"),
    ("FFC01500 FFC1FFFF F0040010 0000000100", "fault 4 Long 1\n"),
    ("FFC00130 FFC1FFFF 00000000 00000000", "fault 2 Code 3\n"),
    (
        "FFC00910 FFC10000 11000000 00050000 0102030405FFFFFF",
        "write_block FFC0 FFC1 2 1 0 000011000000 5 0102030405\n",
    ),
    (
        "FFC00910 FFC10000 11000000 00050000 01020304",
        "fault 1 Short 24\n",
    ),
    (
        "FFC00110 FFC10000 11000000 08040000",
        "fault 3 TooBig 2052\n",
    ),
    ("FFC0", "fault 1 Short 4\n"),
    (
        "FFC00190 FFC1FFFF F0040000 00040007",
        "fault 5 Extended 7\n",
    ),
    (
        "FFC00190 FFC1FFFF F0040000 00050003",
        "fault 6 LockLength 5\n",
    ),
];

/// The other kinds, and the words of the target's starts.
const KINDS: [Case; 9] = [
    (
        "FFC00140 FFC1FFFF F0000400",
        "read_quadlet FFC0 FFC1 0 1 0 FFFFF0000400 @rom\n",
    ),
    (
        "FFC00140 FFC1FFFF F004000C",
        "read_quadlet FFC0 FFC1 0 1 0 FFFFF004000C\n",
    ),
    (
        "FFC00140 FFC1FFFF F0040100",
        "read_quadlet FFC0 FFC1 0 1 0 FFFFF0040100\n",
    ),
    (
        "FFC10120 FFC07000 00000000",
        "write_response FFC1 FFC0 0 1 0 7\n",
    ),
    (
        "FFC00150 FFC1FFFF F0010000 00080000",
        "read_block FFC0 FFC1 0 1 0 FFFFF0010000 8 @management\n",
    ),
    (
        "FFC10160 FFC00000 00000000 DEADBEEF",
        "read_quadlet_response FFC1 FFC0 0 1 0 0 DEADBEEF\n",
    ),
    (
        "FFC10170 FFC07000 00000000 00000000",
        "read_block_response FFC1 FFC0 0 1 0 7 0 -\n",
    ),
    (
        "FFC00190 FFC1FFFF F00400E0 00040003 01020304",
        "lock FFC0 FFC1 0 1 0 FFFFF00400E0 3 4 01020304 @agent7.state\n",
    ),
    (
        "FFC101B0 FFC00000 00000000 00000002",
        "lock_response FFC1 FFC0 0 1 0 0 2 0 -\n",
    ),
];

/// Line ends, gaps and blank lines.
const LINES: [Case; 5] = [
    ("", ""),
    ("\n \t\n\r\n", ""),
    ("F F\tC 0", SHORT),
    ("ffC0\r\n\n", SHORT),
    ("FFC0\r\nFFC0", "fault 1 Short 4\nfault 1 Short 4\n"),
];

/// Faulty digits.
const FAULTY: [Case; 5] = [
    ("FFC0\r", "script 1 9\n"),
    ("FFC", "script 1 9\n"),
    ("FG", "script 1 9\n"),
    ("# FF", "script 1 9\n"),
    ("FFC0\n\nF\nFFC0\n", "fault 1 Short 4\nscript 3 9\n"),
];

/// Each of these inputs ends so.
#[test]
fn packets_are_listed(rt: HostRuntime) -> Result<(), Fail> {
    let alloc = rt.alloc();
    for (status, cases) in [
        (Status::Done, BOUNDARIES.as_slice()),
        (Status::Done, FAULTS.as_slice()),
        (Status::Done, KINDS.as_slice()),
        (Status::Done, LINES.as_slice()),
        (Status::Script, FAULTY.as_slice()),
    ] {
        assert_eq!(rt; other_end(alloc, Kind::Packets, status, cases)?, None);
    }
    Ok(())
}

/// Whether two lines, the second without a line feed, end so where these calls fail. Where the source fails,
/// a line without its line feed is not listed. What waits is written before a read and at the end, by one
/// call each.
fn two_lines_fail(alloc: Global) -> Result<bool, NoMemory> {
    let input = b"FFC0\nFF".as_slice();
    let first = SHORT.as_bytes();
    let none = b"".as_slice();
    Ok(
        ends_so(alloc, Kind::Packets, input, [1, 9], Status::ReadFault, none)?
            && ends_so(
                alloc,
                Kind::Packets,
                input,
                [2, 9],
                Status::ReadFault,
                first,
            )?
            && ends_so(
                alloc,
                Kind::Packets,
                input,
                [9, 1],
                Status::WriteFault,
                none,
            )?
            && ends_so(
                alloc,
                Kind::Packets,
                input,
                [9, 2],
                Status::WriteFault,
                first,
            )?,
    )
}

#[test]
fn outside_fails(rt: HostRuntime) -> Result<(), Fail> {
    assert!(rt; two_lines_fail(rt.alloc())?);
    Ok(())
}

/// An input of a text so many times and an end: the write that fails, the status, and a text that is written
/// so many times.
type Long = (
    Kind,
    &'static str,
    u16,
    &'static str,
    u32,
    Status,
    &'static str,
    u16,
);

/// Spaces count in the length of a line; a carriage return does, unless a line feed follows it. So many equal
/// lines, each with one line of 16 bytes in the listing, take fewer writes than one that fails and is never
/// made. A ROM has at most 256 quadlets.
const LONG: [Long; 11] = [
    (
        Kind::Packets,
        "A",
        8192,
        "\r\n",
        0,
        Status::Done,
        "fault 2 Code 10\n",
        1,
    ),
    (
        Kind::Packets,
        "A",
        8193,
        "",
        0,
        Status::Script,
        "script 1 1\n",
        1,
    ),
    (Kind::Packets, " ", 8192, "\n", 0, Status::Done, "", 1),
    (
        Kind::Packets,
        " ",
        8193,
        "\n",
        0,
        Status::Script,
        "script 1 1\n",
        1,
    ),
    (
        Kind::Packets,
        " ",
        8192,
        "\r",
        0,
        Status::Script,
        "script 1 1\n",
        1,
    ),
    (Kind::Packets, "FFC0\n", 5, "", 2, Status::Done, SHORT, 5),
    (
        Kind::Packets,
        "FFC0\n",
        102,
        "",
        2,
        Status::Done,
        SHORT,
        102,
    ),
    (
        Kind::Packets,
        "FFC0\n",
        103,
        "",
        3,
        Status::Done,
        SHORT,
        103,
    ),
    (
        Kind::Packets,
        "FFC0\n",
        1023,
        "",
        11,
        Status::Done,
        SHORT,
        1023,
    ),
    (
        Kind::Rom,
        "00000000\n",
        256,
        "",
        0,
        Status::Done,
        "fault 2 Name\n",
        1,
    ),
    (
        Kind::Rom,
        "00000000\n",
        257,
        "",
        0,
        Status::Script,
        "script 257 5\n",
        1,
    ),
];

/// A text so many times.
fn repeated(alloc: Global, text: &str, times: u16) -> Result<Bytes, NoMemory> {
    let mut bytes = Bytes::new(alloc);
    for _ in 0..times {
        bytes.extend_from_slice(text.as_bytes())?;
    }
    Ok(bytes)
}

/// Whether a long input ends as its case says.
fn is_long_end(alloc: Global, case: &Long) -> Result<bool, NoMemory> {
    let (kind, text, times, end, write, status, told, told_times) = *case;
    let mut input = repeated(alloc, text, times)?;
    input.extend_from_slice(end.as_bytes())?;
    let written = repeated(alloc, told, told_times)?;
    ends_so(
        alloc,
        kind,
        input.as_slice(),
        [0, write],
        status,
        written.as_slice(),
    )
}

/// The place of the first that does not.
fn other_long(alloc: Global) -> Result<Option<usize>, NoMemory> {
    for place in 0..LONG.len() {
        if !is_long_end(alloc, &LONG[place])? {
            return Ok(Some(place));
        }
    }
    Ok(None)
}

#[test]
fn long_inputs(rt: HostRuntime) -> Result<(), Fail> {
    assert_eq!(rt; other_long(rt.alloc())?, None);
    Ok(())
}
