use crate::calls::{Case, Kind, ends_so, other_end};
use line_session::Status;
use std::test::Fail;

/// A ROM with a root directory of one entry, and a leaf.
const ROM: &str =
    "04000000 31333934 00000000 02000000\n\t00000010 0001BBAD 81000001\r\n\n00011021 00000001";

const LISTING: &str = "rom 9\n\
bus 31333934 00000000 0200000000000010 ok\n\
dir 5 1 ok\n\
entry 6 leaf 01 000001\n\
leaf 7 1 ok\n\
quad 8 00000001\n\
no unit\n";

/// The same with a wrong sum of the leaf.
const WRONG: &str =
    "040000003133393400000000020000000000001 0 0001bbad 81000001 00010000 00000001\n";

const WRONG_LISTING: &str = "rom 9\n\
bus 31333934 00000000 0200000000000010 ok\n\
dir 5 1 ok\n\
entry 6 leaf 01 000001\n\
leaf 7 1 wrong\n\
quad 8 00000001\n\
no unit\n";

/// A ROM with an SBP-2 unit: examples/rom.hex.
const UNIT: &str = "0404A01A 31333934 F000A002 02000000 00000010\n\
0003D137 03001234 0C0083C0 D1000001 0007CAA5\n\
1200609E 13010483 3800609E 390104D8 54004000\n\
3A000A08 14000000\n";

const UNIT_LISTING: &str = "rom 17\n\
bus 31333934 F000A002 0200000000000010 ok\n\
dir 5 3 ok\n\
entry 6 imm 03 001234\n\
entry 7 imm 0C 0083C0\n\
entry 8 dir 11 000001\n\
dir 9 7 ok\n\
entry 10 imm 12 00609E\n\
entry 11 imm 13 010483\n\
entry 12 imm 38 00609E\n\
entry 13 imm 39 0104D8\n\
entry 14 csr 14 004000\n\
entry 15 imm 3A 000A08\n\
entry 16 imm 14 000000\n\
unit 16384 8 10 1 0\n";

/// Inputs that are read to their end.
const ROMS: [Case; 7] = [
    (ROM, LISTING),
    (WRONG, WRONG_LISTING),
    (UNIT, UNIT_LISTING),
    (
        "04000000 31333934 00000000 02000000 00000010 00010000 D1000000",
        "fault 3 Entry 6\n",
    ),
    (
        "04000000 31333934 00000000 02000000 00000010",
        "fault 1 Short 6\n",
    ),
    ("", "fault 1 Short 6\n"),
    ("\n \t\r\n\n", "fault 1 Short 6\n"),
];

/// Faulty digits.
const FAULTY: [Case; 3] = [
    ("04000000\n313339\n", "script 2 4\n"),
    ("04000000\n0400000\n", "script 2 9\n"),
    ("# 04", "script 1 9\n"),
];

/// Each of these inputs ends so; nothing is written where the source fails, and nothing where the sink does
/// at its first call.
#[test]
fn roms_are_listed(rt: HostRuntime) -> Result<(), Fail> {
    let alloc = rt.alloc();
    assert_eq!(rt; other_end(alloc, Kind::Rom, Status::Done, &ROMS)?, None);
    assert_eq!(rt; other_end(alloc, Kind::Rom, Status::Script, &FAULTY)?, None);
    let rom = ROM.as_bytes();
    assert!(rt; ends_so(alloc, Kind::Rom, rom, [2, 0], Status::ReadFault, b"")?);
    assert!(rt; ends_so(alloc, Kind::Rom, rom, [0, 1], Status::WriteFault, b"")?);
    Ok(())
}
