use crate::calls::{call, program_media};
use sbp_command::Status;
use std::test::Fail;

/// Packets of several kinds, and faulty ones.
const PACKETS: &str = "FFC01500 FFC1FFFF F0040010 00000001\n\
FFC01500 FFC1FFFF F0040010 000000\n\
FFC01500 FFC1FFFF F0040010 0000000100\n\
FFC00130 FFC1FFFF 00000000 00000000\n\
FFC00910 FFC10000 11000000 00050000 0102030405FFFFFF\n\
FFC00910 FFC10000 11000000 00050000 01020304\n\
FFC00110 FFC10000 11000000 08040000\n\
FFC0\n";

const PACKET_LISTING: &str =
    "write_quadlet FFC0 FFC1 5 1 0 FFFFF0040010 00000001 @agent0.doorbell\n\
fault 1 Short 16\n\
fault 4 Long 1\n\
fault 2 Code 3\n\
write_block FFC0 FFC1 2 1 0 000011000000 5 0102030405\n\
fault 1 Short 24\n\
fault 3 TooBig 2052\n\
fault 1 Short 4\n";

/// A ROM with a leaf whose sum is right.
const ROM: &str =
    "04000000 31333934 00000000 02000000 00000010 0001BBAD 81000001 00011021 00000001";

const ROM_LISTING: &str = "rom 9\n\
bus 31333934 00000000 0200000000000010 ok\n\
dir 5 1 ok\n\
entry 6 leaf 01 000001\n\
leaf 7 1 ok\n\
quad 8 00000001\n\
no unit\n";

/// The same with a sum that is wrong.
const WRONG: &str =
    "04000000 31333934 00000000 02000000 00000010 0001BBAD 81000001 00010000 00000001";

const WRONG_LISTING: &str = "rom 9\n\
bus 31333934 00000000 0200000000000010 ok\n\
dir 5 1 ok\n\
entry 6 leaf 01 000001\n\
leaf 7 1 wrong\n\
quad 8 00000001\n\
no unit\n";

/// Packets and ROMs, listed by the words `decode` and `rom`.
#[test]
fn packets_and_roms_are_listed(rt: HostRuntime) -> Result<(), Fail> {
    let alloc = rt.alloc();
    for (word, input, written) in [
        ("decode", PACKETS, PACKET_LISTING),
        ("rom", ROM, ROM_LISTING),
        ("rom", WRONG, WRONG_LISTING),
        (
            "rom",
            "04000000 31333934 00000000 02000000 00000010 00010000 D1000000",
            "fault 3 Entry 6\n",
        ),
        (
            "rom",
            "04000000 31333934 00000000 02000000 00000010",
            "fault 1 Short 6\n",
        ),
    ] {
        let mut media = program_media(alloc)?;
        let ended = call(alloc, word, &mut media, input, &[], &[])?;
        let is_listed = ended.status == Status::Done && ended.written.as_str() == written;
        assert!(rt; is_listed, "{word} {input}");
    }
    Ok(())
}
