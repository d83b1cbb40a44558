use crate::calls::{Alone, call, media_of, program_media};
use sbp_command::Status;
use std::test::Fail;

/// What a drill of one command writes: an initiator reads a block that holds zeros.
const ONE: &str = "drill 1 1\n\
appended 1\n\
taken 1\n\
good 1\n\
disk 0000\n\
trace 23 D36A\n";

/// The same, where the disk can't be read for it.
const UNREADABLE: &str = "drill 1 1\n\
appended 1\n\
taken 1\n\
good 1\n\
disk -\n\
trace 23 D36A\n";

/// Over no disk: the command ends with a check.
const ABSENT: &str = "drill 1 1\n\
appended 1\n\
taken 1\n\
good 0\n\
disk -\n\
trace 19 BFE6\n";

/// What a drill of a thousand commands writes.
const THOUSAND: &str = "drill 1 1000\n\
appended 1000\n\
taken 1000\n\
good 1000\n\
disk 2C7C\n\
trace 23556 43E9\n";

/// A drill of one command: over a blank disk, over one that can't be read for the summary, and over none;
/// and where the sink fails at its first call, so that no line is written. And one of a thousand commands,
/// whose sums a program apart from this one made of the journal of its script. The source is not read.
#[test]
fn drills_write_six_lines(rt: HostRuntime) -> Result<(), Fail> {
    let alloc = rt.alloc();
    for (words, medium, failing, status, written) in [
        ("drill 1 1", Alone::Blank, 0u32, Status::Done, ONE),
        (
            "drill 1 1",
            Alone::Failing(0, 2),
            0,
            Status::Done,
            UNREADABLE,
        ),
        ("drill 1 1", Alone::Absent, 0, Status::Done, ABSENT),
        ("drill 1 1", Alone::Blank, 1, Status::WriteFault, ""),
        ("drill 1 1000", Alone::Blank, 0, Status::Done, THOUSAND),
    ] {
        let mut media = media_of(alloc, medium)?;
        let ended = call(alloc, words, &mut media, "", &[1], &[failing])?;
        assert_eq!(rt; ended.status, status);
        assert_eq!(rt; ended.written.as_str(), written);
    }
    Ok(())
}

/// The same over the media of the program, whose unit 0 holds zeros too.
#[test]
fn drills_run_over_all_media(rt: HostRuntime) -> Result<(), Fail> {
    let alloc = rt.alloc();
    for (words, written) in [("drill 1 1", ONE), ("drill 1 1000", THOUSAND)] {
        let mut media = program_media(alloc)?;
        let ended = call(alloc, words, &mut media, "", &[1], &[])?;
        let is_told = ended.status == Status::Done && ended.written.as_str() == written;
        assert!(rt; is_told, "{words}");
    }
    Ok(())
}
