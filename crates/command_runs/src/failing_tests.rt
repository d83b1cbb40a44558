use crate::calls::{call, program_media};
use crate::scripts::first_lines;
use crate::texts::USUAL_SESSION;
use sbp_command::Status;
use std::alloc::Global;
use std::test::Fail;

/// The lines of a usual session.
const LINES: usize = 20;

/// A READ of the blocks that a usual session writes.
const LOOK: &str = "begin 1 ready\nappend 0 read 8 2\nsettle\n";

/// What a call leaves: its status, what it wrote, and what a READ behind it finds.
#[derive(Drop)]
struct Left {
    status: Status,
    written: String,
    found: String,
}

/// Runs a script. `reads` and `writes` name the calls that fail.
fn run_failing(alloc: Global, script: &str, reads: &[u32], writes: &[u32]) -> Result<Left, Fail> {
    let mut media = program_media(alloc)?;
    let ended = call(alloc, "run", &mut media, script, reads, writes)?;
    let look = call(alloc, "run", &mut media, LOOK, &[], &[])?;
    Ok(Left {
        status: ended.status,
        written: ended.written,
        found: look.written,
    })
}

/// The lines of a usual session, with ` / ` between them.
fn usual_lines() -> Result<&'static str, Fail> {
    let (_tried, rest) = USUAL_SESSION.split_once("\n").ok_or("case")?;
    let (lines, _text) = rest.split_once("\n").ok_or("case")?;
    Ok(lines)
}

/// A script, each line with a comment behind it: both together are read by two calls, of 512 bytes each.
fn padded(alloc: Global, lines: &str) -> Result<String, Fail> {
    let mut script = String::new(alloc);
    for line in lines.split(" / ") {
        let rest = vec![in alloc; b'#'; 1022usize.saturating_sub(line.len())]?;
        let comment = String::from_utf8(rest)?;
        script.push_str(format!(in alloc; "{line}\n{comment}\n")?.as_str())?;
    }
    Ok(script)
}

/// What the first lines of a usual session leave: none, one, and so on up to all.
fn fronts(alloc: Global, lines: &str) -> Result<Vec<Left>, Fail> {
    let mut fronts = Vec::new(alloc);
    for most in 0..LINES + 1 {
        let script = first_lines(alloc, lines, most)?;
        fronts.push(run_failing(alloc, script.as_str(), &[], &[])?)?;
    }
    Ok(fronts)
}

/// Whether a call left what the first lines of a usual session do: the text of so many, and the disk of so
/// many.
fn is_left(left: &Left, fronts: &[Left], written: usize, run: usize) -> Result<bool, Fail> {
    let front = fronts.get(written.min(LINES)).ok_or("front")?;
    let behind = fronts.get(run.min(LINES)).ok_or("front")?;
    Ok(
        left.written.as_str() == front.written.as_str()
            && left.found.as_str() == behind.found.as_str(),
    )
}

/// The source or the sink fails at its call `n`. The source gives a line by two calls: those that were read
/// whole have run, and their text is written. The sink takes the text of line `n` by its call `n`: that of
/// the lines before is written, and line `n` has run. It has one call a line.
#[test]
fn calls_fail(rt: HostRuntime) -> Result<(), Fail> {
    let alloc = rt.alloc();
    let lines = usual_lines()?;
    let script = padded(alloc, lines)?;
    let fronts = fronts(alloc, lines)?;
    for n in 1..41u32 {
        let count = n as usize;
        let read = run_failing(alloc, script.as_str(), &[n], &[])?;
        assert_eq!(rt; read.status, Status::ReadFault, "at call {n}");
        assert!(rt;
            is_left(&read, fronts.as_slice(), count / 2, count / 2)?,
            "read {n}"
        );
        let written = run_failing(alloc, script.as_str(), &[], &[n])?;
        let fails = written.status == Status::WriteFault;
        assert_eq!(rt; fails, count <= LINES, "at call {n}");
        assert!(rt;
            is_left(&written, fronts.as_slice(), count - 1, count)?,
            "written {n}"
        );
    }
    Ok(())
}
