use crate::calls::{call, program_media, run};
use sbp_base::{Bytes, MemorySource, NoMemory, Sink, SinkFault};
use sbp_command::{Status, sbp2};
use std::alloc::Global;
use std::test::Fail;

/// Every packet of one TEST UNIT READY.
const SCRIPT: &str = "begin 1 ready\nappend 0 tur\nsettle\n";

const USAGE: &str = "usage: sbp2 run | drill SEED N | decode | rom | tasks | queue\n";

/// A line that says nothing counts, and writes nothing.
#[test]
fn silent_lines_count(rt: HostRuntime) -> Result<(), Fail> {
    for (script, status, written) in [
        ("", Status::Done, ""),
        ("begin 1 ready\r\n", Status::Done, "begin 1 ready\n"),
        ("begin 1 ready", Status::Done, "begin 1 ready\n"),
        ("begin 1 ready\r", Status::Script, "script 1 8\n"),
        (
            "# a comment\n \t\nbegin 1 ready\n\nsettle\n#",
            Status::Done,
            "begin 1 ready\nsettled\n",
        ),
        ("\n#\nsettle\n", Status::Script, "script 3 6\n"),
        ("begin 4 cold\ntick", Status::Done, "begin 4 cold\ntick\n"),
    ] {
        let ended = run(rt.alloc(), script)?;
        assert_eq!(rt; ended.status, status, "at {script}");
        assert_eq!(rt; ended.written.as_str(), written, "at {script}");
    }
    Ok(())
}

/// Some bytes, so many times a byte, and more bytes.
fn long_script(
    alloc: Global,
    first: &str,
    count: usize,
    byte: u8,
    last: &str,
) -> Result<String, Fail> {
    let mut script = first.as_bytes().to_vec(alloc)?;
    script.extend_from_slice(vec![in alloc; byte; count]?.as_slice())?;
    script.extend_from_slice(last.as_bytes())?;
    Ok(String::from_utf8(script)?)
}

/// A carriage return counts in the length of a line, unless a line feed follows it; and a line past the
/// last one that a script may have.
#[test]
fn long_lines_and_scripts(rt: HostRuntime) -> Result<(), Fail> {
    let alloc = rt.alloc();
    for (first, count, byte, last, written) in [
        ("", 8192usize, b'a', "\r", "script 1 1\n"),
        ("", 8192, b'a', "\r\n", "script 1 3\n"),
        ("", 8192, b'a', "\n", "script 1 3\n"),
        ("", 8193, b'a', "\n", "script 1 1\n"),
        ("", 8193, b'a', "\r\n", "script 1 1\n"),
        ("", 20000, b'a', "", "script 1 1\n"),
        ("begin 1 ready\n", 65535, b'\n', "", "begin 1 ready\n"),
        (
            "begin 1 ready\n",
            65535,
            b'\n',
            "#",
            "begin 1 ready\nscript 65537 2\n",
        ),
        (
            "begin 1 ready\n",
            65535,
            b'\n',
            "jump\n",
            "begin 1 ready\nscript 65537 2\n",
        ),
    ] {
        let script = long_script(alloc, first, count, byte, last)?;
        let ended = run(alloc, script.as_str())?;
        assert_eq!(rt; ended.written.as_str(), written, "at {count} and {last}");
    }
    Ok(())
}

/// Words that are served, and others that bring the usage line.
#[test]
fn words_are_read(rt: HostRuntime) -> Result<(), Fail> {
    let alloc = rt.alloc();
    for (words, status, written) in [
        ("decode", Status::Script, "script 1 9\n"),
        ("rom", Status::Script, "script 1 9\n"),
        ("tasks -", Status::Words, USAGE),
        ("queue", Status::Script, "begin 1 ready\nscript 2 11\n"),
        ("walk", Status::Words, USAGE),
        ("", Status::Words, USAGE),
        ("run run", Status::Words, USAGE),
        ("Run", Status::Words, USAGE),
        ("decode -", Status::Words, USAGE),
        ("drill 01 5", Status::Words, USAGE),
        ("drill 1 0", Status::Words, USAGE),
        ("drill 1 10001", Status::Words, USAGE),
        ("drill 18446744073709551616 1", Status::Words, USAGE),
        ("drill +1 1", Status::Words, USAGE),
        ("drill  1", Status::Words, USAGE),
        ("drill 1", Status::Words, USAGE),
        ("drill 1 1 1", Status::Words, USAGE),
        ("Drill 1 1", Status::Words, USAGE),
    ] {
        let mut media = program_media(alloc)?;
        let ended = call(alloc, words, &mut media, SCRIPT, &[], &[])?;
        assert_eq!(rt; ended.status, status, "at {words}");
        assert_eq!(rt; ended.written.as_str(), written, "at {words}");
    }
    Ok(())
}

/// A sink that takes one byte at a time.
#[derive(Drop)]
struct SlowSink {
    bytes: Bytes,
}

impl Sink for SlowSink {
    ghost use Rattle.std.specs.Prelude.{Some};

    ghost written = { λ sink. Some sink.bytes };

    ghost faults = { λ _. 0 };

    fn write(&mut self, bytes: &[u8]) -> Result<usize, SinkFault> {
        if bytes.is_empty() {
            return Ok(0);
        }
        match self.bytes.push(bytes[0]) {
            Ok(()) => Ok(1),
            Err(NoMemory) => Err(SinkFault::NoMemory),
        }
    }
}

/// A sink that takes part of each write gets the same output.
#[test]
fn short_writes(rt: HostRuntime) -> Result<(), Fail> {
    let alloc = rt.alloc();
    let mut media = program_media(alloc)?;
    assert!(rt; !media.is_empty() && media.len() <= 4);
    let words = vec![in alloc; String::from_str(alloc, "run")?]?;
    let mut source = MemorySource::new(SCRIPT.as_bytes().to_vec(alloc)?, Vec::new(alloc));
    let mut sink = SlowSink {
        bytes: Bytes::new(alloc),
    };
    let status = sbp2(alloc, words.as_slice(), &mut media, &mut source, &mut sink);
    assert_eq!(rt; status, Status::Done);
    assert_eq!(rt;
        sink.bytes.as_slice(),
        run(alloc, SCRIPT)?.written.as_bytes()
    );
    Ok(())
}
