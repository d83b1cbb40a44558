use crate::calls::run;
use crate::scripts::{lines_of, script_of};
use crate::wild_texts::{OWN, WILD};
use sbp_command::Status;
use std::alloc::Global;
use std::test::Fail;

/// The first lines: initiator 1 leaves unit 0 for unit 2.
const BESIDE: &str = "begin 2 ready / logout 1 / settle / login 1 2 0 / settle";

/// The same without what initiator 1 does.
const ALONE: &str = "begin 2 ready / settle / settle";

/// What initiator 0 does before the wild lines, and behind them.
const BEFORE: &str = "append 0 write 3 A5*512+5A*512 seg 24,1000 pay 6";

const BEHIND: &str =
    "settle / append 0 read 3 2 / append 0 read 64 1 / settle / state 0 / settle / \
logout 0 / settle";

/// Whether a line tells of initiator 0: its second word is 0.
fn is_own(line: &str) -> bool {
    match line.split_once(" ") {
        Some((_, rest)) => rest.starts_with("0 "),
        None => false,
    }
}

/// Whether the plain lines of initiator 0 are its own ones.
fn has_own_lines(alloc: Global, text: &str) -> Result<bool, Fail> {
    let plain = lines_of(alloc, "plain", text)?;
    let mut kept = String::new(alloc);
    for line in plain.as_str().lines() {
        if is_own(line) {
            kept.push_str(line)?;
            kept.push_str("\n")?;
        }
    }
    Ok(kept.as_str() == OWN)
}

/// Whether a text has these lines, in this order, and tells of no line that was refused.
fn tells(text: &str, told: &str) -> bool {
    let mut wanted = told.split(" / ");
    let mut next = wanted.next();
    for line in text.lines() {
        if line.starts_with("refused ") {
            return false;
        }
        match next {
            Some(first) if first == line => next = wanted.next(),
            _ => {}
        }
    }
    next.is_none()
}

/// Whether a case holds: each packet was injected and judged so, and initiator 0 has its own lines.
fn holds(alloc: Global, case: &str) -> Result<bool, Fail> {
    let (_tried, rest) = case.split_once("\n").ok_or("case")?;
    let (wild, rest) = rest.split_once("\n").ok_or("case")?;
    let (told, _) = rest.split_once("\n").ok_or("case")?;
    let lines = format!(in alloc; "{BESIDE} / {BEFORE} / {wild} / {BEHIND}")?;
    let ended = run(alloc, script_of(alloc, lines.as_str())?.as_str())?;
    let text = ended.written.as_str();
    Ok(ended.status == Status::Done && tells(text, told) && has_own_lines(alloc, text)?)
}

/// Whether initiator 0 has these lines where the other one does nothing.
fn holds_alone(alloc: Global) -> Result<bool, Fail> {
    let lines = format!(in alloc; "{ALONE} / {BEFORE} / {BEHIND}")?;
    let ended = run(alloc, script_of(alloc, lines.as_str())?.as_str())?;
    Ok(ended.status == Status::Done && has_own_lines(alloc, ended.written.as_str())?)
}

/// What an initiator at another unit injects leaves the lines of an initiator as they are without it.
#[test]
fn wild_initiators_spoil_nothing(rt: HostRuntime) -> Result<(), Fail> {
    let alloc = rt.alloc();
    assert!(rt; holds_alone(alloc)?);
    for case in WILD.split("=\n") {
        assert!(rt; holds(alloc, case)?, "{case}");
    }
    Ok(())
}
