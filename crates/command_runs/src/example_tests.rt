use crate::calls::{Alone, call, media_of, run};
use crate::cases::holds;
use crate::scripts::{has_form, lines_of, script_of};
use crate::texts::{COMMANDS, FAULTY, LISTS, LOGINS, PACKETS, USUAL_SESSION};
use sbp_command::Status;
use std::alloc::Global;
use std::test::Fail;

/// Scripts without a faulty line.
#[test]
fn scripts_run(rt: HostRuntime) -> Result<(), Fail> {
    for cases in [PACKETS, LISTS, LOGINS, COMMANDS, USUAL_SESSION] {
        for case in cases.split("=\n") {
            assert!(rt; holds(rt.alloc(), "run", Status::Done, case)?, "{case}");
        }
    }
    Ok(())
}

/// Scripts with a faulty line.
#[test]
fn faulty_lines_are_told(rt: HostRuntime) -> Result<(), Fail> {
    for case in FAULTY.split("=\n") {
        assert!(rt; holds(rt.alloc(), "run", Status::Script, case)?, "{case}");
    }
    Ok(())
}

/// Some lines, then others so many times, in which `J` at the end of a line stands for the number of the
/// time, and then the last ones.
fn repeated(
    alloc: Global,
    first: &str,
    times: u32,
    lines: &str,
    last: &str,
) -> Result<String, Fail> {
    let mut script = script_of(alloc, first)?;
    for time in 0..times {
        for line in lines.split(" / ") {
            let number = time.wrapping_add(1);
            let filled = match line.strip_suffix("J") {
                Some(front) => format!(in alloc; "{front}{number}\n")?,
                None => format!(in alloc; "{line}\n")?,
            };
            script.push_str(filled.as_str())?;
        }
    }
    script.push_str(script_of(alloc, last)?.as_str())?;
    Ok(script)
}

/// The 33rd append has no slot; 64 labels rest till the next bus reset; a packet more than 1,023 serials
/// old can't be repeated.
#[test]
fn much_is_used_up(rt: HostRuntime) -> Result<(), Fail> {
    let alloc = rt.alloc();
    for (times, lines, last, form) in [
        (32, "append 0 tur", "append 0 tur", "...refused 34 9\n"),
        (
            32,
            "append 0 read 0 1",
            "append 0 read 0 1",
            "...refused 34 9\n",
        ),
        (
            64,
            "state 0 / timeout J",
            "state 0 / reset 0 1 / see t / see 0 / reconnect 0",
            "...timedout 64\nop 0 state error\nrefused 130 10\nreset 1\nseen t 1\nheld 1\nseen 0 1\nsent 65 1 0 t FFC00110FFC1FFFFF0010000000800000000000012000000\n",
        ),
        (
            2000,
            "state 0 / settle",
            "repeat 1",
            "...settled\nrefused 4002 11\n",
        ),
    ] {
        let script = repeated(alloc, "begin 1 ready", times, lines, last)?;
        let ended = run(alloc, script.as_str())?;
        assert!(rt; ended.status == Status::Done);
        assert!(rt; has_form(alloc, ended.written.as_str(), form)?, "{last}");
    }
    Ok(())
}

/// A medium whose first call fails: the command has a check, and the next one is served.
#[test]
fn first_read_fails(rt: HostRuntime) -> Result<(), Fail> {
    let alloc = rt.alloc();
    let script = "begin 1 ready\nappend 0 read 0 1\nappend 0 read 0 1\nsettle\n";
    let mut media = media_of(alloc, Alone::Failing(0x5a, 1))?;
    let ended = call(alloc, "run", &mut media, script, &[], &[])?;
    let taken = lines_of(alloc, "taken", ended.written.as_str())?;
    assert_eq!(rt; ended.status, Status::Done);
    assert_eq!(rt;
        taken.as_str(),
        "taken 0 0 0 check 3/11/00\ntaken 0 0 1 good 5A*512\n"
    );
    Ok(())
}
