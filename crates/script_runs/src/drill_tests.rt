use sbp_base::NoMemory;
use sbp_journal::{Action, Cmd, Event};
use script_text::{Drill, drill_line, read_line};
use std::alloc::Global;
use std::test::Fail;

/// An event of a drill: whether it begins the run, a settle, or the initiator, the opcode, the block
/// and the first byte that is written.
#[derive(Clone, Copy, Debug, PartialEq, Eq)]
enum Drilled {
    Begin,
    Settle,
    Append(u8, u8, u8, u8),
    Other,
    End,
}

fn event_by(alloc: Global, drill: &mut Drill) -> Result<Drilled, NoMemory> {
    let event = drill_line(alloc, drill)?;
    Ok(match &event {
        Some(Event::Begin { .. }) => Drilled::Begin,
        Some(Event::Settle) => Drilled::Settle,
        Some(
            Event::Act {
                initiator,
                action: Action::Append(cmd),
            },
        ) => {
            let byte = cmd.payload.as_slice().first().copied().unwrap_or(0);
            Drilled::Append(*initiator, cmd.cdb[0], cmd.cdb[5], byte)
        }
        Some(_) => Drilled::Other,
        None => Drilled::End,
    })
}

/// The script of `drill 1 2`, worked out by another program.
const TWO_LINES: [Drilled; 6] = [
    Drilled::Begin,
    Drilled::Append(0, 0x28, 12, 0),
    Drilled::Append(0, 0x2a, 51, 0x9a),
    Drilled::Settle,
    Drilled::End,
    Drilled::End,
];

/// Whether it is drilled.
fn drills_two_lines(alloc: Global) -> Result<bool, NoMemory> {
    let mut drill = Drill::new(1, 2);
    for want in &TWO_LINES {
        if event_by(alloc, &mut drill)? != *want {
            return Ok(false);
        }
    }
    Ok(true)
}

/// The line of a drill's command, as a script has it.
fn line_of(alloc: Global, initiator: u8, cmd: &Cmd) -> Result<String, NoMemory> {
    let lba = cmd.cdb[5];
    let line = if cmd.to_initiator {
        format!(in alloc; "append {initiator} read {lba} 1")?
    } else {
        let byte = cmd.payload.as_slice().first().copied().unwrap_or(0);
        format!(in alloc; "append {initiator} write {lba} {byte:02X}*512")?
    };
    Ok(line)
}

/// Whether a line is read as this command of this initiator.
fn is_read_so(alloc: Global, line: &str, initiator: u8, cmd: &Cmd) -> bool {
    match read_line(alloc, line.as_bytes(), 2) {
        Ok(
            Some(
                Event::Act {
                    initiator: asked,
                    action: Action::Append(read),
                },
            ),
        ) => {
            asked == initiator
                && read.cdb == cmd.cdb
                && read.to_initiator == cmd.to_initiator
                && read.length == cmd.length
                && read.payload.as_slice() == cmd.payload.as_slice()
                && read.segments.as_slice().is_empty()
                && read.max_payload == cmd.max_payload
        }
        _ => false,
    }
}

/// Whether the event at a place of a drill of seventeen lines is what its line is read as, and a settle
/// behind the sixteenth and the last.
fn is_in_place(alloc: Global, place: u8, event: &Option<Event>) -> Result<bool, NoMemory> {
    match event {
        Some(
            Event::Act {
                initiator,
                action: Action::Append(cmd),
            },
        ) => {
            let line = line_of(alloc, *initiator, cmd)?;
            Ok(is_read_so(alloc, line.as_str(), *initiator, cmd))
        }
        Some(Event::Settle) => Ok(place == 17 || place == 19),
        Some(_) => Ok(place == 0),
        None => Ok(place == 20),
    }
}

/// Whether each event of that drill is.
fn are_in_place(alloc: Global) -> Result<bool, NoMemory> {
    let mut drill = Drill::new(1, 17);
    for place in 0_u8..21 {
        let event = drill_line(alloc, &mut drill)?;
        if !is_in_place(alloc, place, &event)? {
            return Ok(false);
        }
    }
    Ok(true)
}

#[test]
fn drills(rt: HostRuntime) -> Result<(), Fail> {
    assert!(rt; drills_two_lines(rt.alloc())?);
    assert!(rt; are_in_place(rt.alloc())?);
    Ok(())
}
