ghost use Rattle.std.specs.Prelude.{◌≡◌, IfOk, OnOk, OnErr, drop};
ghost use Rattle.std.specs.List.{slice_get};
ghost use Rattle.script_text.specs.Drill as spec;

use crate::turn::draw_turn;
use sbp_base::NoMemory;
use sbp_journal::Event;
use std::alloc::Global;
use std::marker::Model;

/// How many initiators the bus of a drill has.
const INITIATORS: u8 = 2;

/// After so many lines a drill settles.
const LINES: u64 = 16;

/// A drill that is under way, seen as the list of the events of its script that are left.
#[derive(Drop)]
pub struct Drill {
    begun: bool,
    due: bool,
    left: u32,
    line: u64,
    state: u64,
}

impl Model for Drill {
    ghost use Rattle.std.specs.Prelude.{◌<◌, ◌+◌, ◌^◌, List};
    ghost use Rattle.sbp_journal.specs.declared.event.Event.{Event};
    ghost use Rattle.script_text.specs.Drill.{events_left};

    ghost Value = { List Event };

    ghost view = { λ drill. events_left drill.begun drill.due drill.left drill.line drill.state };

    ghost invariant = { λ drill. drill.line + drill.left < 2 ^ 33 };
}

impl Drill {
    ghost use Rattle.std.specs.Prelude.{◌≡◌};
    ghost use Rattle.script_text.specs.Drill.{generated};

    /// A drill of `n` lines, drawn from `seed`.
    pub fn new(seed: u64, n: u32) -> Drill
        ensures { result ≡ generated seed n }
    {
        Drill {
            begun: false,
            due: false,
            left: n,
            line: 1,
            state: seed,
        }
    }
}

/// The next event of the script, and none at its end.
pub fn drill_line(alloc: Global, drill: &mut Drill) -> Result<Option<Event>, NoMemory>
    ensures event { IfOk result (λ event. event ≡ slice_get drill.old 0) }
    ensures rest { OnOk result (drill.new ≡ drop 1 drill.old) }
    ensures err { OnErr result (drill.new ≡ drill.old) }
{
    if !drill.begun {
        drill.begun = true;
        return Ok(Some(Event::Begin {
            initiators: INITIATORS,
            ready: true,
        }));
    }
    if drill.due {
        drill.due = false;
        return Ok(Some(Event::Settle));
    }
    if drill.left == 0 {
        return Ok(None);
    }
    let turn = draw_turn(alloc, drill.state)?;
    drill.left -= 1;
    drill.due = is_due(drill.line, drill.left);
    drill.line += 1;
    drill.state = turn.state;
    Ok(Some(turn.event))
}

/// Whether a settle stands behind a line: it does behind each sixteenth one and behind the last.
fn is_due(line: u64, left: u32) -> bool
    ensures { result ≡ spec.is_due line left }
{
    line % LINES == 0 || left == 0
}
