ghost use Rattle.std.specs.Prelude.{◌≡◌, ◌≢◌, ◌==◌, ◌≤◌, [], IfOk};
ghost use Rattle.std.specs.List.{list_any};
ghost use Rattle.script_text.specs.Line as spec;
ghost use Rattle.script_words.specs.Words.{shown, numbers};
ghost use Rattle.script_words.specs.Words as numerals;

use crate::row::{Act, Fate, OrbAct, Placing, Row};
use sbp_base::Bytes;
use sbp_journal::{Action, Cmd, Event};
use script_words::{FixedWord, LineFault, behind, bytes_of_hex, cmd_of, key_of, number, verb_of};
use std::alloc::Global;

/// The highest number of an initiator.
const LAST_INITIATOR: u8 = 3;

/// The highest number of a unit.
const LAST_UNIT: u8 = 3;

/// The number from `low` to `high` that decimal digits spell.
fn small(word: &[u8], low: u8, high: u8) -> Result<u8, LineFault>
    ensures value { result ≡ numerals.number low high word.now }
    ensures bound { IfOk result (λ number. number ≤ high) }
{
    Ok(number(word, u32::from(low), u32::from(high))? as u8)
}

/// The event of a row and the words behind its first one, whose shape is the row's.
pub(crate) fn event_of(alloc: Global, row: Row, words: &[&[u8]]) -> Result<Event, LineFault>
    ensures { result ≢ Err LineFault.NoMemory → result ≡ spec.event_of row (shown words.now) }
{
    match row {
        Row::Begin => begin(words),
        Row::Act(act) => act_event(act, words),
        Row::Login => login(words),
        Row::Query => query(words),
        Row::OnOrb(act) => orb_event(act, words),
        Row::Command(placing) => command_event(alloc, placing, words),
        Row::Reset => reset(alloc, words),
        Row::See => see(words),
        Row::Key => key(words),
        Row::Fate(fate) => packet_event(fate, words),
        Row::Step => step(words),
        Row::Settle => alone(words, Event::Settle),
        Row::Tick => alone(words, Event::Tick),
        Row::Inject => inject(alloc, words),
    }
}

/// `begin N MODE`
fn begin(words: &[&[u8]]) -> Result<Event, LineFault>
    ensures { result ≡ spec.event_of Row.Begin (shown words.now) }
{
    let [initiators, mode] = words else {
        return Err(LineFault::Shape);
    };
    let initiators = small(initiators, 1, 4)?;
    Ok(Event::Begin {
        initiators,
        ready: *mode == b"ready".as_slice(),
    })
}

/// `settle` and `tick`, which have no further word.
fn alone(words: &[&[u8]], event: Event) -> Result<Event, LineFault>
    ensures some { shown words.now ≡ [] → result ≡ Ok event }
    ensures none { shown words.now ≢ [] → result ≡ Err LineFault.Shape }
{
    match words {
        [] => Ok(event),
        [_, ..] => Err(LineFault::Shape),
    }
}

/// An initiator's action that needs no further word, as `rom I`.
fn act_event(act: Act, words: &[&[u8]]) -> Result<Event, LineFault>
    ensures { result ≡ spec.event_of (Row.Act act) (shown words.now) }
{
    let [initiator] = words else {
        return Err(LineFault::Shape);
    };
    let initiator = small(initiator, 0, LAST_INITIATOR)?;
    Ok(Event::Act {
        initiator,
        action: action_of(act),
    })
}

fn action_of(act: Act) -> Action
    ensures { result ≡ spec.action_of act }
{
    match act {
        Act::Rom => Action::Rom,
        Act::Reconnect => Action::Reconnect,
        Act::Logout => Action::Logout,
        Act::AbortSet => Action::AbortSet,
        Act::UnitReset => Action::UnitReset,
        Act::TargetReset => Action::TargetReset,
        Act::AgentReset => Action::AgentReset,
        Act::State => Action::State,
        Act::Enable => Action::Enable,
        Act::Low => Action::Low,
        Act::Link => Action::Link,
        Act::Ring => Action::Ring,
    }
}

/// `login I U R`, and then `excl` and `pass HEX`.
fn login(words: &[&[u8]]) -> Result<Event, LineFault>
    ensures { result ≡ spec.event_of Row.Login (shown words.now) }
{
    let [initiator, unit, reconnect, options @ ..] = words else {
        return Err(LineFault::Shape);
    };
    let initiator = small(initiator, 0, LAST_INITIATOR)?;
    let unit = small(unit, 0, LAST_UNIT)?;
    let reconnect = small(reconnect, 0, 15)?;
    Ok(Event::Act {
        initiator,
        action: Action::Login {
            unit,
            reconnect,
            exclusive: is_exclusive(options),
            password: password(options),
        },
    })
}

/// Whether a login asks to be the only one of its unit.
fn is_exclusive(options: &[&[u8]]) -> bool
    ensures { result ≡ spec.is_exclusive (shown options.now) }
{
    match options {
        [first, ..] => *first == b"excl".as_slice(),
        [] => false,
    }
}

/// The password of a login: eight zero bytes where none is given.
fn password(options: &[&[u8]]) -> [u8; 8]
    ensures { result ≡ spec.password (shown options.now) }
{
    match behind(FixedWord::Pass, options) {
        Some(word) => key_of(word),
        None => [0; 8],
    }
}

/// `query I U`
fn query(words: &[&[u8]]) -> Result<Event, LineFault>
    ensures { result ≡ spec.event_of Row.Query (shown words.now) }
{
    let [initiator, unit] = words else {
        return Err(LineFault::Shape);
    };
    let initiator = small(initiator, 0, LAST_INITIATOR)?;
    let unit = small(unit, 0, LAST_UNIT)?;
    Ok(Event::Act {
        initiator,
        action: Action::Query { unit },
    })
}

/// `abort I K` and `dummy I K`
fn orb_event(act: OrbAct, words: &[&[u8]]) -> Result<Event, LineFault>
    ensures { result ≡ spec.event_of (Row.OnOrb act) (shown words.now) }
{
    let [initiator, orb] = words else {
        return Err(LineFault::Shape);
    };
    let initiator = small(initiator, 0, LAST_INITIATOR)?;
    let orb = number(orb, 0, 65535)?;
    let action = match act {
        OrbAct::Abort => Action::Abort { orb },
        OrbAct::Dummy => Action::Dummy { orb },
    };
    Ok(Event::Act { initiator, action })
}

/// `put I CMD` and `append I CMD`
fn command_event(alloc: Global, placing: Placing, words: &[&[u8]]) -> Result<Event, LineFault>
    ensures { result ≢ Err LineFault.NoMemory → result ≡ spec.event_of (Row.Command placing) (shown words.now) }
{
    let [initiator, verb, rest @ ..] = words else {
        return Err(LineFault::Shape);
    };
    let initiator = small(initiator, 0, LAST_INITIATOR)?;
    let Some(verb) = verb_of(verb) else {
        return Err(LineFault::Shape);
    };
    let cmd = cmd_of(alloc, verb, rest)?;
    Ok(Event::Act {
        initiator,
        action: placed(placing, cmd),
    })
}

fn placed(placing: Placing, cmd: Cmd) -> Action
    ensures { result ≡ spec.placed placing cmd }
{
    match placing {
        Placing::Put => Action::Put(cmd),
        Placing::Append => Action::Append(cmd),
    }
}

/// `reset P0 P1 ..`
fn reset(alloc: Global, words: &[&[u8]]) -> Result<Event, LineFault>
    ensures { result ≢ Err LineFault.NoMemory → result ≡ spec.event_of Row.Reset (shown words.now) }
{
    let ids = ids_of(alloc, words)?;
    if all_differ(ids.as_slice()) {
        Ok(Event::Reset { ids })
    } else {
        Err(LineFault::Range)
    }
}

/// Physical IDs, of 0 to 62.
fn ids_of(alloc: Global, words: &[&[u8]]) -> Result<Bytes, LineFault>
    ensures { result ≢ Err LineFault.NoMemory → result ≡ numbers 0 62 (shown words.now) }
{
    let mut ids = Bytes::new(alloc);
    for word in words {
        ids.push(number(word, 0, 62)? as u8)?;
    }
    Ok(ids)
}

/// Whether no two of some numbers are equal.
fn all_differ(ids: &[u8]) -> bool
    ensures { result ≡ spec.all_differ ids.now }
{
    match ids {
        [] => true,
        [id, rest @ ..] => !is_among(*id, rest) && all_differ(rest),
    }
}

/// Whether a number is one of some others.
fn is_among(id: u8, others: &[u8]) -> bool
    ensures { result ≡ list_any (λ other. other == id) others.now }
{
    others.iter().any(|other| *other == id)
}

/// `see NODE`
fn see(words: &[&[u8]]) -> Result<Event, LineFault>
    ensures { result ≡ spec.event_of Row.See (shown words.now) }
{
    let [node] = words else {
        return Err(LineFault::Shape);
    };
    if *node == b"t".as_slice() {
        return Ok(Event::See { node: 0 });
    }
    let initiator = small(node, 0, LAST_INITIATOR)?;
    Ok(Event::See {
        node: initiator + 1,
    })
}

/// `key U HEX`
fn key(words: &[&[u8]]) -> Result<Event, LineFault>
    ensures { result ≡ spec.event_of Row.Key (shown words.now) }
{
    let [unit, key] = words else {
        return Err(LineFault::Shape);
    };
    let unit = small(unit, 0, LAST_UNIT)?;
    Ok(Event::Key {
        unit,
        key: key_of(key),
    })
}

/// `deliver S`, `repeat S`, `lose S` and `timeout S`
fn packet_event(fate: Fate, words: &[&[u8]]) -> Result<Event, LineFault>
    ensures { result ≡ spec.event_of (Row.Fate fate) (shown words.now) }
{
    let [serial] = words else {
        return Err(LineFault::Shape);
    };
    let serial = u64::from(number(serial, 1, u32::MAX)?);
    Ok(match fate {
        Fate::Deliver => Event::Deliver { serial },
        Fate::Repeat => Event::Repeat { serial },
        Fate::Lose => Event::Lose { serial },
        Fate::Timeout => Event::Timeout { serial },
    })
}

/// `step K`
fn step(words: &[&[u8]]) -> Result<Event, LineFault>
    ensures { result ≡ spec.event_of Row.Step (shown words.now) }
{
    let [count] = words else {
        return Err(LineFault::Shape);
    };
    Ok(Event::Step {
        count: number(count, 1, 10000)?,
    })
}

/// `inject I HEX`, where HEX is 4 to 2,064 bytes.
fn inject(alloc: Global, words: &[&[u8]]) -> Result<Event, LineFault>
    ensures { result ≢ Err LineFault.NoMemory → result ≡ spec.event_of Row.Inject (shown words.now) }
{
    let [initiator, packet] = words else {
        return Err(LineFault::Shape);
    };
    let initiator = small(initiator, 0, LAST_INITIATOR)?;
    if packet.len() < 8 || packet.len() > 4128 {
        return Err(LineFault::Range);
    }
    Ok(Event::Inject {
        initiator,
        bytes: bytes_of_hex(alloc, packet)?,
    })
}
