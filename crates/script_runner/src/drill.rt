ghost use Rattle.std.specs.Prelude.{◌≡◌, ◌+◌, ◌≤◌, List, [], ◌++◌, drop, length, map, reverse, true, IfOk, OnOk};
ghost use Rattle.std.specs.List.{AllByRecursion};
ghost use Rattle.rbc_disk.specs.Held.{Held, held};
ghost use Rattle.sbp_journal.specs.Written.{IsTyped};
ghost use Rattle.script_text.specs.Drill.{generated};
ghost use Rattle.sbp_journal.specs.declared.event.Event as events;
ghost use Rattle.sbp_journal.specs.declared.note.Note as notes;
ghost use Rattle.sbp_world.specs.Lines.{Happens, IsEvent};
ghost use Rattle.sbp_world.specs.Making.{new_world};
ghost use Rattle.sbp_world.specs.Worlds.{scene};
ghost use Rattle.drill_text.specs.Tally.{tally_of};
ghost use Rattle.script_runner.specs.Drilling.{AreLeft, Drilled, InDrill};

use crate::begin::begin_world;
use drill_text::{DrillWords, PairSums, Tally};
use rbc_disk::Medium;
use sbp_base::NoMemory;
use sbp_journal::Event;
use sbp_world::World;
use script_text::{Drill, drill_line};
use std::alloc::Global;

/// Runs a line of the script, and tallies its notes.
fn run_line(
    alloc: Global,
    sums: &PairSums,
    line: u32,
    event: &Event,
    world: &mut World,
    media: &mut Vec<Box<dyn Medium>>,
    tally: &mut Tally,
) -> Result<(), NoMemory>
    requires units { length media.old.items ≡ length world.old.target.units }
    requires event { IsEvent event.now (length world.old.initiators) }
    ensures size { length media.new.items ≡ length media.old.items }
    ensures units { length world.new.target.units ≡ length world.old.target.units }
    ensures happens { OnOk result (Happens line event.now (scene world.old (map disk media.old.items) (map media_faults media.old.items)) (scene world.new (map disk media.new.items) (map media_faults media.new.items))) }
    ensures tally { (before : List notes.Note) → tally.old ≡ tally_of before → OnOk result (tally.new ≡ tally_of (before ++ reverse world.new.fresh)) }
    ensures typed { OnOk result (AllByRecursion IsTyped world.new.fresh) }
{
    world.step(media, line, event)?;
    tally.add_all(alloc, sums, world.fresh().as_slice())
}

/// Runs the lines that are left of the script, behind its first one.
fn run_lines(
    alloc: Global,
    sums: &PairSums,
    script: &mut Drill,
    world: &mut World,
    media: &mut Vec<Box<dyn Medium>>,
    tally: &mut Tally,
) -> Result<(), NoMemory>
    requires units { length media.old.items ≡ length world.old.target.units }
    requires left { AreLeft 1 script.old (length world.old.initiators) }
    ensures size { length media.new.items ≡ length media.old.items }
    ensures ran { OnOk result ((start : Held) (all : List events.Event) → InDrill start all 1 script.old tally.old world.old (held (map disk media.old.items) (map media_faults media.old.items)) → Drilled start all tally.new (held (map disk media.new.items) (map media_faults media.new.items))) }
{
    let mut line = 1;
    'lines: loop {
        match drill_line(alloc, script)? {
            Some(event) => run_line(alloc, sums, line + 1, &event, world, media, tally)?,
            None => return Ok(()),
        }
        line += 1;
    }
}

/// Takes the first line of the script, `begin 2 ready`, and begins the run so.
fn begin(alloc: Global, script: &mut Drill, units: u8) -> Result<Box<World>, NoMemory>
    requires one { 1 ≤ units }
    requires few { units ≤ 4 }
    ensures world { IfOk result (λ world. world.value ≡ new_world 2 true units) }
    ensures rest { OnOk result (script.new ≡ drop 1 script.old) }
{
    let _begin = drill_line(alloc, script)?;
    begin_world(alloc, 2, true, units)
}

/// Runs the script that is drawn from a seed over one to four media, and tallies its journal, which is
/// never held whole. After want of memory the tally must not be used again.
pub fn tally_drill(
    alloc: Global,
    sums: &PairSums,
    words: DrillWords,
    media: &mut Vec<Box<dyn Medium>>,
    tally: &mut Tally,
) -> Result<(), NoMemory>
    requires some { 1 ≤ length media.old.items }
    requires few { length media.old.items ≤ 4 }
    requires commands { words.count ≤ 10000 }
    requires none { tally.old ≡ tally_of [] }
    ensures size { length media.new.items ≡ length media.old.items }
    ensures ran { OnOk result (Drilled (held (map disk media.old.items) (map media_faults media.old.items)) (generated words.seed words.count) tally.new (held (map disk media.new.items) (map media_faults media.new.items))) }
{
    let mut script = Drill::new(words.seed, words.count);
    let units = media.as_slice().len() as u8;
    let mut world = begin(alloc, &mut script, units)?;
    tally.add_all(alloc, sums, world.fresh().as_slice())?;
    run_lines(alloc, sums, &mut script, &mut *world, media, tally)
}
