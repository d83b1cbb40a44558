ghost use Rattle.std.specs.Prelude.{◌≡◌, ◌≤◌, ℕ, List, Option, length, map, IfOk};
ghost use Rattle.line_session.specs.Outside.{outside};
ghost use Rattle.rbc_disk.specs.Held.{held};
ghost use Rattle.sbp_command.specs.Drill.{DrillEnds, RanDrill};

use crate::status::Status;
use crate::top::status_of;
use drill_text::{DrillWords, PairSums, Tally, push_summary, sum_of_first};
use line_session::write_all;
use rbc_disk::Medium;
use sbp_base::{Bytes, NoMemory, Sink};
use script_runner::tally_drill;
use std::alloc::Global;

/// Runs the script, sums up unit 0, and gives the six lines.
fn summary(
    alloc: Global,
    words: DrillWords,
    media: &mut Vec<Box<dyn Medium>>,
) -> Result<Bytes, NoMemory>
    requires some { 1 ≤ length media.old.items }
    requires few { length media.old.items ≤ 4 }
    requires asked { 1 ≤ words.count }
    requires commands { words.count ≤ 10000 }
    ensures { IfOk result (λ lines. RanDrill words.seed words.count (held (map disk media.old.items) (map media_faults media.old.items)) (held (map disk media.new.items) (map media_faults media.new.items)) lines) }
{
    let sums = PairSums::new(alloc)?;
    let mut tally = Tally::new(alloc);
    tally_drill(alloc, &sums, words, media, &mut tally)?;
    let disk = sum_of_first(alloc, &sums, media)?;
    let mut lines = Bytes::new(alloc);
    push_summary(&mut lines, words.seed, words.count, &tally, disk)?;
    Ok(lines)
}

/// Runs the script that is drawn from a seed, and writes what its journal and the disk of unit 0 come
/// to.
pub(crate) fn run_drill<K: Sink>(
    alloc: Global,
    words: DrillWords,
    media: &mut Vec<Box<dyn Medium>>,
    sink: &mut K,
) -> Status
    requires some { 1 ≤ length media.old.items }
    requires few { length media.old.items ≤ 4 }
    requires asked { 1 ≤ words.count }
    requires commands { words.count ≤ 10000 }
    ensures { (left : Option (List ℕ)) (reads : ℕ) → DrillEnds words.seed words.count result (outside left reads (K.written sink.old) (K.faults sink.old) (map disk media.old.items) (map media_faults media.old.items)) (outside left reads (K.written sink.new) (K.faults sink.new) (map disk media.new.items) (map media_faults media.new.items)) }
{
    let Ok(lines) = summary(alloc, words, media) else {
        return Status::NoMemory;
    };
    match write_all(sink, lines.as_slice()) {
        Ok(()) => Status::Done,
        Err(status) => status_of(status),
    }
}
