ghost use Rattle.std.specs.Prelude.{◌≡◌, ◌∷◌, ◌++◌, [], OnOk};
ghost use Rattle.line_text.specs.Fields.{Field, further};
ghost use Rattle.drill_text.specs.Summary.{count_line, count_lines, disk_field, disk_line, drill_line, sum_field, summary_text, trace_line};

use crate::tally::Tally;
use line_text::{end_line, push_digits, push_name, push_number};
use sbp_base::{Bytes, NoMemory};

/// Adds the six lines of a drill: its seed and the number of its commands, the counts and the sum of
/// its journal, and the sum of the disk of unit 0, where it is known.
#[tactic(auto, unfolding(crate::specs::Summary::summary_text))]
pub fn push_summary(
    out: &mut Bytes,
    seed: u64,
    count: u32,
    tally: &Tally,
    disk: Option<u16>,
) -> Result<(), NoMemory>
    ensures { OnOk result (out.new ≡ out.old ++ summary_text (record { seed = seed; count = count; tally = tally.now; disk = disk })) }
{
    push_drill(out, seed, count)?;
    push_counts(out, tally)?;
    push_disk(out, disk)?;
    push_trace(out, tally)
}

/// Adds `drill SEED N`.
fn push_drill(out: &mut Bytes, seed: u64, count: u32) -> Result<(), NoMemory>
    ensures { OnOk result (out.new ≡ out.old ++ drill_line seed count) }
{
    out.extend_from_slice(b"drill")?;
    push_number(out, seed)?;
    push_number(out, u64::from(count))?;
    end_line(out)
}

/// Adds the counts of a journal.
fn push_counts(out: &mut Bytes, tally: &Tally) -> Result<(), NoMemory>
    ensures { OnOk result (out.new ≡ out.old ++ count_lines tally.now) }
{
    push_count(out, "appended", tally.appended())?;
    push_count(out, "taken", tally.taken())?;
    push_count(out, "good", tally.good())
}

/// Adds a word and a count.
fn push_count(out: &mut Bytes, word: &str, count: u64) -> Result<(), NoMemory>
    ensures { OnOk result (out.new ≡ out.old ++ count_line word.now count) }
{
    out.extend_from_slice(word.as_bytes())?;
    push_number(out, count)?;
    end_line(out)
}

/// Adds `disk XXXX` or `disk -`.
fn push_disk(out: &mut Bytes, disk: Option<u16>) -> Result<(), NoMemory>
    ensures { OnOk result (out.new ≡ out.old ++ disk_line disk) }
{
    out.extend_from_slice(b"disk")?;
    match disk {
        Some(sum) => push_sum(out, sum)?,
        None => push_name(out, "-")?,
    }
    end_line(out)
}

/// Adds `trace T XXXX`.
fn push_trace(out: &mut Bytes, tally: &Tally) -> Result<(), NoMemory>
    ensures { OnOk result (out.new ≡ out.old ++ trace_line tally.now) }
{
    out.extend_from_slice(b"trace")?;
    push_number(out, tally.notes())?;
    push_sum(out, tally.sum())?;
    end_line(out)
}

/// Adds a blank and a sum in four digits.
fn push_sum(out: &mut Bytes, sum: u16) -> Result<(), NoMemory>
    ensures { OnOk result (out.new ≡ out.old ++ further (sum_field sum ∷ [])) }
{
    push_digits(out, &[(sum / 256) as u8, (sum % 256) as u8])
}
