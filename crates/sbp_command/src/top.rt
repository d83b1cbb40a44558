ghost use Rattle.std.specs.Prelude.{◌≡◌, ◌≤◌, ◌<◌, ℕ, List, map, length, IfOk, Option, ◌↔◌, ◌++◌, ◌∷◌, [], true};
ghost use Rattle.std.specs.String.{string_bytes};
ghost use Rattle.rbc_disk.specs.Disk.{Disk};
ghost use Rattle.line_session.specs.Outside.{outside};
ghost use Rattle.sbp_command.specs.Headline.{status_of, RunEnds, ListingEnds, RomEnds, UsageEnds};
ghost use Rattle.sbp_command.specs.QueueEnds.{QueueEnds};
ghost use Rattle.sbp_command.specs.Served.{Serves};
ghost use Rattle.sbp_command.specs.TaskEnds.{TaskEnds};

use crate::drill::run_drill;
use crate::queue::serve_queue;
use crate::status::Status;
use crate::tasks::serve_tasks;
use drill_text::drill_words;
use line_session::{Status as LineStatus, serve_lines, write_all};
use packet_listing::PacketLister;
use rbc_disk::Medium;
use retry_queue::{queue_runs_are_lawful, queue_runs_leave_their_medium};
use rom_listing::RomLister;
use sbp_base::{NoMemory, Sink, Source};
use script_runner::serve_script;
use std::alloc::Global;

/// What is written where the words are in no row.
const USAGE: &str = "usage: sbp2 run | drill SEED N | decode | rom | tasks | queue\n";

/// Whether the words are this one alone.
fn is_alone(words: &[String], word: &str) -> bool
    ensures { result ≡ true ↔ map string_bytes words.now ≡ word.now ∷ [] }
{
    match words {
        [only] => only.as_str() == word,
        _ => false,
    }
}

/// Writes the usage line.
fn tell_usage<K: Sink>(sink: &mut K) -> Status
    ensures { (left : Option (List ℕ)) (reads : ℕ) (disks : List Disk) (faults : List ℕ) → UsageEnds result (outside left reads (K.written sink.old) (K.faults sink.old) disks faults) (outside left reads (K.written sink.new) (K.faults sink.new) disks faults) }
{
    match write_all(sink, USAGE.as_bytes()) {
        Ok(()) => Status::Words,
        Err(status) => status_of(status),
    }
}

/// The status of a call whose lines were served.
pub(crate) fn status_of(ended: LineStatus) -> Status
    ensures { result ≡ status_of ended }
{
    match ended {
        LineStatus::Done => Status::Done,
        LineStatus::Script => Status::Script,
        LineStatus::ReadFault => Status::ReadFault,
        LineStatus::WriteFault => Status::WriteFault,
        LineStatus::NoMemory => Status::NoMemory,
    }
}

/// Reads a script and runs its lines.
fn run_script<S: Source, K: Sink>(
    alloc: Global,
    media: &mut Vec<Box<dyn Medium>>,
    source: &mut S,
    sink: &mut K,
) -> Status
    requires some { 1 ≤ length media.old.items }
    requires few { length media.old.items ≤ 4 }
    ensures { RunEnds result (outside (S.left source.old) (S.faults source.old) (K.written sink.old) (K.faults sink.old) (map disk media.old.items) (map media_faults media.old.items)) (outside (S.left source.new) (S.faults source.new) (K.written sink.new) (K.faults sink.new) (map disk media.new.items) (map media_faults media.new.items)) }
{
    status_of(serve_script(alloc, media, source, sink))
}

/// Reads packets and lists them.
fn list_packets<S: Source, K: Sink>(
    alloc: Global,
    media: &mut Vec<Box<dyn Medium>>,
    source: &mut S,
    sink: &mut K,
) -> Status
    ensures { ListingEnds result (outside (S.left source.old) (S.faults source.old) (K.written sink.old) (K.faults sink.old) (map disk media.old.items) (map media_faults media.old.items)) (outside (S.left source.new) (S.faults source.new) (K.written sink.new) (K.faults sink.new) (map disk media.new.items) (map media_faults media.new.items)) }
{
    match PacketLister::new(alloc) {
        Ok(mut server) => status_of(serve_lines(alloc, &mut server, media, source, sink)),
        Err(NoMemory) => Status::NoMemory,
    }
}

/// Reads the quadlets of a configuration ROM and lists it.
fn list_rom<S: Source, K: Sink>(
    alloc: Global,
    media: &mut Vec<Box<dyn Medium>>,
    source: &mut S,
    sink: &mut K,
) -> Status
    ensures { RomEnds result (outside (S.left source.old) (S.faults source.old) (K.written sink.old) (K.faults sink.old) (map disk media.old.items) (map media_faults media.old.items)) (outside (S.left source.new) (S.faults source.new) (K.written sink.new) (K.faults sink.new) (map disk media.new.items) (map media_faults media.new.items)) }
{
    match RomLister::new(alloc) {
        Ok(mut server) => status_of(serve_lines(alloc, &mut server, media, source, sink)),
        Err(NoMemory) => Status::NoMemory,
    }
}

/// Reads a script and runs its lines over a queue.
fn run_queue<S: Source, K: Sink>(
    alloc: Global,
    media: &mut Vec<Box<dyn Medium>>,
    source: &mut S,
    sink: &mut K,
) -> Status
    requires some { 1 ≤ length media.old.items }
    requires few { length media.old.items ≤ 4 }
    ensures { QueueEnds result (outside (S.left source.old) (S.faults source.old) (K.written sink.old) (K.faults sink.old) (map disk media.old.items) (map media_faults media.old.items)) (outside (S.left source.new) (S.faults source.new) (K.written sink.new) (K.faults sink.new) (map disk media.new.items) (map media_faults media.new.items)) }
{
    queue_runs_are_lawful();
    queue_runs_leave_their_medium();
    status_of(serve_queue(alloc, media, source, sink))
}

/// Reads a script and runs its lines over the unordered unit, which has the first medium.
fn run_tasks<S: Source, K: Sink>(
    alloc: Global,
    media: &mut Vec<Box<dyn Medium>>,
    source: &mut S,
    sink: &mut K,
) -> Status
    requires some { 1 ≤ length media.old.items }
    requires few { length media.old.items ≤ 4 }
    ensures { TaskEnds result (outside (S.left source.old) (S.faults source.old) (K.written sink.old) (K.faults sink.old) (map disk media.old.items) (map media_faults media.old.items)) (outside (S.left source.new) (S.faults source.new) (K.written sink.new) (K.faults sink.new) (map disk media.new.items) (map media_faults media.new.items)) }
{
    status_of(serve_tasks(alloc, media, source, sink))
}

/// Does what the words say over one to four media: `run` reads a script from `source`, runs it, and
/// writes the journal to `sink`; `decode` reads packets in hexadecimal lines and writes their listing;
/// `rom` reads the quadlets of one configuration ROM in hexadecimal lines and writes its listing;
/// `tasks` reads a script of the unordered unit, runs it over the first medium, and writes the journal;
/// `queue` reads a script of a queue of writes, runs it, and writes the queue's journal;
/// `drill` reads nothing, runs a script that is drawn from a seed and writes six lines on it. The words
/// are read as they are.
pub fn sbp2<S: Source, K: Sink>(
    alloc: Global,
    words: &[String],
    media: &mut Vec<Box<dyn Medium>>,
    source: &mut S,
    sink: &mut K,
) -> Status
    requires some { 1 ≤ length media.old.items }
    requires few { length media.old.items ≤ 4 }
    ensures { Serves (map string_bytes words.now) result (outside (S.left source.old) (S.faults source.old) (K.written sink.old) (K.faults sink.old) (map disk media.old.items) (map media_faults media.old.items)) (outside (S.left source.new) (S.faults source.new) (K.written sink.new) (K.faults sink.new) (map disk media.new.items) (map media_faults media.new.items)) }
{
    if is_alone(words, "run") {
        run_script(alloc, media, source, sink)
    } else if is_alone(words, "decode") {
        list_packets(alloc, media, source, sink)
    } else if is_alone(words, "rom") {
        list_rom(alloc, media, source, sink)
    } else if is_alone(words, "tasks") {
        run_tasks(alloc, media, source, sink)
    } else if is_alone(words, "queue") {
        run_queue(alloc, media, source, sink)
    } else if let Some(drill) = drill_words(words) {
        run_drill(alloc, drill, media, sink)
    } else {
        tell_usage(sink)
    }
}
