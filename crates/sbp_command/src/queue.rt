ghost use Rattle.std.specs.Prelude.{◌≡◌, ◌+◌, ◌<◌, ◌≤◌, ◌∷◌, ◌++◌, [], length, map, reverse, true, ℕ, List, Some, None, Ok, IfOk, IfSome, OnOk};
ghost use Rattle.std.specs.List.{AllByRecursion};
ghost use Rattle.line_session.specs.Ends.{Ends};
ghost use Rattle.line_session.specs.Outside.{outside};
ghost use Rattle.rbc_disk.specs.Held.{Held, held};
ghost use Rattle.sbp_target.specs.Faults.{NoneFell};
ghost use Rattle.script_runner.specs.Events.{MayLeave};
ghost use Rattle.script_runner.specs.Script.{Hears};
ghost use Rattle.retry_queue.specs.Lines.{reading};
ghost use Rattle.retry_queue.specs.Queues.{queue_scene};
ghost use Rattle.retry_queue.specs.Scripts.{MaySay};
ghost use Rattle.retry_queue.specs.Texts.{HasForm, text_of};
ghost use Rattle.retry_queue.specs.declared.line.QueueLine as lines;
ghost use Rattle.sbp_command.specs.QueueLines as spec;
ghost use Rattle.sbp_command.specs.QueueLines.{heard};
ghost use Rattle.sbp_command.specs.QueueRunner.{BeginsIn, CanRun, Does, MaySayIn, Stands, initiators_in, queue_meaning};

use line_session::{LineError, Serve, Status, serve_lines};
use rbc_disk::Medium;
use retry_queue::{Queue, QueueLine, append_queue_notes, is_queue_line, read_queue_line};
use sbp_base::{Bytes, NoMemory, Sink, Source};
use script_runner::line_error;
use std::alloc::Global;
use std::marker::Model;

/// The fault of a line that has no other one and is none of `queue`.
const NOT_HERE: u8 = 11;

/// What runs the lines of a script over a queue.
#[derive(Drop)]
pub struct QueueRunner {
    alloc: Global,
    /// None before the run begins.
    queue: Option<Queue>,
}

impl Model for QueueRunner {
    ghost use Rattle.std.specs.Prelude.{Option};
    ghost use Rattle.retry_queue.specs.Queues.{QueueState};

    ghost Value = { Option QueueState };

    ghost view = { λ runner. runner.queue };
}

/// Whether a line is one of `queue`.
fn is_here(said: &QueueLine) -> bool
    ensures { result ≡ spec.is_here said.now }
{
    match said {
        QueueLine::Bus(event) => is_queue_line(event),
        QueueLine::Submit { .. } | QueueLine::Pump => true,
    }
}

/// Reads a line of a script, without its line feed: what it says, or nothing for a blank line or a
/// comment. `initiators` is how many the run has, and 0 before it begins.
fn hear(alloc: Global, line: &[u8], initiators: u8) -> Result<Option<QueueLine>, LineError>
    requires { initiators ≤ 4 }
    ensures hears { Hears result (heard initiators line.now) }
    ensures reads { IfOk result (λ said. IfSome said (λ said. reading line.now initiators ≡ Ok (Some said))) }
    ensures here { IfOk result (λ said. IfSome said (λ said. spec.is_here said ≡ true)) }
{
    match read_queue_line(alloc, line, initiators) {
        Ok(Some(said)) => {
            if is_here(&said) {
                Ok(Some(said))
            } else {
                Err(LineError::Fault(NOT_HERE))
            }
        }
        Ok(None) => Ok(None),
        Err(fault) => Err(line_error(fault)),
    }
}

/// Does what a line says, which is not the first.
fn do_line(
    queue: &mut Queue,
    number: u32,
    said: QueueLine,
    media: &mut Vec<Box<dyn Medium>>,
) -> Result<(), NoMemory>
    requires one { length queue.old.world.initiators ≡ 1 }
    requires media { length media.old.items ≡ length queue.old.world.target.units }
    requires few { length queue.old.submissions < 65536 }
    requires said { MaySay said }
    ensures size { length media.new.items ≡ length media.old.items }
    ensures fell { NoneFell (map media_faults media.old.items) (map media_faults media.new.items) }
    ensures units { length queue.new.world.target.units ≡ length queue.old.world.target.units }
    ensures one { OnOk result (length queue.new.world.initiators ≡ 1) }
    ensures does { OnOk result (Does number said (queue_scene queue.old (map disk media.old.items) (map media_faults media.old.items)) (queue_scene queue.new (map disk media.new.items) (map media_faults media.new.items))) }
    ensures form { OnOk result (AllByRecursion HasForm queue.new.fresh) }
    ensures count { OnOk result (length queue.new.submissions ≤ length queue.old.submissions + 1) }
{
    match said {
        QueueLine::Bus(event) => queue.step(media, number, &event),
        QueueLine::Submit { lba, payload } => {
            let _number = queue.submit(lba, payload)?;
            Ok(())
        }
        QueueLine::Pump => queue.pump(media, number),
    }
}

/// Does what a line says, and adds the text of its notes.
fn run_queue_line(
    alloc: Global,
    queue: &mut Queue,
    number: u32,
    said: QueueLine,
    media: &mut Vec<Box<dyn Medium>>,
    out: &mut Bytes,
) -> Result<(), NoMemory>
    requires one { length queue.old.world.initiators ≡ 1 }
    requires media { length media.old.items ≡ length queue.old.world.target.units }
    requires few { length queue.old.submissions < 65536 }
    requires said { MaySay said }
    ensures size { length media.new.items ≡ length media.old.items }
    ensures fell { NoneFell (map media_faults media.old.items) (map media_faults media.new.items) }
    ensures units { length queue.new.world.target.units ≡ length queue.old.world.target.units }
    ensures one { OnOk result (length queue.new.world.initiators ≡ 1) }
    ensures does { OnOk result (Does number said (queue_scene queue.old (map disk media.old.items) (map media_faults media.old.items)) (queue_scene queue.new (map disk media.new.items) (map media_faults media.new.items))) }
    ensures text { OnOk result (out.new ≡ out.old ++ text_of (reverse queue.new.fresh)) }
    ensures count { OnOk result (length queue.new.submissions ≤ length queue.old.submissions + 1) }
{
    do_line(queue, number, said, media)?;
    append_queue_notes(alloc, queue.fresh(), out)
}

impl QueueRunner {
    /// No run has begun.
    pub fn new(alloc: Global) -> Self
        ensures { result ≡ None }
    {
        QueueRunner { alloc, queue: None }
    }

    /// How many initiators the run has, none before it begins.
    fn initiators(&self) -> u8
        ensures { result ≡ initiators_in self.now }
    {
        match self.queue {
            Some(_) => 1,
            None => 0,
        }
    }

    /// The run begins, and the text of its note is added.
    fn begin(&mut self, units: u8, out: &mut Bytes) -> Result<(), NoMemory>
        requires some { 1 ≤ units }
        requires few { units ≤ 4 }
        ensures { OnOk result (BeginsIn units out.old out.new self.new) }
    {
        let queue = Queue::begin(self.alloc, units)?;
        append_queue_notes(self.alloc, queue.fresh(), out)?;
        self.queue = Some(queue);
        Ok(())
    }

    /// Does what a line says, and adds the text of its notes.
    fn run_line(
        &mut self,
        number: u32,
        said: QueueLine,
        media: &mut Vec<Box<dyn Medium>>,
        out: &mut Bytes,
    ) -> Result<(), NoMemory>
        requires few { number ≤ 65536 }
        requires can { CanRun number self.old (held (map disk media.old.items) (map media_faults media.old.items)) }
        requires said { MaySayIn self.old said }
        ensures left { MayLeave (held (map disk media.old.items) (map media_faults media.old.items)) (held (map disk media.new.items) (map media_faults media.new.items)) }
        ensures can { OnOk result (CanRun (number + 1) self.new (held (map disk media.new.items) (map media_faults media.new.items))) }
        ensures begun { OnOk result (initiators_in self.new ≡ spec.initiators_after (initiators_in self.old) (Ok (Some said))) }
        ensures ran { OnOk result ((start : Held) (happened : List (ℕ × lines.QueueLine)) (front : List ℕ) → Stands start happened (front ++ out.old) self.old (held (map disk media.old.items) (map media_faults media.old.items)) → Stands start (happened ++ (number, said) ∷ []) (front ++ out.new) self.new (held (map disk media.new.items) (map media_faults media.new.items))) }
    {
        let alloc = self.alloc;
        if let Some(queue) = &mut self.queue {
            return run_queue_line(alloc, queue, number, said, media, out);
        }
        let units = media.as_slice().len() as u8;
        self.begin(units, out)
    }
}

impl Serve for QueueRunner {
    ghost use Rattle.sbp_command.specs.QueueRunner.{queue_meaning};

    ghost meaning = { queue_meaning };

    fn serve_line(
        &mut self,
        number: u32,
        line: &[u8],
        media: &mut Vec<Box<dyn Medium>>,
        out: &mut Bytes,
    ) -> Result<(), LineError> {
        match hear(self.alloc, line, self.initiators()) {
            Ok(Some(said)) => match self.run_line(number, said, media, out) {
                Ok(()) => Ok(()),
                Err(NoMemory) => Err(LineError::NoMemory),
            },
            Ok(None) => Ok(()),
            Err(error) => Err(error),
        }
    }

    fn close(&mut self, _out: &mut Bytes) -> Result<(), NoMemory> {
        Ok(())
    }
}

/// Reads a script and runs its lines over a queue and one to four media.
pub fn serve_queue<S: Source, K: Sink>(
    alloc: Global,
    media: &mut Vec<Box<dyn Medium>>,
    source: &mut S,
    sink: &mut K,
) -> Status
    requires some { 1 ≤ length media.old.items }
    requires few { length media.old.items ≤ 4 }
    ensures { Ends queue_meaning result (outside (S.left source.old) (S.faults source.old) (K.written sink.old) (K.faults sink.old) (map disk media.old.items) (map media_faults media.old.items)) (outside (S.left source.new) (S.faults source.new) (K.written sink.new) (K.faults sink.new) (map disk media.new.items) (map media_faults media.new.items)) }
{
    let mut server = QueueRunner::new(alloc);
    serve_lines(alloc, &mut server, media, source, sink)
}
