ghost use Rattle.std.specs.Prelude.{◌≡◌, ◌+◌, ◌≤◌, ◌∷◌, ◌++◌, [], length, map, reverse, slice_index, slice_set, true, ℕ, List, Some, None, Ok, IfOk, IfSome, OnOk};
ghost use Rattle.std.specs.List.{AllByRecursion};
ghost use Rattle.line_session.specs.Ends.{Ends};
ghost use Rattle.line_session.specs.Outside.{outside};
ghost use Rattle.rbc_disk.specs.Disk.{disk_at};
ghost use Rattle.rbc_disk.specs.Held.{Held, held};
ghost use Rattle.sbp_journal.specs.declared.event.Event as events;
ghost use Rattle.sbp_journal.specs.Form.{HasForm};
ghost use Rattle.sbp_journal.specs.Text.{text_of};
ghost use Rattle.sbp_journal.specs.Written.{IsTyped};
ghost use Rattle.sbp_world.specs.Making.{notes_begin};
ghost use Rattle.script_runner.specs.Events.{MayLeave};
ghost use Rattle.script_runner.specs.Runner.{HasBytes};
ghost use Rattle.script_runner.specs.Script.{Hears};
ghost use Rattle.script_text.specs.Line.{reading};
ghost use Rattle.script_text.specs.Script.{initiators_after};
ghost use Rattle.task_world.specs.Lines.{IsTaskEvent, TaskHappens};
ghost use Rattle.task_world.specs.Making.{new_task_world};
ghost use Rattle.task_world.specs.Worlds.{task_scene};
ghost use Rattle.sbp_command.specs.TaskLines as spec;
ghost use Rattle.sbp_command.specs.TaskLines.{heard};
ghost use Rattle.sbp_command.specs.TaskRunner.{MayHappenIn, Stands, initiators_in, task_meaning};

use line_session::{LineError, Serve, Status, serve_lines};
use rbc_disk::Medium;
use sbp_base::{Bytes, NoMemory, Sink, Source};
use sbp_journal::{Event, append_notes};
use script_runner::read_event;
use std::alloc::Global;
use std::marker::Model;
use task_world::{TaskWorld, is_task_line};

/// The fault of a line that has no other one and is none of `tasks`.
const NOT_HERE: u8 = 11;

/// What runs the lines of a script of `tasks`.
#[derive(Drop)]
pub struct TaskRunner {
    alloc: Global,
    /// None before the run begins.
    world: Option<Box<TaskWorld>>,
}

impl Model for TaskRunner {
    ghost use Rattle.std.specs.Option.{option_map};
    ghost use Rattle.std.specs.Prelude.{Option};
    ghost use Rattle.task_world.specs.Worlds.{TaskWorldState};

    ghost Value = { Option TaskWorldState };

    ghost view = { λ runner. option_map (λ world. world.value) runner.world };
}

/// Whether a line is one of `tasks`.
fn is_here(event: &Event) -> bool
    ensures { result ≡ spec.is_here event.now }
{
    match event {
        Event::Begin { initiators, ready } => *initiators == 1 && *ready,
        _ => is_task_line(event),
    }
}

/// Reads a line of a script, without its line feed: its event, or nothing for a blank line or a comment.
/// `initiators` is how many the run has, and 0 before it begins.
fn hear(alloc: Global, line: &[u8], initiators: u8) -> Result<Option<Event>, LineError>
    requires { initiators ≤ 4 }
    ensures hears { Hears result (heard initiators line.now) }
    ensures reads { IfOk result (λ said. IfSome said (λ event. reading line.now initiators ≡ Ok (Some event))) }
    ensures bytes { IfOk result (λ said. IfSome said HasBytes) }
    ensures here { IfOk result (λ said. IfSome said (λ event. spec.is_here event ≡ true)) }
{
    match read_event(alloc, line, initiators) {
        Ok(Some(event)) => {
            if is_here(&event) {
                Ok(Some(event))
            } else {
                Err(LineError::Fault(NOT_HERE))
            }
        }
        Ok(None) => Ok(None),
        Err(error) => Err(error),
    }
}

/// [`TaskWorld::step`] over a boxed medium.
fn step_boxed(
    world: &mut TaskWorld,
    medium: &mut Box<dyn Medium>,
    number: u32,
    event: &Event,
) -> Result<(), NoMemory>
    requires event { IsTaskEvent event.now }
    ensures fell { media_faults medium.old ≤ media_faults medium.new }
    ensures happens { OnOk result (TaskHappens number event.now (task_scene world.old (disk medium.old) (media_faults medium.old)) (task_scene world.new (disk medium.new) (media_faults medium.new))) }
    ensures form { OnOk result (AllByRecursion HasForm world.new.world.fresh) }
    ensures typed { OnOk result (AllByRecursion IsTyped world.new.world.fresh) }
{
    world.step(&mut **medium, number, event)
}

/// Runs the event of a line over the medium of unit 0; the others stay as they are.
#[tactic(auto, using(rbc_disk::proofs::MediaLists::media_steps))]
fn step_first(
    world: &mut TaskWorld,
    media: &mut Vec<Box<dyn Medium>>,
    number: u32,
    event: &Event,
) -> Result<(), NoMemory>
    requires some { 1 ≤ length media.old.items }
    requires event { IsTaskEvent event.now }
    ensures size { length media.new.items ≡ length media.old.items }
    ensures disks { map disk media.new.items ≡ slice_set (map disk media.old.items) 0 (disk_at (map disk media.new.items) 0) }
    ensures counts { map media_faults media.new.items ≡ slice_set (map media_faults media.old.items) 0 (slice_index (map media_faults media.new.items) 0) }
    ensures fell { slice_index (map media_faults media.old.items) 0 ≤ slice_index (map media_faults media.new.items) 0 }
    ensures happens { OnOk result (TaskHappens number event.now (task_scene world.old (disk_at (map disk media.old.items) 0) (slice_index (map media_faults media.old.items) 0)) (task_scene world.new (disk_at (map disk media.new.items) 0) (slice_index (map media_faults media.new.items) 0))) }
    ensures form { OnOk result (AllByRecursion HasForm world.new.world.fresh) }
    ensures typed { OnOk result (AllByRecursion IsTyped world.new.world.fresh) }
{
    step_boxed(world, &mut media[0], number, event)
}

/// Runs the event of a line, and adds the text of its notes.
fn run_task_line(
    alloc: Global,
    world: &mut TaskWorld,
    number: u32,
    event: &Event,
    media: &mut Vec<Box<dyn Medium>>,
    out: &mut Bytes,
) -> Result<(), NoMemory>
    requires some { 1 ≤ length media.old.items }
    requires event { IsTaskEvent event.now }
    ensures size { length media.new.items ≡ length media.old.items }
    ensures disks { map disk media.new.items ≡ slice_set (map disk media.old.items) 0 (disk_at (map disk media.new.items) 0) }
    ensures counts { map media_faults media.new.items ≡ slice_set (map media_faults media.old.items) 0 (slice_index (map media_faults media.new.items) 0) }
    ensures fell { slice_index (map media_faults media.old.items) 0 ≤ slice_index (map media_faults media.new.items) 0 }
    ensures happens { OnOk result (TaskHappens number event.now (task_scene world.old (disk_at (map disk media.old.items) 0) (slice_index (map media_faults media.old.items) 0)) (task_scene world.new (disk_at (map disk media.new.items) 0) (slice_index (map media_faults media.new.items) 0))) }
    ensures text { OnOk result (out.new ≡ out.old ++ text_of (reverse world.new.world.fresh)) }
    ensures typed { OnOk result (AllByRecursion IsTyped world.new.world.fresh) }
{
    step_first(world, media, number, event)?;
    append_notes(alloc, world.fresh().as_slice(), out)
}

/// A run begins. Its world is large, so it stands on the heap.
fn begin_world(alloc: Global) -> Result<Box<TaskWorld>, NoMemory>
    ensures world { IfOk result (λ world. world.value ≡ new_task_world) }
    ensures form { IfOk result (λ world. AllByRecursion HasForm world.value.world.fresh) }
{
    Ok(Box::new(alloc, TaskWorld::begin(alloc)?)?)
}

impl TaskRunner {
    /// No run has begun.
    pub fn new(alloc: Global) -> Self
        ensures { result ≡ None }
    {
        TaskRunner { alloc, world: None }
    }

    /// How many initiators the run has, none before it begins.
    fn initiators(&self) -> u8
        ensures { result ≡ initiators_in self.now }
    {
        match self.world {
            Some(_) => 1,
            None => 0,
        }
    }

    /// The run begins, and the text of its note is added.
    fn begin(&mut self, out: &mut Bytes) -> Result<(), NoMemory>
        ensures state { OnOk result (self.new ≡ Some new_task_world) }
        ensures text { OnOk result (out.new ≡ out.old ++ text_of (notes_begin 1 true ∷ [])) }
    {
        let world = begin_world(self.alloc)?;
        append_notes(self.alloc, world.fresh().as_slice(), out)?;
        self.world = Some(world);
        Ok(())
    }

    /// Runs the event of a line, and adds the text of its notes.
    fn run_event(
        &mut self,
        number: u32,
        event: &Event,
        media: &mut Vec<Box<dyn Medium>>,
        out: &mut Bytes,
    ) -> Result<(), NoMemory>
        requires some { 1 ≤ length media.old.items }
        requires event { MayHappenIn self.old event.now }
        ensures size { length media.new.items ≡ length media.old.items }
        ensures left { MayLeave (held (map disk media.old.items) (map media_faults media.old.items)) (held (map disk media.new.items) (map media_faults media.new.items)) }
        ensures initiators { OnOk result (initiators_in self.new ≡ initiators_after (initiators_in self.old) (Ok (Some event.now))) }
        ensures ran { OnOk result ((start : Held) (happened : List (ℕ × events.Event)) (front : List ℕ) → Stands start happened (front ++ out.old) self.old (held (map disk media.old.items) (map media_faults media.old.items)) → Stands start (happened ++ (number, event.now) ∷ []) (front ++ out.new) self.new (held (map disk media.new.items) (map media_faults media.new.items))) }
    {
        let alloc = self.alloc;
        if let Some(world) = &mut self.world {
            return run_task_line(alloc, world, number, event, media, out);
        }
        self.begin(out)
    }
}

impl Serve for TaskRunner {
    ghost use Rattle.sbp_command.specs.TaskRunner.{task_meaning};

    ghost meaning = { task_meaning };

    fn serve_line(
        &mut self,
        number: u32,
        line: &[u8],
        media: &mut Vec<Box<dyn Medium>>,
        out: &mut Bytes,
    ) -> Result<(), LineError> {
        match hear(self.alloc, line, self.initiators()) {
            Ok(Some(event)) => match self.run_event(number, &event, media, out) {
                Ok(()) => Ok(()),
                Err(NoMemory) => Err(LineError::NoMemory),
            },
            Ok(None) => Ok(()),
            Err(error) => Err(error),
        }
    }

    fn close(&mut self, _out: &mut Bytes) -> Result<(), NoMemory> {
        Ok(())
    }
}

/// Reads a script and runs its lines over the unordered unit, whose medium is the first of one to four.
pub fn serve_tasks<S: Source, K: Sink>(
    alloc: Global,
    media: &mut Vec<Box<dyn Medium>>,
    source: &mut S,
    sink: &mut K,
) -> Status
    requires some { 1 ≤ length media.old.items }
    ensures { Ends task_meaning result (outside (S.left source.old) (S.faults source.old) (K.written sink.old) (K.faults sink.old) (map disk media.old.items) (map media_faults media.old.items)) (outside (S.left source.new) (S.faults source.new) (K.written sink.new) (K.faults sink.new) (map disk media.new.items) (map media_faults media.new.items)) }
{
    let mut server = TaskRunner::new(alloc);
    serve_lines(alloc, &mut server, media, source, sink)
}
