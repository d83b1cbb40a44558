ghost use Rattle.std.specs.Prelude.{◌≡◌, ◌+◌, ◌≤◌, ◌∷◌, ◌++◌, [], length, map, reverse, ℕ, List, Some, Ok, IfOk, OnOk};
ghost use Rattle.std.specs.List.{AllByRecursion};
ghost use Rattle.line_session.specs.Ends.{Ends};
ghost use Rattle.line_session.specs.Outside.{outside};
ghost use Rattle.rbc_disk.specs.Held.{Held, held};
ghost use Rattle.sbp_journal.specs.Text.{text_of};
ghost use Rattle.sbp_journal.specs.Written.{IsTyped};
ghost use Rattle.script_text.specs.Script.{initiators_after};
ghost use Rattle.sbp_journal.specs.declared.event.Event as events;
ghost use Rattle.sbp_target.specs.Faults.{NoneFell};
ghost use Rattle.sbp_world.specs.Lines.{Happens, IsEvent};
ghost use Rattle.sbp_world.specs.Making.{new_world, notes_begin};
ghost use Rattle.sbp_world.specs.Worlds.{scene};
ghost use Rattle.script_runner.specs.Events.{MayLeave};
ghost use Rattle.script_runner.specs.Runner.{CanRun, IsLineIn, MayHappenIn, Stands, not_begun, run_meaning, running};

use crate::begin::begin_world;
use crate::script::read_event;
use line_session::{LineError, Serve, Status, serve_lines};
use rbc_disk::Medium;
use sbp_base::{Bytes, NoMemory, Sink, Source};
use sbp_journal::{Event, append_notes};
use sbp_world::World;
use std::alloc::Global;
use std::marker::Model;

/// What runs the lines of a script.
#[derive(Drop)]
pub struct ScriptRunner {
    alloc: Global,
    /// How many initiators the run has, none before it begins.
    initiators: u8,
    world: Option<Box<World>>,
}

impl Model for ScriptRunner {
    ghost use Rattle.std.specs.Prelude.{◌≤◌};
    ghost use Rattle.std.specs.Option.{option_map};
    ghost use Rattle.script_runner.specs.Runner.{RunnerState};

    ghost Value = { RunnerState };

    ghost view = { λ runner. record { initiators = runner.initiators; world = option_map (λ world. world.value) runner.world } };

    ghost invariant = { λ runner. runner.initiators ≤ 4 };
}

/// Runs the event of a line in a world, and adds the text of its notes.
fn step_world(
    alloc: Global,
    world: &mut World,
    number: u32,
    event: &Event,
    media: &mut Vec<Box<dyn Medium>>,
    out: &mut Bytes,
) -> Result<(), NoMemory>
    requires units { length media.old.items ≡ length world.old.target.units }
    requires event { IsEvent event.now (length world.old.initiators) }
    ensures size { length media.new.items ≡ length media.old.items }
    ensures fell { NoneFell (map media_faults media.old.items) (map media_faults media.new.items) }
    ensures units { length world.new.target.units ≡ length world.old.target.units }
    ensures happens { OnOk result (Happens number event.now (scene world.old (map disk media.old.items) (map media_faults media.old.items)) (scene world.new (map disk media.new.items) (map media_faults media.new.items))) }
    ensures text { OnOk result (out.new ≡ out.old ++ text_of (reverse world.new.fresh)) }
    ensures typed { OnOk result (AllByRecursion IsTyped world.new.fresh) }
{
    world.step(media, number, event)?;
    append_notes(alloc, world.fresh().as_slice(), out)
}

impl ScriptRunner {
    /// No run has begun.
    pub fn new(alloc: Global) -> Self
        ensures { result ≡ not_begun }
    {
        ScriptRunner {
            alloc,
            initiators: 0,
            world: None,
        }
    }

    /// The run begins, and the text of its note is added.
    fn begin(
        &mut self,
        initiators: u8,
        ready: bool,
        units: u8,
        out: &mut Bytes,
    ) -> Result<(), NoMemory>
        requires some { 1 ≤ initiators }
        requires few { initiators ≤ 4 }
        requires one { 1 ≤ units }
        requires units { units ≤ 4 }
        ensures state { OnOk result (self.new ≡ running initiators (new_world initiators ready units)) }
        ensures text { OnOk result (out.new ≡ out.old ++ text_of (notes_begin initiators ready ∷ [])) }
    {
        let world = begin_world(self.alloc, initiators, ready, units)?;
        append_notes(self.alloc, world.fresh().as_slice(), out)?;
        self.initiators = initiators;
        self.world = Some(world);
        Ok(())
    }

    /// Runs the event of a line, and adds the text of its notes.
    fn run_event(
        &mut self,
        number: u32,
        event: &Event,
        media: &mut Vec<Box<dyn Medium>>,
        out: &mut Bytes,
    ) -> Result<(), NoMemory>
        requires can { CanRun self.old (held (map disk media.old.items) (map media_faults media.old.items)) }
        requires event { MayHappenIn self.old.world event.now }
        requires line { IsLineIn self.old.world event.now }
        ensures left { MayLeave (held (map disk media.old.items) (map media_faults media.old.items)) (held (map disk media.new.items) (map media_faults media.new.items)) }
        ensures can { OnOk result (CanRun self.new (held (map disk media.new.items) (map media_faults media.new.items))) }
        ensures initiators { OnOk result (self.new.initiators ≡ initiators_after self.old.initiators (Ok (Some event.now))) }
        ensures ran { OnOk result ((start : Held) (happened : List (ℕ × events.Event)) (front : List ℕ) → Stands start happened (front ++ out.old) self.old.world (held (map disk media.old.items) (map media_faults media.old.items)) → Stands start (happened ++ (number, event.now) ∷ []) (front ++ out.new) self.new.world (held (map disk media.new.items) (map media_faults media.new.items))) }
    {
        let alloc = self.alloc;
        if let Some(world) = &mut self.world {
            return step_world(alloc, world, number, event, media, out);
        }
        match event {
            Event::Begin { initiators, ready } => {
                let units = media.as_slice().len() as u8;
                self.begin(*initiators, *ready, units, out)
            }
            _ => unreachable!(),
        }
    }
}

impl Serve for ScriptRunner {
    ghost use Rattle.script_runner.specs.Runner.{run_meaning};

    ghost meaning = { run_meaning };

    fn serve_line(
        &mut self,
        number: u32,
        line: &[u8],
        media: &mut Vec<Box<dyn Medium>>,
        out: &mut Bytes,
    ) -> Result<(), LineError> {
        match read_event(self.alloc, line, self.initiators) {
            Ok(Some(event)) => match self.run_event(number, &event, media, out) {
                Ok(()) => Ok(()),
                Err(NoMemory) => Err(LineError::NoMemory),
            },
            Ok(None) => Ok(()),
            Err(error) => Err(error),
        }
    }

    fn close(&mut self, _out: &mut Bytes) -> Result<(), NoMemory> {
        Ok(())
    }
}

/// Reads a script and runs its lines over one to four media.
pub fn serve_script<S: Source, K: Sink>(
    alloc: Global,
    media: &mut Vec<Box<dyn Medium>>,
    source: &mut S,
    sink: &mut K,
) -> Status
    requires some { 1 ≤ length media.old.items }
    requires few { length media.old.items ≤ 4 }
    ensures { Ends run_meaning result (outside (S.left source.old) (S.faults source.old) (K.written sink.old) (K.faults sink.old) (map disk media.old.items) (map media_faults media.old.items)) (outside (S.left source.new) (S.faults source.new) (K.written sink.new) (K.faults sink.new) (map disk media.new.items) (map media_faults media.new.items)) }
{
    let mut server = ScriptRunner::new(alloc);
    serve_lines(alloc, &mut server, media, source, sink)
}
