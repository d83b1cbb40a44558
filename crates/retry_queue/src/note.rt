ghost use Rattle.std.specs.Prelude.{◌≡◌, ◌≤◌, [], ◌∷◌, true, length, map, reverse, None, IfOk, OnOk};
ghost use Rattle.std.specs.List.{AllByRecursion};
ghost use Rattle.sbp_journal.specs.Written.{IsTyped};
ghost use Rattle.sbp_target.specs.Faults.{NoneFell};
ghost use Rattle.sbp_world.specs.Lines.{Happens, IsEvent};
ghost use Rattle.sbp_world.specs.Making.{new_world};
ghost use Rattle.sbp_world.specs.Wire.Keeping.{BeginsLawfully, KeepsLaws};
ghost use Rattle.sbp_world.specs.Worlds.{scene};
ghost use Rattle.retry_queue.specs.Kept.{asked_by as operation_asked, kept_of, learned_all, new_kept, told};
ghost use Rattle.retry_queue.specs.declared.note.QueueNote.TheVariants as told_notes;

use crate::kept::Kept;
use crate::pump::asked_by;
use orb_layout::StatusKind;
use rbc_disk::Medium;
use sbp_base::{Bytes, NoMemory};
use sbp_journal::{Event, Note, Operation};
use sbp_world::World;
use std::alloc::Global;
use std::marker::Model;

/// One line of what a queue tells. Submissions are numbered from 0.
#[derive(Drop)]
pub enum QueueNote {
    /// A note of its world.
    World(Note),
    /// A write was submitted.
    Submit { number: u32, lba: u32, bytes: Bytes },
    /// A pump had nothing to do.
    Idle,
    /// A submission has its status.
    Written { number: u32, status: StatusKind },
}

/// What the last line of a queue was.
#[derive(Drop)]
pub enum LastLine {
    /// A write was submitted.
    Submit {
        number: u32,
        lba: u32,
        bytes: Bytes,
    },
    /// A pump had nothing to do.
    Idle,
    /// A line of the world, which asked for this operation, if for one. `before` was kept before it.
    World {
        asked: Option<Operation>,
        before: Kept,
    },
}

/// What a queue told in its last line. They are seen as a list of [`QueueNote`] with the latest one
/// first, beside the world, which keeps those of its own: a copy would have the bytes of each packet
/// once more. The world is large, so it stands on the heap.
#[derive(Drop)]
pub struct QueueNotes {
    pub(crate) world: Box<World>,
    pub(crate) last: LastLine,
}

impl Model for QueueNotes {
    ghost use Rattle.retry_queue.specs.Notes.{NotesState, notes_of};

    ghost Value = { NotesState };

    ghost view = { λ queue. record { world = queue.world.value; notes = notes_of queue.last queue.world.value.fresh } };
}

/// What is kept behind the notes of a line that asks for this operation, if for one.
fn keep_notes(asked: Option<Operation>, notes: &[Note], before: Kept) -> Result<Kept, NoMemory>
    ensures { IfOk result (λ kept. kept_of kept ≡ learned_all asked (reverse notes.now) (kept_of before)) }
{
    let mut kept = before;
    for note in notes {
        kept = kept.learned(asked, note)?;
    }
    Ok(kept)
}

impl QueueNotes {
    /// The run begins, of one ready initiator.
    pub(crate) fn begin(alloc: Global, units: u8) -> Result<QueueNotes, NoMemory>
        requires some { 1 ≤ units }
        requires few { units ≤ 4 }
        ensures world { IfOk result (λ first. first.world ≡ new_world 1 true units) }
        ensures lawful { IfOk result (λ first. BeginsLawfully 1 true units first.world) }
        ensures notes { IfOk result (λ first. first.notes ≡ told None first.world.fresh new_kept) }
    {
        let world = World::begin(alloc, 1, true, units)?;
        Ok(QueueNotes {
            world: Box::new(alloc, world)?,
            last: LastLine::World {
                asked: None,
                before: Kept::new(),
            },
        })
    }

    /// What is kept behind the line that begins a run.
    pub(crate) fn first_kept(&self) -> Result<Kept, NoMemory>
        ensures kept { IfOk result (λ kept. kept_of kept ≡ learned_all None self.now.world.fresh new_kept) }
        ensures typed { AllByRecursion IsTyped self.now.world.fresh }
    {
        keep_notes(None, self.world.fresh().as_slice(), Kept::new())
    }

    /// Runs the event of a line, before which this was kept, and gives what is kept behind it.
    pub(crate) fn run(
        &mut self,
        media: &mut Vec<Box<dyn Medium>>,
        line: u32,
        event: &Event,
        before: Kept,
    ) -> Result<Kept, NoMemory>
        requires event { IsEvent event.now (length self.old.world.initiators) }
        requires media { length media.old.items ≡ length self.old.world.target.units }
        ensures size { length media.new.items ≡ length media.old.items }
        ensures fell { NoneFell (map media_faults media.old.items) (map media_faults media.new.items) }
        ensures units { length self.new.world.target.units ≡ length self.old.world.target.units }
        ensures happens { OnOk result (Happens line event.now (scene self.old.world (map disk media.old.items) (map media_faults media.old.items)) (scene self.new.world (map disk media.new.items) (map media_faults media.new.items))) }
        ensures lawful { OnOk result (KeepsLaws line event.now (scene self.old.world (map disk media.old.items) (map media_faults media.old.items)) (scene self.new.world (map disk media.new.items) (map media_faults media.new.items))) }
        ensures typed { OnOk result (AllByRecursion IsTyped self.new.world.fresh) }
        ensures kept { IfOk result (λ kept. kept_of kept ≡ learned_all (operation_asked event.now) self.new.world.fresh (kept_of before)) }
        ensures notes { OnOk result (self.new.notes ≡ told (operation_asked event.now) self.new.world.fresh (kept_of before)) }
    {
        let asked = asked_by(event);
        self.world.step(media, line, event)?;
        self.last = LastLine::World { asked, before };
        keep_notes(asked, self.world.fresh().as_slice(), before)
    }

    /// A pump has nothing to do.
    pub(crate) fn idle(&mut self)
        ensures world { self.new.world ≡ self.old.world }
        ensures typed { AllByRecursion IsTyped self.new.world.fresh }
        ensures notes { self.new.notes ≡ told_notes.Idle ∷ [] }
    {
        // Its clause has that the notes of the world are inside their types.
        let _fresh = self.world.fresh();
        self.last = LastLine::Idle;
    }

    /// A write is submitted.
    pub(crate) fn submit(&mut self, number: u32, lba: u32, bytes: Bytes)
        ensures world { self.new.world ≡ self.old.world }
        ensures notes { self.new.notes ≡ told_notes.Submit number lba bytes ∷ [] }
    {
        self.last = LastLine::Submit { number, lba, bytes };
    }
}
