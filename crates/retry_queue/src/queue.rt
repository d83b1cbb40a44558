ghost use Rattle.std.specs.Prelude.{◌≡◌, ◌<◌, ◌≤◌, ◌%◌, ◌^◌, IsTrue, length, map, None, IfOk, OnOk, OnErr};
ghost use Rattle.std.specs.List.{AllByRecursion, slice_get};
ghost use Rattle.std.specs.Option.{option_map};
ghost use Rattle.sbp_journal.specs.Written.{IsTyped};
ghost use Rattle.sbp_target.specs.Faults.{NoneFell};
ghost use Rattle.sbp_world.specs.FitInitiator.{BytesCommand};
ghost use Rattle.sbp_world.specs.Wire.Lines.{IsLine};
ghost use Rattle.retry_queue.specs.Kept.{new_kept, told};
ghost use Rattle.retry_queue.specs.Lines as lines;
ghost use Rattle.retry_queue.specs.Queues as queues;
ghost use Rattle.retry_queue.specs.Queues.{Begins, Pumps, RunsLine, Submits, queue_scene};
ghost use Rattle.retry_queue.specs.Steps.{command_for};
ghost use Rattle.retry_queue.specs.Texts.{HasForm};

use crate::kept::Kept;
use crate::note::QueueNotes;
use crate::pump::{Row, row_of};
use crate::typed::{address_fits, command_fits};
use rbc_disk::Medium;
use sbp_base::{Bytes, NoMemory};
use sbp_journal::{Action, Event};
use script_words::{Form, addressed_block, sending};
use std::alloc::Global;
use std::marker::Model;

/// The bytes of a block.
const BLOCK: usize = 512;

/// A queue of writes to unit 0, over a world of one ready initiator. A write without a status is sent
/// again in a later list. After want of memory in `pump` or `step` it must not be used again.
#[derive(Drop)]
pub struct Queue {
    alloc: Global,
    kept: Kept,
    /// The writes, each as the event of its append.
    submissions: Vec<Event>,
    told: QueueNotes,
}

impl Model for Queue {
    ghost use Rattle.std.specs.Prelude.{map};
    ghost use Rattle.retry_queue.specs.Kept.{kept_of};
    ghost use Rattle.retry_queue.specs.Queues.{AreWrites, QueueState, submission_in};

    ghost Value = { QueueState };

    ghost view = { λ queue. record { world = queue.told.world; kept = kept_of queue.kept; submissions = map submission_in queue.submissions.items; fresh = queue.told.notes } };

    ghost invariant = { λ queue. AreWrites queue.submissions.items };
}

/// The queue's initiator acts.
fn own(action: Action) -> Event
    ensures { result ≡ queues.own action }
{
    Event::Act {
        initiator: 0,
        action,
    }
}

/// A write as the event of its append.
fn append_event(alloc: Global, lba: u32, payload: Bytes) -> Event
    requires { length payload ≤ 16384 }
    ensures event { result ≡ queues.append_event (queues.submission lba payload) }
    ensures bytes { BytesCommand (command_for (queues.submission lba payload)) }
    ensures address { lba < 2 ^ 32 }
{
    address_fits(lba);
    let count = (payload.as_slice().len() / BLOCK) as u32;
    let cdb = addressed_block(Form::Ten, 0x2a, lba, count);
    let cmd = sending(alloc, cdb, payload);
    command_fits(&cmd);
    own(Action::Append(cmd))
}

/// The event of a number, if there is one.
fn event_at(events: &[Event], number: u32) -> Option<&Event>
    ensures { option_map (λ event. event.now) result ≡ slice_get events.now number }
{
    events.get(number as usize)
}

impl Queue {
    /// A run begins, over one to four units.
    pub fn begin(alloc: Global, units: u8) -> Result<Queue, NoMemory>
        requires some { 1 ≤ units }
        requires few { units ≤ 4 }
        ensures begins { IfOk result (Begins units) }
        ensures one { IfOk result (λ queue. length queue.world.initiators ≡ 1) }
        ensures units { IfOk result (λ queue. length queue.world.target.units ≡ units) }
        ensures form { IfOk result (λ queue. AllByRecursion HasForm queue.fresh) }
        ensures typed { IfOk result (λ queue. AllByRecursion IsTyped queue.world.fresh) }
        ensures fresh { IfOk result (λ queue. queue.fresh ≡ told None queue.world.fresh new_kept) }
    {
        let told = QueueNotes::begin(alloc, units)?;
        Ok(Queue {
            alloc,
            kept: told.first_kept()?,
            submissions: Vec::new(alloc),
            told,
        })
    }

    /// A write of one to 32 blocks is to be sent. The answer is its number, counted from 0.
    pub fn submit(&mut self, lba: u32, payload: Bytes) -> Result<u32, NoMemory>
        requires some { 512 ≤ length payload }
        requires few { length payload ≤ 16384 }
        requires whole { length payload % 512 ≡ 0 }
        requires count { length self.old.submissions < 65536 }
        ensures number { IfOk result (λ number. number ≡ length self.old.submissions) }
        ensures ok { OnOk result (Submits lba payload self.old self.new) }
        ensures err { OnErr result (self.new ≡ self.old) }
    {
        let alloc = self.alloc;
        let number = self.submissions.len() as u32;
        let bytes = Bytes::from_slice(alloc, payload.as_slice())?;
        self.submissions.push(append_event(alloc, lba, payload))?;
        self.told.submit(number, lba, bytes);
        Ok(number)
    }

    /// Makes the next action in the line of this number, or is idle.
    pub fn pump(&mut self, media: &mut Vec<Box<dyn Medium>>, line: u32) -> Result<(), NoMemory>
        requires one { length self.old.world.initiators ≡ 1 }
        requires media { length media.old.items ≡ length self.old.world.target.units }
        ensures size { length media.new.items ≡ length media.old.items }
        ensures fell { NoneFell (map media_faults media.old.items) (map media_faults media.new.items) }
        ensures units { length self.new.world.target.units ≡ length self.old.world.target.units }
        ensures one { OnOk result (length self.new.world.initiators ≡ 1) }
        ensures pumps { OnOk result (Pumps line (queue_scene self.old (map disk media.old.items) (map media_faults media.old.items)) (queue_scene self.new (map disk media.new.items) (map media_faults media.new.items))) }
        ensures form { OnOk result (AllByRecursion HasForm self.new.fresh) }
        ensures typed { OnOk result (AllByRecursion IsTyped self.new.world.fresh) }
        ensures same { OnOk result (self.new.submissions ≡ self.old.submissions) }
    {
        match row_of(self.kept) {
            Row::Idle => {
                self.told.idle();
                Ok(())
            }
            Row::Act(action) => {
                self.kept = self.told.run(media, line, &own(action), self.kept)?;
                Ok(())
            }
            Row::Append => match event_at(self.submissions.as_slice(), self.kept.next) {
                Some(event) => {
                    self.kept = self.told.run(media, line, event, self.kept)?;
                    Ok(())
                }
                None => {
                    self.told.idle();
                    Ok(())
                }
            },
        }
    }

    /// Runs the event of a line of the bus.
    pub fn step(
        &mut self,
        media: &mut Vec<Box<dyn Medium>>,
        line: u32,
        event: &Event,
    ) -> Result<(), NoMemory>
        requires one { length self.old.world.initiators ≡ 1 }
        requires bus { IsTrue (lines.is_bus_line event.now) }
        requires event { IsLine event.now 1 }
        requires media { length media.old.items ≡ length self.old.world.target.units }
        ensures size { length media.new.items ≡ length media.old.items }
        ensures fell { NoneFell (map media_faults media.old.items) (map media_faults media.new.items) }
        ensures units { length self.new.world.target.units ≡ length self.old.world.target.units }
        ensures one { OnOk result (length self.new.world.initiators ≡ 1) }
        ensures runs { OnOk result (RunsLine line event.now (queue_scene self.old (map disk media.old.items) (map media_faults media.old.items)) (queue_scene self.new (map disk media.new.items) (map media_faults media.new.items))) }
        ensures form { OnOk result (AllByRecursion HasForm self.new.fresh) }
        ensures typed { OnOk result (AllByRecursion IsTyped self.new.world.fresh) }
        ensures same { OnOk result (self.new.submissions ≡ self.old.submissions) }
    {
        self.kept = self.told.run(media, line, event, self.kept)?;
        Ok(())
    }

    /// The notes of the last call.
    pub fn fresh(&self) -> &QueueNotes
        ensures { result.now.notes ≡ self.now.fresh }
    {
        &self.told
    }
}
