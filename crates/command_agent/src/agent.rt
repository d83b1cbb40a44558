ghost use Rattle.std.specs.Prelude.{◌≡◌, ◌+◌, ◌-◌, ◌*◌, ◌%◌, ◌^◌, ◌<◌, ◌≤◌, [], ◌++◌, length, take, drop, Some, None, Ok, Err, IfOk, IfErr, not, true, false, if◌then◌else◌};
ghost use Rattle.std.specs.List.{AllByRecursion};

use crate::phase::{Phase, ReadAhead};
use crate::room::{Outgoing, Room};
use crate::step::{AgentState, AgentStep, PointRefusal, Which};
use orb_layout::{Ask, CommandOrb, FailCause, OrbPointer, Reply, StatusBlock, StatusKind};
use page_table::{Chunk, SegmentTable};
use rbc_disk::{BufferPlan, Medium, Unit};
use sbp_base::{NoMemory, Offset};
use std::alloc::Global;
use std::marker::Model;

mod advance;
mod serve;
mod task;

/// The bytes of an ORB.
const ORB_SIZE: u16 = 32;

/// The bytes of a next pointer.
const POINTER_SIZE: u16 = 8;

/// The bytes that stand for an ORB that was not read yet: its next pointer is null.
const UNREAD: [u8; 32] = [
    0x80, 0, 0, 0, 0, 0, 0, 0, 0, 0, 0, 0, 0, 0, 0, 0, 0, 0, 0, 0, 0, 0, 0, 0, 0, 0, 0, 0, 0, 0, 0,
    0,
];

/// The command agent of one login over an ordered unit. `phase` names the main transaction; `present`
/// and `orb` are those of the present or last ORB.
#[derive(Drop)]
pub struct Agent {
    phase: Phase,
    doorbell: bool,
    present: Offset,
    orb: CommandOrb,
    aborted: bool,
    ahead: ReadAhead,
    segments: SegmentTable,
    payload: Room,
    answer: Room,
    written: u16,
    outgoing: Outgoing,
}

impl Model for Agent {
    ghost use Rattle.command_agent.specs.Machine.{Machine, IsSound};

    ghost Value = { Machine };

    ghost view = { λ a. record {
      phase = a.phase;
      doorbell = a.doorbell;
      present = a.present;
      orb = a.orb;
      aborted = a.aborted;
      ahead = a.ahead;
      segments = a.segments;
      payload = a.payload;
      answer = a.answer;
      written = a.written;
      outgoing = a.outgoing;
    } };

    ghost invariant = { λ a. IsSound (record {
      phase = a.phase;
      doorbell = a.doorbell;
      present = a.present;
      orb = a.orb;
      aborted = a.aborted;
      ahead = a.ahead;
      segments = a.segments;
      payload = a.payload;
      answer = a.answer;
      written = a.written;
      outgoing = a.outgoing;
    }) };
}

/// These are bytes: a proof knows what the type of a number says where the number is read, and nothing
/// else is done.
fn are_bytes(bytes: &[u8])
    ensures { AllByRecursion (λ byte. byte < 256) bytes.now }
{
    let _count = bytes.len();
}

impl Agent {
    ghost use Rattle.orb_layout.specs.StatusBlocks.{status_bytes};
    ghost use Rattle.page_table.specs.Buffer.{bytes_of};
    ghost use Rattle.command_agent.specs.Machine.{new_machine, state_in, present_of, awaits_run, aligned, is_under_way, plan_of, limit_of, chunk_of};
    ghost use Rattle.orb_layout.specs.Replies.{answer_of};
    ghost use Rattle.command_agent.specs.Runs.{MayTell, count_after};
    ghost use Rattle.rbc_disk.specs.Units.{plain_disk};
    ghost use Rattle.rbc_disk.specs.Runs.{told_in, left_by};
    ghost use Rattle.command_agent.specs.Steps.{point_step, doorbell_step, reset_step, is_reset, abort_step, reply_step, lost_step, main_lost, ahead_lost, fetch_step, turned, reread_step, end_step, dead_step, block_of, src_of};

    /// An agent in RESET, with all the room that it will use.
    pub fn new(alloc: Global) -> Result<Agent, NoMemory>
        ensures { IfOk result (λ agent. agent ≡ new_machine) }
    {
        Ok(Agent {
            phase: Phase::Reset,
            doorbell: false,
            present: Offset::zero(),
            orb: orb_in(&UNREAD),
            aborted: false,
            ahead: ReadAhead::Idle,
            segments: SegmentTable::new(),
            payload: Room::new(alloc)?,
            answer: Room::new(alloc)?,
            written: 0,
            outgoing: Outgoing::new(),
        })
    }

    /// The state of the agent.
    pub fn state(&self) -> AgentState
        ensures { result ≡ state_in self.now.phase }
    {
        match self.phase {
            Phase::Reset => AgentState::Reset,
            Phase::Suspended => AgentState::Suspended,
            Phase::WritingLastStatus | Phase::Dead => AgentState::Dead,
            _ => AgentState::Active,
        }
    }

    /// Whether a transaction is under way, so that it can be replied to.
    pub fn is_under_way(&self, which: Which) -> bool
        ensures { result ≡ is_under_way which self.now }
    {
        match which {
            Which::Main => !matches!(self.phase, Phase::Reset | Phase::Suspended | Phase::Dead),
            Which::Ahead => matches!(self.ahead, ReadAhead::UnderWay { .. }),
        }
    }

    /// The bytes of the write last asked for.
    pub fn outgoing(&self) -> &[u8]
        ensures { result.now ≡ self.now.outgoing }
    {
        self.outgoing.as_slice()
    }

    /// The address of the present ORB.
    pub fn present(&self) -> Option<Offset>
        ensures { result ≡ present_of self.now }
    {
        match self.phase {
            Phase::Reset | Phase::ReadingNext | Phase::Suspended | Phase::Dead => None,
            _ => Some(self.present),
        }
    }

    /// The command block of the present ORB; zeros where it was not read yet.
    pub fn cdb(&self) -> &[u8; 12]
        ensures { result.now ≡ self.now.orb.cdb }
    {
        &self.orb.cdb
    }

    /// The data of the present ORB, as far as it was read.
    pub fn payload(&self) -> &[u8]
        ensures { result.now ≡ self.now.payload }
    {
        self.payload.as_slice()
    }

    /// The answer of the command that ran last.
    pub fn answer(&self) -> &[u8]
        ensures { result.now ≡ self.now.answer }
    {
        self.answer.as_slice()
    }

    /// What came of the main transaction, or of the read ahead: the agent goes on, and runs the command
    /// of its present ORB once all of its data is there. `login` is the place of the login.
    #[tactic(auto, unfolding(crate::specs::Steps::reply_step))]
    pub fn reply(
        &mut self,
        unit: &mut Unit,
        medium: &mut dyn Medium,
        login: u8,
        which: Which,
        reply: Reply<'_>,
    ) -> AgentStep
        requires under_way { is_under_way which self.old ≡ true }
        requires place { login < 8 }
        ensures step { (result, self.new) ≡ reply_step self.old login (plain_disk unit.old (disk medium.old)) (told_in result.ran self.new.answer) which (answer_of reply.entry) }
        ensures plain { plain_disk unit.new (disk medium.new) ≡ left_by result.ran self.new.orb.cdb self.new.payload login (plain_disk unit.old (disk medium.old)) }
        ensures may { MayTell result.ran self.new login (plain_disk unit.old (disk medium.old)) }
        ensures cause { media_faults medium.new ≡ count_after result.ran (media_faults medium.old) }
        ensures bytes { AllByRecursion (λ byte. byte < 256) self.new.answer }
    {
        let step = match which {
            Which::Main => {
                let next = self.advance(reply);
                self.serve(unit, medium, login, next)
            }
            Which::Ahead => self.keep_ahead(reply),
        };
        are_bytes(self.answer.as_slice());
        step
    }

    /// The main transaction or the read ahead failed: no command runs, so it takes no unit and no
    /// medium. [`Agent::reply`] does the same at each reply that is neither a payload nor `Done`.
    #[tactic(auto, unfolding(crate::specs::Steps::lost_step))]
    pub fn lose(&mut self, which: Which, cause: FailCause) -> AgentStep
        requires { is_under_way which self.old ≡ true }
        ensures { (result, self.new) ≡ lost_step self.old which cause }
    {
        match which {
            Which::Main => self.lose_main(cause),
            Which::Ahead => self.lose_ahead(cause),
        }
    }

    /// A write of ORB_POINTER: in RESET and SUSPENDED a pointer that is not null is taken, and the ORB
    /// there is read.
    #[tactic(auto, unfolding(crate::specs::Steps::point_step))]
    pub fn point(&mut self, pointer: OrbPointer) -> Result<Ask, PointRefusal>
        ensures step { (result, self.new) ≡ point_step self.old pointer }
        ensures refused { IfErr result (λ _refusal. self.new ≡ self.old) }
    {
        if !matches!(self.state(), AgentState::Reset | AgentState::Suspended) {
            return Err(PointRefusal::Conflict);
        }
        match pointer {
            OrbPointer::Null => Err(PointRefusal::Null),
            OrbPointer::At(next) => Ok(self.fetch(next).ask),
        }
    }

    /// A write of DOORBELL: it sets the mark of an active agent, and a suspended one reads the next
    /// pointer again.
    #[tactic(auto, unfolding(crate::specs::Steps::doorbell_step))]
    pub fn doorbell(&mut self) -> Ask
        ensures { (result, self.new) ≡ doorbell_step self.old }
    {
        match self.state() {
            AgentState::Reset | AgentState::Dead => Ask::Nothing,
            AgentState::Suspended => self.reread().ask,
            AgentState::Active => {
                self.doorbell = true;
                Ask::Nothing
            }
        }
    }

    /// A write of AGENT_RESET, and every other cut of the list: the agent is in RESET, and its
    /// transactions belong to nobody. The answer tells whether it was in another state.
    #[tactic(auto, unfolding(crate::specs::Steps::reset_step))]
    pub fn reset(&mut self) -> bool
        ensures was { result ≡ not (is_reset (state_in self.old.phase)) }
        ensures left { self.new ≡ reset_step self.old }
    {
        let was_open = self.state() != AgentState::Reset;
        self.phase = Phase::Reset;
        self.ahead = ReadAhead::Idle;
        was_open
    }

    /// The function abort of the management agent: it marks the present ORB where this is its address
    /// and it has neither run nor ended.
    #[tactic(auto, unfolding(crate::specs::Steps::abort_step))]
    pub fn abort(&mut self, orb: Offset)
        ensures { self.new ≡ abort_step self.old orb }
    {
        if self.awaits_run() && self.present == aligned(orb) {
            self.aborted = true;
        }
    }

    /// Whether the present ORB has neither run nor ended.
    fn awaits_run(&self) -> bool
        ensures { result ≡ awaits_run self.now.phase }
    {
        matches!(
            self.phase,
            Phase::Fetching | Phase::ReadingTable | Phase::ReadingData { .. }
        )
    }

    /// The main transaction failed.
    fn lose_main(&mut self, cause: FailCause) -> AgentStep
        ensures { (result, self.new) ≡ main_lost self.old.phase self.old cause }
    {
        match self.phase {
            Phase::Reset | Phase::Suspended | Phase::Dead => AgentStep::quiet(),
            Phase::WritingStatus | Phase::ReadingNext => self.die(cause),
            Phase::WritingLastStatus => {
                self.phase = Phase::Dead;
                AgentStep::quiet()
            }
            _ => self.end(StatusKind::Failed, Some(cause)),
        }
    }

    /// The read ahead failed: it is forgotten. One that was not sent has cleared no doorbell mark.
    fn lose_ahead(&mut self, cause: FailCause) -> AgentStep
        ensures { (result, self.new) ≡ ahead_lost self.old cause }
    {
        if let (FailCause::Label, ReadAhead::UnderWay { rung: true }) = (cause, self.ahead) {
            self.doorbell = true;
        }
        self.ahead = ReadAhead::Idle;
        AgentStep::quiet()
    }

    /// The turn of the ORB at a pointer.
    fn turn_to(&mut self, next: Offset)
        ensures { self.new ≡ turned self.old next }
    {
        self.phase = Phase::Fetching;
        self.present = aligned(next);
        self.orb = orb_in(&UNREAD);
        self.aborted = false;
        self.ahead = ReadAhead::Idle;
        self.payload.clear();
    }

    /// The turn of the ORB at a pointer, which is read.
    fn fetch(&mut self, next: Offset) -> AgentStep
        ensures { (result, self.new) ≡ fetch_step self.old next }
    {
        self.turn_to(next);
        self.doorbell = false;
        AgentStep::asking(Ask::Read {
            offset: self.present,
            length: ORB_SIZE,
        })
    }

    /// Reads the next pointer of the last ORB again.
    fn reread(&mut self) -> AgentStep
        ensures { (result, self.new) ≡ reread_step self.old }
    {
        self.phase = Phase::ReadingNext;
        self.doorbell = false;
        AgentStep::asking(Ask::Read {
            offset: self.present,
            length: POINTER_SIZE,
        })
    }

    /// The present ORB ends: its status block is written. With a cause the agent becomes dead.
    fn end(&mut self, kind: StatusKind, dead: Option<FailCause>) -> AgentStep
        ensures { (result, self.new) ≡ end_step self.old kind dead }
    {
        let length = self.keep_status(kind);
        self.phase = Phase::WritingStatus;
        if dead.is_some() {
            self.phase = Phase::WritingLastStatus;
            self.ahead = ReadAhead::Idle;
        }
        AgentStep {
            ended: Some(kind),
            dead,
            ..AgentStep::asking(Ask::Write {
                offset: Offset::zero(),
                length,
            })
        }
    }

    /// Lays out the status block of the present ORB, and answers its length.
    fn keep_status(&mut self, kind: StatusKind) -> u16
        ensures kept { self.new ≡ record self.old { outgoing = status_bytes (block_of self.old kind) } }
        ensures length { result ≡ length (status_bytes (block_of self.old kind)) }
    {
        let block = StatusBlock {
            src: match self.orb.next {
                OrbPointer::Null => 1,
                OrbPointer::At(_) => 0,
            },
            kind,
            orb: self.present,
        };
        let mut bytes = [0; 32];
        let length = block.write(&mut bytes);
        self.outgoing.keep(&bytes[0..length]);
        length as u16
    }

    /// The agent becomes dead, and no ORB ends.
    fn die(&mut self, cause: FailCause) -> AgentStep
        ensures { (result, self.new) ≡ dead_step self.old cause }
    {
        self.phase = Phase::Dead;
        self.ahead = ReadAhead::Idle;
        AgentStep {
            dead: Some(cause),
            ..AgentStep::quiet()
        }
    }

    /// The buffer that the command of the present ORB is judged by.
    fn plan(&self) -> BufferPlan
        ensures { result ≡ plan_of self.now }
    {
        BufferPlan {
            to_initiator: self.orb.to_initiator,
            bytes: self.segments.total(),
        }
    }

    /// The most bytes of a chunk.
    #[tactic(auto, using(crate::proofs::Limits::limit_some, crate::proofs::Limits::limit_few))]
    fn limit(&self) -> u16
        requires { self.now.orb.max_payload ≤ 9 }
        ensures limit { result ≡ limit_of self.now.orb }
        ensures some { 4 ≤ result }
        ensures few { result ≤ 2048 }
    {
        1 << (self.orb.max_payload + 2)
    }

    /// The chunk behind `done` bytes of the `total` that are to be moved.
    fn chunk(&self, done: u16, total: u16) -> Chunk
        requires within { done ≤ total }
        requires fits { total ≤ bytes_of self.now.segments }
        requires limit { self.now.orb.max_payload ≤ 9 }
        ensures chunk { result ≡ chunk_of self.now done total }
        ensures few { result.length ≤ 2048 }
        ensures left { done + result.length ≤ total }
        ensures some { done < total → 0 < result.length }
    {
        match self.segments.next_chunk(u32::from(done), self.limit()) {
            Some(Chunk { offset, length }) => Chunk {
                offset,
                length: length.min(total - done),
            },
            None => Chunk {
                offset: Offset::zero(),
                length: 0,
            },
        }
    }
}

ghost use Rattle.command_agent.specs.Machine.{aligned};

/// The address of an ORB: the two low bits of a pointer count as zero.
pub fn aligned(pointer: Offset) -> Offset
    ensures { result ≡ aligned pointer }
{
    let value = pointer.value();
    match Offset::new(value - value % 4) {
        Some(offset) => offset,
        None => unreachable!(),
    }
}

ghost use Rattle.orb_layout.specs.CommandOrbs.{command_orb};

/// The ORB in its 32 bytes.
fn orb_in(bytes: &[u8]) -> CommandOrb
    requires { length bytes.now ≡ 32 }
    ensures { result ≡ command_orb bytes.now }
{
    match CommandOrb::read(bytes) {
        Ok(orb) => orb,
        Err(_) => unreachable!(),
    }
}
