ghost use Rattle.std.specs.Prelude.{◌≡◌, ◌+◌, ◌*◌, ◌<◌, ◌≤◌, [], length, Ok, Err, Some, None, IfOk, true};

use super::{Agent, ORB_SIZE, POINTER_SIZE, orb_in};
use crate::phase::{Phase, ReadAhead};
use crate::step::{AgentStep, Move};
use orb_layout::{Ask, FailCause, OrbPointer, Reply, StatusKind};
use page_table::elements;
use sbp_base::Offset;

impl Agent {
    ghost use Rattle.page_table.specs.Buffer.{bytes_of};
    ghost use Rattle.rbc_disk.specs.Runs.{data_length_of};
    ghost use Rattle.command_agent.specs.Machine.{is_sent, chunk_of, IsFilling, IsAnswering, IsTabled};
    ghost use Rattle.orb_layout.specs.Replies.{answer_of, lent};
    ghost use Rattle.command_agent.specs.Steps.{quiet, advanced, fail_step, orb_read, table_read, data_read, data_step, chunk_written, answer_step, status_written, next_read, follow_step, wait_step, turn_step, sent, ahead_step, IsReady};

    /// What follows from the reply to the main transaction, by its phase.
    pub(super) fn advance(&mut self, reply: Reply<'_>) -> Move
        requires { is_sent self.old.phase ≡ true }
        ensures step { (result, self.new) ≡ advanced self.old.phase self.old (answer_of reply.entry) }
        ensures ready { IsReady result self.new }
    {
        match self.phase {
            Phase::Fetching => self.take_orb(reply.payload(usize::from(ORB_SIZE))),
            Phase::ReadingTable => {
                let size = 8 * usize::from(self.orb.data_size);
                self.take_table(reply.payload(size))
            }
            Phase::ReadingData { wanted } => {
                let size = usize::from(self.chunk(self.payload.len(), wanted).length);
                self.take_data(wanted, reply.payload(size))
            }
            Phase::Answering => self.chunk_written(reply.write_failure()),
            Phase::WritingStatus => self.status_written(reply.write_failure()),
            Phase::ReadingNext => self.take_next(reply.payload(usize::from(POINTER_SIZE))),
            Phase::WritingLastStatus => {
                self.phase = Phase::Dead;
                Move::Send(AgentStep::quiet())
            }
            Phase::Reset | Phase::Suspended | Phase::Dead => unreachable!(),
        }
    }

    /// The reply to the read ahead: its bytes are kept unchecked, or it is forgotten. One that was not
    /// sent has cleared no doorbell mark.
    pub(super) fn keep_ahead(&mut self, reply: Reply<'_>) -> AgentStep
        ensures { (result, self.new) ≡ ahead_step self.old (answer_of reply.entry) }
    {
        match reply.payload(usize::from(ORB_SIZE)) {
            Ok(bytes) => {
                self.ahead = ReadAhead::Kept(orb_in(bytes));
                AgentStep::quiet()
            }
            Err(cause) => self.lose_ahead(cause),
        }
    }

    /// The main transaction of the present ORB failed.
    fn fail(&mut self, cause: FailCause) -> Move
        ensures { (result, self.new) ≡ sent (fail_step self.old cause) }
    {
        Move::Send(self.end(StatusKind::Failed, Some(cause)))
    }

    /// The bytes of the present ORB.
    fn take_orb(&mut self, bytes: Result<&[u8], FailCause>) -> Move
        requires size { IfOk bytes (λ bytes. length bytes.now ≡ 32) }
        requires phase { self.old.phase ≡ Phase.Fetching }
        ensures step { (result, self.new) ≡ orb_read self.old (lent bytes.entry) }
        ensures ready { IsReady result self.new }
    {
        match bytes {
            Ok(bytes) => {
                self.orb = orb_in(bytes);
                Move::Check
            }
            Err(cause) => self.fail(cause),
        }
    }

    /// The bytes of its page table.
    fn take_table(&mut self, bytes: Result<&[u8], FailCause>) -> Move
        requires size { IfOk bytes (λ bytes. length bytes.now ≡ 8 * self.old.orb.data_size) }
        requires phase { self.old.phase ≡ Phase.ReadingTable }
        ensures step { (result, self.new) ≡ table_read self.old (lent bytes.entry) }
        ensures ready { IsReady result self.new }
    {
        let bytes = match bytes {
            Ok(bytes) => bytes,
            Err(cause) => return self.fail(cause),
        };
        if self.aborted {
            return Move::Send(self.end(StatusKind::Aborted, None));
        }
        match elements(bytes, &mut self.segments) {
            Ok(()) => Move::Judge,
            Err(_) => Move::Send(self.end(StatusKind::Illegal(0xff), Some(FailCause::Grammar))),
        }
    }

    /// A chunk of its data.
    fn take_data(&mut self, wanted: u16, bytes: Result<&[u8], FailCause>) -> Move
        requires size { IfOk bytes (λ bytes. length self.old.payload + length bytes.now ≤ wanted) }
        requires filling { IsFilling self.old wanted }
        requires phase { self.old.phase ≡ Phase.ReadingData wanted }
        ensures step { (result, self.new) ≡ data_read self.old wanted (lent bytes.entry) }
        ensures ready { IsReady result self.new }
    {
        let bytes = match bytes {
            Ok(bytes) => bytes,
            Err(cause) => return self.fail(cause),
        };
        if self.aborted {
            return Move::Send(self.end(StatusKind::Aborted, None));
        }
        self.payload.append(bytes);
        if self.payload.len() == wanted {
            return Move::Run;
        }
        Move::Send(self.read_data(wanted))
    }

    /// Reads the next chunk of the data of the present ORB.
    pub(super) fn read_data(&mut self, wanted: u16) -> AgentStep
        requires { IsFilling self.old wanted }
        ensures { (result, self.new) ≡ data_step self.old wanted }
    {
        let chunk = self.chunk(self.payload.len(), wanted);
        self.phase = Phase::ReadingData { wanted };
        AgentStep::asking(Ask::Read {
            offset: chunk.offset,
            length: chunk.length,
        })
    }

    /// A chunk of its answer was written.
    fn chunk_written(&mut self, failure: Option<FailCause>) -> Move
        requires answering { IsAnswering self.old }
        requires phase { self.old.phase ≡ Phase.Answering }
        ensures step { (result, self.new) ≡ chunk_written self.old failure }
        ensures ready { IsReady result self.new }
    {
        if let Some(cause) = failure {
            return self.fail(cause);
        }
        let length = self.answer.len();
        self.written += self.chunk(self.written, length).length;
        Move::Send(if self.written == length {
            self.end(StatusKind::Good, None)
        } else {
            self.write_answer()
        })
    }

    /// Writes the next chunk of the answer of the present ORB.
    pub(super) fn write_answer(&mut self) -> AgentStep
        requires { IsAnswering self.old }
        ensures { (result, self.new) ≡ answer_step self.old }
    {
        let chunk = self.chunk(self.written, self.answer.len());
        let from = usize::from(self.written);
        let to = from + usize::from(chunk.length);
        self.outgoing.keep(&self.answer.as_slice()[from..to]);
        self.phase = Phase::Answering;
        AgentStep::asking(Ask::Write {
            offset: chunk.offset,
            length: chunk.length,
        })
    }

    /// The status block of the present ORB was written.
    fn status_written(&mut self, failure: Option<FailCause>) -> Move
        ensures step { (result, self.new) ≡ status_written self.old failure }
        ensures ready { IsReady result self.new }
    {
        match failure {
            Some(cause) => Move::Send(self.die(cause)),
            None => self.follow(),
        }
    }

    /// The next pointer of the last ORB was read again.
    fn take_next(&mut self, bytes: Result<&[u8], FailCause>) -> Move
        requires size { IfOk bytes (λ bytes. length bytes.now ≡ 8) }
        requires phase { self.old.phase ≡ Phase.ReadingNext }
        ensures step { (result, self.new) ≡ next_read self.old (lent bytes.entry) }
        ensures ready { IsReady result self.new }
    {
        match bytes {
            Ok(bytes) => {
                self.orb.next = OrbPointer::read(bytes, 0);
                self.follow()
            }
            Err(cause) => Move::Send(self.die(cause)),
        }
    }

    /// What the agent does by the next pointer, as it was last read.
    fn follow(&mut self) -> Move
        ensures step { (result, self.new) ≡ follow_step self.old self.old.orb.next }
        ensures ready { IsReady result self.new }
    {
        let next = self.orb.next;
        match next {
            OrbPointer::At(next) => self.turn(next),
            OrbPointer::Null => Move::Send(self.wait()),
        }
    }

    /// There is no next ORB: with the doorbell mark the pointer is read again.
    fn wait(&mut self) -> AgentStep
        ensures { (result, self.new) ≡ wait_step self.old }
    {
        if self.doorbell {
            return self.reread();
        }
        self.phase = Phase::Suspended;
        AgentStep::quiet()
    }

    /// The turn of the next ORB, by what was read ahead.
    fn turn(&mut self, next: Offset) -> Move
        ensures step { (result, self.new) ≡ turn_step self.old next self.old.ahead }
        ensures ready { IsReady result self.new }
    {
        match self.ahead {
            ReadAhead::Idle => Move::Send(self.fetch(next)),
            ReadAhead::UnderWay { .. } => {
                self.turn_to(next);
                Move::Send(AgentStep {
                    promoted: true,
                    ..AgentStep::quiet()
                })
            }
            ReadAhead::Kept(orb) => {
                self.turn_to(next);
                self.orb = orb;
                Move::Check
            }
        }
    }
}
