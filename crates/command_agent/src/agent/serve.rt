ghost use Rattle.std.specs.Prelude.{◌≡◌, ◌*◌, ◌<◌, ◌≤◌, [], length, Some, None};
ghost use Rattle.rbc_disk.specs.Units.{plain_disk};
ghost use Rattle.rbc_disk.specs.Runs.{need_of, Feeds, check_in, answered_length, told_in, left_by};

use super::Agent;
use crate::checks::{death_by, plain_length, reads_table, verdict};
use crate::phase::{Phase, ReadAhead};
use crate::step::{AgentStep, Move};
use orb_layout::{Ask, OrbPointer, StatusKind};
use rbc_disk::{Medium, Need, Outcome, Unit};

impl Agent {
    ghost use Rattle.page_table.specs.Buffer.{bytes_of};
    ghost use Rattle.command_agent.specs.Checks.{IsPassed};
    ghost use Rattle.command_agent.specs.Machine.{plan_of, aligned};
    ghost use Rattle.command_agent.specs.Runs.{MayTell, count_after};
    ghost use Rattle.command_agent.specs.Steps.{told_or, served, check_step, passed_step, judge_step, run_step, ran_as, with_ahead, IsReady, IsJudgeable};

    /// Does what follows from a reply, over a unit and its medium.
    #[tactic(auto, using(crate::proofs::Fits::feeds_all))]
    pub(super) fn serve(
        &mut self,
        unit: &mut Unit,
        medium: &mut dyn Medium,
        login: u8,
        next: Move,
    ) -> AgentStep
        requires place { login < 8 }
        requires ready { IsReady next self.old }
        ensures step { (result, self.new) ≡ served login (plain_disk unit.old (disk medium.old)) (told_or (told_in result.ran self.new.answer)) next self.old }
        ensures plain { plain_disk unit.new (disk medium.new) ≡ left_by result.ran self.new.orb.cdb self.new.payload login (plain_disk unit.old (disk medium.old)) }
        ensures may { MayTell result.ran self.new login (plain_disk unit.old (disk medium.old)) }
        ensures cause { media_faults medium.new ≡ count_after result.ran (media_faults medium.old) }
    {
        match next {
            Move::Send(step) => step,
            Move::Check => {
                let step = self.check(unit, medium, login);
                self.read_ahead(step)
            }
            Move::Judge => self.judge(unit, medium, login),
            Move::Run => self.run(unit, medium, login),
        }
    }

    /// Adds the read of the next ORB to the first request of the present one.
    fn read_ahead(&mut self, step: AgentStep) -> AgentStep
        ensures step { (result, self.new) ≡ with_ahead (step, self.old) }
        ensures ran { result.ran ≡ step.ran }
    {
        match (step.dead, self.orb.next) {
            (None, OrbPointer::At(next)) => {
                self.ahead = ReadAhead::UnderWay {
                    rung: self.doorbell,
                };
                self.doorbell = false;
                AgentStep {
                    ahead: Ask::Read {
                        offset: super::aligned(next),
                        length: super::ORB_SIZE,
                    },
                    ..step
                }
            }
            _ => step,
        }
    }

    /// The bytes of the present ORB are checked, and its first request is made.
    pub(super) fn check(&mut self, unit: &mut Unit, medium: &mut dyn Medium, login: u8) -> AgentStep
        requires place { login < 8 }
        requires phase { self.old.phase ≡ Phase.Fetching }
        ensures step { (result, self.new) ≡ check_step self.old login (plain_disk unit.old (disk medium.old)) (told_or (told_in result.ran self.new.answer)) }
        ensures plain { plain_disk unit.new (disk medium.new) ≡ left_by result.ran self.new.orb.cdb self.new.payload login (plain_disk unit.old (disk medium.old)) }
        ensures may { MayTell result.ran self.new login (plain_disk unit.old (disk medium.old)) }
        ensures cause { media_faults medium.new ≡ count_after result.ran (media_faults medium.old) }
    {
        match verdict(&self.orb, self.aborted) {
            Some(kind) => self.end(kind, death_by(kind)),
            None => self.begin(unit, medium, login),
        }
    }

    /// The first request of an ORB that passed its checks.
    fn begin(&mut self, unit: &mut Unit, medium: &mut dyn Medium, login: u8) -> AgentStep
        requires place { login < 8 }
        requires passed { IsPassed self.old.orb }
        requires phase { self.old.phase ≡ Phase.Fetching }
        ensures step { (result, self.new) ≡ passed_step self.old login (plain_disk unit.old (disk medium.old)) (told_or (told_in result.ran self.new.answer)) }
        ensures plain { plain_disk unit.new (disk medium.new) ≡ left_by result.ran self.new.orb.cdb self.new.payload login (plain_disk unit.old (disk medium.old)) }
        ensures may { MayTell result.ran self.new login (plain_disk unit.old (disk medium.old)) }
        ensures cause { media_faults medium.new ≡ count_after result.ran (media_faults medium.old) }
    {
        if reads_table(&self.orb) {
            self.phase = Phase::ReadingTable;
            return AgentStep::asking(Ask::Read {
                offset: self.orb.descriptor,
                length: 8 * self.orb.data_size,
            });
        }
        let length = plain_length(&self.orb);
        self.segments.set_single(self.orb.descriptor, length);
        self.judge(unit, medium, login)
    }

    /// What the command of the present ORB needs before it runs.
    fn need(&self, unit: &Unit, medium: &dyn Medium, login: u8) -> Need
        requires { login < 8 }
        ensures { result ≡ need_of self.now.orb.cdb (plan_of self.now) (plain_disk unit.now (disk medium.now)) login }
    {
        unit.needs(medium, login, &self.orb.cdb, self.plan())
    }

    /// The command of the present ORB is judged: it reads its data, or runs at once.
    #[tactic(auto, using(crate::proofs::Fits::filled_by, crate::proofs::Fits::feeds_none))]
    fn judge(&mut self, unit: &mut Unit, medium: &mut dyn Medium, login: u8) -> AgentStep
        requires place { login < 8 }
        requires ready { IsJudgeable self.old }
        ensures step { (result, self.new) ≡ judge_step self.old login (plain_disk unit.old (disk medium.old)) (told_or (told_in result.ran self.new.answer)) }
        ensures plain { plain_disk unit.new (disk medium.new) ≡ left_by result.ran self.new.orb.cdb self.new.payload login (plain_disk unit.old (disk medium.old)) }
        ensures may { MayTell result.ran self.new login (plain_disk unit.old (disk medium.old)) }
        ensures cause { media_faults medium.new ≡ count_after result.ran (media_faults medium.old) }
    {
        match self.need(unit, medium, login) {
            Need::Payload(wanted) => self.read_data(wanted),
            Need::RunNow => self.run(unit, medium, login),
        }
    }

    /// The command of the present ORB runs.
    #[tactic(auto, using(crate::proofs::Fits::answer_fits))]
    fn run(&mut self, unit: &mut Unit, medium: &mut dyn Medium, login: u8) -> AgentStep
        requires place { login < 8 }
        requires limit { self.old.orb.max_payload ≤ 9 }
        requires fed { Feeds (need_of self.old.orb.cdb (plan_of self.old) (plain_disk unit.old (disk medium.old)) login) self.old.payload }
        ensures step { (result, self.new) ≡ run_step self.old (told_or (told_in result.ran self.new.answer)) }
        ensures plain { plain_disk unit.new (disk medium.new) ≡ left_by result.ran self.new.orb.cdb self.new.payload login (plain_disk unit.old (disk medium.old)) }
        ensures may { MayTell result.ran self.new login (plain_disk unit.old (disk medium.old)) }
        ensures cause { media_faults medium.new ≡ count_after result.ran (media_faults medium.old) }
    {
        let plan = self.plan();
        let payload = self.payload.as_slice();
        let outcome = self
            .answer
            .run(unit, medium, login, &self.orb.cdb, plan, payload);
        self.written = 0;
        AgentStep {
            ran: Some(outcome),
            ..self.tell(outcome)
        }
    }

    /// The command of the present ORB ran: its answer is written, or its status block.
    fn tell(&mut self, outcome: Outcome) -> AgentStep
        requires limit { self.old.orb.max_payload ≤ 9 }
        requires room { length self.old.answer ≡ answered_length outcome }
        requires fits { length self.old.answer ≤ bytes_of self.old.segments }
        requires start { self.old.written ≡ 0 }
        ensures { (result, self.new) ≡ ran_as self.old outcome }
    {
        match outcome {
            Outcome::Good { answer: 0 } => self.end(StatusKind::Good, None),
            Outcome::Good { .. } => self.write_answer(),
            Outcome::Check(sense) => self.end(StatusKind::Check(sense), None),
        }
    }
}
