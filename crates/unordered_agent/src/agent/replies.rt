ghost use Rattle.std.specs.Prelude.{◌≡◌, ◌<◌, true, false};
ghost use Rattle.rbc_disk.specs.Units.{plain_disk};
ghost use Rattle.rbc_disk.specs.Runs.{told_in, left_by};

use super::TaskAgent;
use crate::fetcher::{FetchPhase, Fetcher};
use crate::step::{FETCHER, TaskStep};
use crate::tasks::Tasks;
use command_agent::Which;
use orb_layout::{Ask, FailCause, OrbPointer, Reply};
use rbc_disk::{Medium, Unit};

impl TaskAgent {
    ghost use Rattle.orb_layout.specs.Replies.{answer_of, payload_of};
    ghost use Rattle.command_agent.specs.Runs.{MayTell, count_after};
    ghost use Rattle.command_agent.specs.Steps as agent;
    ghost use Rattle.command_agent.specs.Tasks.{writes_status};
    ghost use Rattle.unordered_agent.specs.Machine.{FetchRule, is_busy, is_free, lowest_free, task_at};
    ghost use Rattle.unordered_agent.specs.Steps.{reply_step, place_of, orb_read, next_read, pointer_read, fetcher_follows, dies, die_step, task_replied, worked, status_written, freed, released};

    /// What came of the transaction of a place, 8 that of the fetcher: the task or the fetcher goes on,
    /// and the command of the task's ORB runs once all of its data is there. An ORB that was read, or
    /// whose read failed, takes the lowest free place. `login` is the place of the login.
    #[tactic(auto, unfolding(crate::specs::Steps::reply_step))]
    pub fn reply(
        &mut self,
        unit: &mut Unit,
        medium: &mut dyn Medium,
        login: u8,
        place: u8,
        reply: Reply<'_>,
    ) -> TaskStep
        requires under_way { is_busy place self.old ≡ true }
        requires place { login < 8 }
        ensures rule { FetchRule self.new.fetcher.phase self.new.fetcher self.new.tasks }
        ensures step { (result, self.new) ≡ reply_step self.old login (plain_disk unit.old (disk medium.old)) (told_in result.ran (task_at self.new (place_of self.old place)).answer) place (answer_of reply.entry) }
        ensures plain { plain_disk unit.new (disk medium.new) ≡ left_by result.ran (task_at self.new (place_of self.old place)).orb.cdb (task_at self.new (place_of self.old place)).payload login (plain_disk unit.old (disk medium.old)) }
        ensures may { MayTell result.ran (task_at self.new (place_of self.old place)) login (plain_disk unit.old (disk medium.old)) }
        ensures cause { media_faults medium.new ≡ count_after result.ran (media_faults medium.old) }
    {
        if place != FETCHER {
            return self.serve(unit, medium, login, usize::from(place), reply);
        }
        match self.fetcher.phase {
            FetchPhase::Fetching => self.take_orb(unit, medium, login, reply),
            _ => self.take_next(reply),
        }
    }

    /// The ORB that was read, or whose read failed, takes the lowest free place.
    fn take_orb(
        &mut self,
        unit: &mut Unit,
        medium: &mut dyn Medium,
        login: u8,
        reply: Reply<'_>,
    ) -> TaskStep
        requires place { login < 8 }
        requires phase { self.old.fetcher.phase ≡ FetchPhase.Fetching }
        ensures rule { FetchRule self.new.fetcher.phase self.new.fetcher self.new.tasks }
        ensures step { (result, self.new) ≡ orb_read self.old login (plain_disk unit.old (disk medium.old)) (told_in result.ran (task_at self.new (place_of self.old 8)).answer) (answer_of reply.entry) (lowest_free self.old.tasks) }
        ensures plain { plain_disk unit.new (disk medium.new) ≡ left_by result.ran (task_at self.new (place_of self.old 8)).orb.cdb (task_at self.new (place_of self.old 8)).payload login (plain_disk unit.old (disk medium.old)) }
        ensures may { MayTell result.ran (task_at self.new (place_of self.old 8)) login (plain_disk unit.old (disk medium.old)) }
        ensures cause { media_faults medium.new ≡ count_after result.ran (media_faults medium.old) }
    {
        let place = match self.tasks.lowest_free() {
            Some(place) => place,
            None => unreachable!(),
        };
        let orb = self.fetcher.orb;
        let step = self.tasks.begin(place, unit, medium, login, orb, reply);
        let next = self.tasks.agent(place).next();
        self.fetcher.seat(place, next);
        let ask = go_on(&mut self.fetcher, &mut self.tasks, step.dead);
        TaskStep::of_task(place as u8, step, ask)
    }

    /// The next pointer of the last ORB was read again.
    fn take_next(&mut self, reply: Reply<'_>) -> TaskStep
        requires { self.old.fetcher.phase ≡ FetchPhase.ReadingNext }
        ensures rule { FetchRule self.new.fetcher.phase self.new.fetcher self.new.tasks }
        ensures step { (result, self.new) ≡ next_read self.old (payload_of (answer_of reply.entry) 8) }
    {
        match reply.payload(8) {
            Ok(bytes) => self.relink(OrbPointer::read(bytes, 0)),
            Err(cause) => self.die(cause),
        }
    }

    /// The last ORB has this next pointer, and the fetcher goes on by it.
    fn relink(&mut self, next: OrbPointer) -> TaskStep
        requires { self.old.fetcher.phase ≡ FetchPhase.ReadingNext }
        ensures rule { FetchRule self.new.fetcher.phase self.new.fetcher self.new.tasks }
        ensures step { (result, self.new) ≡ fetcher_follows (pointer_read self.old next) }
    {
        let newest = self.fetcher.newest;
        self.fetcher.link(next);
        self.tasks.relink(newest, self.fetcher.next());
        let ask = go_on(&mut self.fetcher, &mut self.tasks, None);
        TaskStep::fetching(ask)
    }

    /// The agent becomes dead, and no ORB ends.
    fn die(&mut self, cause: FailCause) -> TaskStep
        ensures rule { FetchRule self.new.fetcher.phase self.new.fetcher self.new.tasks }
        ensures told { result ≡ dies cause }
        ensures left { self.new ≡ die_step self.old }
    {
        kill(&mut self.fetcher, &mut self.tasks);
        TaskStep::dying(cause)
    }

    /// What came of the transaction of a task.
    fn serve(
        &mut self,
        unit: &mut Unit,
        medium: &mut dyn Medium,
        login: u8,
        place: usize,
        reply: Reply<'_>,
    ) -> TaskStep
        requires place { login < 8 }
        requires task { place < 8 }
        requires under_way { is_free (task_at self.old place) ≡ false }
        ensures rule { FetchRule self.new.fetcher.phase self.new.fetcher self.new.tasks }
        ensures step { (result, self.new) ≡ task_replied self.old login (plain_disk unit.old (disk medium.old)) (told_in result.ran (task_at self.new place).answer) place (answer_of reply.entry) }
        ensures plain { plain_disk unit.new (disk medium.new) ≡ left_by result.ran (task_at self.new place).orb.cdb (task_at self.new place).payload login (plain_disk unit.old (disk medium.old)) }
        ensures may { MayTell result.ran (task_at self.new place) login (plain_disk unit.old (disk medium.old)) }
        ensures cause { media_faults medium.new ≡ count_after result.ran (media_faults medium.old) }
    {
        if self.tasks.agent(place).writes_status() {
            return self.finish(place, reply.write_failure());
        }
        self.work(unit, medium, login, place, reply)
    }

    /// The task goes on.
    fn work(
        &mut self,
        unit: &mut Unit,
        medium: &mut dyn Medium,
        login: u8,
        place: usize,
        reply: Reply<'_>,
    ) -> TaskStep
        requires place { login < 8 }
        requires task { place < 8 }
        requires under_way { is_free (task_at self.old place) ≡ false }
        requires working { writes_status (task_at self.old place).phase ≡ false }
        ensures rule { FetchRule self.new.fetcher.phase self.new.fetcher self.new.tasks }
        ensures step { (result, self.new) ≡ worked self.old place (agent.reply_step (task_at self.old place) login (plain_disk unit.old (disk medium.old)) (told_in result.ran (task_at self.new place).answer) Which.Main (answer_of reply.entry)) }
        ensures plain { plain_disk unit.new (disk medium.new) ≡ left_by result.ran (task_at self.new place).orb.cdb (task_at self.new place).payload login (plain_disk unit.old (disk medium.old)) }
        ensures may { MayTell result.ran (task_at self.new place) login (plain_disk unit.old (disk medium.old)) }
        ensures cause { media_faults medium.new ≡ count_after result.ran (media_faults medium.old) }
    {
        let step = self.tasks.reply(place, unit, medium, login, reply);
        settle(&mut self.fetcher, &mut self.tasks, step.dead);
        TaskStep::of_task(place as u8, step, Ask::Nothing)
    }

    /// The status block of a task was written, or could not be.
    fn finish(&mut self, place: usize, failure: Option<FailCause>) -> TaskStep
        requires place { place < 8 }
        requires under_way { is_free (task_at self.old place) ≡ false }
        ensures rule { FetchRule self.new.fetcher.phase self.new.fetcher self.new.tasks }
        ensures step { (result, self.new) ≡ status_written self.old.fetcher.phase self.old place failure }
    {
        match (self.fetcher.phase, failure) {
            (FetchPhase::Dead, _) | (_, None) => self.release(place),
            (_, Some(cause)) => self.die(cause),
        }
    }

    /// The task's place is free, and a fetcher that waits for one goes on.
    fn release(&mut self, place: usize) -> TaskStep
        requires place { place < 8 }
        requires under_way { is_free (task_at self.old place) ≡ false }
        ensures rule { FetchRule self.new.fetcher.phase self.new.fetcher self.new.tasks }
        ensures step { (result, self.new) ≡ freed self.old.fetcher.phase (released self.old place) }
    {
        self.tasks.reset(place);
        match self.fetcher.phase {
            FetchPhase::Waiting => {
                let ask = go_on(&mut self.fetcher, &mut self.tasks, None);
                TaskStep::fetching(ask)
            }
            _ => TaskStep::quiet(),
        }
    }
}

ghost use Rattle.unordered_agent.specs.Machine.{both};
ghost use Rattle.unordered_agent.specs.Steps.{goes_on, settled, die_step};

/// Behind an ORB that was read the fetcher goes on by its next pointer, unless the agent became dead.
fn go_on(fetcher: &mut Fetcher, tasks: &mut Tasks, dead: Option<FailCause>) -> Ask
    ensures { (result, both fetcher.new tasks.new) ≡ goes_on dead (both fetcher.old tasks.old) }
{
    match dead {
        Some(_) => {
            kill(fetcher, tasks);
            Ask::Nothing
        }
        None => fetcher.follow(tasks.lowest_free().is_some()),
    }
}

/// Behind a step of a task nothing more is done, unless the agent became dead.
fn settle(fetcher: &mut Fetcher, tasks: &mut Tasks, dead: Option<FailCause>)
    ensures { both fetcher.new tasks.new ≡ settled dead (both fetcher.old tasks.old) }
{
    if dead.is_some() {
        kill(fetcher, tasks);
    }
}

/// The agent becomes dead, and each task but the one whose ORB made it so is dropped.
fn kill(fetcher: &mut Fetcher, tasks: &mut Tasks)
    ensures { both fetcher.new tasks.new ≡ die_step (both fetcher.old tasks.old) }
{
    fetcher.die();
    tasks.drop_others();
}
