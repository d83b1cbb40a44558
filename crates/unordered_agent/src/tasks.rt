ghost use Rattle.std.specs.Prelude.{◌≡◌, ◌<◌, length, map, replicate, slice_set, true, IfOk, IfSome};
ghost use Rattle.rbc_disk.specs.Units.{plain_disk};
ghost use Rattle.rbc_disk.specs.Runs.{told_in, left_by};
ghost use Rattle.command_agent.specs.Machine.{new_machine};
ghost use Rattle.command_agent.specs.Steps.{reset_step};
ghost use Rattle.unordered_agent.specs.Machine.{is_free, are_free, lowest_free};
ghost use Rattle.unordered_agent.specs.Steps.{dropped};

use command_agent::{Agent, AgentState, AgentStep, Which};
use orb_layout::{OrbPointer, Reply};
use rbc_disk::{Medium, Unit};
use sbp_base::{NoMemory, Offset};
use std::alloc::Global;
use std::marker::Model;

/// The number of task places.
pub const TASKS: usize = 8;

/// The task places, each with an agent for the ORB in it.
#[derive(Drop)]
pub struct Tasks {
    agents: Vec<Agent>,
}

impl Model for Tasks {
    ghost use Rattle.std.specs.Prelude.{◌≡◌, List, length};
    ghost use Rattle.command_agent.specs.Machine.{Machine};

    ghost Value = { List Machine };

    ghost view = { λ a. a.agents.items };

    ghost invariant = { λ a. length a.agents.items ≡ 8 };
}

impl Tasks {
    ghost use Rattle.orb_layout.specs.Replies.{answer_of};
    ghost use Rattle.command_agent.specs.Machine.{is_under_way};
    ghost use Rattle.command_agent.specs.Runs.{MayTell, count_after};
    ghost use Rattle.command_agent.specs.Steps.{reply_step};
    ghost use Rattle.command_agent.specs.Tasks.{begin_step, relinked};
    ghost use Rattle.unordered_agent.specs.Machine.{agent_at};

    /// Task places, each of which is free.
    pub fn new(alloc: Global) -> Result<Tasks, NoMemory>
        ensures { IfOk result (λ tasks. tasks ≡ replicate 8 new_machine) }
    {
        Ok(Tasks {
            agents: new_agents(alloc)?,
        })
    }

    /// The agent of a place.
    pub fn agent(&self, place: usize) -> &Agent
        requires { place < 8 }
        ensures { result.now ≡ agent_at self.now place }
    {
        &self.agents[place]
    }

    /// Whether each place is free.
    pub fn are_free(&self) -> bool
        ensures { result ≡ are_free self.now }
    {
        self.agents.iter().all(is_free)
    }

    /// The lowest place that is free.
    pub fn lowest_free(&self) -> Option<usize>
        ensures place { result ≡ lowest_free self.now }
        ensures below { IfSome result (λ place. place < 8) }
    {
        lowest_of(&self.agents)
    }

    /// Begins the ORB at an address in a place, by what came of its read.
    pub fn begin(
        &mut self,
        place: usize,
        unit: &mut Unit,
        medium: &mut dyn Medium,
        login: u8,
        orb: Offset,
        reply: Reply<'_>,
    ) -> AgentStep
        requires place { place < 8 }
        requires login { login < 8 }
        ensures step { (result, agent_at self.new place) ≡ begin_step (agent_at self.old place) login (plain_disk unit.old (disk medium.old)) (told_in result.ran (agent_at self.new place).answer) orb (answer_of reply.entry) }
        ensures others { self.new ≡ slice_set self.old place (agent_at self.new place) }
        ensures plain { plain_disk unit.new (disk medium.new) ≡ left_by result.ran (agent_at self.new place).orb.cdb (agent_at self.new place).payload login (plain_disk unit.old (disk medium.old)) }
        ensures may { MayTell result.ran (agent_at self.new place) login (plain_disk unit.old (disk medium.old)) }
        ensures cause { media_faults medium.new ≡ count_after result.ran (media_faults medium.old) }
    {
        self.agents[place].begin_orb(unit, medium, login, orb, reply)
    }

    /// What came of the transaction of a place.
    pub fn reply(
        &mut self,
        place: usize,
        unit: &mut Unit,
        medium: &mut dyn Medium,
        login: u8,
        reply: Reply<'_>,
    ) -> AgentStep
        requires place { place < 8 }
        requires login { login < 8 }
        requires under_way { is_under_way Which.Main (agent_at self.old place) ≡ true }
        ensures step { (result, agent_at self.new place) ≡ reply_step (agent_at self.old place) login (plain_disk unit.old (disk medium.old)) (told_in result.ran (agent_at self.new place).answer) Which.Main (answer_of reply.entry) }
        ensures others { self.new ≡ slice_set self.old place (agent_at self.new place) }
        ensures plain { plain_disk unit.new (disk medium.new) ≡ left_by result.ran (agent_at self.new place).orb.cdb (agent_at self.new place).payload login (plain_disk unit.old (disk medium.old)) }
        ensures may { MayTell result.ran (agent_at self.new place) login (plain_disk unit.old (disk medium.old)) }
        ensures cause { media_faults medium.new ≡ count_after result.ran (media_faults medium.old) }
    {
        self.agents[place].reply(unit, medium, login, Which::Main, reply)
    }

    /// The next pointer of the ORB in a place was read again.
    pub fn relink(&mut self, place: usize, next: OrbPointer)
        requires { place < 8 }
        ensures { self.new ≡ slice_set self.old place (relinked (agent_at self.old place) next) }
    {
        self.agents[place].relink(next);
    }

    /// A place is free.
    pub fn reset(&mut self, place: usize)
        requires { place < 8 }
        ensures { self.new ≡ slice_set self.old place (reset_step (agent_at self.old place)) }
    {
        self.agents[place].reset();
    }

    /// Drops each task.
    pub fn reset_each(&mut self)
        ensures { self.new ≡ map reset_step self.old }
    {
        reset_all(&mut self.agents);
    }

    /// Drops each task but the one whose ORB made the agent dead.
    pub fn drop_others(&mut self)
        ensures { self.new ≡ map dropped self.old }
    {
        drop_all(&mut self.agents);
    }
}

/// Agents for all task places.
fn new_agents(alloc: Global) -> Result<Vec<Agent>, NoMemory>
    ensures { IfOk result (λ agents. agents.items ≡ replicate 8 new_machine) }
{
    let mut agents = Vec::new(alloc);
    for _ in 0..TASKS {
        agents.push(Agent::new(alloc)?)?;
    }
    Ok(agents)
}

/// Whether the place of a task is free.
fn is_free(task: &Agent) -> bool
    ensures { result ≡ is_free task.now }
{
    !task.is_under_way(Which::Main)
}

/// The lowest place that is free.
fn lowest_of(agents: &[Agent]) -> Option<usize>
    ensures place { result ≡ lowest_free agents.now }
    ensures below { IfSome result (λ place. place < length agents.now) }
{
    agents.iter().position(is_free)
}

/// Drops each task.
fn reset_all(agents: &mut [Agent])
    ensures { agents.new ≡ map reset_step agents.old }
{
    for place in 0..agents.len() {
        agents[place].reset();
    }
}

/// Drops each task but the one whose ORB made the agent dead.
fn drop_all(agents: &mut [Agent])
    ensures { agents.new ≡ map dropped agents.old }
{
    for place in 0..agents.len() {
        drop_task(&mut agents[place]);
    }
}

/// Drops a task, unless its ORB made the agent dead.
fn drop_task(task: &mut Agent)
    ensures { task.new ≡ dropped task.old }
{
    if task.state() != AgentState::Dead {
        task.reset();
    }
}
