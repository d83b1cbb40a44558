ghost use Rattle.std.specs.Prelude.{◌≡◌, ◌<◌, not, IfOk, IfErr, IfSome};

use crate::fetcher::{FetchPhase, Fetcher};
use crate::step::FETCHER;
use crate::tasks::{TASKS, Tasks};
use command_agent::{AgentState, PointRefusal, Which};
use orb_layout::{Ask, OrbPointer};
use sbp_base::{NoMemory, Offset};
use std::alloc::Global;
use std::marker::Model;

mod replies;

/// The command agent of one login over an unordered unit: a fetcher, and 8 task places, each with an
/// agent for the ORB in it.
#[derive(Drop)]
pub struct TaskAgent {
    fetcher: Fetcher,
    tasks: Tasks,
}

impl Model for TaskAgent {
    ghost use Rattle.unordered_agent.specs.Machine.{TaskMachine, IsSound};

    ghost Value = { TaskMachine };

    ghost view = { λ a. record { fetcher = a.fetcher; tasks = a.tasks } };

    ghost invariant = { λ a. IsSound a.fetcher a.tasks };
}

impl TaskAgent {
    ghost use Rattle.command_agent.specs.Machine.{present_of};
    ghost use Rattle.command_agent.specs.Steps.{is_reset};
    ghost use Rattle.unordered_agent.specs.Machine.{new_agent, state_in, is_busy, lowest_free, task_at};
    ghost use Rattle.unordered_agent.specs.Steps.{point_step, doorbell_step, reset_all_step};

    /// An agent in RESET, with all the room that it will use.
    pub fn new(alloc: Global) -> Result<TaskAgent, NoMemory>
        ensures { IfOk result (λ agent. agent ≡ new_agent) }
    {
        Ok(TaskAgent {
            fetcher: Fetcher::new(),
            tasks: Tasks::new(alloc)?,
        })
    }

    /// The state of the agent.
    pub fn state(&self) -> AgentState
        ensures { result ≡ state_in self.now.fetcher.phase }
    {
        self.fetcher.state()
    }

    /// Whether the transaction of a place is under way, so that it can be replied to: that of a task,
    /// or with place 8 the fetcher's.
    pub fn is_under_way(&self, place: u8) -> bool
        ensures { result ≡ is_busy place self.now }
    {
        if place == FETCHER {
            return self.fetcher.is_reading();
        }
        usize::from(place) < TASKS
            && self
                .tasks
                .agent(usize::from(place))
                .is_under_way(Which::Main)
    }

    /// The lowest task place that is free: that of the ORB which the fetcher reads.
    pub fn lowest_free(&self) -> Option<u8>
        ensures place { result ≡ lowest_free self.now.tasks }
        ensures below { IfSome result (λ place. place < 8) }
    {
        let place = self.tasks.lowest_free()?;
        Some(place as u8)
    }

    /// The bytes of the write that a task place last asked for.
    pub fn outgoing(&self, place: u8) -> &[u8]
        requires { place < 8 }
        ensures { result.now ≡ (task_at self.now place).outgoing }
    {
        self.tasks.agent(usize::from(place)).outgoing()
    }

    /// The address of the ORB in a task place.
    pub fn present(&self, place: u8) -> Option<Offset>
        requires { place < 8 }
        ensures { result ≡ present_of (task_at self.now place) }
    {
        self.tasks.agent(usize::from(place)).present()
    }

    /// The command block of the ORB in a task place; zeros where it was not read.
    pub fn cdb(&self, place: u8) -> &[u8; 12]
        requires { place < 8 }
        ensures { result.now ≡ (task_at self.now place).orb.cdb }
    {
        self.tasks.agent(usize::from(place)).cdb()
    }

    /// The data of the ORB in a task place, as far as it was read.
    pub fn payload(&self, place: u8) -> &[u8]
        requires { place < 8 }
        ensures { result.now ≡ (task_at self.now place).payload }
    {
        self.tasks.agent(usize::from(place)).payload()
    }

    /// The answer of the command that ran last in a task place.
    pub fn answer(&self, place: u8) -> &[u8]
        requires { place < 8 }
        ensures { result.now ≡ (task_at self.now place).answer }
    {
        self.tasks.agent(usize::from(place)).answer()
    }

    /// A write of ORB_POINTER: in RESET, and in SUSPENDED without a task, a pointer that is not null is
    /// taken, and the ORB there is read.
    #[tactic(auto, unfolding(crate::specs::Steps::point_step))]
    pub fn point(&mut self, pointer: OrbPointer) -> Result<Ask, PointRefusal>
        ensures step { (result, self.new) ≡ point_step self.old pointer }
        ensures refused { IfErr result (λ _refusal. self.new ≡ self.old) }
    {
        if !self.takes_pointer() {
            return Err(PointRefusal::Conflict);
        }
        match pointer {
            OrbPointer::Null => Err(PointRefusal::Null),
            OrbPointer::At(first) => Ok(self.fetcher.open(first)),
        }
    }

    ghost use Rattle.unordered_agent.specs.Steps.{takes_pointer};

    /// Whether a pointer may be taken.
    fn takes_pointer(&self) -> bool
        ensures { result ≡ takes_pointer (state_in self.now.fetcher.phase) self.now.tasks }
    {
        match self.state() {
            AgentState::Reset => true,
            AgentState::Suspended => self.tasks.are_free(),
            AgentState::Active | AgentState::Dead => false,
        }
    }

    /// A write of DOORBELL: it sets the mark of an active agent, and in a suspended one the next pointer
    /// is read again.
    #[tactic(auto, unfolding(crate::specs::Steps::doorbell_step))]
    pub fn doorbell(&mut self) -> Ask
        ensures { (result, self.new) ≡ doorbell_step self.old }
    {
        match self.state() {
            AgentState::Reset | AgentState::Dead => Ask::Nothing,
            AgentState::Suspended => self.fetcher.reread(),
            AgentState::Active => {
                self.fetcher.doorbell = true;
                Ask::Nothing
            }
        }
    }

    /// A write of AGENT_RESET, and every other cut of the list: the agent is in RESET, its fetcher and
    /// its tasks are gone, and their transactions belong to nobody. The answer tells whether it was in
    /// another state.
    #[tactic(auto, unfolding(crate::specs::Steps::reset_all_step))]
    pub fn reset(&mut self) -> bool
        ensures was { result ≡ not (is_reset (state_in self.old.fetcher.phase)) }
        ensures left { self.new ≡ reset_all_step self.old }
    {
        let was_open = self.state() != AgentState::Reset;
        self.fetcher.phase = FetchPhase::Reset;
        self.tasks.reset_each();
        was_open
    }
}
