ghost use Rattle.std.specs.Prelude.{◌≡◌, ◌<◌, ◌++◌, [], length};

use arrayvec::ArrayVec;
use command_agent::AgentStep;
use orb_layout::{Ask, FailCause, StatusKind};
use rbc_disk::Outcome;
use std::marker::Model;

/// The place of the fetcher, behind the 8 task places.
pub(crate) const FETCHER: u8 = 8;

/// What a reply brings about. The ask of the step's task with `ended` is the write of the status block,
/// with offset 0 in the place of the login's FIFO.
#[derive(Drop)]
pub struct TaskStep {
    pub asks: TaskAsks,
    /// A command ran: that of the task replied to, or of the ORB that was read.
    pub ran: Option<Outcome>,
    /// The same ORB ended.
    pub ended: Option<StatusKind>,
    /// The agent became dead.
    pub dead: Option<FailCause>,
}

/// What is to be sent next, with the place that asks for it, in the order of sending: a task's request,
/// and then the fetcher's, whose place is 8.
#[derive(Drop)]
pub struct TaskAsks {
    asks: ArrayVec<(u8, Ask), 2>,
}

impl Model for TaskAsks {
    ghost use Rattle.std.specs.Prelude.{ℕ, List};
    ghost use Rattle.orb_layout.specs.declared.ask.Ask.{Ask};

    ghost Value = { List (ℕ × Ask) };

    ghost view = { λ a. a.asks.items };
}

impl TaskAsks {
    ghost use Rattle.unordered_agent.specs.Steps.{asked};

    /// No request.
    pub(crate) fn new() -> TaskAsks
        ensures { result ≡ [] }
    {
        TaskAsks {
            asks: ArrayVec::new(),
        }
    }

    /// Adds what a place asks for.
    pub(crate) fn add(&mut self, place: u8, ask: Ask)
        requires { length self.old < 2 }
        ensures { self.new ≡ self.old ++ asked place ask }
    {
        if ask != Ask::Nothing {
            self.asks.push((place, ask));
        }
    }

    /// The requests with their places.
    pub fn as_slice(&self) -> &[(u8, Ask)]
        ensures { result.now ≡ self.now }
    {
        self.asks.as_slice()
    }
}

impl TaskStep {
    ghost use Rattle.unordered_agent.specs.Steps.{quiet, dies, fetches, task_step};

    /// Nothing is sent and nothing told.
    pub(crate) fn quiet() -> TaskStep
        ensures { result ≡ quiet }
    {
        TaskStep {
            asks: TaskAsks::new(),
            ran: None,
            ended: None,
            dead: None,
        }
    }

    /// The fetcher's request alone.
    pub(crate) fn fetching(ask: Ask) -> TaskStep
        ensures { result ≡ fetches ask }
    {
        let mut asks = TaskAsks::new();
        asks.add(FETCHER, ask);
        TaskStep {
            asks,
            ..TaskStep::quiet()
        }
    }

    /// The agent becomes dead, and no ORB ends.
    pub(crate) fn dying(cause: FailCause) -> TaskStep
        ensures { result ≡ dies cause }
    {
        TaskStep {
            dead: Some(cause),
            ..TaskStep::quiet()
        }
    }

    /// The step of the task in a place, with the fetcher's request behind its own.
    pub(crate) fn of_task(place: u8, step: AgentStep, next: Ask) -> TaskStep
        ensures { result ≡ task_step place step next }
    {
        let mut asks = TaskAsks::new();
        asks.add(place, step.ask);
        asks.add(FETCHER, next);
        TaskStep {
            asks,
            ran: step.ran,
            ended: step.ended,
            dead: step.dead,
        }
    }
}
