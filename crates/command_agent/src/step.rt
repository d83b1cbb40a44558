use orb_layout::{Ask, FailCause, StatusKind};
use rbc_disk::Outcome;

/// The states of an agent, with the numbers of its AGENT_STATE register (NCITS 325-1998): 0 to 3.
#[derive(Clone, Copy, Debug, PartialEq, Eq)]
pub enum AgentState {
    Reset,
    Active,
    Suspended,
    Dead,
}

/// Why a pointer is not taken.
#[derive(Clone, Copy, Debug, PartialEq, Eq)]
pub enum PointRefusal {
    /// The agent is active or dead.
    Conflict,
    /// The pointer is null.
    Null,
}

/// The transactions that an agent may have under way.
#[derive(Clone, Copy, Debug, PartialEq, Eq)]
pub enum Which {
    Main,
    /// The read ahead.
    Ahead,
}

/// What a reply brings about. `ask` is sent before `ahead`. The `ask` of a step with `ended` is the
/// write of the status block, with offset 0 in the place of the login's FIFO.
#[derive(Clone, Copy, Debug, PartialEq, Eq)]
pub struct AgentStep {
    pub ask: Ask,
    /// The read ahead.
    pub ahead: Ask,
    /// The read ahead that was under way is the main transaction from now on.
    pub promoted: bool,
    /// The present ORB's command ran.
    pub ran: Option<Outcome>,
    /// The present ORB ended.
    pub ended: Option<StatusKind>,
    /// The agent became dead.
    pub dead: Option<FailCause>,
}

impl AgentStep {
    ghost use Rattle.std.specs.Prelude.{◌≡◌};
    ghost use Rattle.command_agent.specs.Steps.{quiet, asks};

    /// Nothing is sent and nothing told.
    pub(crate) fn quiet() -> AgentStep
        ensures { result ≡ quiet }
    {
        AgentStep {
            ask: Ask::Nothing,
            ahead: Ask::Nothing,
            promoted: false,
            ran: None,
            ended: None,
            dead: None,
        }
    }

    /// A request, and nothing told.
    pub(crate) fn asking(ask: Ask) -> AgentStep
        ensures { result ≡ asks ask }
    {
        AgentStep {
            ask,
            ..AgentStep::quiet()
        }
    }
}

/// What follows from a reply to the main transaction.
#[derive(Clone, Copy, Debug)]
pub enum Move {
    /// This step is done.
    Send(AgentStep),
    /// The present ORB's bytes are there, to be checked.
    Check,
    /// Its buffer is known, and its command to be judged.
    Judge,
    /// All of its data is there.
    Run,
}
