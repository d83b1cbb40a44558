ghost use Rattle.std.specs.Prelude.{◌≡◌};
ghost use Rattle.mgmt_agent.specs.Decisions.{good, told, with_status};
ghost use Rattle.mgmt_agent.specs.Machine.{failing, quiet, telling};

use crate::status::Status;
use orb_layout::{Ask, FailCause, LoginResponse, ManagementOrb};
use sbp_base::Offset;

/// What the target decided on a management ORB.
#[derive(Clone, Copy, Debug, PartialEq, Eq)]
pub struct Decision {
    /// The function field of the ORB.
    pub function: u8,
    /// The ORB's unit number (login, query) or login ID.
    pub subject: u16,
    /// The sbp_status: 00, 01, 04, 05, 08, 09 or 0A.
    pub status: u8,
    /// The ID of the login that was entered, else 0.
    pub login: u16,
}

/// What a decision does beside its status and its response.
#[derive(Clone, Copy, Debug, PartialEq, Eq)]
pub enum Effect {
    Nothing,
    /// A login was entered in a place, and replaced the held one with this ID.
    Entered { place: u8, replaced: Option<u16> },
    /// The login in a place is live again.
    Back { place: u8 },
    /// The login was removed from a place.
    Left { place: u8 },
    /// The agent of a place is to abort an ORB.
    Abort { place: u8, orb: Offset },
    /// The list of a place's agent is to be cut.
    AbortSet { place: u8 },
    UnitReset { unit: u8 },
    TargetReset,
}

/// What the manager wants sent next, and what it decided.
#[derive(Clone, Copy, Debug, PartialEq, Eq)]
pub struct ManagerStep {
    pub ask: Ask,
    pub decided: Option<Decision>,
    pub effect: Effect,
    /// Why the operation ended early.
    pub failed: Option<FailCause>,
}

/// What is written to the ORB's response address.
#[derive(Clone, Copy)]
pub enum Response {
    Nothing,
    Login(LoginResponse),
    /// The logins of a unit.
    Query(u8),
}

/// A decision with all that follows from it.
#[derive(Clone, Copy)]
pub struct Outcome {
    pub status: Status,
    pub login: u16,
    pub effect: Effect,
    pub response: Response,
}

impl Outcome {
    /// A status with no effect and no response.
    pub(crate) fn with_status(status: Status) -> Outcome
        ensures { result ≡ with_status status }
    {
        Outcome {
            status,
            login: 0,
            effect: Effect::Nothing,
            response: Response::Nothing,
        }
    }

    /// Status 00 with an effect.
    pub(crate) fn good(effect: Effect) -> Outcome
        ensures { result ≡ good effect }
    {
        Outcome {
            effect,
            ..Outcome::with_status(Status::NoFault)
        }
    }

    /// What the target tells of it.
    pub(crate) fn told(&self, orb: &ManagementOrb) -> Decision
        ensures { result ≡ told orb.now self.now }
    {
        Decision {
            function: orb.function,
            subject: orb.subject,
            status: self.status.number(),
            login: self.login,
        }
    }
}

impl ManagerStep {
    /// A step that asks for something and does nothing else.
    pub(crate) fn quiet(ask: Ask) -> ManagerStep
        ensures { result ≡ quiet ask }
    {
        ManagerStep {
            ask,
            decided: None,
            effect: Effect::Nothing,
            failed: None,
        }
    }

    /// The operation ends early.
    pub(crate) fn failing(cause: FailCause) -> ManagerStep
        ensures { result ≡ failing cause }
    {
        ManagerStep {
            failed: Some(cause),
            ..ManagerStep::quiet(Ask::Nothing)
        }
    }

    /// The step with a decision and its effect.
    pub(crate) fn telling(self, orb: &ManagementOrb, outcome: &Outcome) -> ManagerStep
        ensures { result ≡ telling orb.now outcome.now self }
    {
        ManagerStep {
            decided: Some(outcome.told(orb)),
            effect: outcome.effect,
            ..self
        }
    }
}
