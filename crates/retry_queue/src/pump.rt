ghost use Rattle.std.specs.Prelude.{◌≡◌, Option, false, replicate};
ghost use Rattle.sbp_laws.specs.Hosts as hosts;
ghost use Rattle.retry_queue.specs.Kept as spec;
ghost use Rattle.retry_queue.specs.Kept.{kept_of};
ghost use Rattle.retry_queue.specs.Pump as table;
ghost use Rattle.retry_queue.specs.Queues.{action_in};
ghost use Rattle.retry_queue.specs.Steps.{Submission};

use crate::kept::Kept;
use crate::session::Session;
use sbp_journal::{Action, Event, Operation};

/// What a pump does.
#[derive(Drop)]
pub enum Row {
    Idle,
    Act(Action),
    /// It appends the next submission for the present list, if there is one.
    Append,
}

/// The first row of the pump's table whose condition holds.
pub(crate) fn row_of(kept: Kept) -> Row
    ensures { (write : Option Submission) → action_in result write ≡ table.row (kept_of kept).is_busy (kept_of kept).session (kept_of kept).is_dead write }
{
    if kept.is_busy {
        return Row::Idle;
    }
    match kept.session {
        Session::Out => Row::Act(login()),
        Session::Held => Row::Act(Action::Reconnect),
        Session::Live => {
            if kept.is_dead {
                Row::Act(Action::AgentReset)
            } else {
                Row::Append
            }
        }
        Session::Entering | Session::Returning | Session::Leaving | Session::Stuck { .. } => {
            Row::Idle
        }
    }
}

/// `login 0 0 3`
fn login() -> Action
    ensures { result ≡ Action.Login 0 3 false (replicate 8 0) }
{
    Action::Login {
        unit: 0,
        reconnect: 3,
        exclusive: false,
        password: [0; 8],
    }
}

/// The operation that a line asks the queue's initiator for.
pub(crate) fn asked_by(event: &Event) -> Option<Operation>
    ensures { result ≡ spec.asked_by event.now }
{
    match event {
        Event::Act { initiator, action } if *initiator == 0 => operation_of(action),
        _ => None,
    }
}

/// The operation of an action; a read of AGENT_STATE and the steps of a list are none.
fn operation_of(action: &Action) -> Option<Operation>
    ensures { result ≡ hosts.operation_of action.now }
{
    match action {
        Action::Rom => Some(Operation::Rom),
        Action::Login { .. } => Some(Operation::Login),
        Action::Query { .. } => Some(Operation::Query),
        Action::Reconnect => Some(Operation::Reconnect),
        Action::Logout => Some(Operation::Logout),
        Action::Abort { .. } => Some(Operation::Abort),
        Action::AbortSet => Some(Operation::AbortSet),
        Action::UnitReset => Some(Operation::UnitReset),
        Action::TargetReset => Some(Operation::TargetReset),
        Action::AgentReset => Some(Operation::AgentReset),
        Action::Enable => Some(Operation::Enable),
        Action::State
        | Action::Dummy { .. }
        | Action::Put(_)
        | Action::Append(_)
        | Action::Low
        | Action::Link
        | Action::Ring => None,
    }
}
