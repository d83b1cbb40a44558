ghost use Rattle.std.specs.Prelude.{◌≡◌};
ghost use Rattle.task_world.specs.Lines.{is_task_action, is_task_line};

use sbp_journal::{Action, Event};

/// Whether an initiator does so in a line of `tasks`.
fn is_task_action(action: &Action) -> bool
    ensures { result ≡ is_task_action action.now }
{
    matches!(
        action,
        Action::Put(_)
            | Action::Append(_)
            | Action::Low
            | Action::Link
            | Action::Ring
            | Action::AgentReset
            | Action::State
    )
}

/// Whether an event is that of a line of `tasks` other than `begin`.
pub fn is_task_line(event: &Event) -> bool
    ensures { result ≡ is_task_line event.now }
{
    match event {
        Event::Act { initiator, action } => *initiator == 0 && is_task_action(action),
        Event::Deliver { .. }
        | Event::Repeat { .. }
        | Event::Lose { .. }
        | Event::Timeout { .. }
        | Event::Step { .. }
        | Event::Settle => true,
        _ => false,
    }
}
