//! Why an action is refused: its rows, in their order.
ghost use Rattle.std.specs.Prelude.{◌≡◌, ◌&&◌, not, is_some, true, Some, None};
ghost use Rattle.orb_list.specs.Table.{is_mid_link, waits_high, waits_low};
ghost use Rattle.sbp_initiator.specs.Refusals.{ends_list, fits_session, is_list_step, list_refusal, lacks_link, lacks_orb, must_wait, needs_rom, operation_of, prepares, refusal, rings};
ghost use Rattle.sbp_initiator.specs.Acting.{facts_with, orb_named};
ghost use Rattle.sbp_initiator.specs.States.{operation_in, session_of};

use crate::purpose::Running;
use crate::state::InitiatorState;
use orb_list::{Link, PresentList};
use sbp_journal::{Action, Operation};
use sbp_session::Seat;

/// The operation that an action begins; a read of AGENT_STATE begins none.
fn operation_of(action: &Action) -> Option<Operation>
    ensures { result ≡ operation_of action.now }
{
    match action {
        Action::Rom => Some(Operation::Rom),
        Action::Login { .. } => Some(Operation::Login),
        Action::Query { .. } => Some(Operation::Query),
        Action::Reconnect => Some(Operation::Reconnect),
        Action::Logout => Some(Operation::Logout),
        Action::Abort { .. } => Some(Operation::Abort),
        Action::AbortSet => Some(Operation::AbortSet),
        Action::UnitReset => Some(Operation::UnitReset),
        Action::TargetReset => Some(Operation::TargetReset),
        Action::AgentReset => Some(Operation::AgentReset),
        Action::Enable => Some(Operation::Enable),
        _ => None,
    }
}

/// Whether an operation, if there is one, ends lists.
pub(crate) fn ends_list(operation: Option<Operation>) -> bool
    ensures { result ≡ ends_list operation }
{
    matches!(
        operation,
        Some(
            Operation::Logout
                | Operation::AbortSet
                | Operation::UnitReset
                | Operation::TargetReset
                | Operation::AgentReset
        )
    )
}

/// The operation under way.
fn under_way(operation: &Option<Running>) -> Option<Operation>
    ensures { result ≡ operation_in operation.now }
{
    match operation {
        Some(running) => Some(running.operation),
        None => None,
    }
}

/// Whether an action prepares an ORB.
fn prepares(action: &Action) -> bool
    ensures { result ≡ prepares action.now }
{
    matches!(action, Action::Put(_) | Action::Append(_))
}

/// Whether an action rings.
fn rings(action: &Action) -> bool
    ensures { result ≡ rings action.now }
{
    matches!(action, Action::Append(_) | Action::Ring)
}

/// Whether an action is a step of a list.
fn is_list_step(action: &Action) -> bool
    ensures { result ≡ is_list_step action.now }
{
    matches!(
        action,
        Action::Put(_)
            | Action::Append(_)
            | Action::Low
            | Action::Link
            | Action::Ring
            | Action::Dummy { .. }
    )
}

/// Whether an action needs the target's ROM.
fn needs_rom(action: &Action) -> bool
    ensures { result ≡ needs_rom action.now }
{
    matches!(action, Action::Login { .. } | Action::Query { .. })
}

/// Whether an action may be done in a session.
fn fits_session(action: &Action, seat: &Seat) -> bool
    ensures { result ≡ fits_session action.now (session_of seat.now) }
{
    match action {
        Action::Rom | Action::Query { .. } => {
            matches!(seat, Seat::Out(_) | Seat::Live(_) | Seat::Held(_))
        }
        Action::Login { .. } => matches!(seat, Seat::Out(_)),
        Action::Reconnect => matches!(seat, Seat::Held(_)),
        _ => matches!(seat, Seat::Live(_)),
    }
}

/// Whether a prepared ORB is not linked.
fn is_mid_link(present: &Option<PresentList>) -> bool
    ensures { result ≡ is_mid_link present.now }
{
    match present {
        Some(list) => list.link != Link::Done,
        None => false,
    }
}

/// Whether an ORB waits for its low quadlet.
fn has_low(present: &Option<PresentList>) -> bool
    ensures { result ≡ is_some (waits_low present.now) }
{
    match present {
        Some(list) => matches!(list.link, Link::Low { .. }),
        None => false,
    }
}

/// Whether an ORB waits for its high quadlet.
fn has_high(present: &Option<PresentList>) -> bool
    ensures { result ≡ is_some (waits_high present.now) }
{
    match present {
        Some(list) => matches!(list.link, Link::High { .. }),
        None => false,
    }
}

impl InitiatorState {
    /// Whether an action has to wait.
    fn must_wait(&self, action: &Action) -> bool
        ensures { result ≡ must_wait action.now (facts_with true self.now action.now) }
    {
        let operation = operation_of(action);
        (operation.is_some() && self.operation.is_some())
            || (ends_list(operation) && self.seat.is_pointing())
            || (is_list_step(action) && ends_list(under_way(&self.operation)))
    }

    /// Whether no ORB waits for the quadlet that an action writes.
    fn lacks_link(&self, action: &Action) -> bool
        ensures { result ≡ lacks_link action.now (facts_with true self.now action.now) }
    {
        match action {
            Action::Low => !has_low(&self.lists.present()),
            Action::Link => !has_high(&self.lists.present()),
            _ => false,
        }
    }

    /// Whether there is no list to ring for, or no such waiting ORB.
    fn lacks_orb(&self, action: &Action) -> bool
        ensures { result ≡ lacks_orb action.now (facts_with true self.now action.now) }
    {
        match action {
            Action::Ring => self.lists.present().is_none(),
            Action::Abort { orb } | Action::Dummy { orb } => self.lists.find(*orb).is_none(),
            _ => false,
        }
    }

    /// The number of the first row that refuses an action, but for want of a label.
    #[tactic(auto, unfolding(crate::specs::Refusals::refusal))]
    pub(crate) fn refusal(&self, action: &Action) -> Option<u8>
        ensures { result ≡ refusal action.now (facts_with true self.now action.now) }
    {
        if self.seat.is_stuck() {
            return Some(1);
        }
        if !fits_session(action, &self.seat) {
            return Some(2);
        }
        if needs_rom(action) && self.management.is_none() {
            return Some(3);
        }
        if self.must_wait(action) {
            return Some(4);
        }
        if prepares(action) && is_mid_link(&self.lists.present()) {
            return Some(5);
        }
        self.list_refusal(action)
    }

    /// The same of the rows on lists and slots.
    fn list_refusal(&self, action: &Action) -> Option<u8>
        ensures { result ≡ list_refusal action.now (facts_with true self.now action.now) }
    {
        if self.lacks_link(action) {
            return Some(6);
        }
        if (prepares(action) || rings(action)) && self.marks.is_dead {
            return Some(7);
        }
        if self.lacks_orb(action) {
            return Some(8);
        }
        if prepares(action) && self.lists.is_full() {
            return Some(9);
        }
        None
    }
}
