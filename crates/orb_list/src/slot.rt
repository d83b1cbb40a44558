ghost use Rattle.std.specs.Prelude.{◌≡◌};
ghost use Rattle.orb_list.specs.Table.{freed, is_free, is_over, is_pinned, next_is_linked, over_for, rested, state_after, unused, waiting};

use crate::list::{Link, PresentList};
use crate::ticket::Ticket;
use orb_layout::{StatusBlock, StatusKind};

/// What a command slot is.
#[derive(Clone, Copy, Debug, PartialEq, Eq)]
pub enum SlotState {
    Free,
    /// In use by an ORB whose status was not taken.
    Waiting,
    /// In use by an ORB whose status was taken; `had_next` says that its next pointer was not null as
    /// the target read it last, which src 0 tells.
    Taken { had_next: bool },
    /// Kept from use until a reset is seen.
    Resting,
}

/// A command slot, and the ticket of the ORB that was prepared in it last.
#[derive(Clone, Copy, Debug, PartialEq, Eq)]
pub struct Slot {
    pub state: SlotState,
    pub last: Option<Ticket>,
}

impl Slot {
    /// A free slot in which no ORB was prepared.
    pub(crate) fn unused() -> Slot
        ensures { result ≡ unused }
    {
        Slot {
            state: SlotState::Free,
            last: None,
        }
    }

    /// Whether the slot is free.
    pub(crate) fn is_free(&self) -> bool
        ensures { result ≡ is_free self.now }
    {
        matches!(self.state, SlotState::Free)
    }

    /// The ORB that waits in the slot.
    pub(crate) fn waiting(&self) -> Option<Ticket>
        ensures { result ≡ waiting self.now }
    {
        match self.state {
            SlotState::Waiting => self.last,
            SlotState::Free | SlotState::Taken { .. } | SlotState::Resting => None,
        }
    }

    /// Whether the ORB of the slot is over: its status was taken, the ORB behind it is linked, its src
    /// was 0 or the status of a later ORB was taken, and it is not pinned.
    pub(crate) fn is_over(&self, list: &PresentList, pinned: &Option<Ticket>) -> bool
        ensures { result ≡ is_over list.now pinned.now self.now }
    {
        match self.state {
            SlotState::Taken { had_next } => is_over_for(list, pinned, had_next, self.last),
            SlotState::Free | SlotState::Waiting | SlotState::Resting => false,
        }
    }

    /// The slot, free.
    pub(crate) fn freed(self) -> Slot
        ensures { result ≡ freed self }
    {
        Slot {
            state: SlotState::Free,
            last: self.last,
        }
    }

    /// The slot of a dropped list: it rests where it is not free.
    pub(crate) fn rested(self) -> Slot
        ensures { result ≡ rested self }
    {
        if self.is_free() {
            return self;
        }
        Slot {
            state: SlotState::Resting,
            last: self.last,
        }
    }
}

impl SlotState {
    /// What a slot is once this status of its ORB was taken.
    pub(crate) fn after(status: &StatusBlock) -> SlotState
        ensures { result ≡ state_after status.now }
    {
        match status.kind {
            StatusKind::Illegal(_) | StatusKind::Failed => SlotState::Resting,
            StatusKind::Good
            | StatusKind::Check(_)
            | StatusKind::Dummy
            | StatusKind::Aborted
            | StatusKind::Management(_) => SlotState::Taken {
                had_next: status.src == 0,
            },
        }
    }
}

/// Whether an ORB whose status was taken is over.
fn is_over_for(
    list: &PresentList,
    pinned: &Option<Ticket>,
    had_next: bool,
    last: Option<Ticket>,
) -> bool
    ensures { result ≡ over_for list.now pinned.now had_next last }
{
    let Some(ticket) = last else { return false };
    list.next_is_linked(ticket.number())
        && (had_next || ticket.number() < list.passed)
        && !is_pinned(pinned, &ticket)
}

/// Whether this ORB is the one that is pinned.
fn is_pinned(pinned: &Option<Ticket>, ticket: &Ticket) -> bool
    ensures { result ≡ is_pinned pinned.now ticket.now }
{
    match pinned {
        Some(pinned) => pinned.is(ticket),
        None => false,
    }
}
