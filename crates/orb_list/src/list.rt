ghost use Rattle.std.specs.Prelude.{◌≡◌};
ghost use Rattle.orb_list.specs.Table.{high_in, is_done, low_in, next_is_linked};

use crate::ticket::Ticket;

/// How far the ORB that was prepared last is linked behind the one before it.
#[derive(Clone, Copy, Debug, PartialEq, Eq)]
pub enum Link {
    /// It is linked, or the first of its list.
    Done,
    /// Its low quadlet is to be written, into the ORB in this slot.
    Low { before: u8 },
    /// Its low quadlet is written, and its high quadlet is to be, into the ORB in this slot.
    High { before: u8 },
}

/// The list that was begun and not yet dropped.
#[derive(Clone, Copy, Debug, PartialEq, Eq)]
pub struct PresentList {
    /// The ORB that was prepared last.
    pub tail: Ticket,
    pub link: Link,
    /// The highest number of an ORB whose status was taken, or 0.
    pub passed: u32,
}

/// An ORB that waits for a quadlet of its link, and the slot of the ORB before it, where that quadlet is
/// written.
#[derive(Clone, Copy, Debug, PartialEq, Eq)]
pub struct Linking {
    pub before: u8,
    pub tail: Ticket,
}

impl PresentList {
    /// The ORB that waits for its low quadlet.
    pub(crate) fn waits_low(&self) -> Option<Linking>
        ensures { result ≡ low_in self.now.link self.now.tail }
    {
        match self.link {
            Link::Low { before } => Some(Linking {
                before,
                tail: self.tail,
            }),
            Link::Done | Link::High { .. } => None,
        }
    }

    /// The ORB that waits for its high quadlet.
    pub(crate) fn waits_high(&self) -> Option<Linking>
        ensures { result ≡ high_in self.now.link self.now.tail }
    {
        match self.link {
            Link::High { before } => Some(Linking {
                before,
                tail: self.tail,
            }),
            Link::Done | Link::Low { .. } => None,
        }
    }

    /// Whether the ORB behind the one of this number is linked.
    pub(crate) fn next_is_linked(&self, number: u32) -> bool
        ensures { result ≡ next_is_linked self.now number }
    {
        number < self.tail.number() && (self.link.is_done() || number + 1 < self.tail.number())
    }
}

impl Link {
    /// Whether nothing of the link is left to write.
    pub(crate) fn is_done(self) -> bool
        ensures { result ≡ is_done self }
    {
        matches!(self, Link::Done)
    }
}
