use thiserror::Error;

/// Why a step of a list is refused.
#[derive(Clone, Copy, Debug, PartialEq, Eq, Error)]
pub enum ListFault {
    /// A prepared ORB is not linked yet.
    #[error("a prepared ORB is not linked yet")]
    MidLink,
    /// No ORB waits for this quadlet of its link.
    #[error("no ORB waits for this quadlet of its link")]
    NotLinking,
    /// Every slot is in use or rests.
    #[error("every slot is in use or rests")]
    NoSlot,
    /// The ticket is not of the present list.
    #[error("the ticket is not of the present list")]
    Stale,
    /// The status of the ORB was taken.
    #[error("the status of the ORB was taken")]
    Taken,
    /// The status names no ORB that waits.
    #[error("the status names no ORB that waits")]
    Slot,
}
