use crate::cause::CutCause;
use crate::note::Note;
use orb_layout::{FailCause, StatusKind};
use rbc_disk::Outcome;
use sbp_base::{Bytes, NodeId, Offset};

/// What a node tells beside its packets. A place is one of the target's places for logins, and an
/// ORB is named by its address.
#[derive(Drop)]
pub enum Side {
    /// A note of an initiator, as it is.
    Own(Note),
    /// The agent of a place was pointed to an ORB.
    Opened {
        place: u8,
        orb: Offset,
    },
    /// The ORB's command ran, with the data that was read for it.
    Ran {
        place: u8,
        orb: Offset,
        cdb: [u8; 12],
        payload: Bytes,
        outcome: Outcome,
    },
    /// The ORB ended.
    Ended {
        place: u8,
        orb: Offset,
        status: StatusKind,
    },
    /// The agent of a place is dead.
    Dead {
        place: u8,
        cause: FailCause,
    },
    /// The list of a place was ended.
    Cut {
        place: u8,
        cause: CutCause,
    },
    /// A management ORB of a node was decided.
    Managed {
        node: NodeId,
        function: u8,
        subject: u16,
        status: u8,
        login: u16,
    },
    /// A management operation of a node failed.
    ManageFailed {
        node: NodeId,
        cause: FailCause,
    },
    /// A login is held.
    Held(u16),
    /// A held login ran out.
    Expired(u16),
    /// A held login was taken back.
    Back(u16),
    /// A login was given back.
    Left(u16),
    /// A unit was cleared.
    Cleared(u8),
    /// An unsolicited status is sent for the login of a place.
    Unsolicited {
        place: u8,
    },
    /// An unsolicited status for the login of a place was not sent.
    Unsent {
        place: u8,
    },
}
