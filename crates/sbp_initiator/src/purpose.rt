use sbp_base::Offset;
use sbp_journal::Operation;

/// What a transaction of an initiator is for. An operation and a read of AGENT_STATE are named by the
/// number of the action that began them.
#[derive(Clone, Copy)]
pub enum Purpose {
    /// ORB_POINTER is written for the list of this number.
    Pointer { list: u32 },
    /// DOORBELL is written.
    Doorbell,
    /// AGENT_RESET is written.
    AgentReset { act: u32 },
    /// UNSOLICITED_STATUS_ENABLE is written.
    Enable { act: u32 },
    /// MANAGEMENT_AGENT is written.
    Management { act: u32 },
    /// A quadlet of the target's ROM is read.
    Rom { act: u32 },
    /// AGENT_STATE is read, and counts for this list, if for any.
    State { act: u32, list: Option<u32> },
}

/// How a transaction ended.
#[derive(Clone, Copy)]
pub enum Ending {
    /// It was answered complete; what a read of a quadlet gave, else 0.
    Complete { value: u32 },
    /// It was answered by this rcode, which is not 0 (IEEE 1394-1995, response codes).
    Refused { rcode: u8 },
    /// Its time ran out.
    Expired,
}

/// What an initiator asks of the target.
#[derive(Clone, Copy)]
pub enum Wanted {
    /// A quadlet.
    Read { offset: Offset },
    /// That it writes a quadlet.
    Write { offset: Offset, value: u32 },
    /// That it writes the address of an ORB, in 8 bytes.
    Point { offset: Offset, orb: Offset },
}

/// A request, and what its transaction is for.
#[derive(Clone, Copy)]
pub struct Demand {
    pub wanted: Wanted,
    pub purpose: Purpose,
}

/// The operation under way.
#[derive(Clone, Copy)]
pub struct Running {
    pub operation: Operation,
    /// The number of the action that began it.
    pub act: u32,
    /// The number of its write to MANAGEMENT_AGENT, where it has one.
    pub managed: Option<u32>,
}

/// How far the write to ORB_POINTER of the present list has come.
#[derive(Clone, Copy)]
pub enum Pointing {
    /// It was not sent.
    Unwritten,
    /// It was sent.
    Written,
    /// It was answered complete.
    Answered,
}

/// What is known of the present list beside its ORBs.
#[derive(Clone, Copy)]
pub struct ListMarks {
    /// The slot of its first ORB, below 32.
    pub first: u8,
    pub pointing: Pointing,
    /// Whether its agent is known to be dead.
    pub is_dead: bool,
}
