/// What a management ORB asks the target for (NCITS 325-1998, management ORB).
#[derive(Clone, Copy, Debug, PartialEq, Eq)]
pub enum FunctionWord {
    Login,
    Query,
    Reconnect,
    Logout,
    Abort,
    AbortSet,
    UnitReset,
    TargetReset,
    /// A function that the target does not know.
    Other,
}

/// What an initiator does in more than one packet.
#[derive(Clone, Copy, Debug, PartialEq, Eq)]
pub enum Operation {
    Rom,
    Login,
    Query,
    Reconnect,
    Logout,
    Abort,
    AbortSet,
    UnitReset,
    TargetReset,
    AgentReset,
    State,
    /// The register for unsolicited status is written.
    Enable,
}

/// How an operation ended.
#[derive(Clone, Copy, Debug, PartialEq, Eq)]
pub enum OpWord {
    Done,
    /// The target refused it, with this status.
    Refused(u8),
    /// The management agent was busy.
    Conflict,
    /// The time ran out, or a request was answered with another rcode than complete.
    Error,
    /// A bus reset was seen.
    Reset,
    /// A query is done: how many logins there are, if the response tells it.
    Count(Option<u8>),
    /// The ROM that was read has this fault.
    Bad(u8),
    /// The ROM that was read has no unit of SBP-2.
    NoUnit,
    /// The state register that was read.
    State(u32),
}
