/// Why a packet that arrived was ignored.
#[derive(Clone, Copy, Debug, PartialEq, Eq)]
pub enum Cause {
    /// It is of another generation than its node's.
    Generation,
    /// Its bytes are no packet that the node takes.
    Grammar,
    /// It answers no request under way.
    Label,
    /// It is a write that was taken before.
    Again,
    /// It is of a node that may not send it.
    Source,
    /// It is for a login that is none of its sender's.
    Login,
    /// Its status names no ORB that waits.
    Slot,
}

/// Why a list ends at the target.
#[derive(Clone, Copy, Debug, PartialEq, Eq)]
pub enum CutCause {
    /// The agent's reset register was written.
    AgentReset,
    /// All ORBs of the login were aborted.
    AbortSet,
    /// The unit was reset.
    UnitReset,
    /// The target was reset.
    TargetReset,
    /// The login was given back.
    Logout,
    /// The bus was reset.
    Reset,
}

/// How a node judged a packet that arrived.
#[derive(Clone, Copy, Debug, PartialEq, Eq)]
pub enum Judged {
    /// It was taken.
    Got,
    /// It was ignored, and left nothing but the last request that the node remembers.
    Ignored(Cause),
}

/// Why a request did not expire.
#[derive(Clone, Copy, Debug, PartialEq, Eq)]
pub enum TargetFault {
    /// It is not under way.
    Stale,
    /// Memory was wanting.
    NoMemory,
}
