use orb_layout::ManagementOrb;
use sbp_base::{NodeId, Offset};

/// An operation is under way.
#[derive(Clone, Copy, Debug, PartialEq, Eq)]
pub struct Busy;

/// An operation under way.
#[derive(Clone, Copy)]
pub struct Operation {
    /// The node that wrote MANAGEMENT_AGENT.
    pub source: NodeId,
    /// The address of the management ORB.
    pub orb: Offset,
    pub phase: Phase,
}

/// What an operation waits for.
#[derive(Clone, Copy)]
pub enum Phase {
    /// The 32 bytes of the ORB.
    Orb,
    /// The high quadlet of the source's EUI-64.
    HighEui(ManagementOrb),
    /// The low quadlet; the high one was read.
    LowEui(ManagementOrb, u32),
    /// The write of the response; the status goes to this FIFO.
    Response(Offset),
    /// The write of the status block.
    Status,
}
