use rbc_command::Sense;

/// Bytes of a block.
pub const BLOCK: u32 = 512;

/// The most bytes that a command moves: 32 blocks.
pub const TRANSFER: u32 = 16384;

/// The direction and the length of an ORB's buffer.
#[derive(Clone, Copy, Debug, PartialEq, Eq)]
pub struct BufferPlan {
    pub to_initiator: bool,
    pub bytes: u32,
}

/// What a command needs before it can run.
#[derive(Clone, Copy, Debug, PartialEq, Eq)]
pub enum Need {
    /// So many bytes of data.
    Payload(u16),
    /// Nothing.
    RunNow,
}

/// How a command ended.
#[derive(Clone, Copy, Debug, PartialEq, Eq)]
pub enum Outcome {
    /// Good, with an answer of so many bytes.
    Good { answer: u16 },
    /// A check condition.
    Check(Sense),
}
