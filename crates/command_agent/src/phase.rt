use orb_layout::CommandOrb;

/// What an agent does. But in the phases `Reset`, `Suspended` and `Dead` it has one main transaction
/// under way, which the phase names.
#[derive(Clone, Copy, Debug, PartialEq, Eq)]
pub enum Phase {
    /// Nothing: no list is open.
    Reset,
    /// A read of the present ORB.
    Fetching,
    /// A read of its page table.
    ReadingTable,
    /// A read of a chunk of its data, of which so many bytes are wanted.
    ReadingData { wanted: u16 },
    /// A write of a chunk of its answer.
    Answering,
    /// The write of its status block.
    WritingStatus,
    /// The same, of the ORB that made the agent dead.
    WritingLastStatus,
    /// A read of the last ORB's next pointer.
    ReadingNext,
    /// Nothing: the next pointer last read is null.
    Suspended,
    /// Nothing, until the agent is reset.
    Dead,
}

/// What was read ahead: the ORB behind the present one.
#[derive(Clone, Copy, Debug, PartialEq, Eq)]
pub enum ReadAhead {
    Idle,
    /// The read is under way; `rung` is the doorbell mark that it cleared.
    UnderWay { rung: bool },
    /// The ORB as it was read, unchecked.
    Kept(CommandOrb),
}
