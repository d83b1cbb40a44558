/// A command for a disk. READ and WRITE stand for both forms, of ten and of twelve bytes.
#[derive(Clone, Copy, Debug, PartialEq, Eq)]
pub enum Command {
    /// TEST UNIT READY: whether the disk is ready for its other commands.
    TestReady,
    /// INQUIRY: what the disk is, in at most `allocation` bytes.
    Inquiry { allocation: u8 },
    /// START STOP UNIT without load or eject.
    StartStop { start: bool },
    /// PREVENT ALLOW MEDIUM REMOVAL: whether its removal is prevented from now on.
    Prevent { on: bool },
    /// READ CAPACITY(10): the last block and the length of a block.
    Capacity,
    /// READ: `count` blocks from block `lba` on.
    Read { lba: u32, count: u32 },
    /// WRITE: `count` blocks from block `lba` on.
    Write { lba: u32, count: u32 },
    /// VERIFY(10): `count` blocks from block `lba` on, read without giving their bytes.
    Verify { lba: u32, count: u16 },
    /// SYNCHRONIZE CACHE.
    Sync,
}
