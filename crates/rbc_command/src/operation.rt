ghost use Rattle.std.specs.Prelude.{◌≡◌};
ghost use Rattle.rbc_command.specs.Commands.{operation_of};

/// The operations that a disk has, by the operation code in byte 0 of a command block (SPC, SBC).
#[derive(Clone, Copy, Debug, PartialEq, Eq)]
pub enum Operation {
    /// TEST UNIT READY, 00h.
    TestReady,
    /// INQUIRY, 12h.
    Inquiry,
    /// START STOP UNIT, 1Bh.
    StartStop,
    /// PREVENT ALLOW MEDIUM REMOVAL, 1Eh.
    Prevent,
    /// READ CAPACITY(10), 25h.
    Capacity,
    /// READ(10), 28h.
    Read10,
    /// WRITE(10), 2Ah.
    Write10,
    /// VERIFY(10), 2Fh.
    Verify,
    /// SYNCHRONIZE CACHE, 35h.
    Sync,
    /// READ(12), A8h.
    Read12,
    /// WRITE(12), AAh.
    Write12,
}

impl Operation {
    /// The operation of an operation code, None exactly where the code is not in the table.
    pub fn of(code: u8) -> Option<Operation>
        ensures { result ≡ operation_of code }
    {
        match code {
            0x00 => Some(Operation::TestReady),
            0x12 => Some(Operation::Inquiry),
            0x1b => Some(Operation::StartStop),
            0x1e => Some(Operation::Prevent),
            0x25 => Some(Operation::Capacity),
            0x28 => Some(Operation::Read10),
            0x2a => Some(Operation::Write10),
            0x2f => Some(Operation::Verify),
            0x35 => Some(Operation::Sync),
            0xa8 => Some(Operation::Read12),
            0xaa => Some(Operation::Write12),
            _ => None,
        }
    }
}
