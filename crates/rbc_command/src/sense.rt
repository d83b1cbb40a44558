ghost use Rattle.std.specs.Prelude.{◌≡◌};
ghost use Rattle.rbc_command.specs.SenseData.{all_senses};

/// Sense key, sense code and qualifier of a check condition (SPC, sense data).
#[derive(Clone, Copy, Debug, PartialEq, Eq)]
pub struct Sense {
    pub key: u8,
    pub code: u8,
    pub qualifier: u8,
}

impl Sense {
    /// No such command: 5/20/00.
    pub const NO_COMMAND: Sense = Sense {
        key: 0x5,
        code: 0x20,
        qualifier: 0x00,
    };

    /// The blocks are not all inside the medium: 5/21/00.
    pub const OUTSIDE: Sense = Sense {
        key: 0x5,
        code: 0x21,
        qualifier: 0x00,
    };

    /// A field or the buffer does not fit the command: 5/24/00.
    pub const BAD_FIELD: Sense = Sense {
        key: 0x5,
        code: 0x24,
        qualifier: 0x00,
    };

    /// The medium is not present: 2/3A/00.
    pub const NO_MEDIUM: Sense = Sense {
        key: 0x2,
        code: 0x3a,
        qualifier: 0x00,
    };

    /// The unit is not started: 2/04/02.
    pub const NOT_STARTED: Sense = Sense {
        key: 0x2,
        code: 0x04,
        qualifier: 0x02,
    };

    /// Unit attention, the unit was reset: 6/29/00.
    pub const WAS_RESET: Sense = Sense {
        key: 0x6,
        code: 0x29,
        qualifier: 0x00,
    };

    /// Unit attention, the medium may have changed: 6/28/00.
    pub const MEDIUM_CHANGED: Sense = Sense {
        key: 0x6,
        code: 0x28,
        qualifier: 0x00,
    };

    /// The removal of the medium is prevented: 5/53/02.
    pub const REMOVAL_PREVENTED: Sense = Sense {
        key: 0x5,
        code: 0x53,
        qualifier: 0x02,
    };

    /// The medium is protected: 7/27/00.
    pub const PROTECTED: Sense = Sense {
        key: 0x7,
        code: 0x27,
        qualifier: 0x00,
    };

    /// The medium's read or verify failed: 3/11/00.
    pub const READ_FAILED: Sense = Sense {
        key: 0x3,
        code: 0x11,
        qualifier: 0x00,
    };

    /// The medium's write failed: 3/0C/00.
    pub const WRITE_FAILED: Sense = Sense {
        key: 0x3,
        code: 0x0c,
        qualifier: 0x00,
    };

    /// All checks of a unit, in the order of the constants.
    pub fn all() -> [Sense; 11]
        ensures { result ≡ all_senses }
    {
        [
            Sense::NO_COMMAND,
            Sense::OUTSIDE,
            Sense::BAD_FIELD,
            Sense::NO_MEDIUM,
            Sense::NOT_STARTED,
            Sense::WAS_RESET,
            Sense::MEDIUM_CHANGED,
            Sense::REMOVAL_PREVENTED,
            Sense::PROTECTED,
            Sense::READ_FAILED,
            Sense::WRITE_FAILED,
        ]
    }
}
