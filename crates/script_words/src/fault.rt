use sbp_base::NoMemory;
use std::alloc::AllocError;
use thiserror::Error;

/// Why a line of a script gives no event.
#[derive(Clone, Copy, Debug, PartialEq, Eq, Error)]
pub enum LineFault {
    /// The line has more than 8,192 bytes.
    #[error("more than 8,192 bytes")]
    TooLong,
    /// The first word is in no row.
    #[error("no line begins with this word")]
    Unknown,
    /// The words do not have the row's shape.
    #[error("the words are not those of such a line")]
    Shape,
    /// A number is out of its range, physical IDs repeat, or a sum or length rule is broken.
    #[error("a number is out of its range")]
    Range,
    /// The line is no `begin` and stands first, or is one and does not.
    #[error("a script begins with its only `begin`")]
    Place,
    /// The line names an initiator that the bus does not have.
    #[error("there is no such initiator")]
    NoInitiator,
    /// A byte is none that a line may have.
    #[error("a byte is not printable")]
    Byte,
    /// Memory was wanting.
    #[error("memory is wanting")]
    NoMemory,
}

impl From<NoMemory> for LineFault {
    ghost use Rattle.std.specs.Prelude.{◌≡◌};
    ghost use Rattle.script_words.specs.declared.fault.LineFault.{LineFault};

    ghost from_gives = { λ _ fault. fault ≡ LineFault.NoMemory };

    fn from(_error: NoMemory) -> LineFault {
        LineFault::NoMemory
    }
}

impl From<AllocError> for LineFault {
    ghost use Rattle.std.specs.Prelude.{◌≡◌};
    ghost use Rattle.script_words.specs.declared.fault.LineFault.{LineFault};

    ghost from_gives = { λ _ fault. fault ≡ LineFault.NoMemory };

    fn from(_error: AllocError) -> LineFault {
        LineFault::NoMemory
    }
}
