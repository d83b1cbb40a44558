ghost use Rattle.std.specs.Prelude.{◌≡◌};

use std::alloc::{AllocError, AllocFailed};
use thiserror::Error;

/// Why a configuration ROM is not read.
#[derive(Clone, Copy, Debug, PartialEq, Eq, Error)]
pub enum RomFault {
    /// There are fewer quadlets than are needed.
    #[error("fewer than {need} quadlets")]
    Short { need: u16 },
    /// The bus information block is too short, or its name is not "1394".
    #[error("no bus information block of IEEE 1394")]
    Name,
    /// The entry at this position names a block at the distance 0.
    #[error("the entry at quadlet {at} names itself")]
    Entry { at: u16 },
    /// The block whose header stands at this position, in quadlets, does not end inside the ROM;
    /// 65,535 stands for every larger position.
    #[error("the block at quadlet {at} is not inside")]
    Outside { at: u16 },
    /// Memory was wanting.
    #[error("memory was wanting")]
    NoMemory,
}

impl From<AllocError> for RomFault {
    ghost use Rattle.config_rom.specs.declared.fault.RomFault.TheVariants.{NoMemory};

    ghost from_gives = { λ _ fault. fault ≡ NoMemory };

    fn from(_error: AllocError) -> RomFault {
        RomFault::NoMemory
    }
}

impl<T: Drop> From<AllocFailed<T>> for RomFault {
    ghost use Rattle.config_rom.specs.declared.fault.RomFault.TheVariants.{NoMemory};

    ghost from_gives = { λ _ fault. fault ≡ NoMemory };

    fn from(_error: AllocFailed<T>) -> RomFault {
        RomFault::NoMemory
    }
}
