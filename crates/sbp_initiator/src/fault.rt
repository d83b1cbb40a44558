ghost use Rattle.std.specs.Prelude.{◌≡◌};

use sbp_base::NoMemory;

/// Why an action is not done.
#[derive(Clone, Copy)]
pub enum ActFault {
    /// It is refused by the row of this number, 1 to 10.
    Refused(u8),
    /// Memory was wanting.
    NoMemory,
}

impl From<NoMemory> for ActFault {
    ghost use Rattle.sbp_initiator.specs.declared.fault.ActFault.TheVariants.{NoMemory};

    ghost from_gives = { λ _ fault. fault ≡ NoMemory };

    fn from(_error: NoMemory) -> ActFault {
        ActFault::NoMemory
    }
}
