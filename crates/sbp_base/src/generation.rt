ghost use Rattle.std.specs.Prelude.{◌≡◌, ◌+◌, ◌^◌, ◌<◌};

use std::marker::Model;

/// The number of a bus reset: what was sent between two resets is of one generation (IEEE
/// 1394-1995, bus configuration).
#[derive(Clone, Copy, Debug, PartialEq, Eq)]
pub struct Generation {
    resets: u32,
}

impl Model for Generation {
    ghost use Rattle.std.specs.Prelude.{ℕ};

    ghost Value = { ℕ };

    ghost view = { λ generation. generation.resets };

    ghost inverse = { λ resets. record { resets = resets } };
}

impl Generation {
    /// The generation at the start, 0.
    pub fn first() -> Generation
        ensures { result ≡ 0 }
    {
        Generation { resets: 0 }
    }

    /// The generation after this one, which is not the last.
    pub fn next(self) -> Generation
        requires { self < 4294967295 }
        ensures { result ≡ self + 1 }
    {
        Generation {
            resets: self.resets + 1,
        }
    }

    /// The generation as a number.
    pub fn number(self) -> u32
        ensures value { result ≡ self }
        ensures small { self < 2 ^ 32 }
    {
        self.resets
    }
}
