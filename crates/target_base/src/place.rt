ghost use Rattle.std.specs.Prelude.{◌≡◌, ◌<◌};

use std::marker::Model;

/// One of the eight places of the table of logins, 0 to 7, which is also the number of its agent.
#[derive(Clone, Copy)]
pub struct LoginPlace {
    number: u8,
}

impl Model for LoginPlace {
    ghost use Rattle.std.specs.Prelude.{ℕ, ◌<◌};

    ghost Value = { ℕ };

    ghost view = { λ place. place.number };

    ghost invariant = { λ place. place.number < 8 };

    ghost inverse = { λ number. record { number = number } };
}

impl LoginPlace {
    /// The place with this number, below 8.
    pub fn new(number: u8) -> LoginPlace
        requires { number < 8 }
        ensures { result ≡ number }
    {
        LoginPlace { number }
    }

    /// The number as an index, below 8.
    pub fn index(self) -> usize
        ensures value { result ≡ self }
        ensures small { self < 8 }
    {
        usize::from(self.number)
    }

    /// The number, below 8.
    pub fn number(self) -> u8
        ensures value { result ≡ self }
        ensures small { self < 8 }
    {
        self.number
    }
}
