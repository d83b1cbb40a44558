ghost use Rattle.std.specs.Prelude.{◌≡◌, ◌^◌, ◌<◌};

use sbp_base::Generation;
use std::marker::Model;

/// A transaction label that is under way: its 6 bits, the generation that it was given in, and a
/// serial number that tells it from later transactions under the same label.
#[derive(Clone, Copy, Debug, PartialEq, Eq)]
pub struct Label {
    number: u8,
    generation: Generation,
    serial: u64,
}

impl Model for Label {
    ghost use Rattle.std.specs.Prelude.{◌^◌, ◌<◌};
    ghost use Rattle.async_packet.specs.Labels.{LabelParts};

    ghost Value = { LabelParts };

    ghost view = { λ label. record { number = label.number; generation = label.generation; serial = label.serial } };

    ghost invariant = { λ label. label.number < 2 ^ 6 };

    ghost inverse = { λ parts. record { number = parts.number; generation = parts.generation; serial = parts.serial } };
}

impl Label {
    ghost use Rattle.async_packet.specs.Labels.{LabelParts};

    /// The label with this number, below 64.
    pub fn new(number: u8, generation: Generation, serial: u64) -> Label
        requires { number < 64 }
        ensures { result ≡ record { number = number; generation = generation; serial = serial } }
    {
        Label {
            number,
            generation,
            serial,
        }
    }

    /// The label's 6 bits.
    pub fn number(&self) -> u8
        ensures value { result ≡ self.now.number }
        ensures small { self.now.number < 2 ^ 6 }
    {
        self.number
    }

    /// The generation that the label was given in.
    pub fn generation(&self) -> Generation
        ensures { result ≡ self.now.generation }
    {
        self.generation
    }

    /// The number that tells it from later transactions under the same label.
    pub fn serial(&self) -> u64
        ensures { result ≡ self.now.serial }
    {
        self.serial
    }
}
