ghost use Rattle.std.specs.Prelude.{◌≡◌};
ghost use Rattle.sbp_base.specs.Speeds.{largest_payload};

/// The speed of a packet, in megabits a second (IEEE 1394-1995, cable speeds).
#[derive(Clone, Copy, Debug, PartialEq, Eq)]
pub enum Speed {
    S100,
    S200,
    S400,
}

impl Speed {
    /// The most bytes of payload that a packet of this speed has.
    pub fn largest(self) -> u16
        ensures { result ≡ largest_payload self }
    {
        match self {
            Speed::S100 => 512,
            Speed::S200 => 1024,
            Speed::S400 => 2048,
        }
    }
}
