ghost use Rattle.std.specs.Prelude.{◌≡◌, [], ◌∷◌, ◌++◌, IfOk, OnOk, OnErr};

use crate::outside::NoMemory;
use std::alloc::Global;
use std::marker::Model;

/// Lengths, in bytes, that grow at their end.
#[derive(Drop)]
pub struct Lengths {
    items: Vec<u16>,
}

impl Model for Lengths {
    ghost use Rattle.std.specs.Prelude.{ℕ, List};

    ghost Value = { List ℕ };

    ghost view = { λ lengths. lengths.items.items };
}

impl Lengths {
    /// An empty list of lengths.
    pub fn new(alloc: Global) -> Self
        ensures { result ≡ [] }
    {
        Lengths {
            items: Vec::new(alloc),
        }
    }

    /// A copy of the given lengths.
    pub fn from_slice(alloc: Global, lengths: &[u16]) -> Result<Self, NoMemory>
        ensures { IfOk result (λ copy. copy ≡ lengths.now) }
    {
        Ok(Lengths {
            items: Vec::from_slice(alloc, lengths)?,
        })
    }

    /// Adds a length at the end.
    pub fn push(&mut self, length: u16) -> Result<(), NoMemory>
        ensures ok { OnOk result (self.new ≡ self.old ++ length ∷ []) }
        ensures err { OnErr result (self.new ≡ self.old) }
    {
        self.items.push(length)?;
        Ok(())
    }

    /// The lengths, lent.
    pub fn as_slice(&self) -> &[u16]
        ensures { result.now ≡ self.now }
    {
        self.items.as_slice()
    }
}
