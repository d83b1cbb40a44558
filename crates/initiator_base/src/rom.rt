ghost use Rattle.std.specs.Prelude.{◌≡◌, ◌++◌, ◌<◌, ◌≤◌, ◌==◌, nat_le, length, [], ◌∷◌, OnOk};
ghost use Rattle.initiator_base.specs.Quads.{with_quad};

use sbp_base::NoMemory;
use std::alloc::Global;
use std::marker::Model;

/// The quadlets of a configuration ROM, at most.
const LARGEST: usize = 256;

/// The quadlets that were read of the target's configuration ROM, 256 at most.
#[derive(Drop)]
pub struct RomQuads {
    quads: Vec<u32>,
}

impl Model for RomQuads {
    ghost use Rattle.std.specs.Prelude.{ℕ, List, ◌≤◌, length};

    ghost Value = { List ℕ };

    ghost view = { λ a. a.quads.items };

    ghost invariant = { λ a. length a.quads.items ≤ 256 };
}

impl RomQuads {
    /// No quadlet was read yet.
    pub fn new(alloc: Global) -> RomQuads
        ensures { result ≡ [] }
    {
        RomQuads {
            quads: Vec::new(alloc),
        }
    }

    /// Adds a quadlet, where there is room.
    pub fn push(&mut self, quad: u32) -> Result<(), NoMemory>
        ensures { OnOk result (self.new ≡ with_quad self.old quad) }
    {
        if self.quads.len() < LARGEST {
            self.quads.push(quad)?;
        }
        Ok(())
    }

    /// Forgets all quadlets.
    pub fn clear(&mut self)
        ensures { self.new ≡ [] }
    {
        self.quads.clear();
    }

    /// The number of quadlets.
    pub fn count(&self) -> u32
        ensures value { result ≡ length self.now }
        ensures most { result ≤ 256 }
    {
        self.quads.len() as u32
    }

    /// The quadlets, lent.
    pub fn as_slice(&self) -> &[u32]
        ensures value { result.now ≡ self.now }
        ensures most { length result.now ≤ 256 }
    {
        self.quads.as_slice()
    }
}
