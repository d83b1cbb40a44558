ghost use Rattle.std.specs.Prelude.{◌≡◌, ◌++◌, ◌==◌, not, [], ◌∷◌, OnOk};
ghost use Rattle.std.specs.List.{filter};
ghost use Rattle.initiator_base.specs.Quads.{without};

use sbp_base::NoMemory;
use std::alloc::Global;
use std::marker::Model;

/// The reads of AGENT_STATE that are under way, by the numbers of their actions, in order.
#[derive(Drop)]
pub struct StateReads {
    acts: Vec<u32>,
}

impl Model for StateReads {
    ghost use Rattle.std.specs.Prelude.{ℕ, List};

    ghost Value = { List ℕ };

    ghost view = { λ a. a.acts.items };
}

impl StateReads {
    /// No read is under way yet.
    pub fn new(alloc: Global) -> StateReads
        ensures { result ≡ [] }
    {
        StateReads {
            acts: Vec::new(alloc),
        }
    }

    /// Adds the read of an action behind the others.
    pub fn push(&mut self, act: u32) -> Result<(), NoMemory>
        ensures { OnOk result (self.new ≡ self.old ++ act ∷ []) }
    {
        self.acts.push(act)?;
        Ok(())
    }

    /// Removes the read of an action.
    pub fn remove(&mut self, act: u32)
        ensures { self.new ≡ without act self.old }
    {
        self.acts.retain(|other| *other != act);
    }

    /// No read is under way any more.
    pub fn clear(&mut self)
        ensures { self.new ≡ [] }
    {
        self.acts.clear();
    }

    /// The numbers of the actions whose reads are under way, lent.
    pub fn as_slice(&self) -> &[u32]
        ensures { result.now ≡ self.now }
    {
        self.acts.as_slice()
    }
}
