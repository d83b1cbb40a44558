ghost use Rattle.std.specs.Prelude.{◌≡◌, [], ◌^◌, ◌<◌, ◌≤◌};
ghost use Rattle.sbp_base.specs.Failing.{Plan, fails_next, after_call};

use std::marker::Model;

/// Which calls of an object fail, by their numbers, counted from 1.
#[derive(Drop)]
pub struct FailingCalls {
    failing: Vec<u32>,
    calls: u32,
    faults: u64,
}

impl Model for FailingCalls {
    ghost use Rattle.std.specs.Prelude.{◌≤◌};
    ghost use Rattle.sbp_base.specs.Failing.{Plan};

    ghost Value = { Plan };

    ghost view = { λ plan. record { failing = plan.failing.items; calls = plan.calls; faults = plan.faults } };

    ghost invariant = { λ plan. plan.faults ≤ plan.calls };
}

impl FailingCalls {
    /// No call was made yet.
    pub fn new(failing: Vec<u32>) -> Self
        ensures { result ≡ record { failing = failing.items; calls = 0; faults = 0 } }
    {
        FailingCalls {
            failing,
            calls: 0,
            faults: 0,
        }
    }

    /// Counts one more call, and tells whether it fails. The count of calls stays at its last value,
    /// and no later call fails.
    pub fn next_fails(&mut self) -> bool
        ensures fails { result ≡ fails_next self.old }
        ensures counted { self.new ≡ after_call self.old }
        ensures below_last { self.old.faults < 2 ^ 32 }
    {
        if self.calls == u32::MAX {
            return false;
        }
        self.calls += 1;
        let fails = self.failing.contains(&self.calls);
        if fails {
            self.faults += 1;
        }
        fails
    }

    /// How many calls failed.
    pub fn faults(&self) -> u64
        ensures told { result ≡ self.now.faults }
        ensures below_last { result < 2 ^ 32 }
    {
        let _calls = self.calls;
        self.faults
    }
}
