ghost use Rattle.std.specs.Prelude.{◌≡◌, ◌^◌, ◌<◌, ◌≤◌};
ghost use Rattle.outside.specs.Causes.{Rose};
ghost use Rattle.outside.specs.Plan.{counted};

use std::marker::Model;

/// A count of faults. It never falls: a fault raises it, or it stands at its end, the greatest `u64`.
#[derive(Debug, Drop)]
pub struct FaultCount {
    faults: u64,
}

impl Model for FaultCount {
    ghost use Rattle.std.specs.Prelude.{ℕ, ◌<◌, ◌^◌};

    ghost Value = { ℕ };

    ghost view = { λ c. c.faults };

    ghost invariant = { λ c. c.faults < 2 ^ 64 };
}

impl FaultCount {
    /// No fault.
    pub fn new() -> Self
        ensures { result ≡ 0 }
    {
        FaultCount { faults: 0 }
    }

    /// The faults so far.
    pub fn get(&self) -> u64
        ensures { result ≡ self.now }
    {
        self.faults
    }

    /// Counts one more fault.
    pub fn rise(&mut self)
        ensures count { self.new ≡ counted self.old }
        ensures rose { Rose self.old self.new }
        ensures rises { self.old ≤ self.new }
    {
        self.faults = self.faults.saturating_add(1);
    }
}
