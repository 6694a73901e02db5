ghost use Rattle.std.specs.Prelude.{◌≡◌, ◌^◌, ◌<◌, ◌≤◌, OnOk, OnErr, MatchBool};
ghost use Rattle.outside.specs.Causes.{Rose};
ghost use Rattle.outside.specs.Plan.{fails, after_call, faults_after, no_calls, with_fault};

use crate::{FaultCount, NoMemory};
use std::alloc::Global;
use std::marker::Model;

/// The calls of one kind on an object in memory: how many were made, and which are to fail.
#[derive(Debug, Drop)]
pub(crate) struct CallPlan {
    calls: u64,
    failing: Vec<u64>,
}

impl Model for CallPlan {
    ghost use Rattle.outside.specs.Plan.{CallPlanView};

    ghost Value = { CallPlanView };

    ghost view = { λ p. record { calls = p.calls; failing = p.failing.items } };
}

impl CallPlan {
    pub(crate) fn new(alloc: Global) -> Self
        ensures { result ≡ no_calls }
    {
        CallPlan {
            calls: 0,
            failing: Vec::new(alloc),
        }
    }

    /// Plans a fault for the call of this number, from 0.
    pub(crate) fn fail(&mut self, number: u64) -> Result<(), NoMemory>
        ensures ok { OnOk result (self.new ≡ with_fault self.old number) }
        ensures err { OnErr result (self.new ≡ self.old) }
    {
        match self.failing.push(number) {
            Ok(()) => Ok(()),
            Err(_) => Err(NoMemory),
        }
    }

    /// Counts the next call, and a fault where it is to fail. Returns whether it is to fail.
    pub(crate) fn next_fails(&mut self, faults: &mut FaultCount) -> bool
        ensures answer { result ≡ fails self.old }
        ensures after { self.new ≡ after_call self.old }
        ensures faults { faults.new ≡ faults_after self.old faults.old }

        // What the count of faults did.
        ensures count { MatchBool result (Rose faults.old faults.new) (faults.new ≡ faults.old) }
        ensures rises { faults.old ≤ faults.new }
    {
        let is_failing = self.failing.contains(&self.calls);
        self.calls = self.calls.saturating_add(1);
        if is_failing {
            faults.rise();
        }
        is_failing
    }
}
