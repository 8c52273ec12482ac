//! Calls of a device in memory that are planned to fail.

ghost use Rattle.std.specs.Prelude.{◌≡◌, ◌<◌, ◌^◌};
ghost use Rattle.dl_outside.specs.FaultPlan.{new_plan, fails_next, after_call};

use crate::count::raise;
use std::marker::Model;

/// The numbers of the calls that are to fail, and how many calls there were and failed.
#[derive(Drop)]
pub(crate) struct PlannedFaults {
    failing: Vec<u32>,
    calls: u32,
    fault_count: u64,
}

impl Model for PlannedFaults {
    ghost use Rattle.std.specs.Prelude.{◌≤◌};
    ghost use Rattle.dl_outside.specs.FaultPlan.{FaultPlan};

    ghost Value = { FaultPlan };

    ghost view = { λ p. record { failing = p.failing.items; calls = p.calls; faults = p.fault_count } };

    ghost invariant = { λ p. p.fault_count ≤ p.calls };
}

impl PlannedFaults {
    /// A plan in which no call was made yet.
    pub(crate) fn new(failing: Vec<u32>) -> Self
        ensures { result ≡ new_plan failing.items }
    {
        PlannedFaults {
            failing,
            calls: 0,
            fault_count: 0,
        }
    }

    /// Counts one more call, and says whether it fails.
    pub(crate) fn next_call(&mut self) -> bool
        ensures fails { result ≡ fails_next self.old }
        ensures after { self.new ≡ after_call self.old }
        ensures small { self.new.faults < 2 ^ 32 }
    {
        self.calls = self.calls.saturating_add(1);
        // The count stops at `u32::MAX`: a plan that names it would fail for ever, so no call of that number fails.
        let fails = self.calls < u32::MAX && self.failing.contains(&self.calls);
        if fails {
            self.fault_count = raise(self.fault_count);
        }
        fails
    }
}
