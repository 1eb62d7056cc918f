//! Which calls of an object in memory are to fail.

ghost use Rattle.std.specs.Prelude.{◌≡◌, ◌≤◌, ◌++◌, ◌∷◌, [], ◌↔◌, IsTrue, Contains, OnOk, OnErr};
ghost use Rattle.warg_values.specs.Faults.{after_call, one_more};

use crate::memory::Memory;
use std::alloc::Global;
use std::marker::Model;

/// Counts the calls of an object in memory, and makes chosen ones fail, as a disk or a network would.
#[derive(Debug, Drop)]
pub struct FaultSchedule {
    calls: u64,
    failing: Vec<u64>,
    faults: u64,
}

impl Model for FaultSchedule {
    ghost use Rattle.warg_values.specs.Faults.{Schedule};

    ghost Value = { Schedule };

    ghost view = { λ s. record { calls = s.calls; failing = s.failing.items; faults = s.faults } };
}

impl FaultSchedule {
    /// A schedule in which no call fails.
    pub fn new(alloc: Global) -> Self
        ensures { result ≡ record { calls = 0; failing = []; faults = 0 } }
    {
        FaultSchedule {
            calls: 0,
            failing: Vec::new(alloc),
            faults: 0,
        }
    }

    /// Has the call of this number fail, counted from 1 over all calls. A refusal changes nothing.
    pub fn fail_at(&mut self, call: u64) -> Result<(), Memory>
        ensures listed { OnOk result (self.new ≡ record self.old { failing = self.old.failing ++ call ∷ [] }) }
        ensures unchanged { OnErr result (self.new ≡ self.old) }
    {
        self.failing.push(call)?;
        Ok(())
    }

    /// Counts one more call, and tells whether it is to fail. A fault is counted too.
    pub fn fails_now(&mut self) -> bool
        ensures listed { IsTrue result ↔ Contains self.old.failing (one_more self.old.calls) }
        ensures never_falls { self.old.faults ≤ self.new.faults }
        ensures counted { self.new ≡ after_call self.old result }
    {
        self.calls = self.calls.saturating_add(1);
        let fails = self.failing.contains(&self.calls);
        if fails {
            self.faults = self.faults.saturating_add(1);
        }
        fails
    }
}
