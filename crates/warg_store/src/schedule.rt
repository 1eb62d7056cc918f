//! Which calls of a store in memory are to fail.

ghost use Rattle.std.specs.Prelude.{◌≡◌, ◌≤◌, ◌++◌, ◌∷◌, [], is_some, OnOk, OnErr};
ghost use Rattle.warg_store.specs.Faults.{planned, after_call, answer_of, has_store_failed};
ghost use Rattle.warg_store.specs.Schedules.{schedule_of};

use crate::after::After;
use crate::error::StoreError;
use std::alloc::Global;
use warg_values::Memory;

/// Counts the calls of a store in memory, and makes chosen ones fail, as a disk would.
#[derive(Debug, Drop)]
pub struct StoreSchedule {
    calls: u64,
    failing: Vec<(u64, After)>,
    faults: u64,
}

impl StoreSchedule {
    /// A schedule in which no call fails.
    pub fn new(alloc: Global) -> Self
        ensures { schedule_of result ≡ record { calls = 0; failing = []; faults = 0 } }
    {
        StoreSchedule {
            calls: 0,
            failing: Vec::new(alloc),
            faults: 0,
        }
    }

    /// Has the call of this number fail, counted from 1 over all calls, and leave this. A refusal changes nothing.
    pub fn fail_at(&mut self, call: u64, after: After) -> Result<(), Memory>
        ensures listed { OnOk result (schedule_of self.new
            ≡ record (schedule_of self.old) { failing = (schedule_of self.old).failing ++ (call, after) ∷ [] }) }
        ensures unchanged { OnErr result (schedule_of self.new ≡ schedule_of self.old) }
    {
        self.failing.push((call, after))?;
        Ok(())
    }

    /// How many calls have failed.
    pub fn faults(&self) -> u64
        ensures { result ≡ (schedule_of self.now).faults }
    {
        self.faults
    }

    /// What the call that comes next leaves, where it is to fail.
    pub fn planned(&self) -> Option<After>
        ensures { result ≡ planned (schedule_of self.now) }
    {
        let next = self.calls.saturating_add(1);
        for (call, after) in self.failing.as_slice() {
            if *call == next {
                return Some(*after);
            }
        }
        None
    }

    /// Counts one more call, and one more fault where it failed.
    pub fn count(&mut self, failed: bool)
        ensures never_falls { (schedule_of self.old).faults ≤ (schedule_of self.new).faults }
        ensures counted { schedule_of self.new ≡ after_call (schedule_of self.old) failed }
    {
        self.calls = self.calls.saturating_add(1);
        if failed {
            self.faults = self.faults.saturating_add(1);
        }
    }

    /// Counts a call that changes nothing, and tells whether it is to fail.
    pub fn fails_now(&mut self) -> bool
        ensures never_falls { (schedule_of self.old).faults ≤ (schedule_of self.new).faults }
        ensures planned { result ≡ is_some (planned (schedule_of self.old)) }
        ensures counted { schedule_of self.new ≡ after_call (schedule_of self.old) result }
    {
        let fails = self.planned().is_some();
        self.count(fails);
        fails
    }

    /// Counts a call that changes entries, and tells its answer, by what was planned and whether there was memory for
    /// it.
    pub fn finish(
        &mut self,
        failing: Option<After>,
        done: Result<(), Memory>,
    ) -> Result<(), StoreError>
        ensures never_falls { (schedule_of self.old).faults ≤ (schedule_of self.new).faults }
        ensures answer { result ≡ answer_of failing done }
        ensures counted { schedule_of self.new ≡ after_call (schedule_of self.old) (has_store_failed result) }
    {
        let answer = match (done, failing) {
            (Ok(()), None) => Ok(()),
            (Ok(()), Some(_)) => Err(StoreError::Failed),
            (Err(Memory), _) => Err(StoreError::Memory),
        };
        self.count(matches!(answer, Err(StoreError::Failed)));
        answer
    }
}
