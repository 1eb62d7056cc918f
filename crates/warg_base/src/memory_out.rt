//! An output in memory.

ghost use Rattle.std.specs.Prelude.{◌≡◌, ◌≤◌, ◌+◌, ◌++◌, ◌∷◌, [], ◌↔◌, Some, IsErrOf, OnOk, OnErr, Contains};
ghost use Rattle.warg_values.specs.Faults.{Rose, after_call, one_more};
ghost use Rattle.warg_base.specs.Failures.{has_out_failed};
ghost use Rattle.warg_base.specs.Out.{LeavesPartlyAdded};

use crate::out::{Out, OutError};
use std::alloc::Global;
use std::marker::Model;
use warg_values::{FaultSchedule, Memory};

/// An output in memory, which tells what was written.
#[derive(Debug, Drop)]
pub struct MemoryOut {
    bytes: Vec<u8>,
    schedule: FaultSchedule,
}

impl Model for MemoryOut {
    ghost use Rattle.warg_base.specs.Out.{OutHeld};

    ghost Value = { OutHeld };

    ghost view = { λ o. record { bytes = o.bytes.items; schedule = o.schedule } };
}

impl MemoryOut {
    /// An output to which nothing was written.
    pub fn new(alloc: Global) -> Self
        ensures { result ≡ record { bytes = []; schedule = record { calls = 0; failing = []; faults = 0 } } }
    {
        MemoryOut {
            bytes: Vec::new(alloc),
            schedule: FaultSchedule::new(alloc),
        }
    }

    /// What was written so far.
    pub fn bytes(&self) -> &[u8]
        ensures { result.now ≡ self.now.bytes }
    {
        &self.bytes
    }

    /// Has the call of this number fail, counted from 1 over all calls. A refusal changes nothing.
    pub fn fail_at(&mut self, call: u64) -> Result<(), Memory>
        ensures listed { OnOk result (self.new ≡ record self.old { schedule = record self.old.schedule { failing = self.old.schedule.failing ++ call ∷ [] } }) }
        ensures unchanged { OnErr result (self.new ≡ self.old) }
    {
        self.schedule.fail_at(call)
    }
}

impl Out for MemoryOut {
    ghost faults = { λ o. o.schedule.faults };

    ghost told = { λ o. Some o.bytes };

    /// Writes all of `bytes`, or none: a call that is to fail, and one that finds no memory, writes nothing.
    fn write_all(&mut self, _alloc: Global, bytes: &[u8]) -> Result<(), OutError>
        ensures never_falls { self.old.schedule.faults ≤ self.new.schedule.faults }
        ensures written { OnOk result (self.new.bytes ≡ self.old.bytes ++ bytes.now) }
        ensures refused { OnErr result (LeavesPartlyAdded (Some self.old.bytes) (Some self.new.bytes) bytes.now) }
        ensures unchanged { OnErr result (self.new.bytes ≡ self.old.bytes) }
        ensures failed { IsErrOf result OutError.Failed ↔ Contains self.old.schedule.failing (one_more self.old.schedule.calls) }
        ensures counted { IsErrOf result OutError.Failed → Rose self.old.schedule.faults self.new.schedule.faults }
        ensures scheduled { self.new.schedule ≡ after_call self.old.schedule (has_out_failed result) }
    {
        if self.schedule.fails_now() {
            return Err(OutError::Failed);
        }
        self.bytes.extend_from_slice(bytes)?;
        Ok(())
    }
}
