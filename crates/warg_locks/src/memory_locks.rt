//! Locks in memory.

ghost use Rattle.std.specs.Prelude.{◌≡◌, ◌≤◌, ◌++◌, ◌∷◌, [], ◌↔◌, ◌⊎◌, true, false, Ok, None, IfOk, IfSome, IsErrOf, IsTrue, OnOk, OnErr, Contains};
ghost use Rattle.warg_values.specs.Faults.{Rose, after_call, one_more};
ghost use Rattle.warg_locks.specs.Held.{after_meeting, has_failed, is_held, is_met};

use crate::locks::{LockError, Locks};
use std::alloc::Global;
use std::marker::Model;
use warg_values::{Memory, Text};

/// A lock that locks in memory gave.
#[derive(Debug, Drop)]
pub struct MemoryLock {
    path: Text,
}

impl Model for MemoryLock {
    ghost use Rattle.std.specs.Prelude.{ℕ, List};

    ghost Value = { List ℕ };

    ghost view = { λ l. l.path };
}

impl MemoryLock {
    /// The path that is locked.
    pub fn path(&self) -> &str
        ensures { result.now ≡ self.now }
    {
        self.path.as_str()
    }
}

/// Locks in memory. Somebody else holds the paths that it lists, and never gives them back; what it gives itself, it
/// may give again.
#[derive(Debug, Drop)]
pub struct MemoryLocks {
    held: Vec<Text>,
    met: u64,
    calls: u64,
    failing: Vec<u64>,
    faults: u64,
}

impl Model for MemoryLocks {
    ghost use Rattle.warg_locks.specs.Held.{LocksHeld};

    ghost Value = { LocksHeld };

    ghost view = { λ l. record {
      held = l.held.items;
      met = l.met;
      schedule = record { calls = l.calls; failing = l.failing.items; faults = l.faults };
    } };
}

impl MemoryLocks {
    /// Locks of which somebody else holds these paths. No call is to fail.
    pub fn new(alloc: Global, held: Vec<Text>) -> Self
        ensures { result
            ≡ record { held = held.items; met = 0; schedule = record { calls = 0; failing = []; faults = 0 } } }
    {
        MemoryLocks {
            held,
            met: 0,
            calls: 0,
            failing: Vec::new(alloc),
            faults: 0,
        }
    }

    /// Has the call of this number fail, counted from 1 over all calls. A refusal changes nothing.
    pub fn fail_at(&mut self, call: u64) -> Result<(), Memory>
        ensures listed { OnOk result (self.new ≡ record self.old {
          schedule = record self.old.schedule { failing = self.old.schedule.failing ++ call ∷ [] };
        }) }
        ensures unchanged { OnErr result (self.new ≡ self.old) }
    {
        self.failing.push(call)?;
        Ok(())
    }

    /// Counts one more call, and tells whether it is to fail. A fault is counted too.
    fn fails_now(&mut self) -> bool
        ensures listed { IsTrue result ↔ Contains self.old.schedule.failing (one_more self.old.schedule.calls) }
        ensures never_falls { self.old.schedule.faults ≤ self.new.schedule.faults }
        ensures counted { self.new ≡ after_meeting self.old false result }
    {
        self.calls = self.calls.saturating_add(1);
        let fails = self.failing.contains(&self.calls);
        if fails {
            self.faults = self.faults.saturating_add(1);
        }
        fails
    }

    /// Whether somebody else holds a path.
    fn is_held(&self, path: &Text) -> bool
        ensures { result ≡ is_held self.now.held path.now }
    {
        self.held.contains(path)
    }

    /// Counts that a path was met held.
    fn meet(&mut self)
        ensures never_falls { self.old.met ≤ self.new.met }
        ensures counted { self.new ≡ record self.old { met = one_more self.old.met } }
    {
        self.met = self.met.saturating_add(1);
    }

    /// Counts a fault that no schedule asked for.
    fn fault(&mut self)
        ensures never_falls { self.old.schedule.faults ≤ self.new.schedule.faults }
        ensures counted { self.new ≡ record self.old {
          schedule = record self.old.schedule { faults = one_more self.old.schedule.faults };
        } }
    {
        self.faults = self.faults.saturating_add(1);
    }
}

impl Locks for MemoryLocks {
    type Lock = MemoryLock;

    ghost faults = { λ l. l.schedule.faults };

    ghost met = { λ l. l.met };

    ghost locked = { λ l. l };

    /// Locks the path, unless it is one of those that somebody else holds.
    fn try_lock(&mut self, alloc: Global, path: &str) -> Result<Option<MemoryLock>, LockError>
        ensures never_falls { self.old.schedule.faults ≤ self.new.schedule.faults }
        ensures met_never_falls { self.old.met ≤ self.new.met }
        ensures on_path { IfOk result (λ found. IfSome found (λ lock. lock ≡ path.now)) }
        ensures free { IfOk result (λ found. IfSome found (λ lock. is_held self.old.held path.now ≡ false)) }
        ensures held { result ≡ Ok None → Rose self.old.met self.new.met }
        ensures held_by_another { result ≡ Ok None → is_held self.old.held path.now ≡ true }
        ensures failed { IsErrOf result LockError.Failed
            ↔ Contains self.old.schedule.failing (one_more self.old.schedule.calls) }
        ensures counted { IsErrOf result LockError.Failed → Rose self.old.schedule.faults self.new.schedule.faults }
        ensures after { self.new ≡ after_meeting self.old (is_met result) (has_failed result) }
    {
        if self.fails_now() {
            return Err(LockError::Failed);
        }
        let path = Text::copy_of(alloc, path)?;
        if self.is_held(&path) {
            self.meet();
            return Ok(None);
        }
        Ok(Some(MemoryLock { path }))
    }

    /// Locks the path. It can't wait, so a path that somebody else holds is a fault.
    fn lock(&mut self, alloc: Global, path: &str) -> Result<MemoryLock, LockError>
        ensures never_falls { self.old.schedule.faults ≤ self.new.schedule.faults }
        ensures met_never_falls { self.old.met ≤ self.new.met }
        ensures on_path { IfOk result (λ lock. lock ≡ path.now) }
        ensures free { IfOk result (λ lock. is_held self.old.held path.now ≡ false) }
        ensures failed { IsErrOf result LockError.Failed → Rose self.old.schedule.faults self.new.schedule.faults }
        ensures cause { IsErrOf result LockError.Failed
            → (is_held self.old.held path.now ≡ true)
            ⊎ Contains self.old.schedule.failing (one_more self.old.schedule.calls) }
        ensures fails { Contains self.old.schedule.failing (one_more self.old.schedule.calls)
            → IsErrOf result LockError.Failed }
        ensures after { self.new ≡ after_meeting self.old false (has_failed result) }
    {
        if self.fails_now() {
            return Err(LockError::Failed);
        }
        let path = Text::copy_of(alloc, path)?;
        if self.is_held(&path) {
            self.fault();
            return Err(LockError::Failed);
        }
        Ok(MemoryLock { path })
    }
}
