//! Locks on paths, as stores in files hold them: over the host and in memory.
#![tactic(auto)]

mod file_lock;
mod host_locks;
mod locks;
mod memory_locks;

pub use file_lock::FileLock;
pub use host_locks::HostLocks;
pub use locks::{LockError, Locks};
pub use memory_locks::{MemoryLock, MemoryLocks};
pub use warg_values::{FaultSchedule, Memory, Text};
