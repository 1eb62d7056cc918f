//! The outside, as the workspace reaches it: files and printed lines, over the host and in memory. The values of
//! `warg_values` are handed on.
#![tactic(auto)]

mod files;
mod host_files;
mod host_out;
mod memory_files;
mod memory_out;
mod out;

pub use files::{FileError, Files};
pub use host_files::HostFiles;
pub use host_out::HostOut;
pub use memory_files::MemoryFiles;
pub use memory_out::MemoryOut;
pub use out::{Out, OutError};
pub use warg_values::{FaultSchedule, Memory, Moment, Sequence, Text};
