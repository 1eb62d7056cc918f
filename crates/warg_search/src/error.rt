//! Why no plan is found.

use std::fmt;
use thiserror::Error;
use warg_plan::Stop;

/// Why no plan is found.
#[derive(Debug, Drop, Error)]
pub enum SearchError<E: fmt::Debug + fmt::Display + Drop> {
    /// There is none.
    #[error("{0}")]
    NoPlan(Stop),
    /// Something that the walk asks for is not learnt.
    #[error("{0}")]
    Refused(E),
    /// No memory was left.
    #[error("out of memory: free some, or give the program more, and try again")]
    Memory,
}
