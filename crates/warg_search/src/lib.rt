//! The search of a plan: the walk over what is known, and whoever learns what the walk asks for.
#![tactic(auto)]

mod error;
mod plan;
mod way;

pub use error::SearchError;
pub use plan::{learn, search_from, search_plan};
pub use way::Learn;
