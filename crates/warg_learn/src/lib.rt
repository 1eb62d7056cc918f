//! Learning what a plan needs: the logs of packages, which are updated and kept, and contents, from a store or by a
//! download.
#![tactic(auto)]

mod error;
mod group;
mod kept;
mod learner;
mod log;
mod package;
mod updated;
mod ways;

pub use error::LearnError;
pub use kept::{KeptPackage, load_kept};
pub use learner::Learner;
pub use warg_fetch::{FetchError, LoadError, registry_for};
pub use warg_search::{SearchError, search_from, search_plan};
pub use warg_session::{Recording, UpdateRefusal};
pub use ways::{KeptFirst, Updates};
