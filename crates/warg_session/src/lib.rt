//! Updates of registries over a link, with what is said on the way.
#![tactic(auto)]

mod error;
pub mod laws;
mod recording;
mod update;

pub use error::UpdateRefusal;
pub use recording::Recording;
pub use update::{UpdateStart, Updated, run_update};
pub use warg_update::Settings;
