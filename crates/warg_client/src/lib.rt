//! A client of registries, with what it keeps: it assembles components of plans,
//! and bundles components with the contents of releases.
#![tactic(auto)]

mod assemble;
mod bundler;
mod client;
mod lock_list;
mod packages;
mod settings;

pub use client::{Assembly, Client};
pub use lock_list::LockListBuilder;
pub use settings::Settings;
pub use warg_complete::{ClientError, Other, PlanFault};
pub use warg_compose::Lock;
