//! Why a client of registries does not do what it is asked.
#![tactic(auto)]

mod calls;
mod error;
mod plans;
mod text;
mod updates;

pub use error::{ClientError, Other, PlanFault};
pub use text::plan_text;
