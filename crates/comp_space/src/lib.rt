//! What stands in the scopes of a WebAssembly component, with numbers of a table of types in place of trees: the index
//! spaces, and the items that are read into them.
//!
//! The terms are those of the Component Model's `Explainer.md`.
#![tactic(auto)]

mod bounds;
mod core_types;
mod descriptions;
mod error;
pub mod laws;
pub mod nodes;
mod parts;
mod space;
mod standing;
mod types;
mod values;

pub use core_types::{CoreStanding, as_module, core_type_at, core_type_of};
pub use descriptions::{Described, described_component, described_func};
pub use error::ScopeError;
pub use parts::{both, resource_of, standing_at};
pub use space::{CoreCounts, Counts, Space, sort_at};
pub use standing::Standing;
pub use types::{add_func_type, add_value_type};
pub use values::{func_of, value_of};
