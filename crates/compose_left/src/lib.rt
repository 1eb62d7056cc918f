//! Where the resources and the named types of wired instances come from, and how imports that are left open merge.
//!
//! The terms are those of the Component Model's `Explainer.md`.
#![tactic(auto)]

mod copies;
mod error;
mod finding;
mod known;
pub mod laws;
mod merge;
mod numbering;
mod origin;
mod path;
mod places;
mod placing;
mod renaming;
mod spots;
mod wiring;

pub use copies::called_otherwise;
pub use error::MergeError;
pub use finding::origins;
pub use known::Origins;
pub use merge::MergedImport;
pub use origin::Origin;
pub use path::Path;
pub use spots::{Spot, Thing};
pub use wiring::{Input, Wire, follows_order, wires_by_import};
