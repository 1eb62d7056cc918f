//! Which entities of WebAssembly components can be given where others are asked for, over the numbers of a table.
//!
//! The terms are those of the Component Model's `Explainer.md`.
#![tactic(auto)]

mod called;
mod exact;
mod fit;
mod loosen;
mod modules;
mod names;
mod pair;
mod standing;

pub use exact::fits;
pub use fit::{fits_as_named, fits_loosely};
pub use loosen::loosened;
pub use names::{are_instances, entry_at, names_of};
pub use pair::{Pair, inner};
pub use standing::{Called, StandingFor, place_key, resource_key, standing_for};
