//! What declarations bring into the scopes of a WebAssembly component: descriptions, imports and exports, aliases, and
//! types that are scopes of their own, with numbers of a table of types in place of trees.
//!
//! The terms are those of the Component Model's `Explainer.md`.
#![tactic(auto)]

mod aliases;
mod counting;
mod descriptions;
mod entries;
mod exported;
mod mentions;
mod new_names;
mod outer;
mod outer_aliases;
mod scope;

pub use aliases::{add_core_alias, add_export_alias, add_unknown};
pub use counting::counts_of;
pub use descriptions::{described, described_instance, described_type};
pub use entries::{Entries, entry};
pub use new_names::NewNames;
pub use outer::{item_at, item_outside};
pub use outer_aliases::{add_alias, scopes_within};
pub use scope::{Scope, add_made, counts_with};
