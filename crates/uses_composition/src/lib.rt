//! Callers of the crates that compose components, each proved from their public contracts alone: a module for each
//! crate, whose page quotes it.
#![tactic(auto)]

mod bundle;
mod check;
mod encode;
mod files;
mod graph;
mod naming;
mod needs;
mod order;
mod types;

pub use bundle::imported_and_bundled;
pub use check::written_order;
pub use encode::bundled;
pub use files::composed_by_file;
pub use graph::{linked, reconnect};
pub use naming::nameless;
pub use needs::can_be_imported;
pub use order::names_in_order;
pub use types::import_empty;
