//! What a client keeps: checkpoints and logs of registries, what is to be published, contents, and the registries of
//! namespaces, in stores that tell what they hold.
#![tactic(auto)]

mod after;
mod content;
mod error;
pub mod laws;
mod listing;
mod memory_content;
mod memory_namespaces;
mod memory_registry;
mod namespaces;
mod one_slot;
mod registry;
mod resets;
mod schedule;
mod slots;
mod sound;
mod stored;

pub use after::After;
pub use content::ContentStorage;
pub use error::{EntryKind, StoreError};
pub use listing::list_package;
pub use memory_content::MemoryContent;
pub use memory_namespaces::MemoryNamespaces;
pub use memory_registry::MemoryRegistry;
pub use namespaces::NamespaceMapStorage;
pub use registry::RegistryStorage;
