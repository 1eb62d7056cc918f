//! Names of imports: what they ask for, and the texts of locked packages, of requirements and of trees.
#![tactic(auto)]

mod cut;
mod error;
mod fault;
mod import;
pub mod laws;
mod mark;
mod parser;
mod reading;
mod same;
mod texts;
mod tree;

pub use cut::behind;
pub use error::ImportNameError;
pub use import::{Import, ImportKind};
pub use mark::marked;
pub use parser::DependencyImportParser;
pub use texts::{kindless_name, locked_package, version_string, versioned_package};
pub use tree::{TreeBuilder, create_child_node, new_tree};
