//! Plans, as the walk finds them.

use crate::key::PlanKey;
use semver::Version;
use warg_hash::{AnyHash, PackageName};
use warg_values::Text;

/// What an import of an entry is given.
#[derive(Clone, Copy, Debug, PartialEq, Eq)]
pub enum PlanArg {
    /// Another entry, whole, by its place in the plan.
    Entry(usize),
    /// Nothing: the import is left open.
    Left,
}

/// An entry of a plan: an instance of a package's release.
#[derive(Debug, Drop)]
pub struct PlanEntry {
    /// By what it is called.
    pub key: PlanKey,
    /// The package.
    pub package: PackageName,
    /// The version of the release.
    pub version: Version,
    /// The digest of the release's content.
    pub digest: AnyHash,
    /// The content, a component.
    pub content: Vec<u8>,
    /// For each import of the content, in order, its name and what it is given.
    pub arguments: Vec<(Text, PlanArg)>,
}

/// A plan: its entries, each behind those that it is given.
#[derive(Debug, Drop)]
pub struct Plan {
    /// The entries. The last one is the root.
    pub entries: Vec<PlanEntry>,
}
