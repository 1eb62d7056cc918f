//! Imports: what their names ask for.

use semver::{Version, VersionReq};
use warg_values::Text;

/// The kind of an import.
#[derive(Debug, Drop, PartialEq, Eq, Hash)]
pub enum ImportKind {
    /// A release that was locked, with its integrity where it has one.
    Locked(Option<Text>),
    /// A package of which a release is to be chosen.
    Unlocked,
    /// An interface, with the text of its version where it has one.
    Interface(Option<Text>),
}

/// What an import's name asks for.
#[derive(Debug, Drop, PartialEq, Eq, Hash)]
pub struct Import {
    /// The name of the package, or of the interface.
    pub name: Text,
    /// The requirement on versions. It holds no build metadata.
    pub req: VersionReq,
    /// The kind.
    pub kind: ImportKind,
    /// The exact version of a locked release, build metadata too, where its name gives it.
    pub exact: Option<Version>,
}
