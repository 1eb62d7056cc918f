//! The imports of a component.

ghost use Rattle.std.specs.Prelude.{◌≡◌, Some, decimal};

use crate::naming::Named;
use comp_format::TypeRef;
use std::fmt;
use warg_base::Text;

/// The place of an import among a component's imports, counted from 0.
#[derive(Clone, Copy, Debug, PartialEq, Eq, PartialOrd, Ord, Hash)]
pub struct ImportIndex(pub usize);

impl From<usize> for ImportIndex {
    ghost from_gives = { λ n index. index.0 ≡ n };

    fn from(index: usize) -> ImportIndex {
        ImportIndex(index)
    }
}

impl fmt::Display for ImportIndex {
    ghost output = { λ index. Some (decimal index.0) };

    fn fmt<W: fmt::Write>(&self, f: &mut fmt::Formatter<W>) -> fmt::Result {
        fmt::Display::fmt(&self.0, f)
    }
}

/// An import of a component: its name, and its description.
#[derive(Debug, Drop)]
pub struct ComponentImport {
    /// The name.
    pub name: Text,
    /// What is asked for, by the index of its type.
    pub ty: TypeRef,
}

impl Named for ComponentImport {
    ghost name = { λ import. import.name };

    fn name(&self) -> &Text {
        &self.name
    }
}

/// The imports of a component, in order. The iterator has their number.
pub type Imports<'a> = std::slice::Iter<'a, ComponentImport>;
