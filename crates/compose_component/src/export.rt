//! The exports of a component.

ghost use Rattle.std.specs.Prelude.{◌≡◌, Some, decimal};

use crate::naming::Named;
use comp_format::Sort;
use std::fmt;
use warg_base::Text;

/// The place of an export among a component's exports, counted from 0.
#[derive(Clone, Copy, Debug, PartialEq, Eq, PartialOrd, Ord, Hash)]
pub struct ExportIndex(pub usize);

impl From<usize> for ExportIndex {
    ghost from_gives = { λ n index. index.0 ≡ n };

    fn from(index: usize) -> ExportIndex {
        ExportIndex(index)
    }
}

impl fmt::Display for ExportIndex {
    ghost output = { λ index. Some (decimal index.0) };

    fn fmt<W: fmt::Write>(&self, f: &mut fmt::Formatter<W>) -> fmt::Result {
        fmt::Display::fmt(&self.0, f)
    }
}

/// An export of a component: its name, what it is, and the index of that in the component's index space.
#[derive(Debug, Drop)]
pub struct ComponentExport {
    /// The name.
    pub name: Text,
    /// What it is.
    pub sort: Sort,
    /// Its index in the index space of its sort.
    pub index: u32,
}

impl Named for ComponentExport {
    ghost name = { λ export. export.name };

    fn name(&self) -> &Text {
        &self.name
    }
}

/// The exports of a component, in order. The iterator has their number.
pub type Exports<'a> = std::slice::Iter<'a, ComponentExport>;
