//! The numbers of components and of instances.

ghost use Rattle.std.specs.Prelude.{◌≡◌, Some, decimal};

use std::fmt;

/// The number of a component of a graph. None is given twice.
#[derive(Clone, Copy, Debug, PartialEq, Eq, PartialOrd, Ord, Hash)]
pub struct ComponentId(pub usize);

impl From<usize> for ComponentId {
    ghost from_gives = { λ n id. id.0 ≡ n };

    fn from(id: usize) -> ComponentId {
        ComponentId(id)
    }
}

impl fmt::Display for ComponentId {
    ghost output = { λ id. Some (decimal id.0) };

    fn fmt<W: fmt::Write>(&self, f: &mut fmt::Formatter<W>) -> fmt::Result {
        fmt::Display::fmt(&self.0, f)
    }
}

/// The number of an instance of a graph. None is given twice.
#[derive(Clone, Copy, Debug, PartialEq, Eq, PartialOrd, Ord, Hash)]
pub struct InstanceId(pub usize);

impl From<usize> for InstanceId {
    ghost from_gives = { λ n id. id.0 ≡ n };

    fn from(id: usize) -> InstanceId {
        InstanceId(id)
    }
}

impl fmt::Display for InstanceId {
    ghost output = { λ id. Some (decimal id.0) };

    fn fmt<W: fmt::Write>(&self, f: &mut fmt::Formatter<W>) -> fmt::Result {
        fmt::Display::fmt(&self.0, f)
    }
}
