//! Numbers that are compared.

ghost use Rattle.std.specs.Prelude.{◌<◌, IfOk};

use warg_values::Memory;

/// The number of a given entity, and that of one that is asked for.
#[derive(Clone, Copy, PartialEq, Eq, PartialOrd, Ord)]
pub struct Pair {
    /// The number of the given one.
    pub given: usize,
    /// The number of the one that is asked for.
    pub asked: usize,
}

/// How many levels more may lie within what lies where so many may.
pub fn inner(levels: usize) -> Result<usize, Memory>
    ensures { IfOk result (λ n. n < levels) }
{
    match levels.checked_sub(1) {
        Some(levels) => Ok(levels),
        None => Err(Memory),
    }
}
