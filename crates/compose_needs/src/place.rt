//! Places of entities.

use compose_left::Thing;
use warg_values::Sequence;

/// A place of an entity.
#[derive(Drop)]
pub struct Place {
    /// What is named there.
    pub named: Sequence<Thing>,
    /// What is mentioned there, and has to be named there or earlier.
    pub asked: Sequence<Thing>,
}
