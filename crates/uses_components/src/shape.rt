//! A caller of `comp_shape`.

ghost use Rattle.std.specs.Prelude.{◌≡◌, length, IfOk};
ghost use Rattle.comp_entity.specs.Entity.{ShapeTree};
ghost use Rattle.comp_shape.specs.Shape.{HasShape};

use comp_shape::{ShapeError, read_shape};
use std::alloc::Global;

/// How many exports a component has.
pub fn export_count(alloc: Global, bytes: &[u8]) -> Result<usize, ShapeError>
    ensures { IfOk result (λ count. (s : ShapeTree) × HasShape bytes.now s × (length s.exports ≡ count)) }
{
    match read_shape(alloc, bytes) {
        Ok(shape) => Ok(shape.exports.len()),
        Err(error) => Err(error),
    }
}
