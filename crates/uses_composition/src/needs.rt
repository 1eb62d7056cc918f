//! A caller of `compose_needs`.

ghost use Rattle.std.specs.Prelude.{◌≡◌, ◌↔◌, None, IfOk, IsTrue};
ghost use Rattle.comp_entity.specs.Views.{shape_tree};
ghost use Rattle.compose_needs.specs.Exports.{component_hides};

use comp_shape::Shape;
use compose_needs::component_needs;
use std::alloc::Global;
use warg_values::Memory;

/// Whether all that a component's imports and exports mention is brought or exported there or earlier, so that the
/// component can be imported.
pub fn can_be_imported(alloc: Global, shape: &Shape) -> Result<bool, Memory>
    ensures { IfOk result (λ can. IsTrue can ↔ (component_hides (shape_tree shape.now) ≡ None)) }
{
    let found = component_needs(alloc, shape)?;
    Ok(found.is_none())
}
