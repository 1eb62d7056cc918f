//! What an instance exports, where it is exported.

ghost use Rattle.std.specs.Prelude.{◌≡◌, IfOk};
ghost use Rattle.comp_entity.specs.Views.{named_entities};
ghost use Rattle.compose_check.specs.Checked.{entities_placed, hidden_export};
ghost use Rattle.compose_check.specs.Composition.{IsComposition, composition_tree, wiring};
ghost use Rattle.compose_left.specs.Numbers.{AreOrigins};
ghost use Rattle.compose_left.specs.Wiring.{HasNoCircle, Wiring, shape_at};

use crate::composition::Composition;
use comp_entity::Entity;
use compose_left::Origins;
use compose_needs::export_needs;
use std::alloc::Global;
use warg_values::{Memory, Text};

/// What an instance exports; nothing where it is not there.
fn exports_of<'a>(composition: &Composition<'a>, instance: usize) -> &'a [(Text, Entity)]
    requires { IsComposition (composition_tree composition.now) }
    ensures { named_entities result.now
        ≡ (shape_at (wiring (composition_tree composition.now)).shapes instance).exports }
{
    match composition.instances.get(instance) {
        Some(number) => {
            let component = composition.components[*number];
            &component.types().exports
        }
        None => &[],
    }
}

/// Exports of an instance with the numbers of origins in place.
fn placed_exports(
    alloc: Global,
    origins: &Origins,
    instance: usize,
    exports: &[(Text, Entity)],
) -> Result<Vec<(Text, Entity)>, Memory>
    ensures { (w : Wiring) → AreOrigins origins.now w → HasNoCircle w → IfOk result (λ found.
        named_entities found.items ≡ entities_placed w instance (named_entities exports.now)) }
{
    let mut found = Vec::with_capacity(alloc, exports.len())?;
    for export in exports {
        let name = export.0.try_clone(alloc)?;
        let entity = origins.place(alloc, instance, &export.1)?;
        found.push((name, entity))?;
    }
    Ok(found)
}

/// The name of the first export of an instance that mentions a resource which no left import brings, and which the
/// instance does not export there or earlier, so that the instance can't be exported. `None` where there is none.
pub fn hidden_export(
    alloc: Global,
    composition: &Composition<'_>,
    origins: &Origins,
    instance: usize,
) -> Result<Option<Text>, Memory>
    requires made { IsComposition (composition_tree composition.now) }
    requires origins { AreOrigins origins.now (wiring (composition_tree composition.now)) }
    requires no_circle { HasNoCircle (wiring (composition_tree composition.now)) }
    ensures { IfOk result (λ found. found ≡ hidden_export (wiring (composition_tree composition.now)) instance) }
{
    let exports = exports_of(composition, instance);
    let found = placed_exports(alloc, origins, instance, exports)?;
    let name = export_needs(alloc, origins, &found)?;
    Ok(name)
}
