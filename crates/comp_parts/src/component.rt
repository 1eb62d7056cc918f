//! The shape of a component of items.

ghost use Rattle.std.specs.Prelude.{◌≡◌, [], IfErr, IfOk, map, true};
ghost use Rattle.comp_define.specs.ScopeTypes.{ShowsEntity};
ghost use Rattle.comp_entity.specs.Bounds.{bounded};
ghost use Rattle.comp_entity.specs.Views.{shape_tree};
ghost use Rattle.comp_format.specs.Items.{item_tree};
ghost use Rattle.comp_parts.specs.Parts.{TellsFault, TellsItem, component_of, shape_fault};
ghost use Rattle.comp_scope.specs.Shape.{Expands, Parts, after_parts, shape_within};
ghost use Rattle.comp_scope.specs.Spaces.{nothing_known};
ghost use Rattle.comp_space.specs.Faults.{Found};
ghost use Rattle.warg_values.specs.Answers.{Gives};

use crate::error::ShapeError;
use crate::parts::read_scope;
use crate::shape::shape_at;
use comp_define::component;
use comp_entity::Shape;
use comp_format::Item;
use comp_space::ScopeError;
use comp_table::TypeTable;
use std::alloc::Global;

/// What a component of these items imports and exports, with all indices followed and all naming bits (`Explainer.md`,
/// "Component Definitions"). The items are those that were read from its bytes. An error is exactly the fault that they
/// have within the bounds, and tells the first item that is at fault, up to want of memory.
pub fn shape_of(alloc: Global, items: &[Item<'_>]) -> Result<Shape, ShapeError>
    requires { (parts : Parts) × Expands (map item_tree items.now) parts }
    ensures found { (parts : Parts) → Expands (map item_tree items.now) parts
        → Gives shape_fault shape_tree result (shape_within bounded parts) }
    ensures first { IfErr result (λ e. (parts : Parts) → Expands (map item_tree items.now) parts
        → TellsItem e parts) }
{
    let mut table = TypeTable::new(alloc);
    let number = number_of(&mut table, alloc, items)?;
    match shape_at(&table, alloc, number) {
        Ok(shape) => Ok(shape),
        Err(ScopeError::TooBig) => Err(ShapeError::TooBig),
        // A component that was read has no other fault.
        Err(_) => Err(ShapeError::Memory),
    }
}

/// The number of the component of these items.
fn number_of(table: &mut TypeTable, alloc: Global, items: &[Item<'_>]) -> Result<usize, ShapeError>
    requires { (parts : Parts) × Expands (map item_tree items.now) parts }
    ensures found { IfOk result (λ n. (parts : Parts) → Expands (map item_tree items.now) parts
        → Found (λ n k. ShowsEntity table.new n (component_of k)) n
        (after_parts bounded [] (nothing_known true) parts)) }
    ensures refused { IfErr result (λ e. (parts : Parts) → Expands (map item_tree items.now) parts
        → TellsFault e (after_parts bounded [] (nothing_known true) parts)) }
    ensures first { IfErr result (λ e. (parts : Parts) → Expands (map item_tree items.now) parts
        → TellsItem e parts) }
{
    let scope = read_scope(table, alloc, items)?;
    let number = component(table, alloc, &scope)?;
    Ok(number)
}
