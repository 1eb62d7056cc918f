//! Laws of what can be taken out of a table: each is a function that does nothing, and is proved of all of them.

ghost use Rattle.comp_entity.specs.declared.entity.Entity.{Entity};
ghost use Rattle.comp_entity.specs.declared.entity.ValueShape.{ValueShape};
ghost use Rattle.comp_entity.specs.declared.module.ModuleShape.{ModuleShape};
ghost use Rattle.comp_entity.specs.Entity.{EntityTree, ValueTree};
ghost use Rattle.comp_table.specs.Plain.{plain_entity, plain_module, plain_value};
ghost use Rattle.comp_table.specs.Rows.{entity_plain, value_plain};
ghost use Rattle.comp_table.specs.Shown.{IsShown};
ghost use Rattle.comp_view.specs.Fields.{EntityHasFields, HasFields};
ghost use Rattle.comp_view.specs.Kinds.{IsTreeOf};
ghost use Rattle.comp_view.specs.Kinds as kind;

/// What lies in memory has a tree of heads of what can lie there, so that what was put into a table comes out again.
pub fn entities_in_memory_lie_there()
    ensures { (e : Entity) → IsTreeOf kind.AnyEntity (entity_plain e) }
{}

/// The same for value types.
pub fn values_in_memory_lie_there()
    ensures { (v : ValueShape) → IsTreeOf kind.ValueType (value_plain v) }
{}

/// An entity can lie in memory where each field of its records has a type, and no core module of a component's own
/// stands in it.
pub fn shown_entities_can_lie_in_memory()
    ensures { (e : EntityTree) → IsShown e → EntityHasFields e → IsTreeOf kind.AnyEntity (plain_entity e) }
{}

/// A value type can lie in memory where each field of its records has a type.
pub fn values_can_lie_in_memory()
    ensures { (v : ValueTree) → HasFields v → IsTreeOf kind.ValueType (plain_value v) }
{}

/// A core module can lie in memory.
pub fn modules_can_lie_in_memory()
    ensures { (m : ModuleShape) → IsTreeOf kind.AnyEntity (plain_module m) }
{}
