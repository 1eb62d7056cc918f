//! Laws of what is written: each is a function that does nothing, and is proved of all trees.

ghost use Rattle.std.specs.Prelude.{◌≡◌, ◌<◌, List, Some, length, true};
ghost use Rattle.comp_format.specs.Definitions.{Decls};
ghost use Rattle.comp_format.specs.declared.types.TypeRef.{TypeRef};
ghost use Rattle.comp_entity.specs.Entity.{Entries, EntityTree};
ghost use Rattle.compose_writing.specs.Conditions.{KeepsEntries, KeepsForm, are_known, is_known, sides_known};
ghost use Rattle.compose_writing.specs.Scopes.{WrittenScope, knows};
ghost use Rattle.compose_writing.specs.WriteEntities.{write_component, write_entity, write_instance};

/// Where the scopes know each resource and each named type that entities mention and do not bring themselves, there or
/// earlier, something is written for them.
pub fn what_is_known_is_written()
    ensures entity { (e : EntityTree) (ms : List WrittenScope)
        → 0 < length ms
        → is_known (knows ms) e ≡ true
        → KeepsForm e
        → (x : List WrittenScope × TypeRef) × (write_entity e ms ≡ Some x) }
    ensures instance { (exports : Entries) (ms : List WrittenScope)
        → are_known (knows ms) exports ≡ true
        → KeepsEntries exports
        → (x : List WrittenScope × Decls) × (write_instance exports ms ≡ Some x) }
    ensures component { (imports exports : Entries) (ms : List WrittenScope)
        → sides_known (knows ms) imports exports ≡ true
        → KeepsEntries imports
        → KeepsEntries exports
        → (x : List WrittenScope × Decls) × (write_component imports exports ms ≡ Some x) }
{}
