//! Laws over definitions alone.

ghost use Rattle.std.specs.Prelude.{◌≡◌, ◌≤◌, ◌++◌, ◌∷◌, [], ℕ, List, Some};
ghost use Rattle.comp_entity.specs.Entity.{EntityTree, Name};
ghost use Rattle.comp_entity.specs.Places.{Path};
ghost use Rattle.comp_format.specs.declared.types.TypeRef.{TypeRef};
ghost use Rattle.compose_writing.specs.Scopes.{WrittenScope, outermost};
ghost use Rattle.compose_writing.specs.WriteEntities.{write_also, write_entity, write_import};
ghost use Rattle.compose_types.specs.Largest.{AreDeclared, IsDeclared, decls_size, scope_size, scopes_size, written_size};
ghost use Rattle.compose_types.specs.Scopes.{State, outermost_scope, scopes};

/// The component that a state builds is the last of its scopes.
pub fn the_outermost_is_last()
    ensures { (s : State) → (inner : List WrittenScope) × (scopes s ≡ inner ++ outermost_scope s ∷ []) }
{}

/// Scopes only grow where something is written into them: a number that is not above the largest of what one call writes
/// is not above the largest of what is written behind it.
pub fn what_is_written_only_grows()
    ensures entity { (e : EntityTree) (ms : List WrittenScope) (x : List WrittenScope × TypeRef)
        → write_entity e ms ≡ Some x
        → scopes_size ms ≤ written_size x }
    ensures import { (name : List ℕ) (e : EntityTree) (ty : TypeRef) (ms : List WrittenScope)
        → scopes_size ms ≤ scopes_size (write_import name e ty ms) }
    ensures also { (number : Name) (from : ℕ) (path : Path) (ms : List WrittenScope)
        → scopes_size ms ≤ scopes_size (write_also number from path ms) }
{}

/// All that the index spaces of scopes number is declared in them, so that the largest of a scope is that of its
/// declarations.
pub fn what_is_numbered_is_declared()
    ensures begun { AreDeclared (outermost ∷ []) }
    ensures entity { (e : EntityTree) (ms : List WrittenScope) (x : List WrittenScope × TypeRef)
        → AreDeclared ms → write_entity e ms ≡ Some x → AreDeclared x.0 }
    ensures import { (name : List ℕ) (e : EntityTree) (ty : TypeRef) (ms : List WrittenScope)
        → AreDeclared ms → AreDeclared (write_import name e ty ms) }
    ensures also { (number : Name) (from : ℕ) (path : Path) (ms : List WrittenScope)
        → AreDeclared ms → AreDeclared (write_also number from path ms) }
    ensures size { (m : WrittenScope) → IsDeclared m → scope_size m ≡ decls_size m.decls }
{}
