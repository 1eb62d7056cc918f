//! Laws of what is written for types: each is a function that does nothing, and is proved of all entities and scopes.
//!
//! What is written is in `compose_writing`, what it reads as in `comp_scope`, and what names mean in `specs/Meaning`.

ghost use Rattle.std.specs.Prelude.{◌≡◌, ℕ, List, [], ◌∷◌, Some, Ok, false, true};
ghost use Rattle.std.specs.List.{AllByRecursion, list_any};
ghost use Rattle.std.specs.Str.{str_eq_ignore_ascii_case};
ghost use Rattle.comp_format.specs.CoreTypes as core;
ghost use Rattle.comp_format.specs.Definitions as tree;
ghost use Rattle.comp_format.specs.declared.types.TypeRef.{TypeRef};
ghost use Rattle.comp_format.specs.declared.types.TypeRef.TheVariants as description;
ghost use Rattle.comp_entity.specs.declared.module.ModuleShape.{ModuleShape};
ghost use Rattle.comp_entity.specs.Entity.{Name, EntityTree, IsInstance, IsComponent, Entries};
ghost use Rattle.comp_entity.specs.Names.{OfPlace, in_value};
ghost use Rattle.comp_entity.specs.Places.{Path};
ghost use Rattle.comp_entity.specs.Bounds.{unbounded};
ghost use Rattle.comp_scope.specs.Spaces.{Known, KnownCoreType, OfModules, Standing, nothing_known};
ghost use Rattle.comp_scope.specs.CoreScopes.{core_type_of};
ghost use Rattle.comp_scope.specs.Shape.{after_parts};
ghost use Rattle.compose_writing.specs.Conditions.{is_known};
ghost use Rattle.compose_writing.specs.Scopes.{WrittenScope, outermost};
ghost use Rattle.compose_writing.specs.WriteEntities.{at_end, write_also, write_component, write_entity, write_import, write_instance};
ghost use Rattle.compose_writing.specs.WriteModules.{write_module};
ghost use Rattle.compose_meaning.specs.Described.{IsDescribed};
ghost use Rattle.compose_meaning.specs.Items.{parts_for};
ghost use Rattle.compose_meaning.specs.Keeps.{GoesOn, IsImported, IsNextType, IsWritten, Keeps, spot_of};
ghost use Rattle.compose_meaning.specs.Meaning.{Meaning, Means, meant};
ghost use Rattle.compose_meaning.specs.Readable.{AreApart, AreOlder, HasMeaning, IsOlder, Spot, exported_resources, new_resources};
ghost use Rattle.compose_meaning.specs.Stands.{at_place};

/// Before anything is written, the outermost scope stands for a component without items, and nothing is known.
pub fn nothing_is_written()
    ensures { (mean : Meaning) → Keeps mean outermost (nothing_known true) }
{}

/// What is written for an entity, with all that is written in front of it, is described by the shape's definition as
/// that entity, with each resource called by the name that it means. All that was known is known where it was.
pub fn what_is_written_reads_back()
    ensures { (mean : Meaning) (m : WrittenScope) (k : Known) (e : EntityTree) (later : List WrittenScope) (ty : TypeRef)
        → Keeps mean m k
        → HasMeaning mean (spot_of m k) e
        → write_entity e (m ∷ []) ≡ Some (later, ty)
        → IsWritten mean m k later ty e }
{}

/// An import of what describes an entity is that entity, and each resource and named type that it brings is known from
/// then on. Two resources that are known are one exactly where they mean one name.
pub fn an_import_reads_back()
    ensures { (mean : Meaning) (m : WrittenScope) (k : Known) (name : List ℕ) (e : EntityTree) (ty : TypeRef)
        → Keeps mean m k
        → HasMeaning mean (spot_of m k) e
        → IsDescribed mean (spot_of m k) ty e k.spaces
        → list_any (str_eq_ignore_ascii_case name) (spot_of m k).names ≡ false
        → IsImported mean m k (write_import name e ty (m ∷ [])) name e }
{}

/// What describes an entity describes it still, where more was written and nothing imported.
pub fn a_description_lasts()
    ensures { (mean : Meaning) (m : WrittenScope) (k : Known) (later : List WrittenScope) (ty : TypeRef) (e : EntityTree)
        → IsDescribed mean (spot_of m k) ty e k.spaces
        → (more : GoesOn mean m k later)
        → IsDescribed mean (spot_of m k) ty e more.known.spaces }
{}

/// A further number of a named type may be known where a type stands that means what the number means.
pub fn another_number_is_known()
    ensures { (mean : Meaning) (m : WrittenScope) (k : Known) (n : Name) (from : ℕ) (path : Path) (s : Standing)
        → Keeps mean m k
        → at_place k.spaces (at_end from path) ≡ Some s
        → Means 0 (meant mean (OfPlace n)) s
        → AllByRecursion (IsOlder mean (spot_of m k)) (in_value 0 (mean.tree n))
        → (scope : WrittenScope) × (write_also n from path (m ∷ []) ≡ scope ∷ []) × Keeps mean scope k }
{}

/// The declarations that are written for the exports of an instance are, where they are added as the next type, the
/// type by which that instance is described.
pub fn an_instance_type_reads_back()
    ensures { (mean : Meaning) (m : WrittenScope) (k : Known) (es : Entries) (later : List WrittenScope) (decls : tree.Decls)
        → Keeps mean m k
        → HasMeaning mean (spot_of m k) (IsInstance es)
        → write_instance es (m ∷ []) ≡ Some (later, decls)
        → IsNextType mean m k later (tree.Instance decls) description.Instance (IsInstance es) }
{}

/// The declarations that are written for the imports and exports of a component are, where they are added as the next
/// type, the type by which that component is described.
pub fn a_component_type_reads_back()
    ensures { (mean : Meaning) (m : WrittenScope) (k : Known) (is es : Entries) (later : List WrittenScope) (decls : tree.Decls)
        → Keeps mean m k
        → HasMeaning mean (spot_of m k) (IsComponent is es)
        → write_component is es (m ∷ []) ≡ Some (later, decls)
        → IsNextType mean m k later (tree.Component decls) description.Component (IsComponent is es) }
{}

/// What is written for a core module is, in any scope, the type of that module.
pub fn a_module_reads_back()
    ensures { (m : ModuleShape) (scopes : List (List KnownCoreType))
        → core_type_of unbounded scopes (core.Module (write_module m)) ≡ Ok (OfModules m) }
{}

/// An instance that mentions nothing but what is known, and what it itself brings, brings as many resources as it
/// exports as types that were not known.
pub fn an_instance_brings_what_it_exports()
    ensures { (mean : Meaning) (p : Spot) (es : Entries)
        → AreOlder mean p
        → AreApart mean p.known
        → HasMeaning mean p (IsInstance es)
        → is_known p.known (IsInstance es) ≡ true
        → new_resources mean p (IsInstance es) ≡ exported_resources mean p es }
{}

/// The declarations of the outermost scope, as items of a component, leave what they stand for.
pub fn declarations_are_items()
    ensures { (mean : Meaning) (m : WrittenScope) (k : Known)
        → Keeps mean m k
        → after_parts unbounded [] (nothing_known true) (parts_for m.decls) ≡ Ok k }
{}
