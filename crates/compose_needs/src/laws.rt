//! Laws over definitions alone.

ghost use Rattle.std.specs.Prelude.{◌≡◌, ◌↔◌, ◌++◌, [], None, Some, true};
ghost use Rattle.comp_entity.specs.Entity.{EntityTree, ShapeTree};
ghost use Rattle.compose_needs.specs.Components.{HoldsTied};
ghost use Rattle.compose_needs.specs.Exports.{NamedEntities, component_hides, export_hides};
ghost use Rattle.compose_needs.specs.Hiding.{EntitiesAreHad, ExportsAreHad, IsFirstHiding, NameBytes, SidesAreHad};
ghost use Rattle.compose_needs.specs.Lefts.{Lefts};
ghost use Rattle.compose_needs.specs.Tied.{AreTied, Places, are_tied, entity_holds_tied};

/// Whether what places mention is named there or earlier is decided as the rule says it.
pub fn what_is_mentioned_is_named()
    ensures { (ps : Places) → (are_tied [] ps ≡ true) ↔ AreTied ps }
{}

/// Whether that holds of each component and each type of a component in an entity is decided as the rule says it.
pub fn components_name_what_they_mention()
    ensures { (e : EntityTree) → (entity_holds_tied e ≡ true) ↔ HoldsTied e }
{}

/// Whether what the exports of an instance mention can be had is decided as the rule says it, and where it can't, the first
/// export that mentions something else is found.
pub fn exports_mention_what_can_be_had()
    ensures had { (left : Lefts) (es : NamedEntities) → (export_hides left [] es ≡ None) ↔ ExportsAreHad left es }
    ensures hidden { (left : Lefts) (es : NamedEntities) (name : NameBytes) → export_hides left [] es ≡ Some name
        → IsFirstHiding (ExportsAreHad left) es name }
{}

/// The same of the imports and the exports of a component.
pub fn components_mention_what_can_be_had()
    ensures had { (s : ShapeTree) → (component_hides s ≡ None) ↔ SidesAreHad s }
    ensures hidden { (s : ShapeTree) (name : NameBytes) → component_hides s ≡ Some name
        → IsFirstHiding EntitiesAreHad (s.imports ++ s.exports) name }
{}
