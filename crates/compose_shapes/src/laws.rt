//! Laws of the shapes that components have: each is a function that does nothing, and is proved of all bytes and shapes.

ghost use Rattle.std.specs.Borrow.{Bor};
ghost use Rattle.std.specs.Prelude.{◌≡◌, Bool, false, List, [], ◌∷◌, map, None, ℕ};
ghost use Rattle.std.specs.List.{AllByRecursion};
ghost use Rattle.comp_entity.specs.Entity.{EntityTree, ShapeTree};
ghost use Rattle.comp_entity.specs.Views.{entries_of};
ghost use Rattle.compose_component.specs.Shape.{HasShape};
ghost use Rattle.compose_component.specs.declared.component.Component.{Component};
ghost use Rattle.compose_component.specs.Component.{shape_of};
ghost use Rattle.compose_needs.specs.Exports.{component_hides};
ghost use Rattle.compose_order.specs.Known.{Imports};
ghost use Rattle.compose_writing.specs.Scopes.{outermost};
ghost use Rattle.compose_check.specs.Checked.{IsSound};
ghost use Rattle.compose_check.specs.Composition.{ComponentTree, component_tree, CompositionTree, IsComposition, wiring};
ghost use Rattle.compose_settled.specs.Imports.{imports_of, used_components};
ghost use Rattle.compose_settled.specs.Writable.{AreWritable};
ghost use Rattle.compose_known.specs.Importable.{KeepsImports, NamesImports};
ghost use Rattle.compose_known.specs.Placed.{HasPlaces};
ghost use Rattle.compose_known.specs.Whole.{IsWhole};
ghost use Rattle.compose_settled.specs.Named.{HasOwnNames, IsWellNamed};
ghost use Rattle.compose_writing.specs.Conditions.{KeepsEntries};

use comp_coherence::laws::each_name_stands_for_one_type;
use compose_coherence::laws::{a_coherent_type_has_one_tree, names_have_a_meaning};
use compose_component::laws::{a_component_has_a_name, a_component_has_the_shape_of_its_bytes};
use compose_form::laws;
use compose_form::laws::the_form_of_an_entity_is_one_fact;
use compose_known::laws::{one_tree_stands_apart, what_agrees_can_be_written};
use compose_settled::laws::a_sound_composition_is_settled;

/// In what a component imports and exports one name stands for one type, its imports bring what it mentions as brought,
/// and names of exports differ.
pub fn what_is_read_is_well_named()
    ensures { (bytes : List ℕ) (s : ShapeTree) → HasShape bytes s → IsWellNamed s }
{
    each_name_stands_for_one_type();
}

/// What a component imports and exports mentions nothing of scopes around it, and names in it stand in order.
pub fn what_is_read_is_whole()
    ensures { (bytes : List ℕ) (s : ShapeTree) → HasShape bytes s → IsWhole s }
{
    each_name_stands_for_one_type();
    names_have_a_meaning();
    a_coherent_type_has_one_tree();
    one_tree_stands_apart();
}

/// In what a component imports each type has the name of the place that named it.
pub fn what_is_read_has_places()
    ensures { (bytes : List ℕ) (s : ShapeTree) → HasShape bytes s
        → AllByRecursion (λ (e : List ℕ × EntityTree). HasPlaces e.1) s.imports }
{}

/// What a component imports and exports has names and forms that can be written.
pub fn what_is_read_can_be_written()
    ensures { (bytes : List ℕ) (s : ShapeTree) → HasShape bytes s
        → KeepsEntries (entries_of s.imports) × KeepsEntries (entries_of s.exports) }
{
    laws::what_is_read_can_be_written();
}

/// The shape of any component that lies in memory is well named. For which type each place stands is not told.
pub fn a_component_is_well_named()
    ensures { (component : Component) → ∥ IsWellNamed (shape_of component) ∥₁ }
{
    a_component_has_the_shape_of_its_bytes();
    what_is_read_is_well_named();
}

/// The shape of any component that lies in memory is whole.
pub fn a_component_is_whole()
    ensures { (component : Component) → IsWhole (shape_of component) }
{
    a_component_has_the_shape_of_its_bytes();
    what_is_read_is_whole();
}

/// In what any component that lies in memory imports, names of exports differ, and each type has the name of its place.
pub fn a_component_names_its_imports()
    ensures apart { (component : Component)
        → AllByRecursion (λ (e : List ℕ × EntityTree). HasOwnNames e.1) (shape_of component).imports }
    ensures placed { (component : Component)
        → AllByRecursion (λ (e : List ℕ × EntityTree). HasPlaces e.1) (shape_of component).imports }
{
    a_component_has_the_shape_of_its_bytes();
    what_is_read_is_well_named();
    what_is_read_has_places();
}

/// What any component that lies in memory imports and exports has names and forms that can be written.
pub fn a_component_can_be_written()
    ensures imports { (component : Component) → KeepsEntries (entries_of (shape_of component).imports) }
    ensures exports { (component : Component) → KeepsEntries (entries_of (shape_of component).exports) }
{
    a_component_has_the_shape_of_its_bytes();
    what_is_read_can_be_written();
    the_form_of_an_entity_is_one_fact();
}

/// Of a composition whose components lie in memory: the shape of each instance is well named, that of each component is
/// whole, and what components import and export can be written, with the names of its places.
pub fn compositions_are_of_shapes_that_are_read()
    ensures well_named { (c : CompositionTree) (held : List (Bor Component)) → c.components ≡ map component_tree held
        → ∥ AllByRecursion IsWellNamed (wiring c).shapes ∥₁ }
    ensures whole { (c : CompositionTree) (held : List (Bor Component)) → c.components ≡ map component_tree held
        → AllByRecursion (λ (k : ComponentTree). IsWhole k.shape) c.components }
    ensures named { (c : CompositionTree) (held : List (Bor Component)) → c.components ≡ map component_tree held
        → AllByRecursion NamesImports c.components }
    ensures imports { (c : CompositionTree) (held : List (Bor Component)) → c.components ≡ map component_tree held
        → AllByRecursion KeepsImports c.components }
    ensures exports { (c : CompositionTree) (held : List (Bor Component)) → c.components ≡ map component_tree held
        → AllByRecursion (λ (k : ComponentTree). KeepsEntries (entries_of k.shape.exports)) c.components }
{
    a_component_is_well_named();
    a_component_is_whole();
    a_component_names_its_imports();
    a_component_can_be_written();
}

/// The left imports of a sound composition whose components lie in memory can be written in its order, each once those
/// before it are written. So they can behind components that are imported, where each of these hides nothing of what it
/// mentions.
pub fn sound_compositions_of_components_can_be_written()
    ensures { (c : CompositionTree) (held : List (Bor Component)) → c.components ≡ map component_tree held
        → (define : Bool) (order : List ℕ) (out : Imports) → IsComposition c → IsSound c order out
        → (define ≡ false → AllByRecursion (λ (k : ComponentTree). component_hides k.shape ≡ None) (used_components c))
        → AreWritable (imports_of c define out) (outermost ∷ []) }
{
    compositions_are_of_shapes_that_are_read();
    a_component_has_a_name();
    a_sound_composition_is_settled();
    what_agrees_can_be_written();
}
