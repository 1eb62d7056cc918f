//! Laws of what is written for compositions: each is a function that does nothing, and is proved of all compositions.

ghost use Rattle.std.specs.Prelude.{◌≡◌, ◌<◌, ◌∷◌, [], Bool, Contains, IfSome, List, None, Option, Some, length, map, true, ℕ};
ghost use Rattle.std.specs.List.{All, Any, slice_get};
ghost use Rattle.comp_entity.specs.Entity.{EntityTree};
ghost use Rattle.comp_format.specs.Items.{Import, ItemTree};
ghost use Rattle.comp_format.specs.declared.types.TypeRef.{TypeRef};
ghost use Rattle.comp_scope.specs.Image.{image};
ghost use Rattle.comp_scope.specs.Spaces.{sort_of};
ghost use Rattle.compose_check.specs.Checked.{IsInstanceOrder, IsSound};
ghost use Rattle.compose_check.specs.Composition.{ComponentTree, CompositionTree, IsComposition};
ghost use Rattle.compose_image.specs.Additions.{Gains, GainsNoImport};
ghost use Rattle.compose_image.specs.CompositionImage.{
  component_image,
  composition_image,
  given_argument,
  instance_image,
  is_component,
  open_argument,
};
ghost use Rattle.compose_image.specs.Imports.{all_called, import_items, imports_in, imports_of, name_and_sort};
ghost use Rattle.compose_image.specs.Instances.{open_imports, rank, shape_of, written};
ghost use Rattle.compose_image.specs.Writable.{HaveOwnNames};
ghost use Rattle.compose_left.specs.Wiring.{wire_into};
ghost use Rattle.compose_left.specs.declared.spots.Spot.{Spot};
ghost use Rattle.compose_left.specs.declared.wiring.Wire.{Wire};
ghost use Rattle.compose_order.specs.Needs.{LeftTree};
ghost use Rattle.compose_writing.specs.Scopes.{WrittenScope};
ghost use Rattle.compose_writing.specs.WriteEntities.{write_entity, write_import};

/// What an instance leaves open is imported under its name, as something of its sort; and no two of these imports have
/// one name, nor do any imports where components are defined.
pub fn what_is_left_open_is_imported()
    ensures there { (c : CompositionTree) (order : List ℕ) (lefts : List LeftTree) (instance : ℕ)
        → IsSound c order lefts
        → instance < length c.instances
        → All
        (λ e. Any (λ (l : LeftTree). (e.0 ≡ l.name) × (sort_of l.entity ≡ sort_of e.1)) lefts)
        (open_imports c instance) }
    ensures once { (c : CompositionTree) (order : List ℕ) (lefts : List LeftTree)
        → IsSound c order lefts
        → HaveOwnNames lefts }
    ensures defined { (c : CompositionTree) (order : List ℕ) (lefts : List LeftTree)
        → IsSound c order lefts
        → HaveOwnNames (imports_of c true lefts) }
{}

/// What is written imports what is to be imported, by name and sort, in order, and nothing else.
pub fn what_is_written_imports_these()
    ensures { (c : CompositionTree) (define : Bool) (export : Option ℕ) (order : List ℕ) (lefts : List LeftTree)
        (imports : List ItemTree)
        → import_items (imports_of c define lefts) ≡ Some imports
        → imports_in (written c define export order imports).items ≡ map name_and_sort (imports_of c define lefts) }
{}

/// In the image each instance stands once, at its place in the order, with its component.
pub fn each_instance_stands_in_the_image()
    ensures components { (c : CompositionTree) (define : Bool) (export : Option ℕ) (order : List ℕ)
        (imports : List (List ℕ × EntityTree)) (instance number : ℕ) (component : ComponentTree)
        → IsComposition c
        → slice_get c.instances instance ≡ Some number
        → slice_get c.components number ≡ Some component
        → slice_get (composition_image c define export order imports).components (instance_image c order instance).0
        ≡ Some (component_image define component) }
    ensures instances { (c : CompositionTree) (define : Bool) (export : Option ℕ) (order : List ℕ)
        (imports : List (List ℕ × EntityTree)) (instance : ℕ)
        → IsInstanceOrder c order
        → instance < length c.instances
        → slice_get (composition_image c define export order imports).instances (rank instance order)
        ≡ Some (instance_image c order instance) }
    ensures as_many { (c : CompositionTree) (define : Bool) (export : Option ℕ) (order : List ℕ)
        (imports : List (List ℕ × EntityTree))
        → IsInstanceOrder c order
        → length (composition_image c define export order imports).instances ≡ length c.instances }
{}

/// In the image an instance is given something for each of its imports: what the wire into it gives, or, where no wire
/// goes into it, the import of its name. It is given nothing else.
pub fn instances_are_given_each_import()
    ensures wired { (c : CompositionTree) (order : List ℕ) (instance import : ℕ) (wire : Wire)
        → wire_into c.wires instance import ≡ Some wire
        → Contains (instance_image c order instance).1 (given_argument c order wire) }
    ensures left_open { (c : CompositionTree) (order : List ℕ) (instance import : ℕ) (asked : List ℕ × EntityTree)
        → slice_get (shape_of c instance).imports import ≡ Some asked
        → wire_into c.wires instance import ≡ None
        → Contains (instance_image c order instance).1 (open_argument asked) }
    ensures as_many { (c : CompositionTree) (order : List ℕ) (instance : ℕ)
        → IsComposition c
        → length (instance_image c order instance).1 ≡ length (shape_of c instance).imports }
{}

/// What is written for a composition has its link image: the components of which instances are made, defined or
/// imported; the instances in this order, each with its component and with what it is given or leaves open, by name;
/// and the exports of the instance that is exported. The composition can be written (`IsSound`), no two imports have
/// one name, and the instance that is exported is there.
pub fn what_is_written_has_the_image()
    ensures { (c : CompositionTree) (define : Bool) (export : Option ℕ) (order : List ℕ) (lefts : List LeftTree)
        (imports : List ItemTree) (shown : List (List ℕ × EntityTree))
        → IsComposition c
        → IsSound c order lefts
        → HaveOwnNames (imports_of c define lefts)
        → IfSome export (λ i. i < length c.instances)
        → import_items (imports_of c define lefts) ≡ Some imports
        → image (is_component c define) shown (written c define export order imports).items
        ≡ Some (composition_image c define export order shown) }
{}

/// What an import needs is written in front of it, and imports nothing; the import is one item behind that; and what is
/// called in it is no item.
pub fn an_import_is_one_item()
    ensures needs { (e : EntityTree) (m : WrittenScope) (next : List WrittenScope) (ty : TypeRef)
        → write_entity e (m ∷ []) ≡ Some (next, ty)
        → GainsNoImport m next }
    ensures item { (name : List ℕ) (e : EntityTree) (ty : TypeRef) (m : WrittenScope)
        → Gains m (write_import name e ty (m ∷ [])) (Import (record { name = name; ty = ty }) ∷ []) }
    ensures calls { (index : ℕ) (calls : List Spot) (m : WrittenScope)
        → Gains m (all_called index calls (m ∷ [])) [] }
{}
