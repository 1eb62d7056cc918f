//! Laws of components: each is a function that does nothing, and is proved of all components.

ghost use Rattle.std.specs.Prelude.{◌<◌, length};
ghost use Rattle.comp_shape.specs.Shape.{HasShape};
ghost use Rattle.compose_component.specs.declared.component.Component.{Component};
ghost use Rattle.compose_component.specs.Component.{bytes_of, name_of, shape_of};

/// What a component imports and exports is the shape of its bytes, however it was made.
pub fn a_component_has_the_shape_of_its_bytes()
    ensures { (component : Component) → ∥ HasShape (bytes_of component) (shape_of component) ∥₁ }
{}

/// A component has a name, however it was made.
pub fn a_component_has_a_name()
    ensures { (component : Component) → 0 < length (name_of component) }
{}
