//! Compositions.

use compose_component::Component;
use compose_left::Wire;

/// Components, instances of them, and the wires between the instances (Component Model, `Explainer.md`, "Instance
/// Definitions").
#[derive(Drop)]
pub struct Composition<'a> {
    /// The components.
    pub components: Vec<&'a Component<'a>>,
    /// The instances in the order made, each by the number of its component.
    pub instances: Vec<usize>,
    /// The wires, by the numbers of instances, of their imports and of their exports.
    pub wires: Vec<Wire>,
}
