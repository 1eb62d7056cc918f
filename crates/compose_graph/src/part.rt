//! A component of a graph.

use compose_component::Component;
use compose_fit::ShapeNumbers;

/// A component, with the numbers of what it imports and exports, all resources being taken as one.
#[derive(Drop)]
pub struct Part<'a> {
    /// The component.
    pub component: Component<'a>,
    /// What it imports and exports, by number.
    pub loose: ShapeNumbers,
}
