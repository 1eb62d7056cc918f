//! Laws over definitions alone.

ghost use Rattle.compose_check.specs.Composition.{IsComposition};
ghost use Rattle.compose_fit.specs.Fit.{EachFits, loosely};
ghost use Rattle.compose_graph.specs.Composed.{composed};
ghost use Rattle.compose_graph.specs.Graph.{GraphTree};
ghost use Rattle.compose_graph.specs.Kept.{IsGraph};
ghost use Rattle.compose_graph.specs.Wiring.{wiring};

/// What is connected in a graph fits loosely, as the wires of its wiring.
pub fn what_is_connected_fits()
    ensures { (g : GraphTree) → IsGraph g → EachFits loosely (wiring g) }
{}

/// A graph as `IsGraph` says is a composition by the places of its components and instances: what `compose_check` asks.
pub fn a_graph_is_a_composition()
    ensures { (g : GraphTree) → IsGraph g → IsComposition (composed g) }
{}
