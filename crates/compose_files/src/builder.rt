//! What is built of a composition so far.

use crate::offer::Offer;
use compose_graph::CompositionGraph;
use indexmap::IndexMap;
use std::alloc::Global;
use warg_base::Text;

/// What is built of a composition so far.
#[derive(Drop)]
pub struct Builder<'a> {
    /// The graph.
    pub graph: CompositionGraph<'a>,
    /// The numbers of the instances that have names, in the order made.
    pub named: IndexMap<Text, usize>,
    /// The numbers of the instances of definitions, by the numbers of their components.
    pub made: IndexMap<usize, usize>,
    /// What the first definition that exports an instance of a name has for an import of this name.
    pub offers: IndexMap<Text, Offer>,
}

impl<'a> Builder<'a> {
    ghost use Rattle.std.specs.Prelude.{◌≡◌};
    ghost use Rattle.compose_graph.specs.Graph.{no_graph};
    ghost use Rattle.compose_files.specs.Composed.{begun};
    ghost use Rattle.compose_files.specs.View.{built_of};

    /// Nothing yet.
    pub fn new(alloc: Global) -> Self
        ensures { built_of result ≡ begun no_graph }
    {
        Builder {
            graph: CompositionGraph::new(alloc),
            named: IndexMap::new(alloc),
            made: IndexMap::new(alloc),
            offers: IndexMap::new(alloc),
        }
    }
}
