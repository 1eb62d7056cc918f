//! A caller of `compose_graph`.

ghost use Rattle.std.specs.Prelude.{◌≡◌, None, IfOk, OnOk, true};
ghost use Rattle.comp_entity.specs.Entity.{ShapeTree};
ghost use Rattle.comp_shape.specs.Shape.{HasShape};
ghost use Rattle.compose_graph.specs.Encoding.{IsEncoding};
ghost use Rattle.compose_graph.specs.Graph.{with_connection, without_connection};
ghost use Rattle.compose_graph.specs.Joining.{joining};
ghost use Rattle.compose_graph.specs.Listed.{graph_of};

use compose_graph::{
    ComposeError, CompositionGraph, EncodeOptions, GraphError, ImportIndex, InstanceId,
};
use std::alloc::Global;

/// Gives an import of an instance another instance as a whole, in the place of the one that it is given.
pub fn reconnect(
    alloc: Global,
    graph: &mut CompositionGraph<'_>,
    before: InstanceId,
    after: InstanceId,
    target: InstanceId,
    import: ImportIndex,
) -> Result<(), GraphError>
    ensures { OnOk result (graph_of graph.new ≡ with_connection
        (without_connection (graph_of graph.old) before.0 target.0 import.0) (joining after None target import)) }
{
    graph.disconnect(before, target, import)?;
    graph.connect(alloc, after, None, target, import)?;
    Ok(())
}

/// The graph as one component, by these options, but that it can be read again for sure.
pub fn linked(
    alloc: Global,
    graph: &CompositionGraph<'_>,
    options: EncodeOptions,
) -> Result<Vec<u8>, ComposeError>
    ensures { IfOk result (λ bytes. IsEncoding (graph_of graph.now) (record options { validate = true }) bytes.items
        × (s : ShapeTree) × HasShape bytes.items s) }
{
    let checked = EncodeOptions {
        define_components: options.define_components,
        export: options.export,
        validate: true,
    };
    graph.encode(alloc, checked)
}
