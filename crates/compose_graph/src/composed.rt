//! A composition graph as a composition.

ghost use Rattle.std.specs.Prelude.{◌≡◌, ◌∷◌, ℕ, List, map, IfOk};
ghost use Rattle.compose_graph.specs.Composed.{FindsPlaces};
ghost use Rattle.compose_graph.specs.Wiring.{instance_id, wire_of};
ghost use Rattle.compose_graph.specs.Graph.{InstanceEntry};

use crate::connection::Connection;
use crate::places::Places;
use compose_left::Wire;
use std::alloc::Global;
use warg_values::Memory;

/// Connections as wires, by the places of instances.
pub fn wires(
    alloc: Global,
    instances: &Places,
    connections: &[Connection],
) -> Result<Vec<Wire>, Memory>
    ensures { (is : List InstanceEntry) → FindsPlaces instances.now (map instance_id is)
        → IfOk result (λ wires. wires.items ≡ map (wire_of is) connections.now) }
{
    let mut wires = Vec::new(alloc);
    for connection in connections {
        wires.push(Wire {
            target: instances.place(connection.target),
            import: connection.import,
            source: instances.place(connection.source),
            export: connection.export,
        })?;
    }
    Ok(wires)
}
