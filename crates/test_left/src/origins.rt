//! Where resources come from: instance 0 and instance 1 export a resource `r`, and instance 2 imports `m` and `n`, each an
//! instance that exports `r`, and both the same resource.

use comp_entity::{Entity, InstanceShape, ResourceNo, Shape, TypeShape};
use compose_left::{Origins, Wire, follows_order, origins};
use std::alloc::Global;
use std::test::Fail;
use warg_values::{Memory, Text};

/// The sources of the wires into `m` and `n`, or nothing, and whether `r` of instance 2 has the number of `r` of
/// instance 0, and that of `r` of instance 1.
const ROWS: &[(&str, bool, bool)] = &[
    ("", false, false),
    ("0", true, false),
    ("1", false, true),
    ("01", true, false),
];

/// A resource as an entity.
fn resource(out: usize) -> Result<Entity, Memory> {
    let name = ResourceNo::new(out, 0).ok_or(Memory)?;
    Ok(Entity::Ty(TypeShape::Resource(name)))
}

/// A resource as the export `r`.
fn export(alloc: Global, out: usize) -> Result<(Text, Entity), Memory> {
    let name = Text::copy_of(alloc, "r")?;
    Ok((name, resource(out)?))
}

/// The export of a resource alone.
fn exports(alloc: Global, out: usize) -> Result<Vec<(Text, Entity)>, Memory> {
    let mut exports = Vec::new(alloc);
    exports.push(export(alloc, out)?)?;
    Ok(exports)
}

/// An instance that exports a resource that is brought.
fn bringing(alloc: Global) -> Result<Entity, Memory> {
    let exports = exports(alloc, 1)?;
    Ok(Entity::Instance(InstanceShape { exports }))
}

/// The import of such an instance under this name.
fn import(alloc: Global, name: &str) -> Result<(Text, Entity), Memory> {
    let name = Text::copy_of(alloc, name)?;
    Ok((name, bringing(alloc)?))
}

/// The shape of instance 0 and of instance 1.
fn exporting(alloc: Global) -> Result<Shape, Memory> {
    let exports = exports(alloc, 0)?;
    let imports = Vec::new(alloc);
    Ok(Shape { imports, exports })
}

/// The shape of instance 2.
fn importing(alloc: Global) -> Result<Shape, Memory> {
    let mut imports = Vec::new(alloc);
    imports.push(import(alloc, "m")?)?;
    imports.push(import(alloc, "n")?)?;
    let exports = Vec::new(alloc);
    Ok(Shape { imports, exports })
}

/// The three shapes.
fn shapes(alloc: Global) -> Result<Vec<Shape>, Memory> {
    let mut shapes = Vec::new(alloc);
    shapes.push(exporting(alloc)?)?;
    shapes.push(exporting(alloc)?)?;
    shapes.push(importing(alloc)?)?;
    Ok(shapes)
}

/// Wires from these instances into the imports of instance 2, in order.
fn wires(alloc: Global, sources: &str) -> Result<Vec<Wire>, Memory> {
    let mut wires = Vec::new(alloc);
    for (import, source) in sources.as_bytes().iter().enumerate() {
        wires.push(Wire {
            target: 2,
            import,
            source: if *source == b'1' { 1 } else { 0 },
            export: None,
        })?;
    }
    Ok(wires)
}

/// The number of a resource.
fn resource_number(entity: &Entity) -> Option<usize> {
    match entity {
        Entity::Ty(TypeShape::Resource(name)) => Some(name.number()),
        _ => None,
    }
}

/// A resource alone. It stands in a vector, since each way out of a function that holds an entity of its own is proved
/// for each kind of entity.
fn resources(alloc: Global, out: usize) -> Result<Vec<Entity>, Memory> {
    let mut resources = Vec::new(alloc);
    resources.push(resource(out)?)?;
    Ok(resources)
}

/// Entities as an instance has them.
fn place_all(
    alloc: Global,
    origins: &Origins,
    at: usize,
    entities: &[Entity],
) -> Result<Vec<Entity>, Memory> {
    let mut placed = Vec::new(alloc);
    for entity in entities {
        placed.push(origins.place(alloc, at, entity)?)?;
    }
    Ok(placed)
}

/// The number of a resource of an instance, by origins.
fn placed(
    alloc: Global,
    origins: &Origins,
    at: usize,
    out: usize,
) -> Result<Option<usize>, Memory> {
    let resources = resources(alloc, out)?;
    let placed = place_all(alloc, origins, at, &resources)?;
    match placed.first() {
        Some(entity) => Ok(resource_number(entity)),
        None => Ok(None),
    }
}

/// Shapes, lent.
fn lent<'a>(alloc: Global, shapes: &'a [Shape]) -> Result<Vec<&'a Shape>, Memory> {
    let mut lent = Vec::new(alloc);
    for shape in shapes {
        lent.push(shape)?;
    }
    Ok(lent)
}

/// The number of a resource of an instance, by shapes and wires.
fn wired(
    alloc: Global,
    shapes: &[Shape],
    wires: &[Wire],
    at: usize,
    out: usize,
) -> Result<Option<usize>, Memory> {
    let shapes = lent(alloc, shapes)?;
    if !follows_order(&shapes, wires) {
        return Ok(None);
    }
    let origins = origins(alloc, &shapes, wires)?;
    placed(alloc, &origins, at, out)
}

/// The number of a resource of an instance.
fn number(alloc: Global, sources: &str, at: usize, out: usize) -> Result<Option<usize>, Memory> {
    let wires = wires(alloc, sources)?;
    let shapes = shapes(alloc)?;
    wired(alloc, &shapes, &wires, at, out)
}

/// Fails at the first row whose resources come from elsewhere.
fn come_along(alloc: Global, rows: &[(&str, bool, bool)]) -> Result<(), Fail> {
    for (sources, first, second) in rows {
        let shared = number(alloc, sources, 2, 1)?;
        let is_first = shared == number(alloc, sources, 0, 0)?;
        let is_second = shared == number(alloc, sources, 1, 0)?;
        if shared.is_none() || is_first != *first || is_second != *second {
            return Err(Fail::new(format_args!("from {sources}")));
        }
    }
    Ok(())
}

#[test]
fn resources_come_along_wires(rt: HostRuntime) -> Result<(), Fail> {
    come_along(rt.alloc(), ROWS)
}

/// A wire from instance 2 to instance 0.
fn back(alloc: Global) -> Result<Vec<Wire>, Memory> {
    let mut back = Vec::new(alloc);
    back.push(Wire {
        target: 0,
        import: 0,
        source: 2,
        export: None,
    })?;
    Ok(back)
}

#[test]
fn a_wire_from_a_later_instance_follows_no_order(rt: HostRuntime) -> Result<(), Fail> {
    let back = back(rt.alloc())?;
    let shapes = shapes(rt.alloc())?;
    let lent = lent(rt.alloc(), &shapes)?;
    assert!(rt; !follows_order(&lent, &back));
    Ok(())
}
