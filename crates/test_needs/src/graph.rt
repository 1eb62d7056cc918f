//! Wired instances as a row: between semicolons, the words of each.
//!
//! A word is the name of an import, `=`, and the words of the instance that is imported. Behind the name may come `<`
//! and the number of the instance whose first export it is given. Exports stand behind all imports, with `>` in front.

use crate::entities::instance;
use comp_entity::{Entity, Shape};
use compose_left::{Origins, Wire, follows_order, origins};
use std::alloc::Global;
use std::test::Fail;
use warg_values::{Memory, Text};

/// Instances, and the wires between them.
#[derive(Drop)]
pub struct Graph {
    /// Their shapes, in the order made.
    pub shapes: Vec<Shape>,
    /// The wires.
    pub wires: Vec<Wire>,
}

/// An import or export of a name and what stands behind `=`.
fn entry(alloc: Global, name: &str, words: &str) -> Result<(Text, Entity), Memory> {
    let name = Text::copy_of(alloc, name)?;
    Ok((name, instance(alloc, words)?))
}

/// The shape of an instance.
pub fn shape(alloc: Global, row: &str) -> Result<Shape, Memory> {
    let mut imports = Vec::new(alloc);
    let mut exports = Vec::new(alloc);
    for word in row.split_whitespace() {
        let (head, words) = word.split_once("=").unwrap_or((word, ""));
        let (name, _source) = head.split_once("<").unwrap_or((head, ""));
        match name.strip_prefix(">") {
            Some(name) => exports.push(entry(alloc, name, words)?)?,
            None => imports.push(entry(alloc, name, words)?)?,
        }
    }
    Ok(Shape { imports, exports })
}

/// The number of the instance behind `<`, where there is one.
fn source(word: &str) -> Option<usize> {
    let (head, _words) = word.split_once("=")?;
    let (_name, source) = head.split_once("<")?;
    source.parse::<usize>().ok()
}

/// Adds the wires into an instance.
fn add_wires(wires: &mut Vec<Wire>, target: usize, row: &str) -> Result<(), Memory> {
    for (import, word) in row.split_whitespace().enumerate() {
        if let Some(source) = source(word) {
            wires.push(Wire {
                target,
                import,
                source,
                export: Some(0),
            })?;
        }
    }
    Ok(())
}

/// The instances of a row.
pub fn graph_of(alloc: Global, row: &str) -> Result<Graph, Memory> {
    let mut shapes = Vec::new(alloc);
    let mut wires = Vec::new(alloc);
    for (target, instance) in row.split(";").enumerate() {
        shapes.push(shape(alloc, instance)?)?;
        add_wires(&mut wires, target, instance)?;
    }
    Ok(Graph { shapes, wires })
}

/// Where what the instances bring comes from. Their wires go forward.
pub fn origins_of(alloc: Global, graph: &Graph) -> Result<Origins, Fail> {
    let mut shapes = Vec::new(alloc);
    for shape in &graph.shapes {
        shapes.push(shape)?;
    }
    if !follows_order(&shapes, &graph.wires) {
        return Err(Fail::new("a wire goes backward"));
    }
    Ok(origins(alloc, &shapes, &graph.wires)?)
}
