//! Contents, read as components.

ghost use Rattle.std.specs.Prelude.{◌≡◌, IfOk, IfErr, map};
ghost use Rattle.comp_entity.specs.Views.{named_entities};
ghost use Rattle.comp_shape.specs.Refusal.{IsRefused};
ghost use Rattle.warg_compose.specs.Read.{IsComponent, names_in};

use comp_entity::Entity;
use comp_shape::{ShapeError, read_shape};
use std::alloc::Global;
use warg_assemble::ContentReader;
use warg_plan::Content;
use warg_values::{Memory, Text};

/// Reads contents as WebAssembly components.
#[derive(Clone, Copy, Debug, PartialEq, Eq, Drop)]
pub struct ComponentReader;

/// The names of what a component imports or exports, in order.
fn names_of(alloc: Global, entities: &[(Text, Entity)]) -> Result<Vec<Text>, Memory>
    ensures { IfOk result (λ names. names.items ≡ names_in (named_entities entities.now)) }
{
    let mut names = Vec::new(alloc);
    for (name, _) in entities {
        names.push(name.try_clone(alloc)?)?;
    }
    Ok(names)
}

impl ContentReader for ComponentReader {
    type Refusal = ShapeError;

    ghost Reads = { IsComponent };

    ghost Refuses = { λ bytes e. IsRefused e bytes };

    fn read_content(&self, alloc: Global, bytes: Vec<u8>) -> Result<Content, ShapeError> {
        let shape = read_shape(alloc, bytes.as_slice())?;
        Ok(Content {
            bytes,
            imports: names_of(alloc, &shape.imports)?,
            exports: names_of(alloc, &shape.exports)?,
        })
    }
}
