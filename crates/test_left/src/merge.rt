//! Which needs of one left import merge.

ghost use Rattle.std.specs.Prelude.{IfOk};
ghost use Rattle.compose_left.specs.Merged.{IsMerged};

use comp_entity::{Entity, FuncShape, InstanceShape, Primitive, TypeShape, ValueShape};
use compose_left::{MergeError, MergedImport};
use std::alloc::Global;
use std::test::Fail;
use warg_values::{Memory, Text};

/// Two needs, as letters: an instance of these functions, where a capital gives a result, or `-` for a type; and the
/// names of the merged instance in order, `-`, or `no`.
const ROWS: &[&str] = &[
    "ac bc acb",
    "ab ab ab",
    "a b ab",
    "ab a ab",
    "aB aB ab",
    "ab aB no",
    "- - -",
    "- a no",
];

/// A function of no parameters.
fn func(alloc: Global, gives: bool) -> Entity {
    Entity::Func(FuncShape {
        params: Vec::new(alloc),
        result: if gives {
            Some(ValueShape::Primitive(Primitive::Bool))
        } else {
            None
        },
    })
}

/// An export of a letter.
fn export(alloc: Global, letter: &str) -> Result<(Text, Entity), Memory> {
    let name = Text::copy_of(alloc, letter)?.to_ascii_lowercase(alloc)?;
    let gives = name.as_str() != letter;
    Ok((name, func(alloc, gives)))
}

/// The exports of a word.
fn exports(alloc: Global, word: &str) -> Result<Vec<(Text, Entity)>, Memory> {
    let mut exports = Vec::new(alloc);
    for letter in word.split("") {
        if !letter.is_empty() {
            exports.push(export(alloc, letter)?)?;
        }
    }
    Ok(exports)
}

/// The entity of a word.
fn entity(alloc: Global, word: &str) -> Result<Entity, Memory> {
    if word == "-" {
        return Ok(Entity::Ty(TypeShape::Value(ValueShape::Primitive(Primitive::Bool))));
    }
    let exports = exports(alloc, word)?;
    Ok(Entity::Instance(InstanceShape { exports }))
}

/// Adds the names of exports, one after the other.
fn add_names(names: &mut String, entity: &Entity) -> Result<(), Memory> {
    match entity {
        Entity::Instance(instance) => {
            for export in &instance.exports {
                names.push_str(export.0.as_str())?;
            }
        }
        _ => names.push_str("-")?,
    }
    Ok(())
}

/// The import that is needed as this.
fn import(alloc: Global, need: &str) -> Result<MergedImport, Memory>
    ensures { IfOk result (λ import. IsMerged import) }
{
    let name = Text::copy_of(alloc, "i")?;
    let entity = entity(alloc, need)?;
    MergedImport::new(alloc, name, entity)
}

/// A need alone. It stands in a vector, since each way out of a function that holds an entity of its own is proved for
/// each kind of entity.
fn needs(alloc: Global, need: &str) -> Result<Vec<Entity>, Memory> {
    let mut needs = Vec::new(alloc);
    needs.push(entity(alloc, need)?)?;
    Ok(needs)
}

/// Whether the need of a merge agreed. If not, it is this import that is told.
fn has_agreed(told: Result<(), MergeError>) -> Result<bool, Fail> {
    match told {
        Ok(()) => Ok(true),
        Err(MergeError::Disagree(name)) => {
            if name.as_str() == "i" {
                Ok(false)
            } else {
                Err(Fail::new("another import is told"))
            }
        }
        Err(MergeError::Memory) => Err(Fail::from(Memory)),
    }
}

/// Whether the import and a need agree. If they do, they are merged.
fn agrees(alloc: Global, import: &mut MergedImport, need: &str) -> Result<bool, Fail>
    requires { IsMerged import.old }
{
    match needs(alloc, need)?.as_slice() {
        [need] => has_agreed(import.merge(alloc, need)),
        _ => Err(Fail::new("a need is one entity")),
    }
}

/// The merged entity alone.
fn entities(alloc: Global, import: MergedImport) -> Result<Vec<Entity>, Memory> {
    let (_name, entity) = import.into_parts();
    let mut entities = Vec::new(alloc);
    entities.push(entity)?;
    Ok(entities)
}

/// The names of a merged instance.
fn merged(alloc: Global, import: MergedImport) -> Result<String, Memory> {
    let entities = entities(alloc, import)?;
    let mut names = String::new(alloc);
    for entity in &entities {
        add_names(&mut names, entity)?;
    }
    Ok(names)
}

/// What becomes of two needs, in the words of a row. The import is given away before the first way out behind it, since
/// each way out of a function that holds one is proved for each kind of entity.
fn outcome(alloc: Global, first: &str, second: &str) -> Result<String, Fail> {
    let mut import = import(alloc, first)?;
    let agreed = agrees(alloc, &mut import, second);
    let names = merged(alloc, import);
    if agreed? {
        Ok(names?)
    } else {
        Ok(String::from_str(alloc, "no")?)
    }
}

/// Fails at the first row of which something else becomes.
fn become_so(alloc: Global, rows: &[&str]) -> Result<(), Fail> {
    for row in rows {
        let mut words = row.split_whitespace();
        let first = words.next().unwrap_or("");
        let second = words.next().unwrap_or("");
        let expected = words.next().unwrap_or("");
        let text = outcome(alloc, first, second)?;
        if text.as_str() != expected {
            return Err(Fail::new(format_args!("{text} of {row}")));
        }
    }
    Ok(())
}

#[test]
fn needs_merge_where_they_agree(rt: HostRuntime) -> Result<(), Fail> {
    become_so(rt.alloc(), ROWS)
}
