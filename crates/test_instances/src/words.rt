//! Words of rows, and what they stand for.

use comp_entity::{
    ComponentShape, Entity, FuncShape, InstanceShape, ResourceNo, TypeShape, ValueShape,
};
use comp_format::{Arg, CoreSort, Sort, TypeRef};
use comp_space::ScopeError;
use std::alloc::Global;
use warg_values::{Memory, Sequence, Text};

/// The resource of a number of the scope that is so many scopes further out.
fn resource(out: usize, number: usize) -> Result<ResourceNo, Memory> {
    match ResourceNo::new(out, number) {
        Some(resource) => Ok(resource),
        None => Err(Memory),
    }
}

/// A resource type.
fn of_resource(resource: ResourceNo) -> Entity {
    Entity::Ty(TypeShape::Resource(resource))
}

/// A function that gives a resource.
fn giver(alloc: Global, resource: ResourceNo) -> Entity {
    Entity::Func(FuncShape {
        params: Vec::new(alloc),
        result: Some(ValueShape::Own(resource)),
    })
}

/// Puts a resource type behind other entities, under a name.
fn push_resource(
    alloc: Global,
    entries: &mut Vec<(Text, Entity)>,
    name: &str,
    out: usize,
    number: usize,
) -> Result<(), Memory> {
    let resource = resource(out, number)?;
    let name = Text::copy_of(alloc, name)?;
    entries.push((name, of_resource(resource)))?;
    Ok(())
}

/// Puts a function that gives a resource behind other entities, under a name.
fn push_giver(
    alloc: Global,
    entries: &mut Vec<(Text, Entity)>,
    name: &str,
    out: usize,
    number: usize,
) -> Result<(), Memory> {
    let resource = resource(out, number)?;
    let name = Text::copy_of(alloc, name)?;
    entries.push((name, giver(alloc, resource)))?;
    Ok(())
}

/// A resource and a function that gives it, as a component imports them.
fn file_and_open(alloc: Global) -> Result<Vec<(Text, Entity)>, Memory> {
    let mut imports = Vec::new(alloc);
    push_resource(alloc, &mut imports, "file", 1, 0)?;
    push_giver(alloc, &mut imports, "open", 1, 0)?;
    Ok(imports)
}

/// A resource of the scope around of this number, and one that is made.
fn kept_and_made(alloc: Global, number: usize) -> Result<Vec<(Text, Entity)>, Memory> {
    let mut exports = Vec::new(alloc);
    push_resource(alloc, &mut exports, "kept", 1, number)?;
    push_resource(alloc, &mut exports, "made", 0, 0)?;
    Ok(exports)
}

/// A component that imports a resource and a function that gives it, and exports that resource and one that it makes.
fn keeper(alloc: Global) -> Result<Entity, Memory> {
    let imports = file_and_open(alloc)?;
    let exports = kept_and_made(alloc, 0)?;
    Ok(Entity::Component(ComponentShape { imports, exports }))
}

/// The instance of the keeper whose import is the first resource.
fn kept(alloc: Global) -> Result<Entity, Memory> {
    let exports = kept_and_made(alloc, 1)?;
    Ok(Entity::Instance(InstanceShape { exports }))
}

/// An instance of a resource and of a function that gives another one.
fn members(alloc: Global) -> Result<Entity, Memory> {
    let mut exports = Vec::new(alloc);
    push_resource(alloc, &mut exports, "a", 1, 1)?;
    push_giver(alloc, &mut exports, "b", 1, 2)?;
    Ok(Entity::Instance(InstanceShape { exports }))
}

/// The entity of a word in a row.
pub fn entity(alloc: Global, word: &str) -> Result<Entity, Memory> {
    match word {
        "keeper" => keeper(alloc),
        "file" => Ok(of_resource(resource(1, 1)?)),
        "other" => Ok(of_resource(resource(1, 2)?)),
        "open-file" => Ok(giver(alloc, resource(1, 1)?)),
        "open-other" => Ok(giver(alloc, resource(1, 2)?)),
        "kept" => kept(alloc),
        "members" => members(alloc),
        _ => Err(Memory),
    }
}

/// The sort of a word in a row.
fn sort(word: &str) -> Sort {
    match word {
        "func" => Sort::Func,
        "type" => Sort::Ty,
        "instance" => Sort::Instance,
        "component" => Sort::Component,
        _ => Sort::Core(CoreSort::Module),
    }
}

/// The index of a word in a row.
fn index(word: &str) -> u32 {
    match word {
        "0" => 0,
        "1" => 1,
        _ => 9,
    }
}

/// The item under a name that a word in a row stands for, as in `name=func-0`.
pub fn item(alloc: Global, word: &str) -> Result<Arg, Memory> {
    let (name, place) = word.split_once("=").unwrap_or((word, ""));
    let (kind, number) = place.split_once("-").unwrap_or((place, ""));
    Ok(Arg {
        name: Text::copy_of(alloc, name)?,
        sort: sort(kind),
        index: index(number),
    })
}

/// The items under names of the words in a row.
pub fn items(alloc: Global, words: &str) -> Result<Sequence<Arg>, Memory> {
    let mut items = Sequence::new(alloc);
    for word in words.split_whitespace() {
        items.push(item(alloc, word)?)?;
    }
    Ok(items)
}

/// The description of a word in a row, where it is one.
pub fn description(word: &str) -> Option<TypeRef> {
    match word {
        "fresh" => Some(TypeRef::TyFresh),
        "equal" => Some(TypeRef::TyEqual(0)),
        _ => None,
    }
}

/// The word of an error.
pub fn refusal(error: ScopeError) -> &'static str {
    match error {
        ScopeError::Index => "Index",
        ScopeError::DoesNotFit => "DoesNotFit",
        ScopeError::TooDeep => "TooDeep",
        ScopeError::TooBig => "TooBig",
        ScopeError::Memory => "Memory",
    }
}
