//! Entities as words: a letter for what it is, and a digit for the number of what it names or mentions.
//!
//! `e` and `E` are an enum, `r` is a record of one, `x` a resource; `f` and `g` are functions that take the enum, `h`
//! one that takes the record, `o` one that gives the resource; `c` is a component that hides the resource which its
//! function gives. Behind a colon comes the number of the enum in the record; without it, no place named that enum.
//! What stands before the colon is the name. Numbers from 5 on are of what the instance makes, and all others of what
//! its imports bring.

use comp_entity::{
    ComponentShape, Entity, FuncShape, InstanceShape, ResourceNo, TypeNo, TypeShape, ValueShape,
};
use std::alloc::Global;
use warg_values::{Memory, Sequence, Text};

/// The first number of what an instance makes.
const MADE: usize = 5;

/// How many scopes out the scope of a number is.
fn out(number: usize) -> usize {
    if number < MADE { 1 } else { 0 }
}

/// The resource of a number.
fn resource(number: usize) -> Result<ResourceNo, Memory> {
    ResourceNo::new(out(number), number).ok_or(Memory)
}

/// The place of a number.
fn place(number: usize) -> Result<TypeNo, Memory> {
    TypeNo::new(out(number), number).ok_or(Memory)
}

/// The place of the number of the enum in a record, where there is one.
fn inner_place(number: Option<usize>) -> Result<Option<TypeNo>, Memory> {
    match number {
        Some(number) => Ok(Some(place(number)?)),
        None => Ok(None),
    }
}

/// The digit at the end of a word.
fn digit(word: &str) -> Option<usize> {
    let byte = *word.as_bytes().last()?;
    if byte.is_ascii_digit() {
        Some((byte - b'0') as usize)
    } else {
        None
    }
}

/// An enum that this place named, or none.
fn enum_of(alloc: Global, place: Option<TypeNo>) -> Result<ValueShape, Memory> {
    let mut labels = Sequence::new(alloc);
    labels.push(Text::copy_of(alloc, "a")?)?;
    Ok(ValueShape::EnumOf(place, labels))
}

/// A record of this place, with an enum in it.
fn record_of(alloc: Global, place: TypeNo, inner: Option<TypeNo>) -> Result<ValueShape, Memory> {
    let mut fields = Vec::new(alloc);
    fields.push((Text::copy_of(alloc, "f")?, enum_of(alloc, inner)?))?;
    Ok(ValueShape::RecordOf(Some(place), fields))
}

/// The value type of a letter.
fn value(
    alloc: Global,
    letter: u8,
    number: usize,
    inner: Option<usize>,
) -> Result<ValueShape, Memory> {
    match letter {
        b'r' | b'h' => record_of(alloc, place(number)?, inner_place(inner)?),
        _ => enum_of(alloc, Some(place(number)?)),
    }
}

/// A function that takes the value type of a letter.
fn taking(
    alloc: Global,
    letter: u8,
    number: usize,
    inner: Option<usize>,
) -> Result<FuncShape, Memory> {
    let mut params = Vec::new(alloc);
    params.push((
        Text::copy_of(alloc, "v")?,
        value(alloc, letter, number, inner)?,
    ))?;
    Ok(FuncShape {
        params,
        result: None,
    })
}

/// A function that gives a resource.
fn giving(alloc: Global, name: ResourceNo) -> FuncShape {
    FuncShape {
        params: Vec::new(alloc),
        result: Some(ValueShape::Own(name)),
    }
}

/// A component of a function that gives a resource which it makes and does not export.
fn hiding(alloc: Global) -> Result<ComponentShape, Memory> {
    let name = ResourceNo::new(0, 0).ok_or(Memory)?;
    let mut exports = Vec::new(alloc);
    exports.push((
        Text::copy_of(alloc, "o")?,
        Entity::Func(giving(alloc, name)),
    ))?;
    Ok(ComponentShape {
        imports: Vec::new(alloc),
        exports,
    })
}

/// The entity of a letter.
fn entity(
    alloc: Global,
    letter: u8,
    number: usize,
    inner: Option<usize>,
) -> Result<Entity, Memory> {
    match letter {
        b'f' | b'g' | b'h' => Ok(Entity::Func(taking(alloc, letter, number, inner)?)),
        b'o' => Ok(Entity::Func(giving(alloc, resource(number)?))),
        b'x' => Ok(Entity::Ty(TypeShape::Resource(resource(number)?))),
        b'c' => Ok(Entity::Component(hiding(alloc)?)),
        _ => Ok(Entity::Ty(TypeShape::Value(value(alloc, letter, number, inner)?))),
    }
}

/// The entity of a word, under its name.
fn named(alloc: Global, word: &str) -> Result<(Text, Entity), Memory> {
    let (name, inner) = word.split_once(":").unwrap_or((word, ""));
    let letter = *name.as_bytes().first().unwrap_or(&b'e');
    let number = digit(name).unwrap_or(0);
    let text = Text::copy_of(alloc, name)?;
    Ok((text, entity(alloc, letter, number, digit(inner))?))
}

/// An instance of words between commas.
pub fn instance(alloc: Global, words: &str) -> Result<Entity, Memory> {
    let mut exports = Vec::new(alloc);
    for word in words.split(",") {
        exports.push(named(alloc, word)?)?;
    }
    Ok(Entity::Instance(InstanceShape { exports }))
}
