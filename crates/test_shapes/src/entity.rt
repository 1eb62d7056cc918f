//! Which entities are equal, and which can be given for which. The rows were written by hand from the rules of the Component
//! Model's `Explainer.md`, "Type Checking".

use comp_entity::{
    CoreShape, CoreVal, Entity, FuncShape, InstanceShape, ModuleShape, Primitive, ResourceNo,
    TypeNo, TypeShape, ValueShape, equal, fits,
};
use std::alloc::Global;
use std::test::Fail;
use warg_values::{Memory, Sequence, Text};

/// A given entity, one that is asked for, whether they are equal, and whether the first fits the second.
const ROWS: &[(&str, &str, bool, bool)] = &[
    ("bool", "bool", true, true),
    ("bool", "list", false, false),
    ("named", "renamed", true, true),
    ("named", "list", false, false),
    ("first", "second", false, true),
    ("own-first", "own-second", false, false),
    ("own-first", "own-first", true, true),
    ("file-first", "file-second", false, true),
    ("mixed", "file-second", false, false),
    ("file-first", "bare-file", false, true),
    ("bare-file", "file-first", false, false),
    ("module", "module", true, true),
    ("module", "bool", false, false),
];

/// What an entity of a row is.
enum Sample {
    /// A truth value.
    Bool,
    /// A list of truth values.
    List,
    /// A record that is named by this place.
    Record(usize),
    /// The resource type of this number.
    Resource(usize),
    /// A handle of the resource of this number.
    Own(usize),
    /// An instance that exports the resource of the first number, and a function that gives one of the second.
    File(usize, usize),
    /// An instance that exports a resource alone.
    BareFile,
    /// A core module that exports a function.
    Module,
}

/// The words of the rows.
const SAMPLES: &[(&str, Sample)] = &[
    ("bool", Sample::Bool),
    ("list", Sample::List),
    ("named", Sample::Record(1)),
    ("renamed", Sample::Record(2)),
    ("first", Sample::Resource(1)),
    ("second", Sample::Resource(2)),
    ("own-first", Sample::Own(1)),
    ("own-second", Sample::Own(2)),
    ("file-first", Sample::File(1, 1)),
    ("file-second", Sample::File(2, 2)),
    ("mixed", Sample::File(1, 4)),
    ("bare-file", Sample::BareFile),
    ("module", Sample::Module),
];

/// The resource of a number of the scope at hand.
fn resource(number: usize) -> Option<ResourceNo> {
    ResourceNo::new(0, number)
}

/// A type of values, as an entity.
fn value(ty: ValueShape) -> Entity {
    Entity::Ty(TypeShape::Value(ty))
}

/// A record of one field, named by a place.
fn record(alloc: Global, place: usize) -> Result<Entity, Memory> {
    let mut fields = Vec::new(alloc);
    fields.push((
        Text::copy_of(alloc, "x")?,
        ValueShape::Primitive(Primitive::U32),
    ))?;
    Ok(value(ValueShape::RecordOf(TypeNo::new(0, place), fields)))
}

/// An instance that exports a resource, and a function that gives one.
fn file(alloc: Global, made: usize, given: usize) -> Result<Entity, Memory> {
    let mut exports = Vec::new(alloc);
    if let Some(made) = resource(made) {
        exports.push((
            Text::copy_of(alloc, "file")?,
            Entity::Ty(TypeShape::Resource(made)),
        ))?;
    }
    if let Some(given) = resource(given) {
        let open = FuncShape {
            params: Vec::new(alloc),
            result: Some(ValueShape::Own(given)),
        };
        exports.push((Text::copy_of(alloc, "open")?, Entity::Func(open)))?;
    }
    Ok(Entity::Instance(InstanceShape { exports }))
}

/// An instance that exports a resource alone.
fn bare_file(alloc: Global) -> Result<Entity, Memory> {
    let mut exports = Vec::new(alloc);
    if let Some(made) = resource(3) {
        exports.push((
            Text::copy_of(alloc, "file")?,
            Entity::Ty(TypeShape::Resource(made)),
        ))?;
    }
    Ok(Entity::Instance(InstanceShape { exports }))
}

/// A core module that exports a function.
fn module(alloc: Global) -> Result<Entity, Memory> {
    let mut params = Sequence::new(alloc);
    params.push(CoreVal::V7f)?;
    let run = CoreShape::Func {
        params,
        results: Sequence::new(alloc),
    };
    let mut exports = Sequence::new(alloc);
    exports.push((Text::copy_of(alloc, "run")?, run))?;
    Ok(Entity::Module(ModuleShape {
        imports: Sequence::new(alloc),
        exports,
    }))
}

/// A resource type, or a handle of one.
fn of_resource(number: usize, is_handle: bool) -> Entity {
    match resource(number) {
        Some(resource) if is_handle => value(ValueShape::Own(resource)),
        Some(resource) => Entity::Ty(TypeShape::Resource(resource)),
        None => value(ValueShape::Primitive(Primitive::Char)),
    }
}

/// A list of truth values.
fn list(alloc: Global) -> Result<Entity, Memory> {
    let item = Box::new(alloc, ValueShape::Primitive(Primitive::Bool))?;
    Ok(value(ValueShape::ListOf(item)))
}

/// The entity of a sample.
fn of_sample(alloc: Global, sample: &Sample) -> Result<Entity, Memory> {
    match sample {
        Sample::Bool => Ok(value(ValueShape::Primitive(Primitive::Bool))),
        Sample::List => list(alloc),
        Sample::Record(place) => record(alloc, *place),
        Sample::Resource(number) => Ok(of_resource(*number, false)),
        Sample::Own(number) => Ok(of_resource(*number, true)),
        Sample::File(made, given) => file(alloc, *made, *given),
        Sample::BareFile => bare_file(alloc),
        Sample::Module => module(alloc),
    }
}

/// The entity of a word in a row.
pub fn entity(alloc: Global, word: &str) -> Result<Entity, Fail> {
    for (name, sample) in SAMPLES {
        if *name == word {
            return Ok(of_sample(alloc, sample)?);
        }
    }
    Err(Fail::new(format_args!("no sample is called {word}")))
}

/// The two entities of a row. They stand in a vector, since each way out of a function that holds an entity of its own
/// is proved for each kind of entity.
fn entities(alloc: Global, given: &str, asked: &str) -> Result<Vec<Entity>, Fail> {
    let mut entities = Vec::new(alloc);
    entities.push(entity(alloc, given)?)?;
    entities.push(entity(alloc, asked)?)?;
    Ok(entities)
}

/// Whether the two entities of a row are equal, and whether the first fits the second.
fn found(alloc: Global, given: &str, asked: &str) -> Result<(bool, bool), Fail> {
    match entities(alloc, given, asked)?.as_slice() {
        [given, asked] => Ok((equal(given, asked), fits(given, asked))),
        _ => Err(Fail::new("a row has two entities")),
    }
}

/// Fails at the first row that is found otherwise.
fn are_found(alloc: Global, rows: &[(&str, &str, bool, bool)]) -> Result<(), Fail> {
    for (given, asked, is_equal, is_fit) in rows {
        if found(alloc, given, asked)? != (*is_equal, *is_fit) {
            return Err(Fail::new(format_args!("of {given} and {asked}")));
        }
    }
    Ok(())
}

#[test]
fn entities_are_equal_and_fit_as_the_rules_say(rt: HostRuntime) -> Result<(), Fail> {
    are_found(rt.alloc(), ROWS)
}
