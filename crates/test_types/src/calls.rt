//! Types of components, instances and core modules by themselves, and types that are called by another number. The rows
//! were written by hand from the tables of the Component Model's `Binary.md`.

ghost use Rattle.std.specs.Prelude.{◌≡◌, ◌<◌, ◌∷◌, [], length, IfOk};

use crate::form::{keep_entries, keeps_module};
use crate::write::{are, component, shape_of, write};
use comp_shape::{ComponentShape, InstanceShape, TypeShape, ValueShape, read_items};
use compose_types::{Entity, ModuleShape, Shape, TypeEncoder, TypeNo, TypeState};
use std::alloc::Global;
use std::test::Fail;
use test_check::is_row;
use warg_values::{Memory, Sequence, Text};

/// Sections in hexadecimal digits: a component, and the type of components that have its imports and exports.
const COMPONENTS: &[(&str, &str)] = &[
    ("", "0703014100"),
    // Two numbers, exported as a tuple.
    (
        "0705016f0279790b0701000174030000",
        "070f014102016f02797904000174030000",
    ),
    // A resource that is imported, and exported under one name more; and one of the component's own.
    (
        "0a06010001720301 0b0701000173030000",
        "071001410203000172030104000173030000",
    ),
    ("0704013f7f00 0b0701000172030000", "0709014101040001720301"),
];

/// Sections in hexadecimal digits: a component, and the type of instances that have its exports.
const INSTANCES: &[(&str, &str)] = &[
    ("", "0703014200"),
    (
        "0705016f0279790b0701000174030000",
        "070f014202016f02797904000174030000",
    ),
    ("0704013f7f00 0b0701000172030000", "0709014201040001720301"),
];

/// Sections in hexadecimal digits: a component that imports a core module, and the type of such modules.
const MODULES: &[(&str, &str)] = &[
    ("0303015000 0a070100016d001100", "0303015000"),
    (
        "03110150030160000003016100000301620000 0a070100016d001100",
        "0315015004016000000301610000016000000301620001",
    ),
];

/// Sections in hexadecimal digits: a component whose second import is a type, or an instance of a type alone, like the
/// first; and what is written for it where the second one is left out.
const ALSO: &[(&str, &str)] = &[
    (
        "0705016d010165 0a0701000174030000 0705016d010165 0a0701000175030002 07050140000003 0a06010001660104",
        "0705016d010165 0a0701000174030000 07050140000001 0a06010001660102",
    ),
    (
        "070f014202016d01016504000174030000 0a0b0200016d050000016e0500 0606010300010174 07050140000001 0a06010001660102",
        "070f014202016d01016504000174030000 0a060100016d0500 0606010300000174 07050140000001 0a06010001660102",
    ),
];

/// The items of a component, written out.
fn items_text(alloc: Global, bytes: &[u8]) -> Result<String, Fail> {
    match read_items(alloc, bytes) {
        Ok(items) => Ok(format!(in alloc; "{items:?}")?),
        Err(error) => Err(Fail::new(format_args!("{error:?}"))),
    }
}

/// Fails where a type is another one than that of these sections. It is written out as the item that it is read as.
fn is_type(alloc: Global, found: &str, sections: &str) -> Result<(), Fail> {
    let bytes = component(alloc, sections)?;
    let wanted = items_text(alloc, &bytes)?;
    is_row(sections, found, wanted.as_str())
}

/// A shape as the component that has it. It stands in a vector, since each way out of a function that holds an entity of
/// its own is proved for each kind of entity.
fn whole(alloc: Global, shape: Shape) -> Result<Vec<Entity>, Memory> {
    let Shape { imports, exports } = shape;
    let mut entities = Vec::new(alloc);
    entities.push(Entity::Component(ComponentShape { imports, exports }))?;
    Ok(entities)
}

/// What a shape exports as an instance.
fn exported(alloc: Global, shape: Shape) -> Result<Vec<Entity>, Memory> {
    let Shape {
        imports: _,
        exports,
    } = shape;
    let mut entities = Vec::new(alloc);
    entities.push(Entity::Instance(InstanceShape { exports }))?;
    Ok(entities)
}

/// The type of a component, an instance or a core module, written out.
fn type_text(alloc: Global, encoder: &TypeEncoder<'_>, entity: &Entity) -> Result<String, Fail> {
    let mut state = TypeState::new(alloc);
    match entity {
        Entity::Component(_) => component_text(alloc, encoder, &mut state, entity),
        Entity::Instance(_) => instance_text(alloc, encoder, &mut state, entity),
        Entity::Module(module) => module_text(alloc, encoder, module),
        _ => Err(Fail::new("a type of another kind")),
    }
}

/// The type of a component, written out.
#[tactic(auto, using(crate::proofs::FormLaws::named_kept, crate::proofs::FormLaws::sides_are_known))]
fn component_text(
    alloc: Global,
    encoder: &TypeEncoder<'_>,
    state: &mut TypeState,
    entity: &Entity,
) -> Result<String, Fail> {
    let Entity::Component(component) = entity else {
        return Err(Fail::new("no component"));
    };
    if !keep_entries(&component.imports) {
        return Err(Fail::new("imports without a written form"));
    }
    if !keep_entries(&component.exports) {
        return Err(Fail::new("exports without a written form"));
    }
    if !state.knows(entity) {
        return Err(Fail::new("a type that is not known"));
    }
    match encoder.component(alloc, state, &component.imports, &component.exports) {
        Ok(ty) => Ok(format!(in alloc; "[Ty(Component({ty:?}))]")?),
        Err(error) => Err(Fail::from(error)),
    }
}

/// The type of an instance, written out.
#[tactic(auto, using(crate::proofs::FormLaws::named_kept, crate::proofs::FormLaws::exports_are_known))]
fn instance_text(
    alloc: Global,
    encoder: &TypeEncoder<'_>,
    state: &mut TypeState,
    entity: &Entity,
) -> Result<String, Fail> {
    let Entity::Instance(instance) = entity else {
        return Err(Fail::new("no instance"));
    };
    if !keep_entries(&instance.exports) {
        return Err(Fail::new("exports without a written form"));
    }
    if !state.knows(entity) {
        return Err(Fail::new("a type that is not known"));
    }
    match encoder.instance(alloc, state, &instance.exports) {
        Ok(ty) => Ok(format!(in alloc; "[Ty(Instance({ty:?}))]")?),
        Err(error) => Err(Fail::from(error)),
    }
}

/// The type of a core module, written out.
fn module_text(
    alloc: Global,
    encoder: &TypeEncoder<'_>,
    module: &ModuleShape,
) -> Result<String, Fail> {
    if !keeps_module(module) {
        return Err(Fail::new("no written form"));
    }
    match encoder.module(alloc, module) {
        Ok(ty) => Ok(format!(in alloc; "[CoreTy(Module({ty:?}))]")?),
        Err(error) => Err(Fail::from(error)),
    }
}

/// Fails where the first of these entities has another type.
fn first_is(
    alloc: Global,
    encoder: &TypeEncoder<'_>,
    entities: &[Entity],
    wanted: &str,
) -> Result<(), Fail> {
    match entities.first() {
        Some(entity) => {
            let found = type_text(alloc, encoder, entity)?;
            is_type(alloc, found.as_str(), wanted)
        }
        None => Err(Fail::new("no entity")),
    }
}

/// Fails at the first row of another type of components.
fn have_components(alloc: Global, rows: &[(&str, &str)]) -> Result<(), Fail> {
    for (sections, wanted) in rows {
        let shape = shape_of(alloc, sections)?;
        let entities = whole(alloc, shape_of(alloc, sections)?)?;
        first_is(alloc, &TypeEncoder::new(&shape), &entities, wanted)?;
    }
    Ok(())
}

#[test]
fn a_shape_has_a_type_of_components(rt: HostRuntime) -> Result<(), Fail> {
    have_components(rt.alloc(), COMPONENTS)
}

/// Fails at the first row of another type of instances.
fn have_instances(alloc: Global, rows: &[(&str, &str)]) -> Result<(), Fail> {
    for (sections, wanted) in rows {
        let shape = shape_of(alloc, sections)?;
        let entities = exported(alloc, shape_of(alloc, sections)?)?;
        first_is(alloc, &TypeEncoder::new(&shape), &entities, wanted)?;
    }
    Ok(())
}

#[test]
fn exports_have_a_type_of_instances(rt: HostRuntime) -> Result<(), Fail> {
    have_instances(rt.alloc(), INSTANCES)
}

/// Fails where the first import has another type.
fn first_import_is(alloc: Global, shape: &Shape, wanted: &str) -> Result<(), Fail> {
    match shape.imports.first() {
        Some((_, entity)) => {
            let found = type_text(alloc, &TypeEncoder::new(shape), entity)?;
            is_type(alloc, found.as_str(), wanted)
        }
        None => Err(Fail::new("no import")),
    }
}

/// Fails at the first row whose import has another type.
fn have_modules(alloc: Global, rows: &[(&str, &str)]) -> Result<(), Fail> {
    for (sections, wanted) in rows {
        let shape = shape_of(alloc, sections)?;
        first_import_is(alloc, &shape, wanted)?;
    }
    Ok(())
}

#[test]
fn core_modules_have_types(rt: HostRuntime) -> Result<(), Fail> {
    have_modules(rt.alloc(), MODULES)
}

/// The place that named an enum.
fn place_of(entity: &Entity) -> Option<TypeNo> {
    match entity {
        Entity::Ty(TypeShape::Value(ValueShape::EnumOf(place, _))) => *place,
        _ => None,
    }
}

/// Notes that the type of this index has the number, too, that another import gave to one like it.
fn note_type(alloc: Global, state: &mut TypeState, index: u32, other: &Entity) -> Result<(), Fail> {
    match place_of(other) {
        Some(place) => Ok(state.also(place, index, Sequence::new(alloc))?),
        None => Err(Fail::new("no enum that a place named")),
    }
}

/// The path of one name.
fn one_name(alloc: Global, name: &Text) -> Result<Sequence<Text>, Memory>
    requires { 0 < length name.now }
    ensures { IfOk result (λ path. path ≡ name.now ∷ []) }
{
    let mut path = Sequence::new(alloc);
    path.push(name.try_clone(alloc)?)?;
    Ok(path)
}

/// Notes that the type that the instance of this index exports under a name has the number, too, that another import
/// gave to one like it.
fn note_export(
    alloc: Global,
    state: &mut TypeState,
    index: u32,
    other: &(Text, Entity),
) -> Result<(), Fail> {
    let (name, entity) = other;
    if name.as_str().is_empty() {
        return Err(Fail::new("no name"));
    }
    match place_of(entity) {
        Some(place) => Ok(state.also(place, index, one_name(alloc, name)?)?),
        None => Err(Fail::new("no enum that a place named")),
    }
}

/// Notes that what an import brings has the number, too, that another import gave to one like it.
fn note(alloc: Global, state: &mut TypeState, index: u32, other: &Entity) -> Result<(), Fail> {
    match other {
        Entity::Instance(instance) => match instance.exports.first() {
            Some(export) => note_export(alloc, state, index, export),
            None => Err(Fail::new("no export")),
        },
        _ => note_type(alloc, state, index, other),
    }
}

/// Writes the first and the third import. The second one is the first one by another name.
fn write_joined(
    alloc: Global,
    encoder: &TypeEncoder<'_>,
    state: &mut TypeState,
    imports: &[(Text, Entity)],
) -> Result<(), Fail> {
    match imports {
        [first, second, third] => {
            let index = write(alloc, encoder, state, first)?;
            note(alloc, state, index, &second.1)?;
            write(alloc, encoder, state, third)?;
            Ok(())
        }
        _ => Err(Fail::new("not three imports")),
    }
}

/// A component with the first and the third import of a shape.
fn joined(alloc: Global, shape: &Shape) -> Result<Vec<u8>, Fail> {
    let mut state = TypeState::new(alloc);
    let written = write_joined(alloc, &TypeEncoder::new(shape), &mut state, &shape.imports);
    let bytes = state.into_builder().finish(alloc);
    written?;
    Ok(bytes?)
}

/// Fails at the first row for which something else is written.
fn are_joined(alloc: Global, rows: &[(&str, &str)]) -> Result<(), Fail> {
    for (given, wanted) in rows {
        let shape = shape_of(alloc, given)?;
        let bytes = joined(alloc, &shape)?;
        are(alloc, &bytes, wanted)?;
    }
    Ok(())
}

#[test]
fn a_type_is_found_by_its_other_number(rt: HostRuntime) -> Result<(), Fail> {
    are_joined(rt.alloc(), ALSO)
}

/// A record that is imported, and a function that gives it.
const MENTIONS: &str = "0706017201016179 0a0701000172030000 07050140000001 0a06010001660102";

/// Whether what the second import mentions is known before the first one is written, and behind it.
fn known(alloc: Global, shape: &Shape, state: &mut TypeState) -> Result<(bool, bool), Fail> {
    match shape.imports.as_slice() {
        [first, second] => {
            let before = state.knows(&second.1);
            write(alloc, &TypeEncoder::new(shape), state, first)?;
            Ok((before, state.knows(&second.1)))
        }
        _ => Err(Fail::new("not two imports")),
    }
}

#[test]
fn a_type_is_known_once_it_is_written(rt: HostRuntime) -> Result<(), Fail> {
    let shape = shape_of(rt.alloc(), MENTIONS)?;
    let mut state = TypeState::new(rt.alloc());
    assert_eq!(rt; known(rt.alloc(), &shape, &mut state)?, (false, true));
    Ok(())
}
