//! What values and functions mention.

ghost use Rattle.std.specs.Prelude.{◌≡◌, ◌++◌, ◌∷◌, [], flat_map, map, option_map, option_to_list, IfOk};
ghost use Rattle.comp_entity.specs.Names.{OfResource, at_place, in_cases, in_func, in_payload, in_value, in_values};
ghost use Rattle.comp_entity.specs.Views.{cases_of, func_tree, value_tree, values_of};
ghost use Rattle.compose_left.specs.Renaming.{case_tree, field_tree};
ghost use Rattle.compose_needs.specs.Mentioned.{outwards};
ghost use Rattle.compose_needs.specs.Payloads.{boxed_payload, in_field, in_result};

use comp_entity::{FuncShape, ResourceNo, TypeNo, ValueShape};
use compose_left::Thing;
use warg_values::{Memory, Text};

/// Adds a resource that is mentioned so many scopes deep, where it is of a scope around these.
pub fn push_resource(depth: usize, name: ResourceNo, things: &mut Vec<Thing>) -> Result<(), Memory>
    ensures { IfOk result (λ done.
        things.new.items ≡ things.old.items ++ outwards ((depth, OfResource name) ∷ [])) }
{
    let Some(out) = name.out().checked_sub(depth) else {
        return Ok(());
    };
    things.push(Thing {
        is_type: false,
        out,
        number: name.number(),
    })?;
    Ok(())
}

/// Adds the place that named a type which is mentioned so many scopes deep, where it is of a scope around these.
fn push_place(depth: usize, place: Option<TypeNo>, things: &mut Vec<Thing>) -> Result<(), Memory>
    ensures { IfOk result (λ done. things.new.items ≡ things.old.items ++ outwards (at_place depth place)) }
{
    let Some(name) = place else {
        return Ok(());
    };
    let Some(out) = name.out().checked_sub(depth) else {
        return Ok(());
    };
    things.push(Thing {
        is_type: true,
        out,
        number: name.number(),
    })?;
    Ok(())
}

/// Adds what a value type mentions.
#[cycle(values)]
pub fn push_value(depth: usize, value: &ValueShape, things: &mut Vec<Thing>) -> Result<(), Memory>
    ensures { IfOk result (λ done.
        things.new.items ≡ things.old.items ++ outwards (in_value depth (value_tree value.now))) }
{
    match value {
        ValueShape::Primitive(_) => Ok(()),
        ValueShape::RecordOf(place, fields) => {
            push_place(depth, *place, things)?;
            push_fields(depth, fields, things)?;
            Ok(())
        }
        ValueShape::VariantOf(place, cases) => {
            push_place(depth, *place, things)?;
            push_cases(depth, cases, things)?;
            Ok(())
        }
        ValueShape::ListOf(part) | ValueShape::OptionOf(part) => {
            push_value(depth, part, things)?;
            Ok(())
        }
        ValueShape::TupleOf(parts) => {
            push_parts(depth, parts, things)?;
            Ok(())
        }
        ValueShape::FlagsOf(place, _) | ValueShape::EnumOf(place, _) => {
            push_place(depth, *place, things)?;
            Ok(())
        }
        ValueShape::ResultOf { ok, err } => {
            push_boxed(depth, ok, things)?;
            push_boxed(depth, err, things)?;
            Ok(())
        }
        ValueShape::Own(name) | ValueShape::Borrow(name) => {
            push_resource(depth, *name, things)?;
            Ok(())
        }
    }
}

/// Adds what a case of a result mentions.
#[cycle(values)]
fn push_boxed(
    depth: usize,
    held: &Option<Box<ValueShape>>,
    things: &mut Vec<Thing>,
) -> Result<(), Memory>
    ensures { IfOk result (λ done.
        things.new.items ≡ things.old.items ++ outwards (in_payload depth (boxed_payload held.now))) }
{
    match held {
        None => Ok(()),
        Some(value) => {
            push_value(depth, value, things)?;
            Ok(())
        }
    }
}

/// Adds what the parts of a tuple mention.
#[cycle(values)]
fn push_parts(depth: usize, parts: &[ValueShape], things: &mut Vec<Thing>) -> Result<(), Memory>
    ensures { IfOk result (λ done.
        things.new.items ≡ things.old.items ++ outwards (in_values depth (values_of (map value_tree parts.now)))) }
{
    for part in parts {
        push_value(depth, part, things)?;
    }
    Ok(())
}

/// Adds what the fields of a record, or the parameters of a function, mention.
#[cycle(values)]
fn push_fields(
    depth: usize,
    fields: &[(Text, ValueShape)],
    things: &mut Vec<Thing>,
) -> Result<(), Memory>
    ensures { IfOk result (λ done. things.new.items
        ≡ things.old.items ++ outwards (flat_map (in_field depth) (map field_tree fields.now))) }
{
    for field in fields {
        push_value(depth, &field.1, things)?;
    }
    Ok(())
}

/// Adds what the cases of a variant mention.
#[cycle(values)]
fn push_cases(
    depth: usize,
    cases: &[(Text, Option<ValueShape>)],
    things: &mut Vec<Thing>,
) -> Result<(), Memory>
    ensures { IfOk result (λ done.
        things.new.items ≡ things.old.items ++ outwards (in_cases depth (cases_of (map case_tree cases.now)))) }
{
    for case in cases {
        if let Some(value) = &case.1 {
            push_value(depth, value, things)?;
        }
    }
    Ok(())
}

/// Adds what a function gives mentions.
fn push_result(
    depth: usize,
    held: &Option<ValueShape>,
    things: &mut Vec<Thing>,
) -> Result<(), Memory>
    ensures { IfOk result (λ done.
        things.new.items ≡ things.old.items ++ outwards (in_result depth (option_map value_tree held.now))) }
{
    match held {
        None => Ok(()),
        Some(value) => {
            push_value(depth, value, things)?;
            Ok(())
        }
    }
}

/// Adds what a function mentions.
pub fn push_func(depth: usize, func: &FuncShape, things: &mut Vec<Thing>) -> Result<(), Memory>
    ensures { IfOk result (λ done.
        things.new.items ≡ things.old.items ++ outwards (in_func depth (func_tree func.now))) }
{
    push_fields(depth, &func.params, things)?;
    push_result(depth, &func.result, things)?;
    Ok(())
}
