//! Whether what entities mention is known where they stand.

ghost use Rattle.std.specs.Prelude.{◌≡◌, is_some};
ghost use Rattle.std.specs.List.{list_all, list_any};
ghost use Rattle.comp_entity.specs.Names.{in_func, in_payload, in_value};
ghost use Rattle.comp_entity.specs.Places.{same_mention};
ghost use Rattle.comp_entity.specs.Views.{component_sides, entity_tree, entries_of, func_tree, named_entities, type_tree as shape_tree, value_tree};
ghost use Rattle.compose_writing.specs.Conditions.{all_known, are_known, is_known, sides_known, type_known_behind, unnamed};
ghost use Rattle.compose_meaning.specs.Readable.{brought_keys, keys_among};
ghost use Rattle.compose_types.specs.Sights.{case_known, field_known, held_known, part_known, sees};
ghost use Rattle.compose_types.specs.Values.{boxed_tree};
ghost use Rattle.compose_types.specs.Views.{mention_of};

use crate::known::Key;
use crate::notes::key_of;
use crate::state::TypeState;
use crate::values::place_of;
use comp_entity::{ComponentShape, Entity, FuncShape, TypeShape, ValueShape};
use warg_values::Text;

/// What may be mentioned where an entity stands.
#[derive(Drop)]
pub enum Sight<'a> {
    /// What a state knows.
    State(&'a TypeState),
    /// What these entries bring, and what may be mentioned around them.
    Behind {
        entries: &'a [(Text, Entity)],
        around: &'a Sight<'a>,
    },
    /// What may be mentioned so many scopes of names further out.
    Within {
        width: usize,
        around: &'a Sight<'a>,
    },
}

/// Whether an entity brings a thing.
#[cycle(bringing)]
#[tactic(auto, using(crate::proofs::SightLaws::instance_brings))]
fn brings(entity: &Entity, key: Key) -> bool
    ensures { result ≡ list_any (λ k. same_mention k (mention_of key)) (brought_keys (entity_tree entity.now)) }
{
    match entity {
        Entity::Instance(instance) => some_brings(&instance.exports, key),
        Entity::Func(_) | Entity::Component(_) | Entity::Module(_) | Entity::Ty(_) => {
            key_of(entity) == Some(key)
        }
    }
}

/// Whether some of these entries bring a thing.
#[cycle(bringing)]
fn some_brings(entries: &[(Text, Entity)], key: Key) -> bool
    ensures { result ≡ list_any (λ k. same_mention k (mention_of key))
        (keys_among (entries_of (named_entities entries.now))) }
{
    for entry in entries {
        if brings(&entry.1, key) {
            return true;
        }
    }
    false
}

/// Whether a thing may be mentioned.
fn sees(sight: &Sight<'_>, key: Key) -> bool
    ensures { result ≡ sees sight.now (mention_of key) }
{
    match sight {
        Sight::State(state) => state.knows_key(key),
        Sight::Behind { entries, around } => sees(around, key) || some_brings(entries, key),
        Sight::Within { width, around } => match key.outside(*width) {
            Some(key) => sees(around, key),
            None => false,
        },
    }
}

/// Whether all that a value type mentions may be.
#[cycle(mentioning)]
fn value_seen(sight: &Sight<'_>, ty: &ValueShape) -> bool
    ensures { result ≡ part_known (sees sight.now) ty.now }
{
    if let Some(place) = place_of(ty) {
        if !sees(sight, Key::of_place(place)) {
            return false;
        }
    }
    parts_seen(sight, ty)
}

/// Whether all that a value type mentions may be, but for the place that named it.
#[cycle(mentioning)]
#[tactic(auto, using(crate::proofs::SightLaws::tuple_seen, crate::proofs::SightLaws::record_seen, crate::proofs::SightLaws::variant_seen, crate::proofs::SightLaws::result_seen))]
fn parts_seen(sight: &Sight<'_>, ty: &ValueShape) -> bool
    ensures { result ≡ all_known (sees sight.now) (in_value 0 (unnamed (value_tree ty.now))) }
{
    match ty {
        ValueShape::Primitive(_) | ValueShape::FlagsOf(_, _) | ValueShape::EnumOf(_, _) => true,
        ValueShape::TupleOf(parts) => each_seen(sight, parts),
        ValueShape::RecordOf(_, fields) => fields_seen(sight, fields),
        ValueShape::VariantOf(_, cases) => cases_seen(sight, cases),
        ValueShape::ListOf(item) => value_seen(sight, item),
        ValueShape::OptionOf(item) => value_seen(sight, item),
        ValueShape::ResultOf { ok, err } => boxed_seen(sight, ok) && boxed_seen(sight, err),
        ValueShape::Own(resource) => sees(sight, Key::of_resource(*resource)),
        ValueShape::Borrow(resource) => sees(sight, Key::of_resource(*resource)),
    }
}

/// Whether all that a result holds may be mentioned.
#[cycle(mentioning)]
fn boxed_seen(sight: &Sight<'_>, held: &Option<Box<ValueShape>>) -> bool
    ensures { result ≡ all_known (sees sight.now) (in_payload 0 (boxed_tree held.now)) }
{
    match held {
        None => true,
        Some(ty) => value_seen(sight, ty),
    }
}

/// Whether all that parts of a tuple mention may be.
#[cycle(mentioning)]
fn each_seen(sight: &Sight<'_>, parts: &[ValueShape]) -> bool
    ensures { result ≡ list_all (part_known (sees sight.now)) parts.now }
{
    for part in parts {
        if !value_seen(sight, part) {
            return false;
        }
    }
    true
}

/// Whether all that fields of a record, or parameters of a function, mention may be.
#[cycle(mentioning)]
fn fields_seen(sight: &Sight<'_>, fields: &[(Text, ValueShape)]) -> bool
    ensures { result ≡ list_all (field_known (sees sight.now)) fields.now }
{
    for field in fields {
        if !value_seen(sight, &field.1) {
            return false;
        }
    }
    true
}

/// Whether all that cases of a variant mention may be.
#[cycle(mentioning)]
fn cases_seen(sight: &Sight<'_>, cases: &[(Text, Option<ValueShape>)]) -> bool
    ensures { result ≡ list_all (case_known (sees sight.now)) cases.now }
{
    for case in cases {
        if let Some(held) = &case.1 {
            if !value_seen(sight, held) {
                return false;
            }
        }
    }
    true
}

/// Whether all that a function mentions may be.
#[tactic(auto, using(crate::proofs::SightLaws::func_seen))]
fn func_seen(sight: &Sight<'_>, func: &FuncShape) -> bool
    ensures { result ≡ all_known (sees sight.now) (in_func 0 (func_tree func.now)) }
{
    if !fields_seen(sight, &func.params) {
        return false;
    }
    match &func.result {
        Some(ty) => value_seen(sight, ty),
        None => true,
    }
}

/// Whether all that an entity mentions may be, or is brought by it.
#[cycle(seeing)]
pub fn entity_seen(sight: &Sight<'_>, entity: &Entity) -> bool
    ensures { result ≡ is_known (sees sight.now) (entity_tree entity.now) }
{
    match entity {
        Entity::Func(func) => func_seen(sight, func),
        Entity::Instance(instance) => entries_seen(&*sight, &instance.exports),
        Entity::Component(component) => component_seen(&*sight, component),
        Entity::Module(_) => true,
        Entity::Ty(ty) => type_seen(&*sight, ty),
    }
}

/// The same of a type.
#[cycle(seeing)]
fn type_seen(sight: &Sight<'_>, ty: &TypeShape) -> bool
    ensures { result ≡ is_some (type_known_behind (sees sight.now) (shape_tree ty.now)) }
{
    match ty {
        TypeShape::Resource(_) => true,
        TypeShape::Value(ty) => parts_seen(sight, ty),
        TypeShape::Func(func) => func_seen(sight, func),
        TypeShape::Instance(instance) => {
            let within = Sight::Within {
                width: 1,
                around: &*sight,
            };
            entries_seen(&within, &instance.exports)
        }
        TypeShape::Component(component) => component_seen(&*sight, component),
    }
}

/// The same of a component.
#[cycle(seeing)]
fn component_seen(sight: &Sight<'_>, component: &ComponentShape) -> bool
    ensures { result ≡ sides_known (sees sight.now) (component_sides component.now).imports
        (component_sides component.now).exports }
{
    let within = Sight::Within {
        width: 2,
        around: &*sight,
    };
    if !entries_seen(&within, &component.imports) {
        return false;
    }
    let behind = Sight::Behind {
        entries: &component.imports,
        around: &within,
    };
    entries_seen(&behind, &component.exports)
}

/// The same of imports, or exports, each behind those before it.
#[cycle(seeing)]
fn entries_seen(sight: &Sight<'_>, entries: &[(Text, Entity)]) -> bool
    ensures { result ≡ are_known (sees sight.now) (entries_of (named_entities entries.now)) }
{
    for (place, entry) in entries.iter().enumerate() {
        let behind = Sight::Behind {
            entries: &entries[..place],
            around: &*sight,
        };
        if !entity_seen(&behind, &entry.1) {
            return false;
        }
    }
    true
}
