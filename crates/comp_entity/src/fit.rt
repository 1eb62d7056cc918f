//! Which entity can be given where another is asked for.

ghost use Rattle.std.specs.Prelude.{◌≡◌};
ghost use Rattle.std.specs.Cmp.Lexicographic.{pointwise};
ghost use Rattle.comp_entity.specs.Comparing.{type_alike, entity_alike, entry_alike, component_alike, sides_alike};
ghost use Rattle.comp_entity.specs.Comparing.{entity_suits, export_suits, exports_suit};
ghost use Rattle.comp_entity.specs.Fits.{equal, fits};
ghost use Rattle.comp_entity.specs.Views.{entity_tree};

use crate::entity::{ComponentShape, Entity, TypeShape};
use crate::modules::{module_equal, module_fits};
use crate::naming::{Naming, resource_equal, under};
use crate::values::{func_equal, value_equal};
use comp_format::Text;

/// Whether two entities are equal (`Explainer.md`, "Type Checking"). Which places named types is set aside.
///
/// Both stand in one scope. Where they are scopes themselves, what these bring or make may be called otherwise, but its
/// numbers count in the same order.
pub fn equal(a: &Entity, b: &Entity) -> bool
    ensures { result ≡ equal (entity_tree a.now) (entity_tree b.now) }
{
    entity_equal(&Naming::Same, a, b)
}

/// Whether an entity can be given where another is asked for (`Explainer.md`, "Type Checking").
///
/// An instance fits where each export that is asked for is there and fits, a core module where each export that is
/// asked for is there and each of its imports is among those that are asked for; all else fits where it is equal. A
/// resource that the asked entity is, or itself exports as a type, is fitted by any resource, which then stands for it.
///
/// Both stand in one scope: what the asked entity mentions, and does not bring, is compared as it is.
pub fn fits(given: &Entity, asked: &Entity) -> bool
    ensures { result ≡ fits (entity_tree given.now) (entity_tree asked.now) }
{
    entity_fits(asked, given, &Naming::Standing { given, asked })
}

/// Whether a type is equal to the one that is asked for.
#[cycle(equality)]
fn type_equal(naming: &Naming<'_>, given: &TypeShape, asked: &TypeShape) -> bool
    ensures { result ≡ type_alike naming.now given.now asked.now }
{
    match (given, asked) {
        (TypeShape::Resource(given), TypeShape::Resource(asked)) => resource_equal(
            naming, *given, *asked,
        ),
        (TypeShape::Value(given), TypeShape::Value(asked)) => value_equal(naming, given, asked),
        (TypeShape::Func(given), TypeShape::Func(asked)) => func_equal(naming, given, asked),
        (TypeShape::Instance(given), TypeShape::Instance(asked)) => {
            entries_equal(&Naming::Within(&*naming), &given.exports, &asked.exports)
        }
        (TypeShape::Component(given), TypeShape::Component(asked)) => component_equal(
            naming, given, asked,
        ),
        _ => false,
    }
}

/// Whether a component imports and exports what is asked for.
#[cycle(equality)]
fn component_equal(naming: &Naming<'_>, given: &ComponentShape, asked: &ComponentShape) -> bool
    ensures { result ≡ component_alike naming.now given.now asked.now }
{
    let outer = Naming::Within(&*naming);
    sides_equal(&Naming::Within(&outer), given, asked)
}

/// The same, where both stand in the scope of their exports.
#[cycle(equality)]
fn sides_equal(naming: &Naming<'_>, given: &ComponentShape, asked: &ComponentShape) -> bool
    ensures { result ≡ sides_alike naming.now given.now asked.now }
{
    entries_equal(naming, &given.imports, &asked.imports)
        && entries_equal(naming, &given.exports, &asked.exports)
}

/// Whether an entity is equal to the one that is asked for.
#[cycle(equality)]
fn entity_equal(naming: &Naming<'_>, given: &Entity, asked: &Entity) -> bool
    ensures { result ≡ entity_alike naming.now given.now asked.now }
{
    match (given, asked) {
        (Entity::Func(given), Entity::Func(asked)) => func_equal(naming, given, asked),
        (Entity::Instance(given), Entity::Instance(asked)) => entries_equal(
            naming,
            &given.exports,
            &asked.exports,
        ),
        (Entity::Component(given), Entity::Component(asked)) => component_equal(
            naming, given, asked,
        ),
        (Entity::Module(given), Entity::Module(asked)) => module_equal(given, asked),
        (Entity::Ty(given), Entity::Ty(asked)) => type_equal(naming, given, asked),
        _ => false,
    }
}

/// Whether imports or exports are those that are asked for.
#[cycle(equality)]
fn entries_equal(naming: &Naming<'_>, given: &[(Text, Entity)], asked: &[(Text, Entity)]) -> bool
    ensures { result ≡ pointwise (entry_alike naming.now) given.now asked.now }
{
    if given.len() != asked.len() {
        return false;
    }
    for (place, entry) in given.iter().enumerate() {
        let asked_entry = &asked[place];
        if entry.0 != asked_entry.0 || !entity_equal(naming, &entry.1, &asked_entry.1) {
            return false;
        }
    }
    true
}

/// Whether an entity fits the one that is asked for.
#[cycle(fit)]
fn entity_fits(asked: &Entity, given: &Entity, naming: &Naming<'_>) -> bool
    ensures { result ≡ entity_suits naming.now given.now asked.now }
{
    match (asked, given) {
        (Entity::Func(asked), Entity::Func(given)) => func_equal(naming, given, asked),
        (Entity::Instance(asked), Entity::Instance(given)) => exports_fit(
            &asked.exports,
            &given.exports,
            naming,
        ),
        (Entity::Component(asked), Entity::Component(given)) => component_equal(
            naming, given, asked,
        ),
        (Entity::Module(asked), Entity::Module(given)) => module_fits(given, asked),
        (Entity::Ty(asked), Entity::Ty(given)) => type_equal(naming, given, asked),
        _ => false,
    }
}

/// Whether each export that is asked for is there and fits.
#[cycle(fit)]
fn exports_fit(asked: &[(Text, Entity)], given: &[(Text, Entity)], naming: &Naming<'_>) -> bool
    ensures { result ≡ exports_suit naming.now given.now asked.now }
{
    for export in asked {
        if !export_fits(&export.0, &export.1, given, naming) {
            return false;
        }
    }
    true
}

/// Whether an export that is asked for is there and fits.
#[cycle(fit)]
fn export_fits(label: &Text, asked: &Entity, given: &[(Text, Entity)], naming: &Naming<'_>) -> bool
    ensures { result ≡ export_suits naming.now given.now label.now asked.now }
{
    match under(label, given) {
        Some(found) => entity_fits(asked, found, naming),
        None => false,
    }
}
