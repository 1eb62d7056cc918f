//! Whether entities have a written form: names that are not empty, labels that differ, at least one part, at most 32
//! flags, and tables of references. A test asks so before it writes what it has read.

ghost use Rattle.std.specs.Prelude.{◌≡◌, ◌<◌, false, All, IsTrue, length, map};
ghost use Rattle.std.specs.Str.{bytes_eq};
ghost use Rattle.comp_format.specs.Forms.{AreLabels};
ghost use Rattle.comp_entity.specs.Views.{component_sides, entity_tree, func_tree, value_tree};
ghost use Rattle.comp_entity.specs.Views.{type_tree as shape_tree};
ghost use Rattle.compose_writing.specs.Conditions.{KeepsCore, KeepsEntries, KeepsForm, KeepsFunc, KeepsModule, KeepsPayload, KeepsType, KeepsValue};
ghost use Rattle.test_types.specs.Form.{boxed_tree, held_tree};

use comp_format::CoreVal;
use comp_shape::{ComponentShape, CoreShape, FuncShape, TypeShape, ValueShape};
use compose_types::{Entity, ModuleShape};
use warg_values::Text;

/// Whether a label is none of those that follow.
fn differs(label: &Text, later: &[Text]) -> bool
    ensures { IsTrue result → All (λ other. bytes_eq label.now other ≡ false) later.now }
{
    for other in later {
        if label == other {
            return false;
        }
    }
    true
}

/// Whether labels are not empty, and differ.
#[tactic(auto, using(crate::proofs::FormLaws::no_labels, crate::proofs::FormLaws::labels_cons))]
fn are_labels(labels: &[Text]) -> bool
    ensures { IsTrue result → AreLabels labels.now }
{
    match labels {
        [] => true,
        [label, later @ ..] => {
            if label.as_str().is_empty() {
                return false;
            }
            if !differs(label, later) {
                return false;
            }
            are_labels(later)
        }
    }
}

/// Whether a label is none of those that follow.
fn differs_from<X>(label: &Text, later: &[(Text, X)]) -> bool
    ensures { IsTrue result → All (λ other. bytes_eq label.now other.0 ≡ false) later.now }
{
    for other in later {
        if *label == other.0 {
            return false;
        }
    }
    true
}

/// Whether things have labels that are not empty, and differ.
#[tactic(auto, using(crate::proofs::FormLaws::no_entries, crate::proofs::FormLaws::entries_cons))]
fn are_labelled<X>(entries: &[(Text, X)]) -> bool
    ensures { IsTrue result → AreLabels (map (λ e. e.0) entries.now) }
{
    match entries {
        [] => true,
        [entry, later @ ..] => {
            if entry.0.as_str().is_empty() {
                return false;
            }
            if !differs_from(&entry.0, later) {
                return false;
            }
            are_labelled(later)
        }
    }
}

/// Whether a value type has a written form.
#[cycle(values)]
#[tactic(auto, using(crate::proofs::FormLaws::tuple_kept, crate::proofs::FormLaws::record_kept, crate::proofs::FormLaws::variant_kept))]
fn keeps_value(ty: &ValueShape) -> bool
    ensures { IsTrue result → KeepsValue (value_tree ty.now) }
{
    match ty {
        ValueShape::Primitive(_) => true,
        ValueShape::TupleOf(parts) => {
            if parts.is_empty() {
                return false;
            }
            keep_parts(parts)
        }
        ValueShape::RecordOf(_, fields) => {
            if fields.is_empty() {
                return false;
            }
            if !are_labelled(fields) {
                return false;
            }
            keep_fields(fields)
        }
        ValueShape::VariantOf(_, cases) => {
            if cases.is_empty() {
                return false;
            }
            if !are_labelled(cases) {
                return false;
            }
            keep_cases(cases)
        }
        ValueShape::ListOf(item) => keeps_value(item),
        ValueShape::FlagsOf(_, labels) => {
            if labels.is_empty() {
                return false;
            }
            if labels.len() > 32 {
                return false;
            }
            are_labels(labels.as_slice())
        }
        ValueShape::EnumOf(_, labels) => {
            if labels.is_empty() {
                return false;
            }
            are_labels(labels.as_slice())
        }
        ValueShape::OptionOf(item) => keeps_value(item),
        ValueShape::ResultOf { ok, err } => {
            if !keeps_boxed(ok) {
                return false;
            }
            keeps_boxed(err)
        }
        ValueShape::Own(_) | ValueShape::Borrow(_) => true,
    }
}

/// Whether what a result holds has a written form.
#[cycle(values)]
fn keeps_boxed(held: &Option<Box<ValueShape>>) -> bool
    ensures { IsTrue result → KeepsPayload (boxed_tree held.now) }
{
    match held {
        None => true,
        Some(ty) => keeps_value(ty),
    }
}

/// Whether the parts of a tuple have written forms.
#[cycle(values)]
fn keep_parts(parts: &[ValueShape]) -> bool
    ensures { IsTrue result → All (λ t. KeepsValue (value_tree t)) parts.now }
{
    for part in parts {
        if !keeps_value(part) {
            return false;
        }
    }
    true
}

/// Whether the fields of a record, or the parameters of a function, have written forms.
#[cycle(values)]
fn keep_fields(fields: &[(Text, ValueShape)]) -> bool
    ensures { IsTrue result → All (λ f. KeepsValue (value_tree f.1)) fields.now }
{
    for field in fields {
        if !keeps_value(&field.1) {
            return false;
        }
    }
    true
}

/// Whether the cases of a variant have written forms.
#[cycle(values)]
fn keep_cases(cases: &[(Text, Option<ValueShape>)]) -> bool
    ensures { IsTrue result → All (λ c. KeepsPayload (held_tree c.1)) cases.now }
{
    for case in cases {
        match &case.1 {
            None => {}
            Some(held) => {
                if !keeps_value(held) {
                    return false;
                }
            }
        }
    }
    true
}

/// Whether what a function gives has a written form.
fn keeps_held(held: &Option<ValueShape>) -> bool
    ensures { IsTrue result → KeepsPayload (held_tree held.now) }
{
    match held {
        None => true,
        Some(ty) => keeps_value(ty),
    }
}

/// Whether a function has a written form.
fn keeps_func(func: &FuncShape) -> bool
    ensures { IsTrue result → KeepsFunc (func_tree func.now) }
{
    if !are_labelled(&func.params) {
        return false;
    }
    if !keep_fields(&func.params) {
        return false;
    }
    keeps_held(&func.result)
}

/// Whether what a core module imports or exports has a written form.
fn keeps_core(item: &CoreShape) -> bool
    ensures { IsTrue result → KeepsCore item.now }
{
    match item {
        CoreShape::Table { element, limits: _ } => {
            matches!(element, CoreVal::V70) || matches!(element, CoreVal::V6f)
        }
        _ => true,
    }
}

/// Whether what core modules import has written forms.
fn keep_core_imports(imports: &[(Text, Text, CoreShape)]) -> bool
    ensures { IsTrue result → All (λ i. KeepsCore i.2) imports.now }
{
    for import in imports {
        if !keeps_core(&import.2) {
            return false;
        }
    }
    true
}

/// Whether what core modules export has written forms.
fn keep_core_exports(exports: &[(Text, CoreShape)]) -> bool
    ensures { IsTrue result → All (λ e. KeepsCore e.1) exports.now }
{
    for export in exports {
        if !keeps_core(&export.1) {
            return false;
        }
    }
    true
}

/// Whether a core module has a written form.
pub fn keeps_module(module: &ModuleShape) -> bool
    ensures { IsTrue result → KeepsModule «module».now }
{
    if !keep_core_imports(module.imports.as_slice()) {
        return false;
    }
    keep_core_exports(module.exports.as_slice())
}

/// Whether an entity has a written form.
#[cycle(entities)]
#[tactic(auto, using(crate::proofs::FormLaws::func_kept, crate::proofs::FormLaws::instance_kept, crate::proofs::FormLaws::component_kept, crate::proofs::FormLaws::module_kept, crate::proofs::FormLaws::type_kept))]
pub fn keeps_form(entity: &Entity) -> bool
    ensures { IsTrue result → KeepsForm (entity_tree entity.now) }
{
    match entity {
        Entity::Func(func) => keeps_func(func),
        Entity::Instance(instance) => keep_entries(&instance.exports),
        Entity::Component(component) => keeps_component(component),
        Entity::Module(module) => keeps_module(module),
        Entity::Ty(ty) => keeps_type(ty),
    }
}

/// Whether a type has a written form.
#[cycle(entities)]
#[tactic(auto, using(crate::proofs::FormLaws::resource_type_kept, crate::proofs::FormLaws::value_type_kept, crate::proofs::FormLaws::func_type_kept, crate::proofs::FormLaws::instance_type_kept, crate::proofs::FormLaws::component_type_kept))]
fn keeps_type(ty: &TypeShape) -> bool
    ensures { IsTrue result → KeepsType (shape_tree ty.now) }
{
    match ty {
        TypeShape::Resource(_) => true,
        TypeShape::Value(ty) => keeps_value(ty),
        TypeShape::Func(func) => keeps_func(func),
        TypeShape::Instance(instance) => keep_entries(&instance.exports),
        TypeShape::Component(component) => keeps_component(component),
    }
}

/// Whether a component has a written form.
#[cycle(entities)]
#[tactic(auto, using(crate::proofs::FormLaws::sides_kept))]
fn keeps_component(component: &ComponentShape) -> bool
    ensures { IsTrue result
        → KeepsEntries (component_sides component.now).imports × KeepsEntries (component_sides component.now).exports }
{
    if !keep_entries(&component.imports) {
        return false;
    }
    keep_entries(&component.exports)
}

/// Whether imports or exports have names and written forms.
#[cycle(entities)]
pub fn keep_entries(entries: &[(Text, Entity)]) -> bool
    ensures { IsTrue result → All (λ e. (0 < length e.0) × KeepsForm (entity_tree e.1)) entries.now }
{
    for entry in entries {
        if entry.0.as_str().is_empty() {
            return false;
        }
        if !keeps_form(&entry.1) {
            return false;
        }
    }
    true
}
