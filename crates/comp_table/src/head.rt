//! What stands at the root of a type or an entity.

ghost use Rattle.std.specs.Prelude.{◌≡◌, IfOk, true};
ghost use Rattle.comp_entity.specs.Names.{without_places};
ghost use Rattle.comp_table.specs.Changes.{head_by};

use comp_entity::{ResourceNo, TypeNo};
use comp_format::{CoreVal, Limits, Primitive};
use std::alloc::Global;
use warg_values::{Memory, Text};

/// What stands at the root of a type or an entity, whose parts stand below it (`Binary.md`, `deftype` and
/// `externdesc`).
#[derive(Drop)]
pub enum Head {
    /// A primitive value type, without parts.
    Primitive(Primitive),
    /// A record and the place that named it, where one did. Its parts are fields.
    RecordOf(Option<TypeNo>),
    /// A variant and the place that named it, where one did. Its parts are cases.
    VariantOf(Option<TypeNo>),
    /// Flags and the place that named them, where one did. The parts are labels.
    FlagsOf(Option<TypeNo>),
    /// An enum and the place that named it, where one did. Its parts are labels.
    EnumOf(Option<TypeNo>),
    ListOf,
    TupleOf,
    OptionOf,
    /// A result. Its parts are what it holds where all went well, and where not.
    ResultOf,
    /// An owned handle of this resource, without parts.
    Own(ResourceNo),
    /// A borrowed handle of this resource, without parts.
    Borrow(ResourceNo),
    /// The place of a type where there is none: of a case, of a side of a result, or of a function's result.
    Absent,
    /// A field, a case, a parameter, or a name of a core module: what stands below a label.
    Label(Text),
    /// A type of functions. Its parts are the result, and the parameters.
    FuncType,
    /// A resource type, without parts.
    Resource(ResourceNo),
    /// A type of instances. Its parts are exports. It is a scope.
    InstanceType,
    /// A type of components. Its parts are the imports and the exports, and it is two scopes.
    ComponentType,
    /// Imports or exports.
    Entries,
    /// An import or export under a name, and whether it has the naming bit.
    Entry(bool, Text),
    /// A function. Its part is its type.
    Func,
    /// An instance. Its parts are exports, in the scope in which it stands.
    Instance,
    /// A component. Its parts are the imports and the exports, and it is two scopes.
    Component,
    /// A core module. Its parts are the imports and the exports.
    Module,
    /// A core module of a component's own, whose type is not known.
    OwnModule,
    /// A core function. Its parts are the parameters and the results.
    CoreFunc,
    CoreTable(CoreVal, Limits),
    CoreMemory(Limits),
    /// A global variable, and whether it may change.
    CoreGlobal(CoreVal, bool),
    /// A type of core values, without parts.
    CoreValue(CoreVal),
}

impl Head {
    /// A copy.
    pub fn try_clone(&self, alloc: Global) -> Result<Head, Memory>
        ensures { IfOk result (λ copy. copy ≡ self.now) }
    {
        match self {
            Head::RecordOf(place) => Ok(Head::RecordOf(*place)),
            Head::VariantOf(place) => Ok(Head::VariantOf(*place)),
            Head::FlagsOf(place) => Ok(Head::FlagsOf(*place)),
            Head::EnumOf(place) => Ok(Head::EnumOf(*place)),
            Head::Label(label) => Ok(Head::Label(label.try_clone(alloc)?)),
            Head::Entry(mark, name) => Ok(Head::Entry(*mark, name.try_clone(alloc)?)),
            Head::Primitive(primitive) => Ok(Head::Primitive(*primitive)),
            Head::ListOf => Ok(Head::ListOf),
            Head::TupleOf => Ok(Head::TupleOf),
            Head::OptionOf => Ok(Head::OptionOf),
            Head::ResultOf => Ok(Head::ResultOf),
            Head::Own(resource) => Ok(Head::Own(*resource)),
            Head::Borrow(resource) => Ok(Head::Borrow(*resource)),
            Head::Absent => Ok(Head::Absent),
            Head::FuncType => Ok(Head::FuncType),
            Head::Resource(resource) => Ok(Head::Resource(*resource)),
            Head::InstanceType => Ok(Head::InstanceType),
            Head::ComponentType => Ok(Head::ComponentType),
            Head::Entries => Ok(Head::Entries),
            Head::Func => Ok(Head::Func),
            Head::Instance => Ok(Head::Instance),
            Head::Component => Ok(Head::Component),
            Head::Module => Ok(Head::Module),
            Head::OwnModule => Ok(Head::OwnModule),
            Head::CoreFunc => Ok(Head::CoreFunc),
            Head::CoreTable(element, limits) => Ok(Head::CoreTable(*element, *limits)),
            Head::CoreMemory(limits) => Ok(Head::CoreMemory(*limits)),
            Head::CoreGlobal(value, mutable) => Ok(Head::CoreGlobal(*value, *mutable)),
            Head::CoreValue(value) => Ok(Head::CoreValue(*value)),
        }
    }
}

/// The same head, without the place that named a type and with the naming bit.
pub fn bare_head(alloc: Global, head: &Head) -> Result<Head, Memory>
    ensures { IfOk result (λ bare. bare ≡ head_by without_places 0 head.now) }
{
    match head {
        Head::RecordOf(_) => Ok(Head::RecordOf(None)),
        Head::VariantOf(_) => Ok(Head::VariantOf(None)),
        Head::FlagsOf(_) => Ok(Head::FlagsOf(None)),
        Head::EnumOf(_) => Ok(Head::EnumOf(None)),
        Head::Entry(_, name) => Ok(Head::Entry(true, name.try_clone(alloc)?)),
        other => other.try_clone(alloc),
    }
}

/// Whether a head has no place that named a type, and the naming bit where it is that of an import or an export.
pub fn is_bare_head(head: &Head) -> bool
    ensures { result ≡ true → head.now ≡ head_by without_places 0 head.now }
{
    match head {
        Head::RecordOf(place) => place.is_none(),
        Head::VariantOf(place) => place.is_none(),
        Head::FlagsOf(place) => place.is_none(),
        Head::EnumOf(place) => place.is_none(),
        Head::Entry(mark, _) => *mark,
        _ => true,
    }
}
