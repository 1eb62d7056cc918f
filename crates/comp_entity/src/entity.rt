//! What a component imports and exports.

use crate::module::ModuleShape;
use crate::names::{ResourceNo, TypeNo};
use comp_format::{Primitive, Sequence, Text};

/// A value type, with all indices followed (`Binary.md`, `defvaltype`).
///
/// A record, a variant, flags and an enum have the number of the place that named them, where an import or export did.
#[derive(Debug, Drop)]
pub enum ValueShape {
    Primitive(Primitive),
    /// A record: its fields, in order.
    RecordOf(Option<TypeNo>, Vec<(Text, ValueShape)>),
    /// A variant: its cases, in order, with what they hold.
    VariantOf(Option<TypeNo>, Vec<(Text, Option<ValueShape>)>),
    ListOf(Box<ValueShape>),
    /// A tuple of these parts.
    TupleOf(Vec<ValueShape>),
    /// Flags of these labels.
    FlagsOf(Option<TypeNo>, Sequence<Text>),
    /// An enum of these labels.
    EnumOf(Option<TypeNo>, Sequence<Text>),
    OptionOf(Box<ValueShape>),
    ResultOf {
        ok: Option<Box<ValueShape>>,
        err: Option<Box<ValueShape>>,
    },
    /// An owned handle of this resource.
    Own(ResourceNo),
    /// A borrowed handle of this resource.
    Borrow(ResourceNo),
}

/// A function (`Binary.md`, `functype`).
#[derive(Debug, Drop)]
pub struct FuncShape {
    /// The parameters, in order: their names and types.
    pub params: Vec<(Text, ValueShape)>,
    /// The type of the result, where there is one.
    pub result: Option<ValueShape>,
}

/// A type, with all indices followed (`Binary.md`, `deftype`).
#[cycle(entities)]
#[derive(Debug, Drop)]
pub enum TypeShape {
    /// A resource type.
    Resource(ResourceNo),
    /// A type of values.
    Value(ValueShape),
    /// A type of functions.
    Func(FuncShape),
    /// A type of instances. It is a scope.
    Instance(InstanceShape),
    /// A type of components. It is a scope of imports, and within it one of exports.
    Component(ComponentShape),
}

/// An instance (`Binary.md`, `instancetype`).
#[cycle(entities)]
#[derive(Debug, Drop)]
pub struct InstanceShape {
    /// The exports, in order: their names, and what they are.
    pub exports: Vec<(Text, Entity)>,
}

/// A component (`Binary.md`, `componenttype`).
#[cycle(entities)]
#[derive(Debug, Drop)]
pub struct ComponentShape {
    /// The imports, in order: their names, and what they are.
    pub imports: Vec<(Text, Entity)>,
    /// The exports, in order: their names, and what they are.
    pub exports: Vec<(Text, Entity)>,
}

/// What is imported or exported (`Binary.md`, `externdesc`).
#[cycle(entities)]
#[derive(Debug, Drop)]
pub enum Entity {
    Func(FuncShape),
    /// An instance, whose exports stand in the scope in which it stands.
    Instance(InstanceShape),
    /// A component. It is a scope of imports, and within it one of exports.
    Component(ComponentShape),
    /// A core module.
    Module(ModuleShape),
    /// A type.
    Ty(TypeShape),
}

/// What a component imports and exports, in the order of its bytes.
#[derive(Debug, Drop)]
pub struct Shape {
    /// The imports: their names, and what they are.
    pub imports: Vec<(Text, Entity)>,
    /// The exports: their names, and what they are.
    pub exports: Vec<(Text, Entity)>,
}
