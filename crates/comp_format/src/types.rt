//! The items of a component, as the Component Model's `Binary.md` has them.

use crate::core_types::CoreType;
use warg_values::{Sequence, Text};

/// A primitive value type (`Binary.md`, `primvaltype`).
#[derive(Clone, Copy, Debug, PartialEq, Eq, PartialOrd, Ord, Hash)]
pub enum Primitive {
    Bool,
    S8,
    U8,
    S16,
    U16,
    S32,
    U32,
    S64,
    U64,
    F32,
    F64,
    Char,
    Text,
}

/// A value type, as a part of another type names it (`Binary.md`, `valtype`).
#[derive(Clone, Copy, Debug, PartialEq, Eq)]
pub enum ValType {
    Primitive(Primitive),
    /// The type of this index.
    Index(u32),
}

/// A type of values (`Binary.md`, `defvaltype`).
#[derive(Debug, Drop)]
pub enum DefinedType {
    Primitive(Primitive),
    /// A record of at least one field. Its labels differ.
    RecordOf(Sequence<(Text, ValType)>),
    /// A variant of at least one case. Its labels differ.
    VariantOf(Sequence<(Text, Option<ValType>)>),
    ListOf(ValType),
    /// A tuple of at least one part.
    TupleOf(Sequence<ValType>),
    /// Between 1 and 32 flags. Their labels differ.
    FlagsOf(Sequence<Text>),
    /// At least one case. The labels differ.
    EnumOf(Sequence<Text>),
    OptionOf(ValType),
    ResultOf {
        ok: Option<ValType>,
        err: Option<ValType>,
    },
    /// An owned handle of the resource type of this index.
    Own(u32),
    /// A borrowed handle of the resource type of this index.
    Borrow(u32),
}

/// A type of functions (`Binary.md`, `functype`). The names of its parameters differ.
#[derive(Debug, Drop)]
pub struct FuncType {
    /// The parameters, in order: their names and types.
    pub params: Sequence<(Text, ValType)>,
    /// The type of the result, where there is one.
    pub result: Option<ValType>,
}

/// A type that a component defines (`Binary.md`, `deftype`).
#[cycle(types)]
#[derive(Debug, Drop)]
pub enum DefType {
    Defined(DefinedType),
    Func(FuncType),
    Component(ComponentType),
    Instance(InstanceType),
    /// A fresh resource, with the index of the core function that destroys it where there is one. It is in no
    /// declaration.
    Resource { destructor: Option<u32> },
}

/// A type of components: what they import, and what they export (`Binary.md`, `componenttype`).
#[cycle(types)]
#[derive(Debug, Drop)]
pub struct ComponentType {
    /// The declarations, in order.
    pub decls: Vec<Decl>,
}

/// A type of instances: what they export (`Binary.md`, `instancetype`). No declaration is an import.
#[cycle(types)]
#[derive(Debug, Drop)]
pub struct InstanceType {
    /// The declarations, in order.
    pub decls: Vec<Decl>,
}

/// A declaration in a type of components or instances (`Binary.md`, `componentdecl` and `instancedecl`).
#[cycle(types)]
#[derive(Debug, Drop)]
pub enum Decl {
    CoreTy(CoreType),
    Ty(DefType),
    /// An alias of a type or an instance that an instance exports, or of a type or core type of an outer scope.
    Alias(Alias),
    Import { name: Text, ty: TypeRef },
    Export { name: Text, ty: TypeRef },
}

/// What a core item is (`Binary.md`, `core:sort`).
#[derive(Clone, Copy, Debug, PartialEq, Eq, PartialOrd, Ord, Hash)]
pub enum CoreSort {
    Func,
    Table,
    Memory,
    Global,
    Ty,
    Module,
    Instance,
}

/// What an item is, and so which index space numbers it (`Binary.md`, `sort`).
#[derive(Clone, Copy, Debug, PartialEq, Eq, PartialOrd, Ord, Hash)]
pub enum Sort {
    Core(CoreSort),
    Func,
    Ty,
    Component,
    Instance,
}

/// The description of an import or export (`Binary.md`, `externdesc`). Numbers are indices into the index
/// space of the description's sort.
#[derive(Clone, Copy, Debug, PartialEq, Eq)]
pub enum TypeRef {
    /// A core module of this core type.
    Module(u32),
    /// A function of this type.
    Func(u32),
    /// A type equal to this one.
    TyEqual(u32),
    /// A fresh resource type.
    TyFresh,
    /// A component of this type.
    Component(u32),
    /// An instance of this type.
    Instance(u32),
}

/// An item under a name: of this sort and index, for the import or the export of this name.
#[derive(Debug, Drop)]
pub struct Arg {
    /// The name under which it stands.
    pub name: Text,
    /// What it is.
    pub sort: Sort,
    /// Its index in the index space of its sort.
    pub index: u32,
}

/// An instance that a component makes (`Binary.md`, `instance`).
#[derive(Debug, Drop)]
pub enum InstanceItem {
    /// The component of this index, instantiated with these arguments.
    Instantiate { component: u32, args: Sequence<Arg> },
    /// An instance that exports the items of these sorts and indices under these names.
    Exports(Sequence<Arg>),
}

/// An item that stands for another (`Binary.md`, `alias`).
#[derive(Debug, Drop)]
pub enum Alias {
    /// The export of this sort and name of the instance of this index.
    Export {
        sort: Sort,
        instance: u32,
        name: Text,
    },
    /// The export of this sort and name of the core instance of this index. The name may be empty.
    CoreExport {
        sort: CoreSort,
        instance: u32,
        name: Text,
    },
    /// The item of this sort and index of the scope that is so many scopes further out: a type, a component, a core
    /// type or a core module.
    Outer {
        sort: Sort,
        count: u32,
        index: u32,
    },
}

/// A function between core and component functions, or one on resources (`Binary.md`, `canon`). Numbers are
/// indices.
#[derive(Debug, Drop)]
pub enum Canon {
    /// A function of a type, made from a core function.
    Lift {
        func: u32,
        options: Sequence<CanonOption>,
        ty: u32,
    },
    /// A core function, made from a function.
    Lower {
        func: u32,
        options: Sequence<CanonOption>,
    },
    ResourceNew(u32),
    ResourceDrop(u32),
    ResourceRep(u32),
}

/// How a function is lifted or lowered (`Binary.md`, `canonopt`).
#[derive(Clone, Copy, Debug, PartialEq, Eq)]
pub enum CanonOption {
    /// The encoding of texts: 0 for UTF-8, 1 for UTF-16, 2 for Latin-1 or UTF-16.
    Encoding(u8),
    /// The core memory of this index.
    Memory(u32),
    /// The core function that finds memory.
    Realloc(u32),
    /// The core function that is called behind a return.
    PostReturn(u32),
}

/// A core instance that a component makes (`Binary.md`, `core:instance`). Names may be empty.
#[derive(Debug, Drop)]
pub enum CoreInstance {
    /// The core module of this index, instantiated with the core instances of these indices under these names.
    Instantiate {
        module: u32,
        args: Sequence<(Text, u32)>,
    },
    /// A core instance that exports the core items of these sorts and indices under these names.
    Exports(Sequence<(Text, CoreSort, u32)>),
}

/// An item of a component, in the order of the bytes (`Binary.md`, `component`).
///
/// The bytes of a custom section, a core module and a nested component are slices of the bytes that were read.
#[derive(Debug, Drop)]
pub enum Item<'a> {
    /// A custom section: its name, which may be empty, and the bytes behind the name.
    Custom {
        name: Text,
        bytes: &'a [u8],
    },
    /// A core module.
    CoreModule {
        bytes: &'a [u8],
    },
    /// A core instance.
    CoreInstance(CoreInstance),
    /// A core type.
    CoreTy(CoreType),
    /// A nested component.
    Component {
        bytes: &'a [u8],
    },
    /// An instance.
    Instance(InstanceItem),
    /// An alias.
    Alias(Alias),
    /// A type.
    Ty(DefType),
    /// A function between core and component functions, or one on resources.
    Canon(Canon),
    /// An import.
    Import {
        name: Text,
        ty: TypeRef,
    },
    /// An export of the item of this sort and index, with its description where there is one.
    Export {
        name: Text,
        sort: Sort,
        index: u32,
        ty: Option<TypeRef>,
    },
}
