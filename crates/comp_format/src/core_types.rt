//! The types of core WebAssembly that a component names, as the Component Model's `Binary.md` and the WebAssembly
//! core specification have them.

use warg_values::{Sequence, Text};

/// A type of core values, named by its byte: the numbers `i32`, `i64`, `f32` and `f64`, vectors, and references to
/// functions and to what is outside (core specification, "Value Types").
#[derive(Clone, Copy, Debug, PartialEq, Eq)]
pub enum CoreVal {
    V7f,
    V7e,
    V7d,
    V7c,
    V7b,
    V70,
    V6f,
}

/// How large a memory (in pages) or table (in elements) is at least, and at most where there is such a bound (core
/// specification, "Limits").
#[derive(Clone, Copy, Debug, PartialEq, Eq)]
pub struct Limits {
    /// The least size.
    pub min: u32,
    /// The bound, where there is one.
    pub max: Option<u32>,
}

/// What a core module imports or exports (`Binary.md`, `core:externdesc`).
#[derive(Clone, Copy, Debug, PartialEq, Eq)]
pub enum CoreDesc {
    /// A function of this core type.
    Func(u32),
    /// A table of references: `V70` or `V6f`.
    Table { element: CoreVal, limits: Limits },
    Memory(Limits),
    Global { value: CoreVal, mutable: bool },
}

/// A core type (`Binary.md`, `core:type`).
#[cycle(core_types)]
#[derive(Debug, Drop)]
pub enum CoreType {
    Func {
        params: Sequence<CoreVal>,
        results: Sequence<CoreVal>,
    },
    Module(ModuleType),
}

/// A type of core modules: what they import, and what they export (`Binary.md`, `core:moduletype`).
#[cycle(core_types)]
#[derive(Debug, Drop)]
pub struct ModuleType {
    /// The declarations, in order.
    pub decls: Vec<ModuleDecl>,
}

/// A declaration in a type of core modules (`Binary.md`, `core:moduledecl`). Names may be empty.
#[cycle(core_types)]
#[derive(Debug, Drop)]
pub enum ModuleDecl {
    Import {
        module: Text,
        name: Text,
        desc: CoreDesc,
    },
    CoreTy(CoreType),
    /// The core type of this index of the scope that is so many scopes further out.
    OuterAlias {
        count: u32,
        index: u32,
    },
    Export {
        name: Text,
        desc: CoreDesc,
    },
}
