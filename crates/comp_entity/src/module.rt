//! Core modules: what they import and what they export.

use comp_format::{CoreVal, Limits, Sequence, Text};

/// What a core module imports or exports, with all indices followed (`Binary.md`, `core:externdesc`).
#[derive(Debug, Drop)]
pub enum CoreShape {
    Func {
        params: Sequence<CoreVal>,
        results: Sequence<CoreVal>,
    },
    /// A table of references: `V70` or `V6f`.
    Table {
        element: CoreVal,
        limits: Limits,
    },
    Memory(Limits),
    Global {
        value: CoreVal,
        mutable: bool,
    },
}

/// A core module (`Binary.md`, `core:moduletype`).
#[derive(Debug, Drop)]
pub struct ModuleShape {
    /// The imports, in order: a module's name, a name, and what is imported. Names may be empty.
    pub imports: Sequence<(Text, Text, CoreShape)>,
    /// The exports, in order: their names, which may be empty, and what they are.
    pub exports: Sequence<(Text, CoreShape)>,
}
