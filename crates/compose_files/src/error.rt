//! Why nothing is composed.

ghost use Rattle.std.specs.Prelude.{◌≡◌};
ghost use Rattle.compose_files.specs.declared.error.ComposerError.TheVariants.{Memory as no_memory};

use compose_component::ShapeError;
use compose_graph::{ComposeError, GraphError};
use std::alloc::{AllocError, AllocFailed};
use thiserror::Error;
use warg_base::{FileError, Memory, Text};

/// Why nothing is composed.
#[derive(Debug, Drop, Error)]
pub enum ComposerError {
    /// Imports are disallowed, and no component is found for an instance: the component's name.
    #[error("no component `{0}` is found, and imports are disallowed: put `{0}.wasm` beside the configuration or into one of its `search-paths`, name its file under `dependencies`, or allow imports")]
    NotFound(Text),
    /// The root imports nothing.
    #[error("the root imports nothing that could be given to it: compose a component that has imports")]
    NoInstanceImports,
    /// Nothing that the root imports is found.
    #[error("no component is found for what the root imports: put it beside the configuration or into one of its `search-paths`, as NAME.wasm, or name its file under `dependencies`")]
    NoDependencies,
    /// An argument names no import of its instance's component: the argument's name.
    #[error("there is no import `{0}` for the argument of this name: correct or remove the argument")]
    NoSuchImport(Text),
    /// An argument names an export that is no instance, or is not there: the export's name.
    #[error("no instance `{0}` is exported there: correct the argument's `export`, or leave it out")]
    NoSuchExport(Text),
    /// An argument names an export of an instance for which no component is found: the export's name.
    #[error("the export `{0}` can't be taken, since no component is found for its instance: name its file under `dependencies`")]
    ExportOnImported(Text),
    /// A definition's path leads to no file that has a name: the path.
    #[error("the definition `{0}` names no file: give the path of a component")]
    BadDefinitionPath(Text),
    /// A component's file is missing or can't be read: its path.
    #[error("`{0}`: {1}")]
    File(Text, FileError),
    /// A file is no component: its path.
    #[error("`{0}` is no component: {1}")]
    BadComponent(Text, ShapeError),
    /// A component or an instance can't be added.
    #[error("{0}")]
    Graph(GraphError),
    /// What is found does not fit an import, or can't be connected to it: the import's name, and that of its instance.
    #[error("the import `{0}` of the instance `{1}` is not given what was found for it: {2}")]
    Connect(Text, Text, GraphError),
    /// The graph can't be written.
    #[error("{0}")]
    Encode(ComposeError),
    /// No memory was left.
    #[error("out of memory: free some, or give the program more, and try again")]
    Memory,
}

impl From<Memory> for ComposerError {
    ghost from_gives = { λ _ e. e ≡ no_memory };

    fn from(_error: Memory) -> ComposerError {
        ComposerError::Memory
    }
}

impl From<AllocError> for ComposerError {
    ghost from_gives = { λ _ e. e ≡ no_memory };

    fn from(_error: AllocError) -> ComposerError {
        ComposerError::Memory
    }
}

impl<T: Drop> From<AllocFailed<T>> for ComposerError {
    ghost from_gives = { λ _ e. e ≡ no_memory };

    fn from(_error: AllocFailed<T>) -> ComposerError {
        ComposerError::Memory
    }
}
