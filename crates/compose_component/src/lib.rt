//! The components that are linked: their names and bytes, and what these import and export.
#![tactic(auto)]

mod component;
mod content;
mod error;
mod export;
mod import;
pub mod laws;
mod naming;

pub use comp_format::{Sort, TypeRef};
pub use comp_shape::{
    ComponentShape, Entity, FuncShape, Shape, ShapeError, TypeShape, ValueShape, read_shape,
};
pub use component::Component;
pub use error::ComponentError;
pub use export::{ComponentExport, ExportIndex, Exports};
pub use import::{ComponentImport, ImportIndex, Imports};
pub use warg_base::{FileError, Files, Text};
