//! The shape of a WebAssembly component, what it imports and what it exports, and its link image, from its bytes.
//!
//! The binary format is that of the Component Model's `Binary.md`, and what items mean is that of its `Explainer.md`.
#![tactic(auto)]

mod error;
mod image;
mod items;
pub mod laws;
mod read;

pub use comp_entity::{
    ComponentShape, CoreShape, CoreVal, Entity, FuncShape, InstanceShape, Limits, ModuleShape,
    Primitive, ResourceNo, Shape, TypeNo, TypeShape, ValueShape, equal, fits,
};
pub use comp_format::{Item, Sort};
pub use comp_image::{ArgOf, ComponentOf, ExportOf, Image, MadeInstance};
pub use error::ShapeError;
pub use image::read_image;
pub use items::read_items;
pub use read::{read_component, read_shape};
