//! A builder that writes WebAssembly components as bytes.
//!
//! The binary format is that of the Component Model's `Binary.md`. What items and types are, and what their bytes are,
//! stands in the crate `comp_format`.
#![tactic(auto)]

mod any_item;
mod builder;
mod built;
mod core_types;
mod definitions;
mod items;
pub mod laws;
mod parts;
mod raw;
mod sections;
mod sink;
mod spaces;
mod values;

pub use builder::ComponentBuilder;
pub use comp_format::{
    Arg, ComponentType, DefinedType, EncodeError, FuncType, InstanceType, Item, ModuleType, Sort,
    TypeRef,
};
