//! The items of a WebAssembly component and their types, and what their bytes are.
//!
//! The binary format is that of the Component Model's `Binary.md`. Values, start sections, asynchronous functions and
//! what belongs to them are not carried.
#![tactic(auto)]

mod core_types;
mod declare;
mod error;
pub mod laws;
pub mod section;
mod types;

pub use core_types::{CoreDesc, CoreType, CoreVal, Limits, ModuleDecl, ModuleType};
pub use error::EncodeError;
pub use types::{
    Alias, Arg, Canon, CanonOption, ComponentType, CoreInstance, CoreSort, Decl, DefType,
    DefinedType, FuncType, InstanceItem, InstanceType, Item, Primitive, Sort, TypeRef, ValType,
};
pub use warg_values::{Sequence, Text};
