//! Items as their bytes, each in a buffer that is given. `TooLarge` has the largest length, count or index of an item, where
//! that is above 2^32 - 1.

ghost use Rattle.std.specs.Prelude.{◌≡◌, ◌<◌, ◌≤◌, ◌^◌, ℕ, length, All, OnOk, IfOk, Err, None, true, false};
ghost use Rattle.comp_format.specs.declared.types.InstanceItem.TheVariants as instance;
ghost use Rattle.comp_format.specs.declared.types.Alias.TheVariants as alias;
ghost use Rattle.comp_format.specs.Parts.{is_outer};
ghost use Rattle.comp_format.specs.CoreTypes as core_tree;
ghost use Rattle.comp_format.specs.Definitions as tree;
ghost use Rattle.comp_format.specs.Views.{module_tree, instance_type_tree, component_type_tree};
ghost use Rattle.comp_format.specs.Items.{CoreTy, Component, Instance, Aliased, Ty, Import, Export};
ghost use Rattle.comp_format.specs.Fits.{IsComponent};
ghost use Rattle.comp_format.specs.Forms.{IsDefined, IsFunc, AreDecls, AreModuleDecls};
ghost use Rattle.comp_encoder.specs.Largest.{vector_largest, arg_largest, defined_largest, func_largest, core_largest, definition_largest};
ghost use Rattle.comp_encoder.specs.Builder.{IsBytesOf};

use crate::core_types::write_module;
use crate::definitions::{write_component, write_instance};
use crate::parts::{write_description, write_marked, write_optional, write_sort, write_vector};
use crate::sections::short;
use crate::sink::Sink;
use crate::values::{write_defined, write_func};
use comp_format::{
    Arg, ComponentType, DefinedType, EncodeError, FuncType, InstanceType, ModuleType, Sort, TypeRef,
};

/// A nested component, whose bytes are those that were given.
pub fn encode_component(bytes: &[u8]) -> Result<&[u8], EncodeError>
    requires { IsComponent bytes.now }
    ensures bytes { IfOk result (λ same. IsBytesOf (Component bytes.now) 4 same.now) }
    ensures fits { OnOk result (length bytes.now < 2 ^ 32) }
    ensures too_large { (n : ℕ) → result ≡ Err (EncodeError.TooLarge n) → (2 ^ 32 ≤ n) × (n ≡ length bytes.now) }
{
    short(bytes.len())?;
    Ok(bytes)
}

/// An instance of a component.
pub fn encode_instance(
    buffer: Vec<u8>,
    component: u32,
    args: &[Arg],
) -> Result<Vec<u8>, EncodeError>
    requires { All (λ arg. 0 < length arg.name) args.now }
    ensures bytes { IfOk result
        (λ bytes. IsBytesOf (Instance (instance.Instantiate component args.now)) 5 bytes.items) }
    ensures fits { OnOk result (vector_largest arg_largest args.now < 2 ^ 32) }
    ensures too_large { (n : ℕ) → result ≡ Err (EncodeError.TooLarge n)
        → (2 ^ 32 ≤ n) × (n ≡ vector_largest arg_largest args.now) }
{
    let mut out = Sink::new(buffer);
    write_marked(&mut out, &[0], component)?;
    write_vector(&mut out, args)?;
    out.into_bytes()
}

/// An alias of an export of an instance.
pub fn encode_alias_export(
    buffer: Vec<u8>,
    instance: u32,
    name: &str,
    sort: Sort,
) -> Result<Vec<u8>, EncodeError>
    requires { 0 < length name.now }
    ensures bytes { IfOk result (λ bytes. IsBytesOf (Aliased (alias.Export sort instance name.now)) 6 bytes.items) }
    ensures fits { OnOk result (length name.now < 2 ^ 32) }
    ensures too_large { (n : ℕ) → result ≡ Err (EncodeError.TooLarge n) → (2 ^ 32 ≤ n) × (n ≡ length name.now) }
{
    let mut out = Sink::new(buffer);
    write_sort(&mut out, sort)?;
    write_marked(&mut out, &[0], instance)?;
    out.write_name(name)?;
    out.into_bytes()
}

/// An alias of an item of an outer scope.
pub fn encode_alias_outer(
    buffer: Vec<u8>,
    count: u32,
    index: u32,
    sort: Sort,
) -> Result<Vec<u8>, EncodeError>
    requires { is_outer sort ≡ true }
    ensures bytes { IfOk result (λ bytes. IsBytesOf (Aliased (alias.Outer sort count index)) 6 bytes.items) }
    ensures too_large { (n : ℕ) → result ≡ Err (EncodeError.TooLarge n) → ⊥ }
{
    let mut out = Sink::new(buffer);
    write_sort(&mut out, sort)?;
    write_marked(&mut out, &[2], count)?;
    out.write_number(index as u64)?;
    out.into_bytes()
}

/// An import.
pub fn encode_import(buffer: Vec<u8>, name: &str, ty: TypeRef) -> Result<Vec<u8>, EncodeError>
    requires { 0 < length name.now }
    ensures bytes { IfOk result (λ bytes. IsBytesOf (Import (record { name = name.now; ty = ty })) 10 bytes.items) }
    ensures fits { OnOk result (length name.now < 2 ^ 32) }
    ensures too_large { (n : ℕ) → result ≡ Err (EncodeError.TooLarge n) → (2 ^ 32 ≤ n) × (n ≡ length name.now) }
{
    let mut out = Sink::new(buffer);
    out.write(&[0])?;
    out.write_name(name)?;
    write_description(&mut out, ty)?;
    out.into_bytes()
}

/// An export.
pub fn encode_export(
    buffer: Vec<u8>,
    name: &str,
    sort: Sort,
    index: u32,
    ty: Option<TypeRef>,
) -> Result<Vec<u8>, EncodeError>
    requires { 0 < length name.now }
    ensures bytes { IfOk result
        (λ bytes. IsBytesOf (Export (record { name = name.now; sort = sort; index = index; ty = ty })) 11 bytes.items) }
    ensures fits { OnOk result (length name.now < 2 ^ 32) }
    ensures too_large { (n : ℕ) → result ≡ Err (EncodeError.TooLarge n) → (2 ^ 32 ≤ n) × (n ≡ length name.now) }
{
    let mut out = Sink::new(buffer);
    out.write(&[0])?;
    out.write_name(name)?;
    write_sort(&mut out, sort)?;
    out.write_number(index as u64)?;
    write_optional(&mut out, ty)?;
    out.into_bytes()
}

/// A type of values.
pub fn encode_defined(buffer: Vec<u8>, ty: &DefinedType) -> Result<Vec<u8>, EncodeError>
    requires { IsDefined ty.now }
    ensures bytes { IfOk result (λ bytes. IsBytesOf (Ty (tree.Defined ty.now)) 7 bytes.items) }
    ensures fits { OnOk result (defined_largest ty.now < 2 ^ 32) }
    ensures too_large { (n : ℕ) → result ≡ Err (EncodeError.TooLarge n) → (2 ^ 32 ≤ n) × (n ≡ defined_largest ty.now) }
{
    let mut out = Sink::new(buffer);
    write_defined(&mut out, ty)?;
    out.into_bytes()
}

/// A type of functions.
pub fn encode_function(buffer: Vec<u8>, ty: &FuncType) -> Result<Vec<u8>, EncodeError>
    requires { IsFunc ty.now }
    ensures bytes { IfOk result (λ bytes. IsBytesOf (Ty (tree.Func ty.now)) 7 bytes.items) }
    ensures fits { OnOk result (func_largest ty.now < 2 ^ 32) }
    ensures too_large { (n : ℕ) → result ≡ Err (EncodeError.TooLarge n) → (2 ^ 32 ≤ n) × (n ≡ func_largest ty.now) }
{
    let mut out = Sink::new(buffer);
    out.write(&[0x40])?;
    write_func(&mut out, ty)?;
    out.into_bytes()
}

/// A type of components.
pub fn encode_component_type(buffer: Vec<u8>, ty: &ComponentType) -> Result<Vec<u8>, EncodeError>
    requires { AreDecls true (component_type_tree ty.now) }
    ensures bytes { IfOk result (λ bytes. IsBytesOf (Ty (tree.Component (component_type_tree ty.now))) 7 bytes.items) }
    ensures fits { OnOk result (definition_largest (tree.Component (component_type_tree ty.now)) < 2 ^ 32) }
    ensures too_large { (n : ℕ) → result ≡ Err (EncodeError.TooLarge n)
        → (2 ^ 32 ≤ n) × (n ≡ definition_largest (tree.Component (component_type_tree ty.now))) }
{
    let mut out = Sink::new(buffer);
    write_component(&mut out, ty)?;
    out.into_bytes()
}

/// A type of instances.
pub fn encode_instance_type(buffer: Vec<u8>, ty: &InstanceType) -> Result<Vec<u8>, EncodeError>
    requires { AreDecls false (instance_type_tree ty.now) }
    ensures bytes { IfOk result (λ bytes. IsBytesOf (Ty (tree.Instance (instance_type_tree ty.now))) 7 bytes.items) }
    ensures fits { OnOk result (definition_largest (tree.Instance (instance_type_tree ty.now)) < 2 ^ 32) }
    ensures too_large { (n : ℕ) → result ≡ Err (EncodeError.TooLarge n)
        → (2 ^ 32 ≤ n) × (n ≡ definition_largest (tree.Instance (instance_type_tree ty.now))) }
{
    let mut out = Sink::new(buffer);
    write_instance(&mut out, ty)?;
    out.into_bytes()
}

/// A fresh resource that no function destroys.
pub fn encode_resource(buffer: Vec<u8>) -> Result<Vec<u8>, EncodeError>
    ensures bytes { IfOk result (λ bytes. IsBytesOf (Ty (tree.Resource None)) 7 bytes.items) }
    ensures too_large { (n : ℕ) → result ≡ Err (EncodeError.TooLarge n) → ⊥ }
{
    let mut out = Sink::new(buffer);
    out.write(&[0x3f, 0x7f, 0])?;
    out.into_bytes()
}

/// A type of core modules.
pub fn encode_core_module(buffer: Vec<u8>, ty: &ModuleType) -> Result<Vec<u8>, EncodeError>
    requires { AreModuleDecls (module_tree ty.now) }
    ensures bytes { IfOk result (λ bytes. IsBytesOf (CoreTy (core_tree.Module (module_tree ty.now))) 3 bytes.items) }
    ensures fits { OnOk result (core_largest (core_tree.Module (module_tree ty.now)) < 2 ^ 32) }
    ensures too_large { (n : ℕ) → result ≡ Err (EncodeError.TooLarge n)
        → (2 ^ 32 ≤ n) × (n ≡ core_largest (core_tree.Module (module_tree ty.now))) }
{
    let mut out = Sink::new(buffer);
    write_module(&mut out, ty)?;
    out.into_bytes()
}
