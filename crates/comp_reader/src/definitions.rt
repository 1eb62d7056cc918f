//! Readers of types that components define.

ghost use Rattle.std.specs.Prelude.{◌≡◌, Result, Option, map, Ok, true, false};
ghost use Rattle.comp_format.specs.Vectors.{optional_at, many_at};
ghost use Rattle.comp_format.specs.Numbers.{number_at};
ghost use Rattle.comp_format.specs.CoreTypes.{core_at};
ghost use Rattle.comp_format.specs.Definitions.{TypeTree, Import, Export, is_exported_sort, is_outer_type, is_declared, described_at, inner_type_at, inner_alias_at, decl_at, resource_at, definition_at};
ghost use Rattle.comp_format.specs.Views.{type_tree, decl_tree};
ghost use Rattle.comp_reader.specs.Nested.{decls_at};
ghost use Rattle.comp_reader.specs.Refusal.{Gives};

use crate::core_types::core_of;
use crate::parts::{alias_of, description_of, export_name_of};
use crate::read::{Field, byte_of, mark_of, number_of};
use crate::refusal::Refusal;
use crate::values::{defined_of, func_of};
use comp_format::{Alias, ComponentType, CoreSort, Decl, DefType, InstanceType, Sort};
use std::alloc::Global;

/// Whether a declaration may be an alias of an export of this sort.
fn is_exported_sort(sort: Sort) -> bool
    ensures { result ≡ is_exported_sort sort }
{
    match sort {
        Sort::Ty => true,
        Sort::Instance => true,
        _ => false,
    }
}

/// Whether a declaration may be an outer alias of this sort.
fn is_outer_type(sort: Sort) -> bool
    ensures { result ≡ is_outer_type sort }
{
    match sort {
        Sort::Ty => true,
        Sort::Core(CoreSort::Ty) => true,
        _ => false,
    }
}

/// Whether a declaration may be this alias.
fn is_declared(alias: &Alias) -> bool
    ensures { result ≡ is_declared alias.now }
{
    match alias {
        Alias::Export { sort, .. } => is_exported_sort(*sort),
        Alias::CoreExport { .. } => false,
        Alias::Outer { sort, .. } => is_outer_type(*sort),
    }
}

/// An alias in a declaration, behind its byte.
#[tactic(auto, unfolding(comp_format::specs::Definitions::inner_alias_at))]
fn inner_alias_of(alloc: Global, bytes: &[u8]) -> Result<(Decl, &[u8]), Refusal>
    ensures { Gives (λ x. (decl_tree x.0, x.1.now)) result (inner_alias_at bytes.now) }
{
    let (alias, rest) = alias_of(alloc, bytes)?;
    if !is_declared(&alias) {
        return Err(Refusal::Form(bytes.len()));
    }
    Ok((Decl::Alias(alias), rest))
}

/// An import in a declaration, behind its byte.
#[tactic(auto, unfolding(comp_format::specs::Definitions::described_at))]
fn import_of(alloc: Global, bytes: &[u8]) -> Result<(Decl, &[u8]), Refusal>
    ensures { Gives (λ x. (decl_tree x.0, x.1.now)) result (described_at Import bytes.now) }
{
    let (name, rest) = export_name_of(alloc, bytes)?;
    let (ty, rest) = description_of(rest)?;
    Ok((Decl::Import { name, ty }, rest))
}

/// An export in a declaration, behind its byte.
#[tactic(auto, unfolding(comp_format::specs::Definitions::described_at))]
fn export_of(alloc: Global, bytes: &[u8]) -> Result<(Decl, &[u8]), Refusal>
    ensures { Gives (λ x. (decl_tree x.0, x.1.now)) result (described_at Export bytes.now) }
{
    let (name, rest) = export_name_of(alloc, bytes)?;
    let (ty, rest) = description_of(rest)?;
    Ok((Decl::Export { name, ty }, rest))
}

/// A flag, and the index where there is one.
#[tactic(auto, unfolding(comp_format::specs::Vectors::optional_at))]
fn optional_of(bytes: &[u8]) -> Result<(Option<u32>, &[u8]), Refusal>
    ensures { Gives (λ x. (x.0, x.1.now)) result (optional_at number_at bytes.now) }
{
    let (byte, rest) = byte_of(bytes)?;
    match byte {
        0 => Ok((None, rest)),
        1 => {
            let (index, rest) = number_of(rest)?;
            Ok((Some(index), rest))
        }
        _ => Err(Refusal::Form(bytes.len())),
    }
}

/// A fresh resource, behind its byte.
#[tactic(auto, unfolding(comp_format::specs::Definitions::resource_at))]
fn resource_of(bytes: &[u8]) -> Result<(DefType, &[u8]), Refusal>
    ensures { Gives (λ x. (type_tree x.0, x.1.now)) result (resource_at bytes.now) }
{
    let (destructor, rest) = optional_of(mark_of(0x7f, bytes)?)?;
    Ok((DefType::Resource { destructor }, rest))
}

/// A type in which at most so many scopes are open at one place.
#[cycle(reading)]
#[tactic(auto, using(crate::proofs::NestedLaws::definition_is, crate::proofs::ViewLaws::tree_defined), unfolding(comp_format::specs::Definitions::type_with))]
pub fn type_of(alloc: Global, scopes: u8, bytes: &[u8]) -> Result<(DefType, &[u8]), Refusal>
    ensures { Gives (λ x. (type_tree x.0, x.1.now)) result (definition_at scopes bytes.now) }
{
    let (byte, rest) = byte_of(bytes)?;
    match byte {
        0x40 => {
            let (func, rest) = func_of(alloc, rest)?;
            Ok((DefType::Func(func), rest))
        }
        0x41 => {
            let (decls, rest) = decls_of(alloc, scopes, true, rest)?;
            Ok((DefType::Component(ComponentType { decls }), rest))
        }
        0x42 => {
            let (decls, rest) = decls_of(alloc, scopes, false, rest)?;
            Ok((DefType::Instance(InstanceType { decls }), rest))
        }
        0x3f => resource_of(rest),
        _ => {
            let (defined, rest) = defined_of(alloc, byte, rest)?;
            Ok((DefType::Defined(defined), rest))
        }
    }
}

/// The declarations of a type, which opens a scope.
#[cycle(reading)]
#[tactic(auto, using(crate::proofs::NestedLaws::decls_are), unfolding(comp_format::specs::Vectors::vector_at))]
fn decls_of(
    alloc: Global,
    scopes: u8,
    imports: bool,
    bytes: &[u8],
) -> Result<(Vec<Decl>, &[u8]), Refusal>
    ensures { Gives (λ x. (map decl_tree x.0.items, x.1.now)) result (decls_at scopes imports bytes.now) }
{
    if scopes == 0 {
        return Err(Refusal::Memory);
    }
    let (count, rest) = number_of(bytes)?;
    many_decls_of(alloc, scopes - 1, imports, count, rest)
}

/// So many declarations.
#[cycle(reading)]
fn many_decls_of(
    alloc: Global,
    scopes: u8,
    imports: bool,
    count: u32,
    bytes: &[u8],
) -> Result<(Vec<Decl>, &[u8]), Refusal>
    ensures { Gives (λ x. (map decl_tree x.0.items, x.1.now)) result
        (many_at (decl_at imports (core_at scopes) (definition_at scopes)) count bytes.now) }
{
    let mut decls = Vec::new(alloc);
    let mut rest = bytes;
    for _ in 0..count {
        let (decl, after) = decl_of(alloc, scopes, imports, rest)?;
        decls.push(decl)?;
        rest = after;
    }
    Ok((decls, rest))
}

/// A declaration, where there may be imports, or not.
#[cycle(reading)]
#[tactic(auto, unfolding(comp_format::specs::Definitions::decl_at))]
fn decl_of(alloc: Global, scopes: u8, imports: bool, bytes: &[u8]) -> Result<(Decl, &[u8]), Refusal>
    ensures { Gives (λ x. (decl_tree x.0, x.1.now)) result
        (decl_at imports (core_at scopes) (definition_at scopes) bytes.now) }
{
    let (byte, rest) = byte_of(bytes)?;
    match byte {
        0 => {
            let (ty, rest) = core_of(alloc, scopes, rest)?;
            Ok((Decl::CoreTy(ty), rest))
        }
        1 => inner_type_of(alloc, scopes, rest),
        2 => inner_alias_of(alloc, rest),
        3 => {
            if !imports {
                return Err(Refusal::Form(bytes.len()));
            }
            import_of(alloc, rest)
        }
        4 => export_of(alloc, rest),
        _ => Err(Refusal::Form(bytes.len())),
    }
}

/// A type in a declaration, which is no resource.
#[cycle(reading)]
#[tactic(auto, unfolding(comp_format::specs::Definitions::inner_type_at))]
fn inner_type_of(alloc: Global, scopes: u8, bytes: &[u8]) -> Result<(Decl, &[u8]), Refusal>
    ensures { Gives (λ x. (decl_tree x.0, x.1.now)) result (inner_type_at (definition_at scopes) bytes.now) }
{
    let (ty, rest) = type_of(alloc, scopes, bytes)?;
    match ty {
        DefType::Resource { .. } => Err(Refusal::Form(bytes.len())),
        ty => Ok((Decl::Ty(ty), rest)),
    }
}

impl Field for DefType {
    ghost Tree = { TypeTree };

    ghost tree = { type_tree };

    ghost tree_at = { definition_at };

    fn read(alloc: Global, scopes: u8, bytes: &[u8]) -> Result<(Self, &[u8]), Refusal> {
        type_of(alloc, scopes, bytes)
    }
}
