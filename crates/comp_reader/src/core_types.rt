//! Readers of core types.

ghost use Rattle.std.specs.Prelude.{◌≡◌, Result, Option, map, Ok, true, false};
ghost use Rattle.comp_format.specs.declared.core_types.CoreVal.{CoreVal as core_value};
ghost use Rattle.comp_format.specs.Vectors.{many_at};
ghost use Rattle.comp_format.specs.CoreTypes.{CoreTree, core_value_of, core_value_at, is_reference, limits_at, table_at, mutable_at, global_at, core_desc_at, module_import_at, module_alias_at, module_export_at, module_decl_at, core_func_at, core_at};
ghost use Rattle.comp_format.specs.Views.{core_tree, module_decl_tree};
ghost use Rattle.comp_reader.specs.Nested.{module_decls_at};
ghost use Rattle.comp_reader.specs.Refusal.{Gives};

use crate::read::{Field, any_name_of, byte_of, carried_of, number_of, vector_of};
use crate::refusal::Refusal;
use comp_format::{CoreDesc, CoreType, CoreVal, Limits, ModuleDecl, ModuleType};
use std::alloc::Global;
use warg_values::Sequence;

/// The core value type of a byte.
fn core_value_of_byte(byte: u8) -> Option<CoreVal>
    ensures { result ≡ core_value_of byte }
{
    match byte {
        0x7f => Some(CoreVal::V7f),
        0x7e => Some(CoreVal::V7e),
        0x7d => Some(CoreVal::V7d),
        0x7c => Some(CoreVal::V7c),
        0x7b => Some(CoreVal::V7b),
        0x70 => Some(CoreVal::V70),
        0x6f => Some(CoreVal::V6f),
        _ => None,
    }
}

/// A core value type.
#[tactic(auto, unfolding(comp_format::specs::CoreTypes::core_value_at))]
fn core_value_of(bytes: &[u8]) -> Result<(CoreVal, &[u8]), Refusal>
    ensures { Gives (λ x. (x.0, x.1.now)) result (core_value_at bytes.now) }
{
    let (byte, rest) = byte_of(bytes)?;
    match core_value_of_byte(byte) {
        Some(value) => Ok((value, rest)),
        None => Err(Refusal::NotCarried(bytes.len())),
    }
}

impl Field for CoreVal {
    ghost Tree = { core_value };

    ghost tree = { λ v. v };

    ghost tree_at = { λ scopes. core_value_at };

    fn read(_alloc: Global, _scopes: u8, bytes: &[u8]) -> Result<(Self, &[u8]), Refusal> {
        core_value_of(bytes)
    }
}

/// Whether values of this type may be elements of a table.
fn is_reference(value: CoreVal) -> bool
    ensures { result ≡ is_reference value }
{
    match value {
        CoreVal::V70 => true,
        CoreVal::V6f => true,
        _ => false,
    }
}

/// Limits, behind what they bound.
#[tactic(auto, unfolding(comp_format::specs::CoreTypes::limits_at))]
fn limits_of(bytes: &[u8]) -> Result<(Limits, &[u8]), Refusal>
    ensures { Gives (λ x. (x.0, x.1.now)) result (limits_at bytes.now) }
{
    let (byte, rest) = byte_of(bytes)?;
    match byte {
        0 => {
            let (min, rest) = number_of(rest)?;
            Ok((Limits { min, max: None }, rest))
        }
        1 => {
            let (min, rest) = number_of(rest)?;
            let (max, rest) = number_of(rest)?;
            let max = Some(max);
            Ok((Limits { min, max }, rest))
        }
        _ => Err(Refusal::NotCarried(bytes.len())),
    }
}

/// A table, behind its byte.
#[tactic(auto, unfolding(comp_format::specs::CoreTypes::table_at))]
fn table_of(bytes: &[u8]) -> Result<(CoreDesc, &[u8]), Refusal>
    ensures { Gives (λ x. (x.0, x.1.now)) result (table_at bytes.now) }
{
    let (element, rest) = core_value_of(bytes)?;
    if !is_reference(element) {
        return Err(Refusal::NotCarried(bytes.len()));
    }
    let (limits, rest) = limits_of(rest)?;
    Ok((CoreDesc::Table { element, limits }, rest))
}

/// Whether a global is mutable.
#[tactic(auto, unfolding(comp_format::specs::CoreTypes::mutable_at))]
fn mutable_of(bytes: &[u8]) -> Result<(bool, &[u8]), Refusal>
    ensures { Gives (λ x. (x.0, x.1.now)) result (mutable_at bytes.now) }
{
    let (byte, rest) = byte_of(bytes)?;
    match byte {
        0 => Ok((false, rest)),
        1 => Ok((true, rest)),
        _ => Err(Refusal::NotCarried(bytes.len())),
    }
}

/// A global, behind its byte.
#[tactic(auto, unfolding(comp_format::specs::CoreTypes::global_at))]
fn global_of(bytes: &[u8]) -> Result<(CoreDesc, &[u8]), Refusal>
    ensures { Gives (λ x. (x.0, x.1.now)) result (global_at bytes.now) }
{
    let (value, rest) = core_value_of(bytes)?;
    let (mutable, rest) = mutable_of(rest)?;
    Ok((CoreDesc::Global { value, mutable }, rest))
}

/// The description of what a core module imports or exports.
#[tactic(auto, unfolding(comp_format::specs::CoreTypes::core_desc_at))]
fn core_desc_of(bytes: &[u8]) -> Result<(CoreDesc, &[u8]), Refusal>
    ensures { Gives (λ x. (x.0, x.1.now)) result (core_desc_at bytes.now) }
{
    let (byte, rest) = byte_of(bytes)?;
    match byte {
        0 => {
            let (index, rest) = number_of(rest)?;
            Ok((CoreDesc::Func(index), rest))
        }
        1 => table_of(rest),
        2 => {
            let (limits, rest) = limits_of(rest)?;
            Ok((CoreDesc::Memory(limits), rest))
        }
        3 => global_of(rest),
        _ => Err(Refusal::NotCarried(bytes.len())),
    }
}

/// An import of a core module, behind its byte.
#[tactic(auto, unfolding(comp_format::specs::CoreTypes::module_import_at))]
fn module_import_of(alloc: Global, bytes: &[u8]) -> Result<(ModuleDecl, &[u8]), Refusal>
    ensures { Gives (λ x. (module_decl_tree x.0, x.1.now)) result (module_import_at bytes.now) }
{
    let (module, rest) = any_name_of(alloc, bytes)?;
    let (name, rest) = any_name_of(alloc, rest)?;
    let (desc, rest) = core_desc_of(rest)?;
    Ok((ModuleDecl::Import { module, name, desc }, rest))
}

/// An alias of an outer core type, behind its byte.
#[tactic(auto, unfolding(comp_format::specs::CoreTypes::module_alias_at))]
fn module_alias_of(bytes: &[u8]) -> Result<(ModuleDecl, &[u8]), Refusal>
    ensures { Gives (λ x. (module_decl_tree x.0, x.1.now)) result (module_alias_at bytes.now) }
{
    let rest = carried_of(1, carried_of(0x10, bytes)?)?;
    let (count, rest) = number_of(rest)?;
    let (index, rest) = number_of(rest)?;
    Ok((ModuleDecl::OuterAlias { count, index }, rest))
}

/// An export of a core module, behind its byte.
#[tactic(auto, unfolding(comp_format::specs::CoreTypes::module_export_at))]
fn module_export_of(alloc: Global, bytes: &[u8]) -> Result<(ModuleDecl, &[u8]), Refusal>
    ensures { Gives (λ x. (module_decl_tree x.0, x.1.now)) result (module_export_at bytes.now) }
{
    let (name, rest) = any_name_of(alloc, bytes)?;
    let (desc, rest) = core_desc_of(rest)?;
    Ok((ModuleDecl::Export { name, desc }, rest))
}

/// A type of core functions, behind its byte.
#[tactic(auto, unfolding(comp_format::specs::CoreTypes::core_func_at))]
fn core_func_of(alloc: Global, bytes: &[u8]) -> Result<(CoreType, &[u8]), Refusal>
    ensures { Gives (λ x. (core_tree x.0, x.1.now)) result (core_func_at bytes.now) }
{
    let (params, rest) = vector_of::<CoreVal>(alloc, 0, bytes)?;
    let (results, rest) = vector_of::<CoreVal>(alloc, 0, rest)?;
    let func = CoreType::Func {
        params: Sequence::from_vec(params),
        results: Sequence::from_vec(results),
    };
    Ok((func, rest))
}

/// A core type in which at most so many scopes are open at one place.
#[cycle(core_reading)]
#[tactic(auto, using(crate::proofs::NestedLaws::core_is), unfolding(comp_format::specs::CoreTypes::core_with, comp_format::specs::CoreTypes::module_at))]
pub fn core_of(alloc: Global, scopes: u8, bytes: &[u8]) -> Result<(CoreType, &[u8]), Refusal>
    ensures { Gives (λ x. (core_tree x.0, x.1.now)) result (core_at scopes bytes.now) }
{
    let (byte, rest) = byte_of(bytes)?;
    match byte {
        0x60 => core_func_of(alloc, rest),
        0x50 => {
            let (decls, rest) = module_decls_of(alloc, scopes, rest)?;
            Ok((CoreType::Module(ModuleType { decls }), rest))
        }
        _ => Err(Refusal::NotCarried(bytes.len())),
    }
}

/// The declarations of a module type, which opens a scope.
#[cycle(core_reading)]
#[tactic(auto, using(crate::proofs::NestedLaws::module_decls_are), unfolding(comp_format::specs::Vectors::vector_at))]
fn module_decls_of(
    alloc: Global,
    scopes: u8,
    bytes: &[u8],
) -> Result<(Vec<ModuleDecl>, &[u8]), Refusal>
    ensures { Gives (λ x. (map module_decl_tree x.0.items, x.1.now)) result (module_decls_at scopes bytes.now) }
{
    if scopes == 0 {
        return Err(Refusal::Memory);
    }
    let (count, rest) = number_of(bytes)?;
    many_module_decls_of(alloc, scopes - 1, count, rest)
}

/// So many declarations.
#[cycle(core_reading)]
fn many_module_decls_of(
    alloc: Global,
    scopes: u8,
    count: u32,
    bytes: &[u8],
) -> Result<(Vec<ModuleDecl>, &[u8]), Refusal>
    ensures { Gives (λ x. (map module_decl_tree x.0.items, x.1.now)) result
        (many_at (module_decl_at (core_at scopes)) count bytes.now) }
{
    let mut decls = Vec::new(alloc);
    let mut rest = bytes;
    for _ in 0..count {
        let (decl, after) = module_decl_of(alloc, scopes, rest)?;
        decls.push(decl)?;
        rest = after;
    }
    Ok((decls, rest))
}

/// A declaration of a module type.
#[cycle(core_reading)]
#[tactic(auto, unfolding(comp_format::specs::CoreTypes::module_decl_at))]
fn module_decl_of(alloc: Global, scopes: u8, bytes: &[u8]) -> Result<(ModuleDecl, &[u8]), Refusal>
    ensures { Gives (λ x. (module_decl_tree x.0, x.1.now)) result (module_decl_at (core_at scopes) bytes.now) }
{
    let (byte, rest) = byte_of(bytes)?;
    match byte {
        0 => module_import_of(alloc, rest),
        1 => {
            let (ty, rest) = core_of(alloc, scopes, rest)?;
            Ok((ModuleDecl::CoreTy(ty), rest))
        }
        2 => module_alias_of(rest),
        3 => module_export_of(alloc, rest),
        _ => Err(Refusal::NotCarried(bytes.len())),
    }
}

impl Field for CoreType {
    ghost Tree = { CoreTree };

    ghost tree = { core_tree };

    ghost tree_at = { core_at };

    fn read(alloc: Global, scopes: u8, bytes: &[u8]) -> Result<(Self, &[u8]), Refusal> {
        core_of(alloc, scopes, bytes)
    }
}
