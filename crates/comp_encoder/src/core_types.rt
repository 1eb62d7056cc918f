//! Core types as bytes.

ghost use Rattle.std.specs.Prelude.{◌≡◌, ◌++◌, length, map, max, OnOk};
ghost use Rattle.comp_format.specs.Numbers.{number_text};
ghost use Rattle.comp_format.specs.CoreTypes as tree;
ghost use Rattle.comp_format.specs.CoreTypes.{core_value_code, mutable_code, module_decls, limits_text, core_value_text, core_desc_text, core_text, module_decl_text, module_text};
ghost use Rattle.comp_format.specs.Views.{core_tree, module_decl_tree, module_tree};
ghost use Rattle.comp_encoder.specs.Largest.{limits_largest, core_desc_largest, core_largest, module_decl_largest, module_largest};
ghost use Rattle.comp_encoder.specs.Texts.{TextsOfCore, TextsOfModuleDecl, TextsOfModule};

use crate::parts::{Encode, write_marked, write_vector};
use crate::sink::Sink;
use comp_format::{CoreDesc, CoreType, CoreVal, Limits, ModuleDecl, ModuleType};
use warg_values::Memory;

/// The byte of a core value type.
fn code_of(value: CoreVal) -> u8
    ensures { result ≡ core_value_code value }
{
    match value {
        CoreVal::V7f => 0x7f,
        CoreVal::V7e => 0x7e,
        CoreVal::V7d => 0x7d,
        CoreVal::V7c => 0x7c,
        CoreVal::V7b => 0x7b,
        CoreVal::V70 => 0x70,
        CoreVal::V6f => 0x6f,
    }
}

impl Encode for CoreVal {
    ghost text = { core_value_text };

    ghost largest = { λ v. 0 };

    ghost texts = { λ v. Unit {0} };

    fn encode(&self, out: &mut Sink) -> Result<(), Memory> {
        out.write(&[code_of(*self)])?;
        Ok(())
    }
}

/// Limits: a flag that tells whether there is a bound, the least size, and the bound.
fn write_limits(out: &mut Sink, limits: Limits) -> Result<(), Memory>
    ensures text { OnOk result (out.new.bytes.items ≡ out.old.bytes.items ++ limits_text limits) }
    ensures largest { OnOk result (out.new.largest ≡ max out.old.largest (limits_largest limits)) }
{
    match limits.max {
        None => write_marked(out, &[0], limits.min)?,
        Some(max) => {
            write_marked(out, &[1], limits.min)?;
            out.write_number(max as u64)?;
        }
    }
    Ok(())
}

/// The byte of whether a global may be written.
fn mutable_code(mutable: bool) -> u8
    ensures { result ≡ mutable_code mutable }
{
    if mutable { 1 } else { 0 }
}

/// The description of what a core module imports or exports.
fn write_core_desc(out: &mut Sink, desc: CoreDesc) -> Result<(), Memory>
    ensures text { OnOk result (out.new.bytes.items ≡ out.old.bytes.items ++ core_desc_text desc) }
    ensures largest { OnOk result (out.new.largest ≡ max out.old.largest (core_desc_largest desc)) }
{
    match desc {
        CoreDesc::Func(index) => write_marked(out, &[0], index)?,
        CoreDesc::Table { element, limits } => {
            out.write(&[1, code_of(element)])?;
            write_limits(out, limits)?;
        }
        CoreDesc::Memory(limits) => {
            out.write(&[2])?;
            write_limits(out, limits)?;
        }
        CoreDesc::Global { value, mutable } => {
            out.write(&[3, code_of(value), mutable_code(mutable)])?;
        }
    }
    Ok(())
}

/// A core type.
#[cycle(core_writing)]
#[tactic(auto, using(comp_format::specs::ViewLaws::core_func, comp_format::specs::ViewLaws::core_module, crate::proofs::LargestLaws::none_among), unfolding(comp_format::specs::CoreTypes::core_text, crate::specs::Largest::core_largest, crate::specs::Texts::TextsOfCore))]
pub fn write_core(out: &mut Sink, ty: &CoreType) -> Result<(), Memory>
    ensures text { OnOk result (out.new.bytes.items ≡ out.old.bytes.items ++ core_text (core_tree ty.now)) }
    ensures largest { OnOk result (out.new.largest ≡ max out.old.largest (core_largest (core_tree ty.now))) }
    ensures texts { OnOk result (TextsOfCore (core_tree ty.now)) }
{
    match ty {
        CoreType::Func { params, results } => {
            out.write(&[0x60])?;
            write_vector(out, params.as_slice())?;
            write_vector(out, results.as_slice())?;
        }
        CoreType::Module(ty) => write_module(out, ty)?,
    }
    Ok(())
}

/// A type of core modules.
#[cycle(core_writing)]
#[tactic(auto, using(comp_format::specs::ViewLaws::module_is, comp_format::specs::ViewLaws::modules_counted), unfolding(comp_format::specs::CoreTypes::core_text, crate::specs::Largest::core_largest, crate::specs::Texts::TextsOfCore))]
pub fn write_module(out: &mut Sink, ty: &ModuleType) -> Result<(), Memory>
    ensures text { OnOk result
        (out.new.bytes.items ≡ out.old.bytes.items ++ core_text (tree.Module (module_tree ty.now))) }
    ensures largest { OnOk result
        (out.new.largest ≡ max out.old.largest (core_largest (tree.Module (module_tree ty.now)))) }
    ensures texts { OnOk result (TextsOfCore (tree.Module (module_tree ty.now))) }
{
    out.write(&[0x50])?;
    write_module_decls(out, &ty.decls)?;
    Ok(())
}

/// How many declarations there are, and the declarations.
#[cycle(core_writing)]
#[tactic(auto, unfolding(comp_format::specs::CoreTypes::module_text, crate::specs::Largest::module_largest, crate::specs::Texts::TextsOfModule))]
fn write_module_decls(out: &mut Sink, decls: &[ModuleDecl]) -> Result<(), Memory>
    ensures text { OnOk result
        (out.new.bytes.items
        ≡ out.old.bytes.items
        ++ (number_text (length decls.now) ++ module_text (module_decls (map module_decl_tree decls.now)))) }
    ensures largest { OnOk result
        (out.new.largest
        ≡ max out.old.largest
        (max (length decls.now) (module_largest (module_decls (map module_decl_tree decls.now))))) }
    ensures texts { OnOk result (TextsOfModule (module_decls (map module_decl_tree decls.now))) }
{
    out.write_number(decls.len() as u64)?;
    for decl in decls {
        write_module_decl(out, decl)?;
    }
    Ok(())
}

/// A declaration of a type of core modules.
#[cycle(core_writing)]
#[tactic(auto, using(comp_format::specs::ViewLaws::module_decl_import, comp_format::specs::ViewLaws::module_decl_core_ty, comp_format::specs::ViewLaws::module_decl_alias, comp_format::specs::ViewLaws::module_decl_export), unfolding(comp_format::specs::CoreTypes::module_decl_text, crate::specs::Largest::module_decl_largest, crate::specs::Texts::TextsOfModuleDecl))]
fn write_module_decl(out: &mut Sink, decl: &ModuleDecl) -> Result<(), Memory>
    ensures text { OnOk result
        (out.new.bytes.items ≡ out.old.bytes.items ++ module_decl_text (module_decl_tree decl.now)) }
    ensures largest { OnOk result
        (out.new.largest ≡ max out.old.largest (module_decl_largest (module_decl_tree decl.now))) }
    ensures texts { OnOk result (TextsOfModuleDecl (module_decl_tree decl.now)) }
{
    match decl {
        ModuleDecl::Import { module, name, desc } => {
            out.write(&[0])?;
            out.write_name(module.as_str())?;
            out.write_name(name.as_str())?;
            write_core_desc(out, *desc)?;
        }
        ModuleDecl::CoreTy(ty) => {
            out.write(&[1])?;
            write_core(out, ty)?;
        }
        ModuleDecl::OuterAlias { count, index } => {
            write_marked(out, &[2, 0x10, 1], *count)?;
            out.write_number(*index as u64)?;
        }
        ModuleDecl::Export { name, desc } => {
            out.write(&[3])?;
            out.write_name(name.as_str())?;
            write_core_desc(out, *desc)?;
        }
    }
    Ok(())
}
