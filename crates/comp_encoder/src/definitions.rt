//! Types that components define as bytes.

ghost use Rattle.std.specs.Prelude.{◌≡◌, ◌++◌, length, map, max, OnOk};
ghost use Rattle.comp_format.specs.Numbers.{number_text};
ghost use Rattle.comp_format.specs.Vectors.{optional_text};
ghost use Rattle.comp_format.specs.Parts.{alias_text};
ghost use Rattle.comp_format.specs.Definitions as tree;
ghost use Rattle.comp_format.specs.Definitions.{decls_of, definition_text, decl_text, decls_text};
ghost use Rattle.comp_format.specs.Views.{type_tree, decl_tree, component_type_tree, instance_type_tree};
ghost use Rattle.comp_encoder.specs.Largest.{optional_largest, alias_largest, definition_largest, decl_largest, decls_largest};
ghost use Rattle.comp_encoder.specs.Texts.{TextsOfAlias, TextsOfType, TextsOfDecl, TextsOfDecls};

use crate::core_types::write_core;
use crate::parts::{write_description, write_marked, write_sort};
use crate::sink::Sink;
use crate::values::{write_defined, write_func};
use comp_format::{Alias, ComponentType, Decl, DefType, InstanceType, Sort};
use warg_values::Memory;

/// An alias: its sort, and what it stands for.
pub fn write_alias(out: &mut Sink, alias: &Alias) -> Result<(), Memory>
    ensures text { OnOk result (out.new.bytes.items ≡ out.old.bytes.items ++ alias_text alias.now) }
    ensures largest { OnOk result (out.new.largest ≡ max out.old.largest (alias_largest alias.now)) }
    ensures texts { OnOk result (TextsOfAlias alias.now) }
{
    match alias {
        Alias::Export {
            sort,
            instance,
            name,
        } => {
            write_sort(out, *sort)?;
            write_marked(out, &[0], *instance)?;
            out.write_name(name.as_str())?;
        }
        Alias::CoreExport {
            sort,
            instance,
            name,
        } => {
            write_sort(out, Sort::Core(*sort))?;
            write_marked(out, &[1], *instance)?;
            out.write_name(name.as_str())?;
        }
        Alias::Outer { sort, count, index } => {
            write_sort(out, *sort)?;
            write_marked(out, &[2], *count)?;
            out.write_number(*index as u64)?;
        }
    }
    Ok(())
}

/// A flag, and the index where there is one.
fn write_optional(out: &mut Sink, index: Option<u32>) -> Result<(), Memory>
    ensures text { OnOk result (out.new.bytes.items ≡ out.old.bytes.items ++ optional_text number_text index) }
    ensures largest { OnOk result (out.new.largest ≡ max out.old.largest (optional_largest (λ i. i) index)) }
{
    match index {
        None => out.write(&[0])?,
        Some(index) => write_marked(out, &[1], index)?,
    }
    Ok(())
}

/// A type.
#[cycle(writing)]
#[tactic(auto, using(comp_format::specs::ViewLaws::type_defined, comp_format::specs::ViewLaws::type_func, comp_format::specs::ViewLaws::type_component, comp_format::specs::ViewLaws::type_instance, comp_format::specs::ViewLaws::type_resource), unfolding(comp_format::specs::Definitions::definition_text, crate::specs::Largest::definition_largest, crate::specs::Texts::TextsOfType))]
pub fn write_type(out: &mut Sink, ty: &DefType) -> Result<(), Memory>
    ensures text { OnOk result (out.new.bytes.items ≡ out.old.bytes.items ++ definition_text (type_tree ty.now)) }
    ensures largest { OnOk result (out.new.largest ≡ max out.old.largest (definition_largest (type_tree ty.now))) }
    ensures texts { OnOk result (TextsOfType (type_tree ty.now)) }
{
    match ty {
        DefType::Defined(ty) => write_defined(out, ty)?,
        DefType::Func(ty) => {
            out.write(&[0x40])?;
            write_func(out, ty)?;
        }
        DefType::Component(ty) => write_component(out, ty)?,
        DefType::Instance(ty) => write_instance(out, ty)?,
        DefType::Resource { destructor } => {
            out.write(&[0x3f, 0x7f])?;
            write_optional(out, *destructor)?;
        }
    }
    Ok(())
}

/// A type of components.
#[cycle(writing)]
#[tactic(auto, using(comp_format::specs::ViewLaws::component_is, comp_format::specs::ViewLaws::component_counted), unfolding(comp_format::specs::Definitions::definition_text, crate::specs::Largest::definition_largest, crate::specs::Texts::TextsOfType))]
pub fn write_component(out: &mut Sink, ty: &ComponentType) -> Result<(), Memory>
    ensures text { OnOk result
        (out.new.bytes.items ≡ out.old.bytes.items ++ definition_text (tree.Component (component_type_tree ty.now))) }
    ensures largest { OnOk result
        (out.new.largest ≡ max out.old.largest (definition_largest (tree.Component (component_type_tree ty.now)))) }
    ensures texts { OnOk result (TextsOfType (tree.Component (component_type_tree ty.now))) }
{
    out.write(&[0x41])?;
    write_decls(out, &ty.decls)?;
    Ok(())
}

/// A type of instances.
#[cycle(writing)]
#[tactic(auto, using(comp_format::specs::ViewLaws::instance_is, comp_format::specs::ViewLaws::instance_counted), unfolding(comp_format::specs::Definitions::definition_text, crate::specs::Largest::definition_largest, crate::specs::Texts::TextsOfType))]
pub fn write_instance(out: &mut Sink, ty: &InstanceType) -> Result<(), Memory>
    ensures text { OnOk result
        (out.new.bytes.items ≡ out.old.bytes.items ++ definition_text (tree.Instance (instance_type_tree ty.now))) }
    ensures largest { OnOk result
        (out.new.largest ≡ max out.old.largest (definition_largest (tree.Instance (instance_type_tree ty.now)))) }
    ensures texts { OnOk result (TextsOfType (tree.Instance (instance_type_tree ty.now))) }
{
    out.write(&[0x42])?;
    write_decls(out, &ty.decls)?;
    Ok(())
}

/// How many declarations there are, and the declarations.
#[cycle(writing)]
#[tactic(auto, unfolding(comp_format::specs::Definitions::decls_text, crate::specs::Largest::decls_largest, crate::specs::Texts::TextsOfDecls))]
fn write_decls(out: &mut Sink, decls: &[Decl]) -> Result<(), Memory>
    ensures text { OnOk result
        (out.new.bytes.items
        ≡ out.old.bytes.items
        ++ (number_text (length decls.now) ++ decls_text (decls_of (map decl_tree decls.now)))) }
    ensures largest { OnOk result
        (out.new.largest
        ≡ max out.old.largest (max (length decls.now) (decls_largest (decls_of (map decl_tree decls.now))))) }
    ensures texts { OnOk result (TextsOfDecls (decls_of (map decl_tree decls.now))) }
{
    out.write_number(decls.len() as u64)?;
    for decl in decls {
        write_decl(out, decl)?;
    }
    Ok(())
}

/// A declaration.
#[cycle(writing)]
#[tactic(auto, using(comp_format::specs::ViewLaws::decl_core_ty, comp_format::specs::ViewLaws::decl_ty, comp_format::specs::ViewLaws::decl_alias, comp_format::specs::ViewLaws::decl_import, comp_format::specs::ViewLaws::decl_export), unfolding(comp_format::specs::Definitions::decl_text, crate::specs::Largest::decl_largest, crate::specs::Texts::TextsOfDecl))]
fn write_decl(out: &mut Sink, decl: &Decl) -> Result<(), Memory>
    ensures text { OnOk result (out.new.bytes.items ≡ out.old.bytes.items ++ decl_text (decl_tree decl.now)) }
    ensures largest { OnOk result (out.new.largest ≡ max out.old.largest (decl_largest (decl_tree decl.now))) }
    ensures texts { OnOk result (TextsOfDecl (decl_tree decl.now)) }
{
    match decl {
        Decl::CoreTy(ty) => {
            out.write(&[0])?;
            write_core(out, ty)?;
        }
        Decl::Ty(ty) => {
            out.write(&[1])?;
            write_type(out, ty)?;
        }
        Decl::Alias(alias) => {
            out.write(&[2])?;
            write_alias(out, alias)?;
        }
        Decl::Import { name, ty } => {
            out.write(&[3, 0])?;
            out.write_name(name.as_str())?;
            write_description(out, *ty)?;
        }
        Decl::Export { name, ty } => {
            out.write(&[4, 0])?;
            out.write_name(name.as_str())?;
            write_description(out, *ty)?;
        }
    }
    Ok(())
}
