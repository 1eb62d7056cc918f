//! Readers of sorts, descriptions, aliases, instances, imports and exports.

ghost use Rattle.std.specs.Prelude.{◌≡◌, ℕ, List, Result, Option, map, Ok, true};
ghost use Rattle.comp_format.specs.declared.types.Arg.{Arg as argument};
ghost use Rattle.comp_format.specs.declared.types.InstanceItem.{InstanceItem as instance_item};
ghost use Rattle.comp_format.specs.declared.types.CoreInstance.{CoreInstance as core_instance};
ghost use Rattle.comp_format.specs.declared.types.CoreSort.{CoreSort as core_sort};
ghost use Rattle.comp_format.specs.declared.types.Alias.{Alias as alias_item};
ghost use Rattle.comp_format.specs.Vectors.{optional_at};
ghost use Rattle.comp_format.specs.Parts.{core_sort_of, core_sort_at, sort_at, type_at, description_at, export_name_at, arg_at, member_at, instantiate_at, instance_at, is_outer, alias_export_at, core_export_at, outer_at, of_core, target_at, alias_at, core_arg_at, core_member_at, core_instantiate_at, core_instance_at};
ghost use Rattle.comp_format.specs.Items.{ImportTree, ExportTree, import_at, export_at};
ghost use Rattle.comp_reader.specs.Refusal.{Gives};
ghost use Rattle.comp_reader.specs.Views.{import_tree, export_tree, member_tree};

use crate::read::{Field, any_name_of, byte_of, mark_of, name_of, number_of, vector_of};
use crate::refusal::Refusal;
use comp_format::{Alias, Arg, CoreInstance, CoreSort, InstanceItem, Sort, TypeRef};
use std::alloc::Global;
use warg_values::{Sequence, Text};

/// The core sort of a byte.
fn core_sort_of_byte(byte: u8) -> Option<CoreSort>
    ensures { result ≡ core_sort_of byte }
{
    match byte {
        0x00 => Some(CoreSort::Func),
        0x01 => Some(CoreSort::Table),
        0x02 => Some(CoreSort::Memory),
        0x03 => Some(CoreSort::Global),
        0x10 => Some(CoreSort::Ty),
        0x11 => Some(CoreSort::Module),
        0x12 => Some(CoreSort::Instance),
        _ => None,
    }
}

/// A core sort.
#[tactic(auto, unfolding(comp_format::specs::Parts::core_sort_at))]
fn core_sort_of(bytes: &[u8]) -> Result<(CoreSort, &[u8]), Refusal>
    ensures { Gives (λ x. (x.0, x.1.now)) result (core_sort_at bytes.now) }
{
    let (byte, rest) = byte_of(bytes)?;
    match core_sort_of_byte(byte) {
        Some(sort) => Ok((sort, rest)),
        None => Err(Refusal::Form(bytes.len())),
    }
}

/// A sort.
#[tactic(auto, unfolding(comp_format::specs::Parts::sort_at))]
fn sort_of(bytes: &[u8]) -> Result<(Sort, &[u8]), Refusal>
    ensures { Gives (λ x. (x.0, x.1.now)) result (sort_at bytes.now) }
{
    let (byte, rest) = byte_of(bytes)?;
    match byte {
        0 => {
            let (core, rest) = core_sort_of(rest)?;
            Ok((Sort::Core(core), rest))
        }
        1 => Ok((Sort::Func, rest)),
        2 => Err(Refusal::NotCarried(bytes.len())),
        3 => Ok((Sort::Ty, rest)),
        4 => Ok((Sort::Component, rest)),
        5 => Ok((Sort::Instance, rest)),
        _ => Err(Refusal::Form(bytes.len())),
    }
}

/// The description of a type, behind its byte.
#[tactic(auto, unfolding(comp_format::specs::Parts::type_at))]
fn type_of(bytes: &[u8]) -> Result<(TypeRef, &[u8]), Refusal>
    ensures { Gives (λ x. (x.0, x.1.now)) result (type_at bytes.now) }
{
    let (byte, rest) = byte_of(bytes)?;
    match byte {
        0 => {
            let (index, rest) = number_of(rest)?;
            Ok((TypeRef::TyEqual(index), rest))
        }
        1 => Ok((TypeRef::TyFresh, rest)),
        _ => Err(Refusal::Form(bytes.len())),
    }
}

/// The description of an import or export.
#[tactic(auto, unfolding(comp_format::specs::Parts::description_at))]
pub fn description_of(bytes: &[u8]) -> Result<(TypeRef, &[u8]), Refusal>
    ensures { Gives (λ x. (x.0, x.1.now)) result (description_at bytes.now) }
{
    let (byte, rest) = byte_of(bytes)?;
    match byte {
        0 => {
            let (index, rest) = number_of(mark_of(0x11, rest)?)?;
            Ok((TypeRef::Module(index), rest))
        }
        1 => {
            let (index, rest) = number_of(rest)?;
            Ok((TypeRef::Func(index), rest))
        }
        2 => Err(Refusal::NotCarried(bytes.len())),
        3 => type_of(rest),
        4 => {
            let (index, rest) = number_of(rest)?;
            Ok((TypeRef::Component(index), rest))
        }
        5 => {
            let (index, rest) = number_of(rest)?;
            Ok((TypeRef::Instance(index), rest))
        }
        _ => Err(Refusal::Form(bytes.len())),
    }
}

/// A flag, and the description where there is one.
#[tactic(auto, unfolding(comp_format::specs::Vectors::optional_at))]
fn optional_of(bytes: &[u8]) -> Result<(Option<TypeRef>, &[u8]), Refusal>
    ensures { Gives (λ x. (x.0, x.1.now)) result (optional_at description_at bytes.now) }
{
    let (byte, rest) = byte_of(bytes)?;
    match byte {
        0 => Ok((None, rest)),
        1 => {
            let (ty, rest) = description_of(rest)?;
            Ok((Some(ty), rest))
        }
        _ => Err(Refusal::Form(bytes.len())),
    }
}

/// The name of an import or export, behind one of its two prefixes.
#[tactic(auto, unfolding(comp_format::specs::Parts::export_name_at))]
pub fn export_name_of(alloc: Global, bytes: &[u8]) -> Result<(Text, &[u8]), Refusal>
    ensures { Gives (λ x. (x.0, x.1.now)) result (export_name_at bytes.now) }
{
    let (byte, rest) = byte_of(bytes)?;
    match byte {
        0 => name_of(alloc, rest),
        1 => name_of(alloc, rest),
        _ => Err(Refusal::Form(bytes.len())),
    }
}

impl Field for Arg {
    ghost Tree = { argument };

    ghost tree = { λ arg. arg };

    ghost tree_at = { λ scopes. arg_at };

    #[tactic(auto, unfolding(comp_format::specs::Parts::arg_at))]
    fn read(alloc: Global, _scopes: u8, bytes: &[u8]) -> Result<(Self, &[u8]), Refusal> {
        let (name, rest) = name_of(alloc, bytes)?;
        let (sort, rest) = sort_of(rest)?;
        let (index, rest) = number_of(rest)?;
        Ok((Arg { name, sort, index }, rest))
    }
}

/// An item under the name of an export.
#[derive(Debug, Drop)]
pub struct Member {
    /// The item, and its name.
    pub arg: Arg,
}

impl Field for Member {
    ghost Tree = { argument };

    ghost tree = { member_tree };

    ghost tree_at = { λ scopes. member_at };

    #[tactic(auto, unfolding(comp_format::specs::Parts::member_at))]
    fn read(alloc: Global, _scopes: u8, bytes: &[u8]) -> Result<(Self, &[u8]), Refusal> {
        let (name, rest) = export_name_of(alloc, bytes)?;
        let (sort, rest) = sort_of(rest)?;
        let (index, rest) = number_of(rest)?;
        let arg = Arg { name, sort, index };
        Ok((Member { arg }, rest))
    }
}

/// What members hold.
fn args_of(alloc: Global, members: Vec<Member>) -> Result<Sequence<Arg>, Refusal>
    ensures { Gives (λ args. args) result (Ok (map member_tree members.items)) }
{
    let mut args = Sequence::new(alloc);
    for member in members {
        args.push(member.arg)?;
    }
    Ok(args)
}

/// An instance of a component, behind its byte.
#[tactic(auto, unfolding(comp_format::specs::Parts::instantiate_at))]
fn instantiate_of(alloc: Global, bytes: &[u8]) -> Result<(InstanceItem, &[u8]), Refusal>
    ensures { Gives (λ x. (x.0, x.1.now)) result (instantiate_at bytes.now) }
{
    let (component, rest) = number_of(bytes)?;
    let (args, rest) = vector_of::<Arg>(alloc, 0, rest)?;
    let args = Sequence::from_vec(args);
    Ok((InstanceItem::Instantiate { component, args }, rest))
}

impl Field for InstanceItem {
    ghost Tree = { instance_item };

    ghost tree = { λ i. i };

    ghost tree_at = { λ scopes. instance_at };

    #[tactic(auto, unfolding(comp_format::specs::Parts::instance_at))]
    fn read(alloc: Global, _scopes: u8, bytes: &[u8]) -> Result<(Self, &[u8]), Refusal> {
        let (byte, rest) = byte_of(bytes)?;
        match byte {
            0 => instantiate_of(alloc, rest),
            1 => {
                let (members, rest) = vector_of::<Member>(alloc, 0, rest)?;
                Ok((InstanceItem::Exports(args_of(alloc, members)?), rest))
            }
            _ => Err(Refusal::Form(bytes.len())),
        }
    }
}

/// Whether an outer alias may be of this sort.
fn is_outer(sort: Sort) -> bool
    ensures { result ≡ is_outer sort }
{
    match sort {
        Sort::Core(CoreSort::Ty) => true,
        Sort::Core(CoreSort::Module) => true,
        Sort::Ty => true,
        Sort::Component => true,
        _ => false,
    }
}

/// An alias of an export of an instance, behind its sort and byte.
#[tactic(auto, unfolding(comp_format::specs::Parts::alias_export_at))]
fn alias_export_of(alloc: Global, sort: Sort, bytes: &[u8]) -> Result<(Alias, &[u8]), Refusal>
    ensures { Gives (λ x. (x.0, x.1.now)) result (alias_export_at sort bytes.now) }
{
    let (instance, rest) = number_of(bytes)?;
    let (name, rest) = name_of(alloc, rest)?;
    let alias = Alias::Export {
        sort,
        instance,
        name,
    };
    Ok((alias, rest))
}

/// An alias of an export of a core instance, behind its sort and byte.
#[tactic(auto, unfolding(comp_format::specs::Parts::core_export_at))]
fn core_export_of(alloc: Global, sort: CoreSort, bytes: &[u8]) -> Result<(Alias, &[u8]), Refusal>
    ensures { Gives (λ x. (x.0, x.1.now)) result (core_export_at sort bytes.now) }
{
    let (instance, rest) = number_of(bytes)?;
    let (name, rest) = any_name_of(alloc, rest)?;
    let alias = Alias::CoreExport {
        sort,
        instance,
        name,
    };
    Ok((alias, rest))
}

/// An alias of an item of an outer scope, behind its sort and byte.
#[tactic(auto, unfolding(comp_format::specs::Parts::outer_at))]
fn outer_of(sort: Sort, bytes: &[u8]) -> Result<(Alias, &[u8]), Refusal>
    ensures { Gives (λ x. (x.0, x.1.now)) result (outer_at sort bytes.now) }
{
    let (count, rest) = number_of(bytes)?;
    let (index, rest) = number_of(rest)?;
    Ok((Alias::Outer { sort, count, index }, rest))
}

/// An alias of what a core instance exports, which has a core sort.
fn of_core(alloc: Global, sort: Sort, bytes: &[u8]) -> Result<(Alias, &[u8]), Refusal>
    ensures { Gives (λ x. (x.0, x.1.now)) result (of_core sort bytes.now) }
{
    match sort {
        Sort::Core(core) => core_export_of(alloc, core, bytes),
        _ => Err(Refusal::Form(bytes.len().saturating_add(1))),
    }
}

/// An alias, behind its sort.
#[tactic(auto, unfolding(comp_format::specs::Parts::target_at))]
fn target_of(alloc: Global, sort: Sort, bytes: &[u8]) -> Result<(Alias, &[u8]), Refusal>
    ensures { Gives (λ x. (x.0, x.1.now)) result (target_at sort bytes.now) }
{
    let (byte, rest) = byte_of(bytes)?;
    match byte {
        0 => alias_export_of(alloc, sort, rest),
        1 => of_core(alloc, sort, rest),
        2 => {
            if !is_outer(sort) {
                return Err(Refusal::Form(bytes.len()));
            }
            outer_of(sort, rest)
        }
        _ => Err(Refusal::Form(bytes.len())),
    }
}

/// An alias.
#[tactic(auto, unfolding(comp_format::specs::Parts::alias_at))]
pub fn alias_of(alloc: Global, bytes: &[u8]) -> Result<(Alias, &[u8]), Refusal>
    ensures { Gives (λ x. (x.0, x.1.now)) result (alias_at bytes.now) }
{
    let (sort, rest) = sort_of(bytes)?;
    target_of(alloc, sort, rest)
}

impl Field for Alias {
    ghost Tree = { alias_item };

    ghost tree = { λ a. a };

    ghost tree_at = { λ scopes. alias_at };

    fn read(alloc: Global, _scopes: u8, bytes: &[u8]) -> Result<(Self, &[u8]), Refusal> {
        alias_of(alloc, bytes)
    }
}

impl Field for (Text, u32) {
    ghost Tree = { List ℕ × ℕ };

    ghost tree = { λ arg. arg };

    ghost tree_at = { λ scopes. core_arg_at };

    #[tactic(auto, unfolding(comp_format::specs::Parts::core_arg_at))]
    fn read(alloc: Global, _scopes: u8, bytes: &[u8]) -> Result<(Self, &[u8]), Refusal> {
        let (name, rest) = any_name_of(alloc, bytes)?;
        let rest = mark_of(0x12, rest)?;
        let (index, rest) = number_of(rest)?;
        Ok(((name, index), rest))
    }
}

impl Field for (Text, CoreSort, u32) {
    ghost Tree = { List ℕ × core_sort × ℕ };

    ghost tree = { λ member. member };

    ghost tree_at = { λ scopes. core_member_at };

    #[tactic(auto, unfolding(comp_format::specs::Parts::core_member_at))]
    fn read(alloc: Global, _scopes: u8, bytes: &[u8]) -> Result<(Self, &[u8]), Refusal> {
        let (name, rest) = any_name_of(alloc, bytes)?;
        let (sort, rest) = core_sort_of(rest)?;
        let (index, rest) = number_of(rest)?;
        Ok(((name, sort, index), rest))
    }
}

/// A core instance of a core module, behind its byte.
#[tactic(auto, unfolding(comp_format::specs::Parts::core_instantiate_at))]
fn core_instantiate_of(alloc: Global, bytes: &[u8]) -> Result<(CoreInstance, &[u8]), Refusal>
    ensures { Gives (λ x. (x.0, x.1.now)) result (core_instantiate_at bytes.now) }
{
    let (module, rest) = number_of(bytes)?;
    let (args, rest) = vector_of::<(Text, u32)>(alloc, 0, rest)?;
    let args = Sequence::from_vec(args);
    Ok((CoreInstance::Instantiate { module, args }, rest))
}

impl Field for CoreInstance {
    ghost Tree = { core_instance };

    ghost tree = { λ i. i };

    ghost tree_at = { λ scopes. core_instance_at };

    #[tactic(auto, unfolding(comp_format::specs::Parts::core_instance_at))]
    fn read(alloc: Global, _scopes: u8, bytes: &[u8]) -> Result<(Self, &[u8]), Refusal> {
        let (byte, rest) = byte_of(bytes)?;
        match byte {
            0 => core_instantiate_of(alloc, rest),
            1 => {
                let (members, rest) = vector_of::<(Text, CoreSort, u32)>(alloc, 0, rest)?;
                Ok((CoreInstance::Exports(Sequence::from_vec(members)), rest))
            }
            _ => Err(Refusal::Form(bytes.len())),
        }
    }
}

/// An import, as it is read.
#[derive(Debug, Drop)]
pub struct ReadImport {
    /// Its name.
    pub name: Text,
    /// Its description.
    pub ty: TypeRef,
}

impl Field for ReadImport {
    ghost Tree = { ImportTree };

    ghost tree = { import_tree };

    ghost tree_at = { λ scopes. import_at };

    #[tactic(auto, unfolding(comp_format::specs::Items::import_at))]
    fn read(alloc: Global, _scopes: u8, bytes: &[u8]) -> Result<(Self, &[u8]), Refusal> {
        let (name, rest) = export_name_of(alloc, bytes)?;
        let (ty, rest) = description_of(rest)?;
        Ok((ReadImport { name, ty }, rest))
    }
}

/// An export, as it is read.
#[derive(Debug, Drop)]
pub struct ReadExport {
    /// Its name.
    pub name: Text,
    /// What it is.
    pub sort: Sort,
    /// The index of what it exports.
    pub index: u32,
    /// Its description, where there is one.
    pub ty: Option<TypeRef>,
}

impl Field for ReadExport {
    ghost Tree = { ExportTree };

    ghost tree = { export_tree };

    ghost tree_at = { λ scopes. export_at };

    #[tactic(auto, unfolding(comp_format::specs::Items::export_at))]
    fn read(alloc: Global, _scopes: u8, bytes: &[u8]) -> Result<(Self, &[u8]), Refusal> {
        let (name, rest) = export_name_of(alloc, bytes)?;
        let (sort, rest) = sort_of(rest)?;
        let (index, rest) = number_of(rest)?;
        let (ty, rest) = optional_of(rest)?;
        let export = ReadExport {
            name,
            sort,
            index,
            ty,
        };
        Ok((export, rest))
    }
}
