//! Items as an image has them.

ghost use Rattle.std.specs.Prelude.{◌≡◌, Some, option_map};
ghost use Rattle.comp_format.specs.Items.{ImportTree, item_tree};
ghost use Rattle.comp_image.specs.Numbered.{indexed_of};
ghost use Rattle.comp_image.specs.Progress.{Imports, Progresses, Sees, Shows, aliased, exported_item, instantiated, is_among};
ghost use Rattle.comp_scope.specs.Image.{as_export, imported, numbering, or_own, seen, sort_described};

use crate::arguments::arguments_of;
use crate::error::ItemError;
use crate::image::{ComponentOf, ExportOf, MadeInstance};
use crate::numbered::Indexed;
use crate::progress::Progress;
use comp_format::{Alias, Arg, CoreSort, InstanceItem, Item, Sort, TypeRef};
use indexmap::IndexSet;
use std::alloc::Global;
use warg_values::{Memory, Text};

/// The sort of what a description describes.
fn sort_described(ty: TypeRef) -> Sort
    ensures { result ≡ sort_described ty }
{
    match ty {
        TypeRef::Module(_) => Sort::Core(CoreSort::Module),
        TypeRef::Func(_) => Sort::Func,
        TypeRef::TyEqual(_) => Sort::Ty,
        TypeRef::TyFresh => Sort::Ty,
        TypeRef::Component(_) => Sort::Component,
        TypeRef::Instance(_) => Sort::Instance,
    }
}

/// What the export of a name is of what an index stands for: that of an instance that is made here.
fn exported_by<'b>(of: Option<Indexed<'b>>, name: &'b str) -> Indexed<'b>
    ensures { indexed_of result ≡ as_export (option_map indexed_of of.entry) name.now }
{
    match of {
        Some(Indexed::Made(number)) => Indexed::Part(number, name),
        _ => Indexed::Own,
    }
}

/// Gives the next index of a sort to what it stands for.
fn number<'a, 'b>(
    progress: &mut Progress<'a, 'b>,
    sort: Sort,
    of: Indexed<'b>,
) -> Result<(), ItemError>
    ensures { (imports : Imports) (p : Progresses) → Shows imports progress.old p
        → Sees imports progress.new result (Some (numbering p sort (indexed_of of.entry))) }
{
    progress.numbered.push(sort, of)?;
    Ok(())
}

/// An instance of the component of an index, with these arguments.
fn instantiate<'a, 'b>(
    alloc: Global,
    progress: &mut Progress<'a, 'b>,
    component: u32,
    args: &[Arg],
) -> Result<(), ItemError>
    ensures { (imports : Imports) (p : Progresses) → Shows imports progress.old p
        → Sees imports progress.new result (instantiated p component args.now) }
{
    let Some(Indexed::Component(component)) = progress.numbered.get(Sort::Component, component)
    else {
        return Err(ItemError::NotCarried);
    };
    let arguments = arguments_of(alloc, &progress.numbered, args)?;
    progress.add_instance(MadeInstance {
        component,
        arguments,
    })?;
    Ok(())
}

/// An import.
fn import<'a, 'b>(
    alloc: Global,
    components: &IndexSet<Text>,
    progress: &mut Progress<'a, 'b>,
    name: &'b Text,
    ty: TypeRef,
) -> Result<(), ItemError>
    ensures { (imports : Imports) (p : Progresses) (i : ImportTree) → Shows imports progress.old p → i.name ≡ name.now
        → Sees imports progress.new result (Some (imported (is_among components.now.keys) p i ty)) }
{
    match ty {
        TypeRef::Component(_) if components.contains(name) => {
            let name = name.try_clone(alloc)?;
            progress.add_component(ComponentOf::Imported(name))?;
            Ok(())
        }
        other => number(
            progress,
            sort_described(other),
            Indexed::Left(name.as_str()),
        ),
    }
}

/// An export of an export of an instance.
fn export<'a, 'b>(
    alloc: Global,
    progress: &mut Progress<'a, 'b>,
    name: &Text,
    sort: Sort,
    index: u32,
) -> Result<(), ItemError>
    ensures { (imports : Imports) (p : Progresses) → Shows imports progress.old p
        → Sees imports progress.new result (exported_item p name.now sort index) }
{
    let Some(Indexed::Part(instance, part)) = progress.numbered.get(sort, index) else {
        return Err(ItemError::NotCarried);
    };
    let export = ExportOf {
        name: name.try_clone(alloc)?,
        sort,
        instance,
        export: Text::copy_of(alloc, part)?,
    };
    progress.exports.push(export)?;
    progress.numbered.push(sort, Indexed::Part(instance, part))?;
    Ok(())
}

/// An alias.
fn alias<'a, 'b>(progress: &mut Progress<'a, 'b>, alias: &'b Alias) -> Result<(), ItemError>
    ensures { (imports : Imports) (p : Progresses) → Shows imports progress.old p
        → Sees imports progress.new result (aliased p alias.now) }
{
    match alias {
        Alias::Export {
            sort,
            instance,
            name,
        } => {
            let of = exported_by(
                progress.numbered.get(Sort::Instance, *instance),
                name.as_str(),
            );
            number(progress, *sort, of)
        }
        Alias::Outer {
            sort,
            count: _,
            index,
        } => {
            let of = or_own(progress.numbered.get(*sort, *index));
            number(progress, *sort, of)
        }
        Alias::CoreExport {
            sort: _,
            instance: _,
            name: _,
        } => Err(ItemError::NotCarried),
    }
}

/// What an index stands for, where it is there.
fn or_own(of: Option<Indexed<'_>>) -> Indexed<'_>
    ensures { indexed_of result ≡ or_own (option_map indexed_of of.entry) }
{
    match of {
        Some(of) => of,
        None => Indexed::Own,
    }
}

/// One item more.
#[tactic(auto, unfolding(comp_scope::specs::Image::seen))]
pub fn see<'a, 'b>(
    alloc: Global,
    components: &IndexSet<Text>,
    progress: &mut Progress<'a, 'b>,
    item: &'b Item<'a>,
) -> Result<(), ItemError>
    ensures { (imports : Imports) (p : Progresses) → Shows imports progress.old p
        → Sees imports progress.new result (seen (is_among components.now.keys) p (item_tree item.now)) }
{
    match item {
        Item::Component { bytes } => {
            progress.add_component(ComponentOf::Defined(bytes))?;
            Ok(())
        }
        Item::CoreTy(_) => number(progress, Sort::Core(CoreSort::Ty), Indexed::Own),
        Item::Ty(_) => number(progress, Sort::Ty, Indexed::Own),
        Item::Instance(InstanceItem::Instantiate { component, args }) => {
            instantiate(alloc, progress, *component, args.as_slice())
        }
        Item::Alias(item) => alias(progress, item),
        Item::Import { name, ty } => import(alloc, components, progress, name, *ty),
        Item::Export {
            name,
            sort,
            index,
            ty: None,
        } => export(alloc, progress, name, *sort, *index),
        _ => Err(ItemError::NotCarried),
    }
}
