//! What descriptions of imports and exports describe.

ghost use Rattle.std.specs.Prelude.{◌≡◌, ◌<◌, ◌||◌, IfOk, List, Ok, length};
ghost use Rattle.comp_declare.specs.Heads.{is_instance_type, is_resource, named_head};
ghost use Rattle.comp_declare.specs.Naming.{new_names};
ghost use Rattle.comp_entity.specs.Entity.{EntityTree};
ghost use Rattle.comp_format.specs.declared.types.TypeRef.TheVariants as TypeRef;
ghost use Rattle.comp_scope.specs.Descriptions as scope;
ghost use Rattle.comp_scope.specs.Descriptions.{described, described_instance, described_resource, described_type};
ghost use Rattle.comp_scope.specs.Spaces.{Spaces};
ghost use Rattle.comp_space.specs.Descriptions.{ShowsDescribed, plainly};
ghost use Rattle.comp_space.specs.Faults.{Finds};
ghost use Rattle.comp_space.specs.SpaceViews.{IsSpace, ShowsSpaces};
ghost use Rattle.comp_table.specs.Plain.{plain_entity};
ghost use Rattle.comp_table.specs.Trees.{Extends, PlainTree, Stands, below_root, tree, tree_at};

use crate::counting::counts_of;
use crate::new_names::{NewNames, new_place, new_resource};
use comp_format::{Sort, TypeRef};
use comp_mention::laws::trees_mention_as_entities;
use comp_rename::renamed;
use comp_space::nodes::{leaf, node};
use comp_space::{
    Counts, Described, ScopeError, Space, Standing, as_module, core_type_at, described_component,
    described_func, sort_at, standing_at,
};
use comp_table::laws::changed_entities_have_changed_trees;
use comp_table::{Head, TypeTable};
use std::alloc::Global;
use warg_values::Memory;

/// What is described, with the naming bit and without new names.
fn plainly(number: usize) -> Described
    ensures { result ≡ plainly number }
{
    Described {
        standing: Standing {
            number,
            named: true,
        },
        brings: Counts {
            resources: 0,
            places: 0,
        },
    }
}

/// A root under the name of the next place that names a type, where it is one that a place names and none did.
fn named_head(head: &Head, new: &NewNames) -> Result<Option<Head>, Memory>
    ensures { IfOk result (λ named. named ≡ named_head ((new_names new.now).place 0) head.now) }
{
    match head {
        Head::RecordOf(None) => Ok(Some(Head::RecordOf(Some(new_place(new, 0)?)))),
        Head::VariantOf(None) => Ok(Some(Head::VariantOf(Some(new_place(new, 0)?)))),
        Head::FlagsOf(None) => Ok(Some(Head::FlagsOf(Some(new_place(new, 0)?)))),
        Head::EnumOf(None) => Ok(Some(Head::EnumOf(Some(new_place(new, 0)?)))),
        _ => Ok(None),
    }
}

/// Whether a resource has this root.
fn is_resource(head: &Head) -> bool
    ensures { result ≡ is_resource head.now }
{
    matches!(head, Head::Resource(_))
}

/// Whether one of both is so.
fn either(first: bool, second: bool) -> bool
    ensures { result ≡ first || second }
{
    first || second
}

/// A copy of some numbers.
fn copied(alloc: Global, numbers: &[usize]) -> Result<Vec<usize>, Memory>
    ensures { IfOk result (λ copy. copy.items ≡ numbers.now) }
{
    let mut copy = Vec::new(alloc);
    copy.extend_from_slice(numbers)?;
    Ok(copy)
}

/// The number of what has this root and the parts of what another number stands for.
fn with_head(
    table: &mut TypeTable,
    alloc: Global,
    head: Head,
    number: usize,
) -> Result<usize, Memory>
    requires { number < length table.old }
    ensures extends { Extends table.old table.new }
    ensures number { IfOk result (λ n. Stands table.new n (tree head (below_root (tree_at table.old number)))) }
{
    let parts = copied(alloc, table.parts(number))?;
    node(table, alloc, head, parts)
}

/// A type that is described as equal to one, by what the index of that type stands for: a record, a variant, flags or
/// an enum that no place named takes the name of this one. Whatever the answer, the numbers given so far keep their
/// meaning.
pub fn described_type(
    table: &mut TypeTable,
    alloc: Global,
    new: &NewNames,
    standing: Standing,
) -> Result<Described, ScopeError>
    requires { standing.number < length table.old }
    ensures extends { Extends table.old table.new }
    ensures found { (e : EntityTree) → Stands table.old standing.number (plain_entity e)
        → Finds (ShowsDescribed table.new) result (described_type (new_names new.now) (e, standing.named)) }
{
    let Sort::Ty = sort_at(table, standing.number) else {
        return Err(ScopeError::Index);
    };
    match named_head(table.head(standing.number), new)? {
        Some(head) => {
            let number = with_head(table, alloc, head, standing.number)?;
            Ok(Described {
                standing: Standing {
                    number,
                    named: standing.named,
                },
                brings: Counts {
                    resources: 0,
                    places: 1,
                },
            })
        }
        None => {
            let is_resource = is_resource(table.head(standing.number));
            Ok(Described {
                standing: Standing {
                    number: standing.number,
                    named: either(standing.named, is_resource),
                },
                brings: Counts {
                    resources: 0,
                    places: 0,
                },
            })
        }
    }
}

/// A fresh resource. Whatever the answer, the numbers given so far keep their meaning.
fn described_resource(
    table: &mut TypeTable,
    alloc: Global,
    new: &NewNames,
) -> Result<Described, ScopeError>
    ensures extends { Extends table.old table.new }
    ensures found { Finds (ShowsDescribed table.new) result (Ok (described_resource (new_names new.now))) }
{
    let resource = new_resource(new, 0)?;
    let number = leaf(table, alloc, Head::Resource(resource))?;
    Ok(Described {
        standing: Standing {
            number,
            named: true,
        },
        brings: Counts {
            resources: 1,
            places: 0,
        },
    })
}

/// Whether a type of instances has this root.
fn is_instance_type(head: &Head) -> bool
    ensures { result ≡ is_instance_type head.now }
{
    matches!(head, Head::InstanceType)
}

/// An instance, by what the index of its type stands for: what the type's own scope makes is new. Whatever the answer,
/// the numbers given so far keep their meaning.
pub fn described_instance(
    table: &mut TypeTable,
    alloc: Global,
    new: &NewNames,
    standing: Standing,
) -> Result<Described, ScopeError>
    requires { standing.number < length table.old }
    ensures extends { Extends table.old table.new }
    ensures found { (e : EntityTree) → Stands table.old standing.number (plain_entity e)
        → Finds (ShowsDescribed table.new) result (described_instance (new_names new.now) (e, standing.named)) }
{
    changed_entities_have_changed_trees();
    trees_mention_as_entities();
    if !is_instance_type(table.head(standing.number)) {
        return Err(ScopeError::Index);
    }
    let closed = with_head(table, alloc, Head::Instance, standing.number)?;
    let brings = counts_of(table, alloc, 0, &[closed])?;
    let number = renamed(table, alloc, new, closed)?;
    Ok(Described {
        standing: Standing {
            number,
            named: true,
        },
        brings,
    })
}

/// A core module, by the index of its type.
fn described_module(space: &Space, index: u32) -> Result<Described, ScopeError>
    ensures { (table : List PlainTree) (s : Spaces) (new : scope.NewNames) → ShowsSpaces table space.now s
        → Finds (ShowsDescribed table) result (described s new (TypeRef.Module index)) }
{
    let known = core_type_at(&space.core_types, index)?;
    let number = as_module(&known)?;
    Ok(plainly(number))
}

/// What a description describes in a scope, where what is new in it is called so. Whatever the answer, the numbers
/// given so far keep their meaning.
pub fn described(
    table: &mut TypeTable,
    alloc: Global,
    space: &Space,
    new: &NewNames,
    ty: TypeRef,
) -> Result<Described, ScopeError>
    requires { IsSpace table.old space.now }
    ensures extends { Extends table.old table.new }
    ensures found { (s : Spaces) → ShowsSpaces table.old space.now s
        → Finds (ShowsDescribed table.new) result (described s (new_names new.now) ty) }
{
    match ty {
        TypeRef::Module(index) => described_module(space, index),
        TypeRef::Func(index) => {
            let standing = standing_at(&space.types, index)?;
            described_func(table, alloc, standing)
        }
        TypeRef::TyEqual(index) => {
            let standing = standing_at(&space.types, index)?;
            described_type(table, alloc, new, standing)
        }
        TypeRef::TyFresh => described_resource(table, alloc, new),
        TypeRef::Component(index) => {
            let standing = standing_at(&space.types, index)?;
            described_component(table, alloc, standing)
        }
        TypeRef::Instance(index) => {
            let standing = standing_at(&space.types, index)?;
            described_instance(table, alloc, new, standing)
        }
    }
}
