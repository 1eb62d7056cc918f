//! Types that components define, and the declarations of types that are scopes.

ghost use Rattle.std.specs.Prelude.{◌≡◌, ◌∷◌, List, OnErr, length, map, suc};
ghost use Rattle.comp_declare.specs.Outer.{AllShowSpaces, AreSpaces};
ghost use Rattle.comp_declare.specs.Scopes.{IsScope, ShowsScope};
ghost use Rattle.comp_define.specs.ScopeTypes.{ShowsEntity, declared_type};
ghost use Rattle.comp_entity.specs.Bounds.{bounded, is_within};
ghost use Rattle.comp_format.specs.Definitions as tree;
ghost use Rattle.comp_format.specs.Definitions.{decls_of};
ghost use Rattle.comp_format.specs.Views.{component_type_tree, core_tree, decl_tree, instance_type_tree, type_tree};
ghost use Rattle.comp_scope.specs.Spaces.{Known, Spaces, nothing_known};
ghost use Rattle.comp_scope.specs.Types.{with_decl, with_decls, with_type};
ghost use Rattle.comp_space.specs.Faults.{Finds};
ghost use Rattle.comp_space.specs.SpaceViews.{IsSpace, ShowsSpaces};
ghost use Rattle.comp_table.specs.Trees.{Extends};

use crate::core_types::add_core_type;
use crate::resources::add_resource;
use crate::scope_types::type_of_scope;
use comp_declare::{Scope, add_alias, scopes_within};
use comp_format::{Alias, ComponentType, CoreType, Decl, DefType, InstanceType};
use comp_space::{ScopeError, Space, Standing, add_func_type, add_value_type};
use comp_table::TypeTable;
use std::alloc::Global;

/// How many scopes may be open at most.
const SCOPES: usize = 32;

/// Whether one more scope may be opened within such scopes.
fn may_open(scopes: &[&Space]) -> bool
    ensures { result ≡ is_within bounded.scopes (suc (length scopes.now)) }
{
    scopes.len() < SCOPES
}

/// Adds a type (`Explainer.md`, "Type Definitions"): `around` are the scopes around, from within. `TooDeep` where more
/// than 32 scopes would be open. Whatever the answer, the numbers given so far keep their meaning; a refusal adds
/// nothing to the scope.
#[cycle(declaring)]
pub fn add_type(
    table: &mut TypeTable,
    alloc: Global,
    around: &[&Space],
    space: &mut Space,
    ty: &DefType,
) -> Result<(), ScopeError>
    requires own { IsSpace table.old space.old }
    requires around { AreSpaces table.old (map (λ s. s.now) around.now) }
    ensures extends { Extends table.old table.new }
    ensures found { (ss : List Spaces) (s : Spaces)
        → AllShowSpaces table.old (map (λ s. s.now) around.now) ss → ShowsSpaces table.old space.old s
        → Finds (λ u. ShowsSpaces table.new space.new) result (with_type bounded ss s (type_tree ty.now)) }
    ensures unchanged { (s : Spaces) → ShowsSpaces table.old space.old s
        → OnErr result (ShowsSpaces table.new space.new s) }
{
    match ty {
        DefType::Defined(ty) => add_value_type(table, alloc, space, ty),
        DefType::Func(ty) => add_func_type(table, alloc, space, ty),
        DefType::Component(ty) => add_component_type(table, alloc, around, space, ty),
        DefType::Instance(ty) => add_instance_type(table, alloc, around, space, ty),
        DefType::Resource { destructor } => add_resource(table, alloc, space, *destructor),
    }
}

/// Adds a type of components.
#[cycle(declaring)]
fn add_component_type(
    table: &mut TypeTable,
    alloc: Global,
    around: &[&Space],
    space: &mut Space,
    ty: &ComponentType,
) -> Result<(), ScopeError>
    requires own { IsSpace table.old space.old }
    requires around { AreSpaces table.old (map (λ s. s.now) around.now) }
    ensures extends { Extends table.old table.new }
    ensures found { (ss : List Spaces) (s : Spaces)
        → AllShowSpaces table.old (map (λ s. s.now) around.now) ss → ShowsSpaces table.old space.old s
        → Finds (λ u. ShowsSpaces table.new space.new) result
        (with_type bounded ss s (tree.Component (component_type_tree ty.now))) }
    ensures unchanged { (s : Spaces) → ShowsSpaces table.old space.old s
        → OnErr result (ShowsSpaces table.new space.new s) }
{
    let number = type_within(table, alloc, &*space, around, true, &ty.decls)?;
    space.add(
        table,
        Standing {
            number,
            named: true,
        },
    )
}

/// Adds a type of instances.
#[cycle(declaring)]
fn add_instance_type(
    table: &mut TypeTable,
    alloc: Global,
    around: &[&Space],
    space: &mut Space,
    ty: &InstanceType,
) -> Result<(), ScopeError>
    requires own { IsSpace table.old space.old }
    requires around { AreSpaces table.old (map (λ s. s.now) around.now) }
    ensures extends { Extends table.old table.new }
    ensures found { (ss : List Spaces) (s : Spaces)
        → AllShowSpaces table.old (map (λ s. s.now) around.now) ss → ShowsSpaces table.old space.old s
        → Finds (λ u. ShowsSpaces table.new space.new) result
        (with_type bounded ss s (tree.Instance (instance_type_tree ty.now))) }
    ensures unchanged { (s : Spaces) → ShowsSpaces table.old space.old s
        → OnErr result (ShowsSpaces table.new space.new s) }
{
    let number = type_within(table, alloc, &*space, around, false, &ty.decls)?;
    space.add(
        table,
        Standing {
            number,
            named: true,
        },
    )
}

/// The number of the type that declarations declare within a scope: `around` are the scopes around it, from within.
#[cycle(declaring)]
fn type_within(
    table: &mut TypeTable,
    alloc: Global,
    own: &Space,
    around: &[&Space],
    is_closed: bool,
    decls: &[Decl],
) -> Result<usize, ScopeError>
    requires own { IsSpace table.old own.now }
    requires around { AreSpaces table.old (map (λ s. s.now) around.now) }
    ensures extends { Extends table.old table.new }
    ensures found { (ss : List Spaces) → AllShowSpaces table.old (own.now ∷ map (λ s. s.now) around.now) ss
        → Finds (ShowsEntity table.new) result
        (declared_type bounded ss is_closed (decls_of (map decl_tree decls.now))) }
{
    let scopes = scopes_within(alloc, &*own, &*around)?;
    declared_type(table, alloc, &scopes, is_closed, decls)
}

/// The number of the type that declarations declare, where `around` are the scopes around it, from within: a type of
/// components where it is closed, and of instances otherwise.
#[cycle(declaring)]
fn declared_type(
    table: &mut TypeTable,
    alloc: Global,
    around: &[&Space],
    is_closed: bool,
    decls: &[Decl],
) -> Result<usize, ScopeError>
    requires { AreSpaces table.old (map (λ s. s.now) around.now) }
    ensures extends { Extends table.old table.new }
    ensures found { (ss : List Spaces) → AllShowSpaces table.old (map (λ s. s.now) around.now) ss
        → Finds (ShowsEntity table.new) result
        (declared_type bounded ss is_closed (decls_of (map decl_tree decls.now))) }
{
    if !may_open(around) {
        return Err(ScopeError::TooDeep);
    }
    let scope = declared(table, alloc, around, is_closed, decls)?;
    let number = type_of_scope(table, alloc, is_closed, &scope)?;
    Ok(number)
}

/// The scope of declarations: `around` are the scopes around it, from within.
#[cycle(declaring)]
fn declared(
    table: &mut TypeTable,
    alloc: Global,
    around: &[&Space],
    is_closed: bool,
    decls: &[Decl],
) -> Result<Scope, ScopeError>
    requires { AreSpaces table.old (map (λ s. s.now) around.now) }
    ensures extends { Extends table.old table.new }
    ensures found { (ss : List Spaces) → AllShowSpaces table.old (map (λ s. s.now) around.now) ss
        → Finds (ShowsScope table.new) result
        (with_decls bounded ss (nothing_known is_closed) (decls_of (map decl_tree decls.now))) }
{
    let mut scope = Scope::new(alloc, is_closed);
    for decl in decls {
        add_decl(table, alloc, around, &mut scope, decl)?;
    }
    Ok(scope)
}

/// Adds what a declaration declares to its scope: `around` are the scopes around it, from within.
#[cycle(declaring)]
fn add_decl(
    table: &mut TypeTable,
    alloc: Global,
    around: &[&Space],
    scope: &mut Scope,
    decl: &Decl,
) -> Result<(), ScopeError>
    requires own { IsScope table.old scope.old }
    requires around { AreSpaces table.old (map (λ s. s.now) around.now) }
    ensures extends { Extends table.old table.new }
    ensures found { (ss : List Spaces) (k : Known)
        → AllShowSpaces table.old (map (λ s. s.now) around.now) ss → ShowsScope table.old scope.old k
        → Finds (λ u. ShowsScope table.new scope.new) result (with_decl bounded ss k (decl_tree decl.now)) }
{
    match decl {
        Decl::CoreTy(ty) => add_declared_core_type(table, alloc, around, scope, ty),
        Decl::Ty(ty) => add_declared_type(table, alloc, around, scope, ty),
        Decl::Alias(alias) => add_declared_alias(table, alloc, around, scope, alias),
        Decl::Import { name, ty } => scope.import(table, alloc, name, *ty),
        Decl::Export { name, ty } => scope.declare_export(table, alloc, name, *ty),
    }
}

/// Adds a core type to a scope of declarations.
fn add_declared_core_type(
    table: &mut TypeTable,
    alloc: Global,
    around: &[&Space],
    scope: &mut Scope,
    ty: &CoreType,
) -> Result<(), ScopeError>
    requires own { IsScope table.old scope.old }
    requires around { AreSpaces table.old (map (λ s. s.now) around.now) }
    ensures extends { Extends table.old table.new }
    ensures found { (ss : List Spaces) (k : Known)
        → AllShowSpaces table.old (map (λ s. s.now) around.now) ss → ShowsScope table.old scope.old k
        → Finds (λ u. ShowsScope table.new scope.new) result (with_decl bounded ss k (tree.CoreTy (core_tree ty.now))) }
{
    add_core_type(table, alloc, around, &mut scope.space, ty)
}

/// Adds a type to a scope of declarations.
#[cycle(declaring)]
fn add_declared_type(
    table: &mut TypeTable,
    alloc: Global,
    around: &[&Space],
    scope: &mut Scope,
    ty: &DefType,
) -> Result<(), ScopeError>
    requires own { IsScope table.old scope.old }
    requires around { AreSpaces table.old (map (λ s. s.now) around.now) }
    ensures extends { Extends table.old table.new }
    ensures found { (ss : List Spaces) (k : Known)
        → AllShowSpaces table.old (map (λ s. s.now) around.now) ss → ShowsScope table.old scope.old k
        → Finds (λ u. ShowsScope table.new scope.new) result (with_decl bounded ss k (tree.Ty (type_tree ty.now))) }
{
    add_type(table, alloc, around, &mut scope.space, ty)
}

/// Adds an alias to a scope of declarations.
fn add_declared_alias(
    table: &mut TypeTable,
    alloc: Global,
    around: &[&Space],
    scope: &mut Scope,
    alias: &Alias,
) -> Result<(), ScopeError>
    requires own { IsScope table.old scope.old }
    requires around { AreSpaces table.old (map (λ s. s.now) around.now) }
    ensures extends { Extends table.old table.new }
    ensures found { (ss : List Spaces) (k : Known)
        → AllShowSpaces table.old (map (λ s. s.now) around.now) ss → ShowsScope table.old scope.old k
        → Finds (λ u. ShowsScope table.new scope.new) result (with_decl bounded ss k (tree.Aliased alias.now)) }
{
    add_alias(table, alloc, around, &mut scope.space, alias)
}
