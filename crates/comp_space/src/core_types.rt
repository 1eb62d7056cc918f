//! Core types, their indices followed, and the scopes of core types that types of core modules are.

ghost use Rattle.std.specs.Prelude.{◌≡◌, ◌<◌, ◌∷◌, ℕ, IfOk, List, OnOk, length, map};
ghost use Rattle.warg_values.specs.Answers.{Gives};
ghost use Rattle.comp_entity.specs.Bounds.{bounded};
ghost use Rattle.comp_entity.specs.declared.module.CoreShape.TheVariants as CoreShape;
ghost use Rattle.comp_format.specs.CoreTypes as tree;
ghost use Rattle.comp_format.specs.CoreTypes.{module_decls};
ghost use Rattle.comp_format.specs.Views.{core_tree, module_decl_tree, module_tree};
ghost use Rattle.comp_scope.specs.CoreScopes as scope;
ghost use Rattle.comp_scope.specs.CoreScopes.{as_core_func, as_module, core_item, core_type_of, module_in, module_of, no_module_scope, outer_core, with_module_decl};
ghost use Rattle.comp_scope.specs.Spaces.{KnownCoreType, at_index};
ghost use Rattle.comp_space.specs.CoreStandings.{AllShowCore, CoresAreThere, IsCoreBelow, ModuleIsThere, ScopesAreThere, ScopesShow, ShowsCore, ShowsModule, standing_out};
ghost use Rattle.comp_space.specs.Faults.{Finds, fault_of};
ghost use Rattle.comp_table.specs.Plain.{plain_core, plain_export, plain_import, plain_module};
ghost use Rattle.comp_table.specs.Rows.{core_value_plain};
ghost use Rattle.comp_table.specs.declared.head.Head.TheVariants as Head;
ghost use Rattle.comp_table.specs.Trees.{Extends, IsBelow, PlainTree, Stands, tree, trees_of};

use crate::bounds::check_bounds;
use crate::error::ScopeError;
use crate::nodes::{around_two, leaf, node, under};
use comp_format::{CoreDesc, CoreType, CoreVal, ModuleDecl, ModuleType};
use comp_table::{Head, TypeTable};
use std::alloc::Global;
use warg_values::{Memory, Text};

/// A core type by number.
#[derive(Clone, Copy, Debug, PartialEq, Eq)]
pub enum CoreStanding {
    /// The type of a core item: the number of that item.
    OfItem(usize),
    /// A type of core modules: the number of such a module.
    OfModules(usize),
    /// What a core instance exports, of which nothing is known.
    Unknown,
}

/// What a type of core modules has so far.
#[derive(Debug, Drop)]
pub struct ModuleScope {
    /// The core types, by index.
    pub types: Vec<CoreStanding>,
    /// The numbers of the imports, in order.
    pub imports: Vec<usize>,
    /// The numbers of the exports, in order.
    pub exports: Vec<usize>,
}

/// The core type of an index.
pub fn core_type_at(types: &[CoreStanding], index: u32) -> Result<CoreStanding, ScopeError>
    ensures { Gives fault_of (λ t. t) result (at_index types.now index) }
{
    let index = index as usize;
    if index < types.len() {
        Ok(types[index])
    } else {
        Err(ScopeError::Index)
    }
}

/// The core function of a core type.
fn as_core_func(known: &CoreStanding) -> Result<usize, ScopeError>
    ensures there { IfOk result (λ n. (k : ℕ) → IsCoreBelow k known.now → n < k) }
    ensures found { (ts : List PlainTree) (t : KnownCoreType) → ShowsCore ts known.now t
        → Finds (λ n shape. Stands ts n (plain_core shape)) result (as_core_func t) }
{
    match known {
        CoreStanding::OfItem(number) => Ok(*number),
        _ => Err(ScopeError::Index),
    }
}

/// The core module of a core type.
pub fn as_module(known: &CoreStanding) -> Result<usize, ScopeError>
    ensures there { IfOk result (λ n. (k : ℕ) → IsCoreBelow k known.now → n < k) }
    ensures found { (ts : List PlainTree) (t : KnownCoreType) → ShowsCore ts known.now t
        → Finds (λ n m. Stands ts n (plain_module m)) result (as_module t) }
{
    match known {
        CoreStanding::OfModules(number) => Ok(*number),
        _ => Err(ScopeError::Index),
    }
}

/// What a declaration of a core module describes.
fn core_item(
    table: &mut TypeTable,
    alloc: Global,
    types: &[CoreStanding],
    desc: &CoreDesc,
) -> Result<usize, ScopeError>
    requires { CoresAreThere table.old types.now }
    ensures extends { Extends table.old table.new }
    ensures there { IfOk result (λ n. n < length table.new) }
    ensures found { (known : List KnownCoreType) → AllShowCore table.old types.now known
        → Finds (λ n shape. Stands table.new n (plain_core shape)) result (core_item known desc.now) }
{
    match desc {
        CoreDesc::Func(index) => {
            let known = core_type_at(types, *index)?;
            as_core_func(&known)
        }
        CoreDesc::Table { element, limits } => {
            Ok(leaf(table, alloc, Head::CoreTable(*element, *limits))?)
        }
        CoreDesc::Memory(limits) => Ok(leaf(table, alloc, Head::CoreMemory(*limits))?),
        CoreDesc::Global { value, mutable } => {
            Ok(leaf(table, alloc, Head::CoreGlobal(*value, *mutable))?)
        }
    }
}

/// A core type of the scope that is so many scopes further out: `own` are those of the innermost, and `around` those
/// of the others, from within.
fn outer_core(
    own: &[CoreStanding],
    around: &[&[CoreStanding]],
    count: u32,
    index: u32,
) -> Result<CoreStanding, ScopeError>
    ensures { Gives fault_of (λ t. t) result (standing_out (own.now ∷ map (λ s. s.now) around.now) count index) }
{
    let Some(outer) = count.checked_sub(1) else {
        return core_type_at(own, index);
    };
    let outer = outer as usize;
    if outer < around.len() {
        core_type_at(around[outer], index)
    } else {
        Err(ScopeError::Index)
    }
}

/// The core types of scopes, with those of one more within.
pub fn scopes_within<'a>(
    alloc: Global,
    own: &'a [CoreStanding],
    around: &'a [&[CoreStanding]],
) -> Result<Vec<&'a [CoreStanding]>, Memory>
    ensures { IfOk result (λ all. map (λ s. s.now) all.items ≡ own.now ∷ map (λ s. s.now) around.now) }
{
    let mut all = Vec::new(alloc);
    all.push(own)?;
    for scope in around {
        all.push(&**scope)?;
    }
    Ok(all)
}

/// The number of a list of core value types.
fn core_values(table: &mut TypeTable, alloc: Global, values: &[CoreVal]) -> Result<usize, Memory>
    ensures extends { Extends table.old table.new }
    ensures number { IfOk result (λ n. Stands table.new n
        (tree Head.Entries (trees_of (map core_value_plain values.now)))) }
{
    let mut numbers = Vec::new(alloc);
    for value in values {
        let number = leaf(table, alloc, Head::CoreValue(*value))?;
        numbers.push(number)?;
    }
    node(table, alloc, Head::Entries, numbers)
}

/// The number of a core function of these parameters and results.
fn core_func(
    table: &mut TypeTable,
    alloc: Global,
    params: &[CoreVal],
    results: &[CoreVal],
) -> Result<usize, Memory>
    ensures extends { Extends table.old table.new }
    ensures number { IfOk result (λ n. Stands table.new n (plain_core (CoreShape.Func params.now results.now))) }
{
    let params = core_values(table, alloc, params)?;
    let results = core_values(table, alloc, results)?;
    around_two(table, alloc, Head::CoreFunc, params, results)
}

/// The number of a core module with these imports and exports.
fn core_module(table: &mut TypeTable, alloc: Global, own: ModuleScope) -> Result<usize, Memory>
    requires { ModuleIsThere table.old own }
    ensures extends { Extends table.old table.new }
    ensures there { IfOk result (λ n. n < length table.new) }
    ensures number { (known : scope.ModuleScope) → ShowsModule table.old own known
        → IfOk result (λ n. Stands table.new n (plain_module (module_in known))) }
{
    let ModuleScope {
        imports,
        exports,
        ..
    } = own;
    let imports = node(table, alloc, Head::Entries, imports)?;
    let exports = node(table, alloc, Head::Entries, exports)?;
    around_two(table, alloc, Head::Module, imports, exports)
}

/// Adds an import to a core module.
fn add_import(
    table: &mut TypeTable,
    alloc: Global,
    own: &mut ModuleScope,
    from: &Text,
    name: &Text,
    desc: &CoreDesc,
) -> Result<(), ScopeError>
    requires { ModuleIsThere table.old own.old }
    ensures extends { Extends table.old table.new }
    ensures there { OnOk result (ModuleIsThere table.new own.new) }
    ensures found { (scopes : List (List KnownCoreType)) (known : scope.ModuleScope) → ShowsModule table.old own.old known
        → Finds (λ u. ShowsModule table.new own.new) result
        (with_module_decl bounded scopes known (tree.Import from.now name.now desc.now)) }
{
    let item = core_item(table, alloc, &own.types, desc)?;
    let named = under(table, alloc, name, item)?;
    let number = under(table, alloc, from, named)?;
    own.imports.push(number)?;
    Ok(())
}

/// Adds an export to a core module.
fn add_export(
    table: &mut TypeTable,
    alloc: Global,
    own: &mut ModuleScope,
    name: &Text,
    desc: &CoreDesc,
) -> Result<(), ScopeError>
    requires { ModuleIsThere table.old own.old }
    ensures extends { Extends table.old table.new }
    ensures there { OnOk result (ModuleIsThere table.new own.new) }
    ensures found { (scopes : List (List KnownCoreType)) (known : scope.ModuleScope) → ShowsModule table.old own.old known
        → Finds (λ u. ShowsModule table.new own.new) result
        (with_module_decl bounded scopes known (tree.Export name.now desc.now)) }
{
    let item = core_item(table, alloc, &own.types, desc)?;
    let number = under(table, alloc, name, item)?;
    own.exports.push(number)?;
    Ok(())
}

/// Adds a core type of a scope further out to the core types of a core module.
fn add_outer(
    own: &mut ModuleScope,
    around: &[&[CoreStanding]],
    count: u32,
    index: u32,
) -> Result<(), ScopeError>
    ensures there { (ts : List PlainTree) → ModuleIsThere ts own.old → ScopesAreThere ts (map (λ s. s.now) around.now)
        → OnOk result (ModuleIsThere ts own.new) }
    ensures found { (ts : List PlainTree) (scopes : List (List KnownCoreType)) (known : scope.ModuleScope)
        → ScopesShow ts (map (λ s. s.now) around.now) scopes → ShowsModule ts own.old known
        → Finds (λ u. ShowsModule ts own.new) result
        (with_module_decl bounded scopes known (tree.OuterAlias count index)) }
{
    let known = outer_core(&own.types, around, count, index)?;
    own.types.push(known)?;
    Ok(())
}

/// A core type within scopes: `own` are the core types of the innermost, and `around` those of the others, from within.
#[cycle(core_reading)]
pub fn core_type_of(
    table: &mut TypeTable,
    alloc: Global,
    own: &[CoreStanding],
    around: &[&[CoreStanding]],
    ty: &CoreType,
) -> Result<CoreStanding, ScopeError>
    requires { ScopesAreThere table.old (own.now ∷ map (λ s. s.now) around.now) }
    ensures extends { Extends table.old table.new }
    ensures there { IfOk result (IsCoreBelow (length table.new)) }
    ensures found { (scopes : List (List KnownCoreType))
        → ScopesShow table.old (own.now ∷ map (λ s. s.now) around.now) scopes
        → Finds (ShowsCore table.new) result (core_type_of bounded scopes (core_tree ty.now)) }
{
    match ty {
        CoreType::Func { params, results } => {
            let number = core_func(table, alloc, params.as_slice(), results.as_slice())?;
            Ok(CoreStanding::OfItem(number))
        }
        CoreType::Module(module) => {
            let scopes = scopes_within(alloc, &*own, &*around)?;
            module_type_of(table, alloc, &scopes, module)
        }
    }
}

/// A type of core modules within scopes.
#[cycle(core_reading)]
fn module_type_of(
    table: &mut TypeTable,
    alloc: Global,
    around: &[&[CoreStanding]],
    ty: &ModuleType,
) -> Result<CoreStanding, ScopeError>
    requires { ScopesAreThere table.old (map (λ s. s.now) around.now) }
    ensures extends { Extends table.old table.new }
    ensures there { IfOk result (IsCoreBelow (length table.new)) }
    ensures found { (scopes : List (List KnownCoreType)) → ScopesShow table.old (map (λ s. s.now) around.now) scopes
        → Finds (ShowsCore table.new) result (core_type_of bounded scopes (tree.Module (module_tree ty.now))) }
{
    let module = module_of(table, alloc, around, &ty.decls)?;
    let number = core_module(table, alloc, module)?;
    check_bounds(table, number)?;
    Ok(CoreStanding::OfModules(number))
}

/// What declarations of a type of core modules declare.
#[cycle(core_reading)]
fn module_of(
    table: &mut TypeTable,
    alloc: Global,
    around: &[&[CoreStanding]],
    decls: &[ModuleDecl],
) -> Result<ModuleScope, ScopeError>
    requires { ScopesAreThere table.old (map (λ s. s.now) around.now) }
    ensures extends { Extends table.old table.new }
    ensures there { IfOk result (ModuleIsThere table.new) }
    ensures found { (scopes : List (List KnownCoreType)) → ScopesShow table.old (map (λ s. s.now) around.now) scopes
        → Finds (ShowsModule table.new) result
        (module_of bounded scopes no_module_scope (module_decls (map module_decl_tree decls.now))) }
{
    let mut own = ModuleScope {
        types: Vec::new(alloc),
        imports: Vec::new(alloc),
        exports: Vec::new(alloc),
    };
    for decl in decls {
        add_module_decl(table, alloc, around, &mut own, decl)?;
    }
    Ok(own)
}

/// Adds what a declaration declares to a core module.
#[cycle(core_reading)]
fn add_module_decl(
    table: &mut TypeTable,
    alloc: Global,
    around: &[&[CoreStanding]],
    own: &mut ModuleScope,
    decl: &ModuleDecl,
) -> Result<(), ScopeError>
    requires around { ScopesAreThere table.old (map (λ s. s.now) around.now) }
    requires own { ModuleIsThere table.old own.old }
    ensures extends { Extends table.old table.new }
    ensures there { OnOk result (ModuleIsThere table.new own.new) }
    ensures found { (scopes : List (List KnownCoreType)) (known : scope.ModuleScope)
        → ScopesShow table.old (map (λ s. s.now) around.now) scopes → ShowsModule table.old own.old known
        → Finds (λ u. ShowsModule table.new own.new) result
        (with_module_decl bounded scopes known (module_decl_tree decl.now)) }
{
    match decl {
        ModuleDecl::Import {
            module: from,
            name,
            desc,
        } => add_import(table, alloc, own, from, name, desc),
        ModuleDecl::CoreTy(ty) => add_core_type(table, alloc, around, own, ty),
        ModuleDecl::OuterAlias { count, index } => add_outer(own, around, *count, *index),
        ModuleDecl::Export { name, desc } => add_export(table, alloc, own, name, desc),
    }
}

/// Adds a core type to those of a core module.
#[cycle(core_reading)]
fn add_core_type(
    table: &mut TypeTable,
    alloc: Global,
    around: &[&[CoreStanding]],
    own: &mut ModuleScope,
    ty: &CoreType,
) -> Result<(), ScopeError>
    requires around { ScopesAreThere table.old (map (λ s. s.now) around.now) }
    requires own { ModuleIsThere table.old own.old }
    ensures extends { Extends table.old table.new }
    ensures there { OnOk result (ModuleIsThere table.new own.new) }
    ensures found { (scopes : List (List KnownCoreType)) (known : scope.ModuleScope)
        → ScopesShow table.old (map (λ s. s.now) around.now) scopes → ShowsModule table.old own.old known
        → Finds (λ u. ShowsModule table.new own.new) result
        (with_module_decl bounded scopes known (tree.CoreTy (core_tree ty.now))) }
{
    let known = core_type_of(table, alloc, &own.types, around, ty)?;
    own.types.push(known)?;
    Ok(())
}
