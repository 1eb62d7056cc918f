//! Types of components and of instances, by the scopes of declarations that they are.

ghost use Rattle.std.specs.Prelude.{IfOk};
ghost use Rattle.comp_declare.specs.Scopes.{IsScope, ShowsScope};
ghost use Rattle.comp_define.specs.ScopeTypes.{ShowsEntity, type_of_scope};
ghost use Rattle.comp_entity.specs.Entity.{Component, Instance, IsComponent, IsType};
ghost use Rattle.comp_scope.specs.Closing.{closed};
ghost use Rattle.comp_scope.specs.Spaces.{Known, entries_in};
ghost use Rattle.comp_table.specs.Trees.{Extends};

use crate::closing::{closed, with_entries};
use comp_declare::Scope;
use comp_space::nodes::around_two;
use comp_table::{Head, TypeTable};
use std::alloc::Global;
use warg_values::Memory;

/// The number of the type of components that a scope is, closed (`Explainer.md`, "Type Definitions"). Whatever the
/// answer, the numbers given so far keep their meaning.
pub fn component_type(table: &mut TypeTable, alloc: Global, scope: &Scope) -> Result<usize, Memory>
    requires { IsScope table.old scope.now }
    ensures extends { Extends table.old table.new }
    ensures number { (k : Known) → ShowsScope table.old scope.now k
        → IfOk result (λ n. ShowsEntity table.new n (IsType (Component (closed k).imports (closed k).exports))) }
{
    let sides = closed(table, alloc, scope)?;
    around_two(
        table,
        alloc,
        Head::ComponentType,
        sides.imports,
        sides.exports,
    )
}

/// The number of the component that a scope is, closed (`Explainer.md`, "Component Definitions"). Whatever the answer,
/// the numbers given so far keep their meaning.
pub fn component(table: &mut TypeTable, alloc: Global, scope: &Scope) -> Result<usize, Memory>
    requires { IsScope table.old scope.now }
    ensures extends { Extends table.old table.new }
    ensures number { (k : Known) → ShowsScope table.old scope.now k
        → IfOk result (λ n. ShowsEntity table.new n (IsComponent (closed k).imports (closed k).exports)) }
{
    let sides = closed(table, alloc, scope)?;
    around_two(table, alloc, Head::Component, sides.imports, sides.exports)
}

/// The number of the type of instances that a scope is (`Explainer.md`, "Type Definitions"). Whatever the answer, the
/// numbers given so far keep their meaning.
pub fn instance_type(table: &mut TypeTable, alloc: Global, scope: &Scope) -> Result<usize, Memory>
    requires { IsScope table.old scope.now }
    ensures extends { Extends table.old table.new }
    ensures number { (k : Known) → ShowsScope table.old scope.now k
        → IfOk result (λ n. ShowsEntity table.new n (IsType (Instance (entries_in k.exports)))) }
{
    with_entries(table, alloc, Head::InstanceType, &scope.exports)
}

/// The number of the type that a scope is: of components where it is closed, and of instances otherwise.
pub fn type_of_scope(
    table: &mut TypeTable,
    alloc: Global,
    is_closed: bool,
    scope: &Scope,
) -> Result<usize, Memory>
    requires { IsScope table.old scope.now }
    ensures extends { Extends table.old table.new }
    ensures number { (k : Known) → ShowsScope table.old scope.now k
        → IfOk result (λ n. ShowsEntity table.new n (type_of_scope is_closed k)) }
{
    if is_closed {
        component_type(table, alloc, scope)
    } else {
        instance_type(table, alloc, scope)
    }
}
