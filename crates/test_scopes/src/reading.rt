//! Items put into the scope of a component.

ghost use Rattle.std.specs.Prelude.{IfOk, OnOk};
ghost use Rattle.comp_declare.specs.Scopes.{IsScope};

use comp_declare::{Scope, add_alias};
use comp_define::{add_core_type, add_type};
use comp_format::Item;
use comp_format::section::HEADER;
use comp_space::ScopeError;
use comp_table::TypeTable;
use std::alloc::Global;
use std::test::Fail;

/// Bytes of a component with sections in hexadecimal digits, which may be parted by blanks.
pub fn component_bytes(alloc: Global, sections: &str) -> Result<Vec<u8>, Fail> {
    let mut bytes = Vec::from_slice(alloc, &HEADER)?;
    for section in sections.split_whitespace() {
        bytes.extend_from_slice(&hex::decode(alloc, section)?)?;
    }
    Ok(bytes)
}

/// Puts an item into a scope, where it is a type, a core type, an alias or an import.
fn add_item(
    table: &mut TypeTable,
    alloc: Global,
    scope: &mut Scope,
    item: &Item,
) -> Result<(), ScopeError>
    requires { IsScope table.old scope.old }
    ensures { OnOk result (IsScope table.new scope.new) }
{
    match item {
        Item::Ty(ty) => add_type(table, alloc, &[], &mut scope.space, ty),
        Item::CoreTy(ty) => add_core_type(table, alloc, &[], &mut scope.space, ty),
        Item::Alias(alias) => add_alias(table, alloc, &[], &mut scope.space, alias),
        Item::Import { name, ty } => scope.import(table, alloc, name, *ty),
        _ => Err(ScopeError::DoesNotFit),
    }
}

/// The scope of a component's items.
pub fn scope_of(table: &mut TypeTable, alloc: Global, items: &[Item]) -> Result<Scope, ScopeError>
    ensures { IfOk result (IsScope table.new) }
{
    let mut scope = Scope::new(alloc, true);
    for item in items {
        add_item(table, alloc, &mut scope, item)?;
    }
    Ok(scope)
}
