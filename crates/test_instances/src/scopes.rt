//! Scopes for rows.

ghost use Rattle.std.specs.Prelude.{IfOk, OnOk};
ghost use Rattle.comp_declare.specs.Scopes.{IsScope};
ghost use Rattle.comp_space.specs.SpaceViews.{IsSpace};

use crate::words::{entity, items};
use comp_declare::{Entries, Scope, add_core_alias};
use comp_format::{CoreInstance, CoreSort, InstanceItem};
use comp_instance::{add_core_instance, add_instance};
use comp_space::{ScopeError, Space, Standing};
use comp_table::TypeTable;
use std::alloc::Global;
use warg_values::Sequence;

/// Puts the entity of a word into the index spaces of a scope.
fn put(
    table: &mut TypeTable,
    alloc: Global,
    space: &mut Space,
    word: &str,
) -> Result<(), ScopeError>
    requires { IsSpace table.old space.old }
    ensures { OnOk result (IsSpace table.new space.new) }
{
    let entity = entity(alloc, word)?;
    let number = table.intern(alloc, &entity)?;
    let standing = Standing {
        number: number.0,
        named: true,
    };
    space.add(table, standing)
}

/// The index spaces of a scope with the entities of these words.
pub fn filled(table: &mut TypeTable, alloc: Global, words: &str) -> Result<Space, ScopeError>
    ensures { IfOk result (IsSpace table.new) }
{
    let mut space = Space::new(alloc, true);
    for word in words.split_whitespace() {
        put(table, alloc, &mut space, word)?;
    }
    Ok(space)
}

/// Adds a core module of the scope's own.
fn add_own_module(table: &mut TypeTable, alloc: Global, space: &mut Space) -> Result<(), ScopeError>
    requires { IsSpace table.old space.old }
    ensures { OnOk result (IsSpace table.new space.new) }
{
    add_core_instance(space, &CoreInstance::Exports(Sequence::new(alloc)))?;
    add_core_alias(table, alloc, space, CoreSort::Module, 0)
}

/// Adds an instance of these items.
fn add_members(
    table: &mut TypeTable,
    alloc: Global,
    space: &mut Space,
    words: &str,
) -> Result<(), ScopeError>
    requires { IsSpace table.old space.old }
    ensures { OnOk result (IsSpace table.new space.new) }
{
    let members = items(alloc, words)?;
    add_instance(table, alloc, space, &InstanceItem::Exports(members))
}

/// A scope with the entities of these words, a core module of its own, and an instance that has it as a member.
pub fn scope(table: &mut TypeTable, alloc: Global, words: &str) -> Result<Scope, ScopeError>
    ensures { IfOk result (IsScope table.new) }
{
    let mut space = filled(table, alloc, words)?;
    add_own_module(table, alloc, &mut space)?;
    add_members(table, alloc, &mut space, "own=module-0")?;
    Ok(Scope {
        space,
        imports: Entries::new(alloc),
        exports: Entries::new(alloc),
    })
}
