//! Exports of components. The rows were written by hand from the Component Model's `Explainer.md`, "Import and Export
//! Definitions".

ghost use Rattle.std.specs.Prelude.{OnOk};
ghost use Rattle.comp_declare.specs.Scopes.{IsScope};

use crate::scopes::scope;
use crate::words::{description, item, refusal};
use comp_declare::Scope;
use comp_instance::export;
use comp_space::ScopeError;
use comp_table::TypeTable;
use std::alloc::Global;
use std::test::Fail;

/// The entities that the scope of each row has, by their words. Behind them come a core module of its own, and an instance
/// that has it as a member.
const SCOPE: &str = "keeper file other open-file open-other";

/// Exports, with their descriptions where they have one, and what comes of them.
const ROWS: [&str; 12] = [
    "a=type-0|good",
    "a=func-0 b=func-0 c=component-0|good",
    "a=type-0 A=func-0|Index",
    "a=func-9|Index",
    "a=type-0:fresh|good",
    "a=type-0:fresh b=type-1:fresh|good",
    "a=func-0:fresh|DoesNotFit",
    "a=type-0:equal|good",
    "a=type-1:equal|DoesNotFit",
    "a=module-0|Index",
    "a=module-0:fresh|Index",
    "a=instance-0|Index",
];

/// Exports the item of a word in a row, as in `name=func-0` or `name=type-0:fresh`.
fn put(
    table: &mut TypeTable,
    alloc: Global,
    scope: &mut Scope,
    word: &str,
) -> Result<(), ScopeError>
    requires { IsScope table.old scope.old }
    ensures { OnOk result (IsScope table.new scope.new) }
{
    let (place, described) = word.split_once(":").unwrap_or((word, ""));
    let item = item(alloc, place)?;
    export(
        table,
        alloc,
        scope,
        &item.name,
        item.sort,
        item.index,
        description(described),
    )
}

/// Exports the items of a row.
fn put_all(
    table: &mut TypeTable,
    alloc: Global,
    scope: &mut Scope,
    words: &str,
) -> Result<(), ScopeError>
    requires { IsScope table.old scope.old }
{
    for word in words.split_whitespace() {
        put(table, alloc, scope, word)?;
    }
    Ok(())
}

/// What comes of the exports of a row, in its words.
fn outcome(alloc: Global, words: &str) -> Result<&'static str, ScopeError> {
    let mut table = TypeTable::new(alloc);
    let mut scope = scope(&mut table, alloc, SCOPE)?;
    match put_all(&mut table, alloc, &mut scope, words) {
        Ok(()) => Ok("good"),
        Err(error) => Ok(refusal(error)),
    }
}

#[test]
fn exports_are_good_or_refused_as_the_rules_say(rt: HostRuntime) -> Result<(), Fail> {
    for row in ROWS {
        let (words, word) = row.split_once("|").unwrap_or((row, ""));
        assert_eq!(rt; outcome(rt.alloc(), words)?, word, "at {row}");
    }
    Ok(())
}
