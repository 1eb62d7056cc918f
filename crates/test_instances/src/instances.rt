//! Instances of components and of items. The rows were written by hand from the Component Model's `Explainer.md`, "Instance
//! Definitions".

use crate::scopes::filled;
use crate::words::{entity, items, refusal};
use comp_format::InstanceItem;
use comp_instance::add_instance;
use comp_space::{ScopeError, Space};
use comp_table::TypeTable;
use std::alloc::Global;
use std::test::Fail;

/// The entities that the scope of each row has, by their words.
const SCOPE: &str = "keeper file other open-file open-other";

/// Arguments of an instance of the keeper, and what comes of it: the instance of a word, or an error.
const INSTANTIATED: [&str; 10] = [
    "file=type-0 open=func-0|kept",
    "open=func-0 file=type-0|kept",
    "file=type-0 open=func-0 further=func-1|kept",
    "file=type-0 File=type-1 open=func-0|kept",
    "file=type-0 open=func-1|DoesNotFit",
    "file=type-0|DoesNotFit",
    "file=type-0 open=type-0|DoesNotFit",
    "File=type-0 open=func-0|DoesNotFit",
    "file=type-0 open=func-0 file=type-0|Index",
    "file=type-0 open=func-9|Index",
];

/// Members of an instance, and what comes of it.
const MADE_OF_ITEMS: [&str; 3] = [
    "a=type-0 b=func-1|members",
    "a=type-0 A=func-1|Index",
    "a=type-0 b=func-9|Index",
];

/// The word of a row where the last instance is that of the word, and another one where not.
fn found<'a>(
    table: &mut TypeTable,
    alloc: Global,
    space: &Space,
    word: &'a str,
) -> Result<&'a str, ScopeError> {
    let wanted = entity(alloc, word)?;
    let number = table.intern(alloc, &wanted)?;
    match space.instances.last() {
        Some(last) if last.number == number.0 => Ok(word),
        _ => Ok("another instance"),
    }
}

/// What comes of an instance, in the words of a row.
fn outcome<'a>(alloc: Global, item: &InstanceItem, word: &'a str) -> Result<&'a str, ScopeError> {
    let mut table = TypeTable::new(alloc);
    let mut space = filled(&mut table, alloc, SCOPE)?;
    match add_instance(&mut table, alloc, &mut space, item) {
        Ok(()) => found(&mut table, alloc, &space, word),
        Err(error) => Ok(refusal(error)),
    }
}

#[test]
fn an_instance_of_a_component_takes_arguments_that_fit(rt: HostRuntime) -> Result<(), Fail> {
    let alloc = rt.alloc();
    for row in INSTANTIATED {
        let (words, word) = row.split_once("|").unwrap_or((row, ""));
        let item = InstanceItem::Instantiate {
            component: 0,
            args: items(alloc, words)?,
        };
        assert_eq!(rt; outcome(alloc, &item, word)?, word, "at {row}");
    }
    Ok(())
}

#[test]
fn an_instance_of_items_has_each_name_once(rt: HostRuntime) -> Result<(), Fail> {
    let alloc = rt.alloc();
    for row in MADE_OF_ITEMS {
        let (words, word) = row.split_once("|").unwrap_or((row, ""));
        let item = InstanceItem::Exports(items(alloc, words)?);
        assert_eq!(rt; outcome(alloc, &item, word)?, word, "at {row}");
    }
    Ok(())
}
