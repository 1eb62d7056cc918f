//! The imports or the exports of a scope.

ghost use Rattle.std.specs.Prelude.{◌≡◌, ◌<◌, ◌∷◌, ◌++◌, ℕ, [], bytes_eq, false, map, IfOk, List, OnErr, OnOk, length};
ghost use Rattle.std.specs.Str.{str_to_ascii_lowercase};
ghost use Rattle.indexmap.specs.IndexSet.{insert_key};
ghost use Rattle.comp_declare.specs.Scopes.{ShowsEntries, plain_entry};
ghost use Rattle.comp_entity.specs.Entity.{EntityTree};
ghost use Rattle.comp_scope.specs.Spaces as scope;
ghost use Rattle.comp_scope.specs.Spaces.{is_taken};
ghost use Rattle.comp_table.specs.Plain.{plain_entity};
ghost use Rattle.comp_table.specs.Trees.{AllStand, Extends, PlainTree, Stands};

use comp_space::Standing;
use comp_space::nodes::around;
use comp_table::{Head, TypeTable};
use indexmap::IndexSet;
use std::alloc::Global;
use warg_values::{Memory, Text};

/// The imports or the exports of a scope, in order.
#[derive(Debug, Drop)]
pub struct Entries {
    /// The number of each in the table: an entity under its name, with its truth value.
    pub(crate) numbers: Vec<usize>,
    /// The name of each, in lower case.
    pub(crate) names: IndexSet<Text>,
}

impl Entries {
    /// None.
    pub fn new(alloc: Global) -> Self
        ensures { (table : List PlainTree) → ShowsEntries table result [] }
    {
        Entries {
            numbers: Vec::new(alloc),
            names: IndexSet::new(alloc),
        }
    }

    /// The numbers of the imports or exports in the table, in order.
    pub fn numbers(&self) -> &[usize]
        ensures { (table : List PlainTree) (entries : List (List ℕ × scope.Standing))
            → ShowsEntries table self.now entries → AllStand table result.now (map plain_entry entries) }
    {
        &self.numbers
    }

    /// Whether one has this name, which is in lower case: letter case makes no difference.
    pub fn is_taken(&self, name: &Text) -> bool
        ensures { (table : List PlainTree) (entries : List (List ℕ × scope.Standing)) (given : List ℕ)
            → ShowsEntries table self.now entries → name.now ≡ str_to_ascii_lowercase given
            → result ≡ is_taken given entries }
    {
        self.names.contains(name)
    }

    /// Puts one behind the others, under a name that is not taken and in lower case. A refusal changes nothing.
    pub fn push(&mut self, number: usize, name: Text) -> Result<(), Memory>
        ensures pushed { (table : List PlainTree) (entries : List (List ℕ × scope.Standing)) (e : List ℕ × scope.Standing)
            → ShowsEntries table self.old entries → is_taken e.0 entries ≡ false
            → name ≡ str_to_ascii_lowercase e.0 → Stands table number (plain_entry e)
            → OnOk result (ShowsEntries table self.new (entries ++ e ∷ [])) }
        ensures unchanged { (table : List PlainTree) (entries : List (List ℕ × scope.Standing))
            → ShowsEntries table self.old entries → OnErr result (ShowsEntries table self.new entries) }
    {
        self.numbers.push(number)?;
        match push_name(&mut self.names, name) {
            Ok(()) => Ok(()),
            Err(error) => {
                drop_last(&mut self.numbers);
                Err(error)
            }
        }
    }

    /// Takes the last one away.
    pub fn pop(&mut self)
        ensures { (table : List PlainTree) (entries : List (List ℕ × scope.Standing)) (e : List ℕ × scope.Standing)
            → ShowsEntries table self.old (entries ++ e ∷ []) → ShowsEntries table self.new entries }
    {
        let len = self.numbers.len().saturating_sub(1);
        self.numbers.truncate(len);
        self.names.truncate(len);
    }
}

/// Puts a name behind the others, where it is not among them. A refusal changes nothing.
fn push_name(names: &mut IndexSet<Text>, name: Text) -> Result<(), Memory>
    ensures keys { OnOk result (names.new.keys ≡ insert_key bytes_eq names.old.keys name) }
    ensures unchanged { OnErr result (names.new.keys ≡ names.old.keys) }
{
    names.insert(name)?;
    Ok(())
}

/// Drops the last number.
fn drop_last(numbers: &mut Vec<usize>)
    ensures { (front : List ℕ) (last : ℕ) → numbers.old.items ≡ front ++ last ∷ [] → numbers.new.items ≡ front }
{
    let _last = numbers.pop();
}

/// The number of an import or an export under its name, with its truth value.
pub fn entry(
    table: &mut TypeTable,
    alloc: Global,
    name: &Text,
    standing: Standing,
) -> Result<usize, Memory>
    requires { standing.number < length table.old }
    ensures extends { Extends table.old table.new }
    ensures number { (e : EntityTree) → Stands table.old standing.number (plain_entity e)
        → IfOk result (λ n. Stands table.new n (plain_entry (name.now, (e, standing.named)))) }
{
    let name = name.try_clone(alloc)?;
    around(
        table,
        alloc,
        Head::Entry(standing.named, name),
        standing.number,
    )
}
