//! Values of YAML nodes.

ghost use Rattle.std.specs.Prelude.{◌≡◌, IfOk};

use indexmap::IndexMap;
use std::alloc::Global;
use warg_values::{Memory, Text};

/// A value that a YAML node stands for.
#[cycle(yaml)]
#[derive(Debug, Drop, PartialEq, Eq, Hash)]
pub enum Yaml {
    /// An integer of 64 bits.
    Integer(i64),
    /// A text.
    Text(Text),
    /// `true` or `false`.
    Boolean(bool),
    /// A list.
    Array(YamlList),
    /// A map.
    Hash(YamlPairs),
    /// `null` or `~`.
    Null,
}

/// The entries of a list.
#[cycle(yaml)]
#[derive(Debug, Drop, PartialEq, Eq, Hash)]
pub struct YamlList {
    items: Vec<Yaml>,
}

/// The pairs of a map: a key's text, and a value.
#[cycle(yaml)]
#[derive(Debug, Drop, PartialEq, Eq, Hash)]
pub struct YamlPairs {
    pairs: Vec<(Text, Yaml)>,
}

impl YamlList {
    ghost use Rattle.yaml_small.specs.View.{list_view, items_view};

    /// The list of these values, in their order.
    pub fn new(items: Vec<Yaml>) -> Self
        ensures { list_view result ≡ items_view items.items }
    {
        YamlList { items }
    }

    /// The values.
    pub fn as_slice(&self) -> &[Yaml]
        ensures { items_view result.now ≡ list_view self.now }
    {
        self.items.as_slice()
    }

    /// The values, as a vector.
    pub fn into_vec(self) -> Vec<Yaml>
        ensures { items_view result.items ≡ list_view self }
    {
        let YamlList { items } = self;
        items
    }
}

impl YamlPairs {
    ghost use Rattle.yaml_small.specs.View.{pairs_view, members_view};

    /// The pairs of a map in the map's order. A map that pairs were put into one after the other keeps a repeated
    /// key at its first place, with the last value.
    pub fn new(alloc: Global, pairs: IndexMap<Text, Yaml>) -> Result<Self, Memory>
        ensures { IfOk result (λ made. pairs_view made ≡ members_view pairs.entries) }
    {
        let pairs = entries(alloc, pairs)?;
        Ok(YamlPairs { pairs })
    }

    /// The pairs, in their order.
    pub fn as_slice(&self) -> &[(Text, Yaml)]
        ensures { members_view result.now ≡ pairs_view self.now }
    {
        self.pairs.as_slice()
    }

    /// The pairs, as a vector.
    pub fn into_vec(self) -> Vec<(Text, Yaml)>
        ensures { members_view result.items ≡ pairs_view self }
    {
        let YamlPairs { pairs } = self;
        pairs
    }
}

/// A map's pairs, in its order.
fn entries(alloc: Global, pairs: IndexMap<Text, Yaml>) -> Result<Vec<(Text, Yaml)>, Memory>
    ensures { IfOk result (λ made. made.items ≡ pairs.entries) }
{
    let mut made = Vec::with_capacity(alloc, pairs.len())?;
    for pair in pairs {
        made.push(pair)?;
    }
    Ok(made)
}
