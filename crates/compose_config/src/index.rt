//! Maps whose values are texts or maps.

ghost use Rattle.std.specs.Prelude.{◌≡◌, ℕ, List, Option, Some, map, bytes_eq, IfOk};
ghost use Rattle.indexmap.specs.IndexMap.{insert_entry};
ghost use Rattle.yaml_small.specs.Trees.{Tree};
ghost use Rattle.yaml_read.specs.Answers.{source_of, ReadTakes};
ghost use Rattle.yaml_read.specs.Collections as collections;
ghost use Rattle.yaml_read.specs.Nodes as nodes;
ghost use Rattle.yaml_read.specs.Entries.{seen_entry};
ghost use Rattle.compose_config.specs.Plan as plan;
ghost use Rattle.compose_config.specs.PlanLaws as laws;

use indexmap::IndexMap;
use std::alloc::Global;
use warg_values::{Memory, Text};
use yaml_read::{DeError, MapFill, ReadYaml, YamlDeserializer};
use yaml_small::{Resolved, resolve};

/// A type of which a text is short for a value.
pub trait FromText: ReadYaml {
    /// The node that a text is short for.
    ghost node: { List ℕ → Option Tree };

    /// The value that a text is short for.
    fn from_text(alloc: Global, text: &str) -> Result<Self, Memory>
        ensures { IfOk result (λ value. Self.of_node (node text.now) ≡ Some (Self.seen value)) };
}

/// The entries of a map so far.
#[derive(Drop)]
struct IndexFill<V> {
    entries: IndexMap<Text, V>,
}

/// A value: a map of its own, or a scalar that is a text.
#[tactic(auto, unfolding(crate::specs::Plan::value_at))]
fn read_value<V: FromText>(alloc: Global, de: &mut YamlDeserializer<'_>) -> Result<V, DeError>
    ensures { ReadTakes (λ read. (V.seen read, source_of de.new)) (source_of de.new) result
        (plan.value_at (λ text. V.of_node (V.node text)) V.read_at (source_of de.old)) }
{
    if !de.at_scalar(alloc)? {
        return V::read_yaml(alloc, de);
    }
    let (text, mark) = de.read_scalar(alloc)?;
    if !is_text(text.as_str()) {
        let expected = Text::copy_of(alloc, "a text or a map")?;
        return Err(DeError::UnexpectedScalar(expected, text, mark));
    }
    let value = V::from_text(alloc, text.as_str())?;
    Ok(value)
}

/// Whether a text stands for no number, no truth value and not for nothing.
fn is_text(text: &str) -> bool
    ensures { result ≡ plan.is_text_of text.now }
{
    match resolve(text) {
        Resolved::Text => true,
        Resolved::Integer(_) | Resolved::Boolean(_) | Resolved::Null | Resolved::RealForm => false,
    }
}

impl<V: FromText> MapFill for IndexFill<V> {
    ghost Seen = { List (List ℕ × V.Seen) };

    ghost seen = { λ fill. map (seen_entry V.seen) fill.entries.entries };

    ghost takes = { λ es key. nodes.mapped_node (insert_entry bytes_eq es key)
        (plan.value_node (λ text. V.of_node (V.node text)) V.of_node) };

    ghost fills = { λ es key. collections.mapped_at (insert_entry bytes_eq es key)
        (plan.value_at (λ text. V.of_node (V.node text)) V.read_at) };

    fn entry(
        &mut self,
        alloc: Global,
        key: Text,
        de: &mut YamlDeserializer<'_>,
    ) -> Result<(), DeError> {
        let value = read_value::<V>(alloc, de)?;
        let _ = self.entries.insert(key, value)?;
        Ok(())
    }

    ghost reads = { laws.index_entry (λ text. V.of_node (V.node text)) V.of_node V.read_at V.reads };
}

/// A map whose values are maps or scalars that are texts, in the order of its keys' first places. A repeated key
/// keeps its last value.
///
/// A plain or quoted scalar that stands for a number, a truth value or nothing is `UnexpectedScalar`. What a value's
/// own read refuses is handed on.
pub fn index_map<V: FromText>(
    alloc: Global,
    de: &mut YamlDeserializer<'_>,
) -> Result<IndexMap<Text, V>, DeError>
    ensures { ReadTakes (λ read. (map (seen_entry V.seen) read.entries, source_of de.new)) (source_of de.new) result
        (plan.index_at (λ text. V.of_node (V.node text)) V.read_at (source_of de.old)) }
{
    let mut fill = IndexFill {
        entries: IndexMap::<Text, V>::new(alloc),
    };
    match de.read_map(alloc, &mut fill) {
        Ok(()) => {
            let IndexFill { entries } = fill;
            Ok(entries)
        }
        Err(error) => Err(error),
    }
}
