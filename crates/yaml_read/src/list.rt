//! Vectors and maps of std's and `indexmap`'s.

ghost use Rattle.std.specs.Prelude.{ℕ, List, [], map, bytes_eq};
ghost use Rattle.indexmap.specs.IndexMap.{insert_entry};
ghost use Rattle.yaml_read.specs.Collections as spec;
ghost use Rattle.yaml_read.specs.Nodes as nodes;
ghost use Rattle.yaml_read.specs.Entries.{seen_entry};
ghost use Rattle.yaml_read.specs.CollectionLaws as laws;
ghost use Rattle.yaml_read.specs.PartLaws as parts;

use crate::deserializer::YamlDeserializer;
use crate::error::DeError;
use crate::read::{MapFill, ReadYaml, SeqFill};
use indexmap::IndexMap;
use std::alloc::Global;
use warg_values::Text;

/// The items of a vector so far.
#[derive(Drop)]
struct VecFill<T> {
    items: Vec<T>,
}

impl<T: ReadYaml> SeqFill for VecFill<T> {
    ghost Seen = { List T.Seen };

    ghost seen = { λ fill. map T.seen fill.items.items };

    ghost takes = { λ xs at. nodes.mapped_node (spec.pushed xs) T.of_node };

    ghost fills = { λ xs at. spec.mapped_at (spec.pushed xs) T.read_at };

    fn item(
        &mut self,
        alloc: Global,
        _at: u64,
        de: &mut YamlDeserializer<'_>,
    ) -> Result<(), DeError> {
        let item = T::read_yaml(alloc, de)?;
        self.items.push(item)?;
        Ok(())
    }

    ghost reads = { λ xs at. parts.mapped_reads (spec.pushed xs) T.of_node T.read_at T.reads };
}

impl<T: ReadYaml> ReadYaml for Vec<T> {
    ghost Seen = { List T.Seen };

    ghost seen = { λ v. map T.seen v.items };

    ghost of_node = { nodes.seq_node (λ xs at. nodes.mapped_node (spec.pushed xs) T.of_node) [] };

    ghost read_at = { spec.seq_at (λ xs at. spec.mapped_at (spec.pushed xs) T.read_at) [] };

    fn read_yaml(alloc: Global, de: &mut YamlDeserializer<'_>) -> Result<Self, DeError> {
        let mut fill = VecFill {
            items: Vec::<T>::new(alloc),
        };
        match de.read_seq(alloc, &mut fill) {
            Ok(()) => {
                let VecFill { items } = fill;
                Ok(items)
            }
            Err(error) => Err(error),
        }
    }

    ghost reads = { laws.seq_reads
        (λ xs at. nodes.mapped_node (spec.pushed xs) T.of_node)
        (λ xs at. spec.mapped_at (spec.pushed xs) T.read_at)
        (λ xs at. parts.mapped_reads (spec.pushed xs) T.of_node T.read_at T.reads)
        [] };
}

/// The entries of a map so far.
#[derive(Drop)]
struct EntryFill<V> {
    entries: IndexMap<Text, V>,
}

impl<V: ReadYaml> MapFill for EntryFill<V> {
    ghost Seen = { List (List ℕ × V.Seen) };

    ghost seen = { λ fill. map (seen_entry V.seen) fill.entries.entries };

    ghost takes = { λ es key. nodes.mapped_node (insert_entry bytes_eq es key) V.of_node };

    ghost fills = { λ es key. spec.mapped_at (insert_entry bytes_eq es key) V.read_at };

    fn entry(
        &mut self,
        alloc: Global,
        key: Text,
        de: &mut YamlDeserializer<'_>,
    ) -> Result<(), DeError> {
        let value = V::read_yaml(alloc, de)?;
        let _ = self.entries.insert(key, value)?;
        Ok(())
    }

    ghost reads = { λ es key. parts.mapped_reads (insert_entry bytes_eq es key) V.of_node V.read_at V.reads };
}

/// A map keeps a repeated key at its first place, with its last value.
impl<V: ReadYaml> ReadYaml for IndexMap<Text, V> {
    ghost Seen = { List (List ℕ × V.Seen) };

    ghost seen = { λ m. map (seen_entry V.seen) m.entries };

    ghost of_node = { nodes.map_node (λ es key. nodes.mapped_node (insert_entry bytes_eq es key) V.of_node) [] };

    ghost read_at = { spec.map_at (λ es key. spec.mapped_at (insert_entry bytes_eq es key) V.read_at) [] };

    fn read_yaml(alloc: Global, de: &mut YamlDeserializer<'_>) -> Result<Self, DeError> {
        let mut fill = EntryFill {
            entries: IndexMap::<Text, V>::new(alloc),
        };
        match de.read_map(alloc, &mut fill) {
            Ok(()) => {
                let EntryFill { entries } = fill;
                Ok(entries)
            }
            Err(error) => Err(error),
        }
    }

    ghost reads = { laws.map_reads
        (λ es key. nodes.mapped_node (insert_entry bytes_eq es key) V.of_node)
        (λ es key. spec.mapped_at (insert_entry bytes_eq es key) V.read_at)
        (λ es key. parts.mapped_reads (insert_entry bytes_eq es key) V.of_node V.read_at V.reads)
        [] };
}
