//! Types that are read from YAML.

ghost use Rattle.std.specs.Prelude.{ℕ, List, Option, Result};
ghost use Rattle.yaml_small.specs.Trees.{Tree};
ghost use Rattle.yaml_read.specs.Source.{Source, Refused};
ghost use Rattle.yaml_read.specs.Emitted.{Reads};
ghost use Rattle.yaml_read.specs.Answers.{source_of, ReadTakes};

use crate::deserializer::YamlDeserializer;
use crate::error::DeError;
use std::alloc::Global;
use warg_values::Text;

/// A type whose values are read from YAML.
pub trait ReadYaml: Sized + Drop {
    /// What a clause sees of a value.
    ghost Seen: { Type 0 };

    /// What a clause sees of this value.
    ghost seen: { Self → Seen };

    /// Which nodes are read, and as which value. `None` is the end of an empty document.
    ghost of_node: { Option Tree → Option Seen };

    /// What is read from a place in the events.
    ghost read_at: { Source → Result (Seen × Source) Refused };

    /// Reads a value.
    fn read_yaml(alloc: Global, de: &mut YamlDeserializer<'_>) -> Result<Self, DeError>
        ensures { ReadTakes (λ read. (seen read, source_of de.new)) (source_of de.new) result
            (read_at (source_of de.old)) };

    /// What is read from a place is what the node that is emitted there stands for.
    ghost reads: { Reads of_node read_at };
}

/// What takes the items of a list, one after the other.
pub trait SeqFill: Drop {
    /// What a clause sees of a fill.
    ghost Seen: { Type 0 };

    /// What a clause sees of this fill.
    ghost seen: { Self → Seen };

    /// What a fill becomes by the node of an item, where it takes it at this place in the list.
    ghost takes: { Seen → ℕ → Option Tree → Option Seen };

    /// What it becomes by reading an item from a place in the events.
    ghost fills: { Seen → ℕ → Source → Result (Seen × Source) Refused };

    /// Reads an item. `at` counts the items before it.
    fn item(&mut self, alloc: Global, at: u64, de: &mut YamlDeserializer<'_>) -> Result<(), DeError>
        ensures { ReadTakes (λ _. (seen self.new, source_of de.new)) (source_of de.new) result
            (fills (seen self.old) at (source_of de.old)) };

    /// What is read from a place is what the node that is emitted there stands for.
    ghost reads: { (fill : Seen) (at : ℕ) → Reads (takes fill at) (fills fill at) };
}

/// What takes the entries of a map, one after the other.
pub trait MapFill: Drop {
    /// What a clause sees of a fill.
    ghost Seen: { Type 0 };

    /// What a clause sees of this fill.
    ghost seen: { Self → Seen };

    /// What a fill becomes by the node of a value, where it takes it under this key.
    ghost takes: { Seen → List ℕ → Option Tree → Option Seen };

    /// What it becomes by reading a value under this key from a place in the events.
    ghost fills: { Seen → List ℕ → Source → Result (Seen × Source) Refused };

    /// Reads a value of the map, behind its key.
    fn entry(
        &mut self,
        alloc: Global,
        key: Text,
        de: &mut YamlDeserializer<'_>,
    ) -> Result<(), DeError>
        ensures { ReadTakes (λ _. (seen self.new, source_of de.new)) (source_of de.new) result
            (fills (seen self.old) key (source_of de.old)) };

    /// What is read from a place is what the node that is emitted there stands for.
    ghost reads: { (fill : Seen) (key : List ℕ) → Reads (takes fill key) (fills fill key) };
}
