//! Values of any kind, and values that are passed over.

ghost use Rattle.std.specs.Prelude.{[], map};
ghost use Rattle.yaml_small.specs.View.{view};
ghost use Rattle.yaml_read.specs.Any as any;
ghost use Rattle.yaml_read.specs.Collections as collections;
ghost use Rattle.yaml_read.specs.Entries.{seen_entry};
ghost use Rattle.yaml_read.specs.Answers.{source_of, ReadTakes};

use crate::bracket::Bracket;
use crate::deserializer::{YamlDeserializer, is_stream_end, wrong_event};
use crate::error::DeError;
use indexmap::IndexMap;
use std::alloc::Global;
use warg_values::Text;
use yaml_small::{Event, Resolved, Yaml, YamlList, YamlPairs, resolve};

/// How many levels a value has: the parser emits lists and maps of 64, and scalars within.
const MOST_LEVELS: usize = 65;

impl<'de> YamlDeserializer<'de> {
    /// A value of any kind. A scalar is what `resolve` says of its text, whatever its style; a repeated key of a map
    /// keeps its first place and takes its last value.
    ///
    /// A scalar in the form of a real number is `RealForm`; the end of an empty document is `UnexpectedEvent`.
    pub fn read_any(&mut self, alloc: Global) -> Result<Yaml, DeError>
        ensures { ReadTakes (λ read. (view read, source_of self.new)) (source_of self.new) result
            (any.data_at 65 (source_of self.old)) }
    {
        self.data_within(alloc, MOST_LEVELS)
    }

    /// A value, so many levels deep at most.
    #[cycle(data)]
    #[tactic(auto, using(crate::proofs::AnyLoops::data_none))]
    fn data_within(&mut self, alloc: Global, levels: usize) -> Result<Yaml, DeError>
        ensures { ReadTakes (λ read. (view read, source_of self.new)) (source_of self.new) result
            (any.data_at levels (source_of self.old)) }
    {
        if levels == 0 {
            return Err(DeError::Memory);
        }
        let (event, mark) = self.front(alloc)?;
        match event {
            Event::Scalar(_, _) => self.scalar_data(alloc),
            Event::SequenceStart => self.list_within(alloc, levels - 1),
            Event::MappingStart => self.map_within(alloc, levels - 1),
            event => Err(wrong_event(alloc, "a value", event, mark)),
        }
    }

    /// What a scalar's text stands for.
    fn scalar_data(&mut self, alloc: Global) -> Result<Yaml, DeError>
        ensures { ReadTakes (λ read. (view read, source_of self.new)) (source_of self.new) result
            (any.scalar_at (source_of self.old)) }
    {
        let (text, mark) = self.read_scalar(alloc)?;
        match resolve(text.as_str()) {
            Resolved::Integer(number) => Ok(Yaml::Integer(number)),
            Resolved::Boolean(truth) => Ok(Yaml::Boolean(truth)),
            Resolved::Null => Ok(Yaml::Null),
            Resolved::RealForm => Err(DeError::RealForm(mark)),
            Resolved::Text => Ok(Yaml::Text(text)),
        }
    }

    /// A list whose items have so many levels at most.
    #[cycle(data)]
    #[tactic(auto, unfolding(crate::specs::Collections::seq_at))]
    fn list_within(&mut self, alloc: Global, levels: usize) -> Result<Yaml, DeError>
        ensures { ReadTakes (λ read. (view read, source_of self.new)) (source_of self.new) result
            (any.nested_in (any.data_at levels) (source_of self.old)) }
    {
        self.bracket(alloc, Bracket::ListStart)?;
        let most = self.left();
        let items = self.items_within(alloc, most, levels)?;
        Ok(Yaml::Array(YamlList::new(items)))
    }

    /// The items of a list up to its end, at most so many.
    #[cycle(data)]
    #[tactic(auto, using(crate::proofs::AnyLoops::values_step, crate::proofs::Loops::items_over, crate::proofs::Loops::items_start))]
    fn items_within(
        &mut self,
        alloc: Global,
        most: u64,
        levels: usize,
    ) -> Result<Vec<Yaml>, DeError>
        ensures { ReadTakes (λ read. (map view read.items, source_of self.new)) (source_of self.new) result
            (collections.items_at (any.item_takes (any.data_at levels)) most 0 [] (source_of self.old)) }
    {
        let mut items = Vec::new(alloc);
        for _ in 0..most {
            if self.at_end(alloc, Bracket::ListEnd)? {
                return Ok(items);
            }
            let item = self.part_within(alloc, levels)?;
            items.push(item)?;
        }
        Err(DeError::Memory)
    }

    /// A value within a list or map.
    #[cycle(data)]
    #[tactic(auto, unfolding(crate::specs::Collections::item_at))]
    fn part_within(&mut self, alloc: Global, levels: usize) -> Result<Yaml, DeError>
        ensures { ReadTakes (λ read. (view read, source_of self.new)) (source_of self.new) result
            (collections.item_at (any.data_at levels) (source_of self.old)) }
    {
        let (event, mark) = self.front(alloc)?;
        if is_stream_end(&event) {
            return Err(wrong_event(alloc, "a value", event, mark));
        }
        let left = self.left();
        let read = self.data_within(alloc, levels)?;
        if self.left() < left {
            Ok(read)
        } else {
            Err(wrong_event(alloc, "a value that takes an event", event, mark))
        }
    }

    /// A map whose values have so many levels at most.
    #[cycle(data)]
    #[tactic(auto, unfolding(crate::specs::Collections::map_at))]
    fn map_within(&mut self, alloc: Global, levels: usize) -> Result<Yaml, DeError>
        ensures { ReadTakes (λ read. (view read, source_of self.new)) (source_of self.new) result
            (any.nested_under (any.data_at levels) (source_of self.old)) }
    {
        self.bracket(alloc, Bracket::MapStart)?;
        let most = self.left();
        let entries = self.entries_within(alloc, most, levels)?;
        Ok(Yaml::Hash(YamlPairs::new(alloc, entries)?))
    }

    /// The entries of a map up to its end, at most so many.
    #[cycle(data)]
    #[tactic(auto, using(crate::proofs::AnyLoops::members_step, crate::proofs::Loops::entries_over, crate::proofs::Loops::entries_start, crate::specs::EntryLaws::seen_insert))]
    fn entries_within(
        &mut self,
        alloc: Global,
        most: u64,
        levels: usize,
    ) -> Result<IndexMap<Text, Yaml>, DeError>
        ensures { ReadTakes (λ read. (map (seen_entry view) read.entries, source_of self.new))
            (source_of self.new) result
            (collections.entries_at (any.entry_takes (any.data_at levels)) most [] (source_of self.old)) }
    {
        let mut entries = IndexMap::<Text, Yaml>::new(alloc);
        for _ in 0..most {
            if self.at_end(alloc, Bracket::MapEnd)? {
                return Ok(entries);
            }
            let key = self.read_text(alloc)?;
            let value = self.part_within(alloc, levels)?;
            let _ = entries.insert(key, value)?;
        }
        Err(DeError::Memory)
    }

    /// One value of any kind, which is passed over.
    ///
    /// The end of an empty document is `UnexpectedEvent`.
    pub fn read_ignored(&mut self, alloc: Global) -> Result<(), DeError>
        ensures { ReadTakes (λ read. (read, source_of self.new)) (source_of self.new) result
            (any.ignored_at 65 (source_of self.old)) }
    {
        self.ignore_within(alloc, MOST_LEVELS)
    }

    /// Passes over a value, so many levels deep at most.
    #[cycle(ignored)]
    #[tactic(auto, using(crate::proofs::AnyLoops::ignored_none))]
    fn ignore_within(&mut self, alloc: Global, levels: usize) -> Result<(), DeError>
        ensures { ReadTakes (λ read. (read, source_of self.new)) (source_of self.new) result
            (any.ignored_at levels (source_of self.old)) }
    {
        if levels == 0 {
            return Err(DeError::Memory);
        }
        let (event, mark) = self.front(alloc)?;
        match event {
            Event::Scalar(_, _) => {
                let _ = self.read_text(alloc)?;
                Ok(())
            }
            Event::SequenceStart => self.ignore_list(alloc, levels - 1),
            Event::MappingStart => self.ignore_map(alloc, levels - 1),
            event => Err(wrong_event(alloc, "a value", event, mark)),
        }
    }

    /// Passes over a value within a list or map.
    #[cycle(ignored)]
    #[tactic(auto, unfolding(crate::specs::Collections::item_at))]
    fn ignore_part(&mut self, alloc: Global, levels: usize) -> Result<(), DeError>
        ensures { ReadTakes (λ read. (read, source_of self.new)) (source_of self.new) result
            (collections.item_at (any.ignored_at levels) (source_of self.old)) }
    {
        let (event, mark) = self.front(alloc)?;
        if is_stream_end(&event) {
            return Err(wrong_event(alloc, "a value", event, mark));
        }
        let left = self.left();
        self.ignore_within(alloc, levels)?;
        if self.left() < left {
            Ok(())
        } else {
            Err(wrong_event(alloc, "a value that takes an event", event, mark))
        }
    }

    /// Passes over a list whose items have so many levels at most.
    #[cycle(ignored)]
    #[tactic(auto, unfolding(crate::specs::Collections::seq_at))]
    fn ignore_list(&mut self, alloc: Global, levels: usize) -> Result<(), DeError>
        ensures { ReadTakes (λ read. (read, source_of self.new)) (source_of self.new) result
            (collections.seq_at (any.item_passed (any.ignored_at levels)) tt (source_of self.old)) }
    {
        self.bracket(alloc, Bracket::ListStart)?;
        let most = self.left();
        self.ignore_items(alloc, most, levels)
    }

    /// Passes over the items of a list up to its end, at most so many.
    #[cycle(ignored)]
    #[tactic(auto, using(crate::proofs::AnyLoops::passed_step, crate::proofs::Loops::items_over, crate::proofs::Loops::items_start))]
    fn ignore_items(&mut self, alloc: Global, most: u64, levels: usize) -> Result<(), DeError>
        ensures { ReadTakes (λ read. (read, source_of self.new)) (source_of self.new) result
            (collections.items_at (any.item_passed (any.ignored_at levels)) most 0 tt (source_of self.old)) }
    {
        for _ in 0..most {
            if self.at_end(alloc, Bracket::ListEnd)? {
                return Ok(());
            }
            self.ignore_part(alloc, levels)?;
        }
        Err(DeError::Memory)
    }

    /// Passes over a map whose values have so many levels at most.
    #[cycle(ignored)]
    #[tactic(auto, unfolding(crate::specs::Collections::map_at))]
    fn ignore_map(&mut self, alloc: Global, levels: usize) -> Result<(), DeError>
        ensures { ReadTakes (λ read. (read, source_of self.new)) (source_of self.new) result
            (collections.map_at (any.value_passed (any.ignored_at levels)) tt (source_of self.old)) }
    {
        self.bracket(alloc, Bracket::MapStart)?;
        let most = self.left();
        self.ignore_entries(alloc, most, levels)
    }

    /// Passes over the entries of a map up to its end, at most so many.
    #[cycle(ignored)]
    #[tactic(auto, using(crate::proofs::AnyLoops::passed_entry_step, crate::proofs::Loops::entries_over, crate::proofs::Loops::entries_start))]
    fn ignore_entries(&mut self, alloc: Global, most: u64, levels: usize) -> Result<(), DeError>
        ensures { ReadTakes (λ read. (read, source_of self.new)) (source_of self.new) result
            (collections.entries_at (any.value_passed (any.ignored_at levels)) most tt (source_of self.old)) }
    {
        for _ in 0..most {
            if self.at_end(alloc, Bracket::MapEnd)? {
                return Ok(());
            }
            let _ = self.read_text(alloc)?;
            self.ignore_part(alloc, levels)?;
        }
        Err(DeError::Memory)
    }
}
