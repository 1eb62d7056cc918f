//! Reads of lists, maps and what may be missing.

ghost use Rattle.std.specs.Prelude.{◌≡◌, option_map};
ghost use Rattle.yaml_read.specs.Collections as spec;
ghost use Rattle.yaml_read.specs.Answers.{source_of, ReadTakes};

use crate::bracket::Bracket;
use crate::deserializer::{YamlDeserializer, is_null, is_stream_end, wrong_event};
use crate::error::DeError;
use crate::read::{MapFill, ReadYaml, SeqFill};
use std::alloc::Global;
use warg_values::Text;
use yaml_small::Event;

impl<'de> YamlDeserializer<'de> {
    /// Takes the start or the end of a list or map.
    #[tactic(auto, unfolding(crate::specs::Collections::bracket_at, crate::specs::Source::taken))]
    pub(crate) fn bracket(&mut self, alloc: Global, bracket: Bracket) -> Result<(), DeError>
        ensures { ReadTakes (λ read. (read, source_of self.new)) (source_of self.new) result
            (spec.bracket_at bracket (source_of self.old)) }
    {
        let (event, mark) = self.pull(alloc)?;
        if bracket.is(&event) {
            Ok(())
        } else {
            Err(wrong_event(alloc, bracket.name(), event, mark))
        }
    }

    /// Takes the end of a list or map where it stands here, and says whether it does.
    #[tactic(auto, unfolding(crate::specs::Collections::end_at))]
    pub(crate) fn at_end(&mut self, alloc: Global, bracket: Bracket) -> Result<bool, DeError>
        ensures { ReadTakes (λ read. (read, source_of self.new)) (source_of self.new) result
            (spec.end_at bracket (source_of self.old)) }
    {
        let (event, _) = self.front(alloc)?;
        if bracket.is(&event) {
            let _ = self.pull(alloc)?;
            Ok(true)
        } else {
            Ok(false)
        }
    }

    /// An item of a list, put to a fill.
    #[tactic(auto, unfolding(crate::specs::Collections::item_at))]
    fn item<F: SeqFill>(&mut self, alloc: Global, at: u64, fill: &mut F) -> Result<(), DeError>
        ensures { ReadTakes (λ _. (F.seen fill.new, source_of self.new)) (source_of self.new) result
            (spec.item_at (F.fills (F.seen fill.old) at) (source_of self.old)) }
    {
        let (event, mark) = self.front(alloc)?;
        if is_stream_end(&event) {
            return Err(wrong_event(alloc, "an item", event, mark));
        }
        let left = self.left();
        fill.item(alloc, at, self)?;
        if self.left() < left {
            Ok(())
        } else {
            Err(wrong_event(alloc, "an item that takes an event", event, mark))
        }
    }

    /// A value of a map, put to a fill under its key.
    #[tactic(auto, unfolding(crate::specs::Collections::item_at))]
    fn value<F: MapFill>(&mut self, alloc: Global, key: Text, fill: &mut F) -> Result<(), DeError>
        ensures { ReadTakes (λ _. (F.seen fill.new, source_of self.new)) (source_of self.new) result
            (spec.item_at (F.fills (F.seen fill.old) key) (source_of self.old)) }
    {
        let (event, mark) = self.front(alloc)?;
        if is_stream_end(&event) {
            return Err(wrong_event(alloc, "a value", event, mark));
        }
        let left = self.left();
        fill.entry(alloc, key, self)?;
        if self.left() < left {
            Ok(())
        } else {
            Err(wrong_event(alloc, "a value that takes an event", event, mark))
        }
    }

    /// A value within a list.
    #[tactic(auto, unfolding(crate::specs::Collections::item_at))]
    fn part<T: ReadYaml>(&mut self, alloc: Global) -> Result<T, DeError>
        ensures { ReadTakes (λ read. (T.seen read, source_of self.new)) (source_of self.new) result
            (spec.item_at T.read_at (source_of self.old)) }
    {
        let (event, mark) = self.front(alloc)?;
        if is_stream_end(&event) {
            return Err(wrong_event(alloc, "an item", event, mark));
        }
        let left = self.left();
        let read = T::read_yaml(alloc, self)?;
        if self.left() < left {
            Ok(read)
        } else {
            Err(wrong_event(alloc, "an item that takes an event", event, mark))
        }
    }

    /// A key of a map and its value, put to a fill.
    #[tactic(auto, unfolding(crate::specs::Collections::entry_at))]
    fn entry<F: MapFill>(&mut self, alloc: Global, fill: &mut F) -> Result<(), DeError>
        ensures { ReadTakes (λ _. (F.seen fill.new, source_of self.new)) (source_of self.new) result
            (spec.entry_at F.fills (F.seen fill.old) (source_of self.old)) }
    {
        let key = self.read_text(alloc)?;
        self.value(alloc, key, fill)
    }

    /// A list: puts its items to a fill, one after the other.
    ///
    /// What is no list is `UnexpectedEvent`, and so is an item that takes no event. What the fill refuses is
    /// handed on.
    #[tactic(auto, unfolding(crate::specs::Collections::seq_at))]
    pub fn read_seq<F: SeqFill>(&mut self, alloc: Global, fill: &mut F) -> Result<(), DeError>
        ensures { ReadTakes (λ _. (F.seen fill.new, source_of self.new)) (source_of self.new) result
            (spec.seq_at F.fills (F.seen fill.old) (source_of self.old)) }
    {
        self.bracket(alloc, Bracket::ListStart)?;
        let most = self.left();
        self.items(alloc, most, fill)
    }

    /// The items of a list up to its end, at most so many.
    #[tactic(auto, using(crate::proofs::Loops::items_step, crate::proofs::Loops::items_over, crate::proofs::Loops::items_start))]
    fn items<F: SeqFill>(&mut self, alloc: Global, most: u64, fill: &mut F) -> Result<(), DeError>
        ensures { ReadTakes (λ _. (F.seen fill.new, source_of self.new)) (source_of self.new) result
            (spec.items_at F.fills most 0 (F.seen fill.old) (source_of self.old)) }
    {
        for at in 0..most {
            if self.at_end(alloc, Bracket::ListEnd)? {
                return Ok(());
            }
            self.item(alloc, at, fill)?;
        }
        Err(DeError::Memory)
    }

    /// A map: puts its entries to a fill, one after the other.
    ///
    /// What is no map is `UnexpectedEvent`, and so is a value that takes no event. What the fill refuses is handed
    /// on.
    #[tactic(auto, unfolding(crate::specs::Collections::map_at))]
    pub fn read_map<F: MapFill>(&mut self, alloc: Global, fill: &mut F) -> Result<(), DeError>
        ensures { ReadTakes (λ _. (F.seen fill.new, source_of self.new)) (source_of self.new) result
            (spec.map_at F.fills (F.seen fill.old) (source_of self.old)) }
    {
        self.bracket(alloc, Bracket::MapStart)?;
        let most = self.left();
        self.entries(alloc, most, fill)
    }

    /// The entries of a map up to its end, at most so many.
    #[tactic(auto, using(crate::proofs::Loops::entries_step, crate::proofs::Loops::entries_over, crate::proofs::Loops::entries_start))]
    fn entries<F: MapFill>(&mut self, alloc: Global, most: u64, fill: &mut F) -> Result<(), DeError>
        ensures { ReadTakes (λ _. (F.seen fill.new, source_of self.new)) (source_of self.new) result
            (spec.entries_at F.fills most (F.seen fill.old) (source_of self.old)) }
    {
        for _ in 0..most {
            if self.at_end(alloc, Bracket::MapEnd)? {
                return Ok(());
            }
            self.entry(alloc, fill)?;
        }
        Err(DeError::Memory)
    }

    /// A variant of an enum: a map of one entry, whose key is the variant's name, put to a fill.
    ///
    /// What is no map of exactly one entry is `UnexpectedEvent`. What the fill refuses is handed on.
    #[tactic(auto, unfolding(crate::specs::Collections::enum_at))]
    pub fn read_enum<F: MapFill>(&mut self, alloc: Global, fill: &mut F) -> Result<(), DeError>
        ensures { ReadTakes (λ _. (F.seen fill.new, source_of self.new)) (source_of self.new) result
            (spec.enum_at F.fills (F.seen fill.old) (source_of self.old)) }
    {
        self.bracket(alloc, Bracket::MapStart)?;
        self.entry(alloc, fill)?;
        self.bracket(alloc, Bracket::MapEnd)
    }

    /// A value that may be missing: `null` or `~` of any style is `None`.
    #[tactic(auto, unfolding(crate::specs::Collections::option_at))]
    pub fn read_option<T: ReadYaml>(&mut self, alloc: Global) -> Result<Option<T>, DeError>
        ensures { ReadTakes (λ read. (option_map T.seen read, source_of self.new)) (source_of self.new) result
            (spec.option_at T.read_at (source_of self.old)) }
    {
        let (event, _) = self.front(alloc)?;
        if is_nothing(&event) {
            let _ = self.pull(alloc)?;
            return Ok(None);
        }
        let read = T::read_yaml(alloc, self)?;
        Ok(Some(read))
    }

    /// Whether a scalar stands next. It stays.
    #[tactic(auto, unfolding(crate::specs::Collections::scalar_front))]
    pub fn at_scalar(&self, alloc: Global) -> Result<bool, DeError>
        ensures { ReadTakes (λ read. read) (source_of self.now) result (spec.scalar_front (source_of self.now)) }
    {
        let (event, _) = self.front(alloc)?;
        match event {
            Event::Scalar(_, _) => Ok(true),
            _ => Ok(false),
        }
    }

    /// A list of two.
    #[tactic(auto, unfolding(crate::specs::Collections::pair_at))]
    pub(crate) fn read_pair<A: ReadYaml, B: ReadYaml>(
        &mut self,
        alloc: Global,
    ) -> Result<(A, B), DeError>
        ensures { ReadTakes (λ read. ((A.seen read.0, B.seen read.1), source_of self.new)) (source_of self.new) result
            (spec.pair_at A.read_at B.read_at (source_of self.old)) }
    {
        self.bracket(alloc, Bracket::ListStart)?;
        let first = self.part::<A>(alloc)?;
        let second = self.part::<B>(alloc)?;
        self.bracket(alloc, Bracket::ListEnd)?;
        Ok((first, second))
    }

    /// A list of three.
    #[tactic(auto, unfolding(crate::specs::Collections::triple_at))]
    pub(crate) fn read_triple<A: ReadYaml, B: ReadYaml, C: ReadYaml>(
        &mut self,
        alloc: Global,
    ) -> Result<(A, B, C), DeError>
        ensures { ReadTakes (λ read. ((A.seen read.0, B.seen read.1, C.seen read.2), source_of self.new))
            (source_of self.new) result
            (spec.triple_at A.read_at B.read_at C.read_at (source_of self.old)) }
    {
        self.bracket(alloc, Bracket::ListStart)?;
        let first = self.part::<A>(alloc)?;
        let second = self.part::<B>(alloc)?;
        let third = self.part::<C>(alloc)?;
        self.bracket(alloc, Bracket::ListEnd)?;
        Ok((first, second, third))
    }
}

/// Whether an event is the scalar `null` or `~`, of any style.
fn is_nothing(event: &Event) -> bool
    ensures { result ≡ spec.is_nothing event.now }
{
    match event {
        Event::Scalar(text, _) => is_null(text.as_str()),
        _ => false,
    }
}
