//! The starts and ends of lists and maps.

ghost use Rattle.std.specs.Prelude.{◌≡◌};
ghost use Rattle.yaml_read.specs.Collections as spec;

use yaml_small::Event;

/// The start or the end of a list or map.
#[derive(Clone, Copy, Debug)]
pub enum Bracket {
    ListStart,
    ListEnd,
    MapStart,
    MapEnd,
}

impl Bracket {
    /// Whether an event is this one.
    pub fn is(self, event: &Event) -> bool
        ensures { result ≡ spec.is_bracket self event.now }
    {
        match (self, event) {
            (Bracket::ListStart, Event::SequenceStart) => true,
            (Bracket::ListEnd, Event::SequenceEnd) => true,
            (Bracket::MapStart, Event::MappingStart) => true,
            (Bracket::MapEnd, Event::MappingEnd) => true,
            _ => false,
        }
    }

    /// What a reader calls it.
    pub fn name(self) -> &'static str {
        match self {
            Bracket::ListStart => "a list",
            Bracket::ListEnd => "the end of the list",
            Bracket::MapStart => "a map",
            Bracket::MapEnd => "the end of the map",
        }
    }
}
