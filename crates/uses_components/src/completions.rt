//! A caller of `yaml_completion`.

ghost use Rattle.std.specs.Prelude.{◌≡◌, ◌++◌, ℕ, List, Option};
ghost use Rattle.yaml_small.specs.declared.event.Event.{Event};
ghost use Rattle.yaml_small.specs.Trees.{Tree, stream_emitted, ends_again};
ghost use Rattle.yaml_small.specs.Stream.{State, start, Runs};

use yaml_completion::laws::each_event_can_be_completed;

/// What was emitted so far are the first events of some document.
pub fn emitted_events_begin_a_document()
    ensures { (text : List ℕ) (events : List Event) (s : State) → Runs (start text) events s
        → (tree : Option Tree) × (count : ℕ) × (more : List Event)
        × (stream_emitted tree (ends_again count) ≡ events ++ more) }
{
    each_event_can_be_completed();
}
