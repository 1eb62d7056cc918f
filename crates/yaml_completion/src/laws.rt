//! The law of what is emitted so far: a function that does nothing, and is proved of all texts.

ghost use Rattle.std.specs.Prelude.{◌≡◌, ℕ, List};
ghost use Rattle.yaml_small.specs.declared.event.Event.{Event};
ghost use Rattle.yaml_small.specs.Stream.{State, start, Runs};
ghost use Rattle.yaml_completion.specs.Completion.{Completed};

/// Whatever the next step is, what was emitted so far can be completed: some carried document begins with the text in
/// front of the place, and emits the same events first.
pub fn each_event_can_be_completed()
    ensures { (text : List ℕ) (events : List Event) (s : State) → Runs (start text) events s → Completed text events s.at }
{}
