//! The laws of the round trip and of equality. Each is a function that does nothing, and is proved of all types and
//! values.

ghost use Rattle.std.specs.Prelude.{◌≡◌, ◌≤◌, ◌↔◌, true};
ghost use Rattle.yaml_small.specs.Trees.{depth};
ghost use Rattle.yaml_small.specs.View.{view};
ghost use Rattle.yaml_text.specs.Written.{tree_of, written};
ghost use Rattle.yaml_read.specs.declared.wrapper.YamlNodeWrapper.{YamlNodeWrapper as Wrapper};
ghost use Rattle.yaml_read.specs.Whole.{Holds};
ghost use Rattle.yaml_read.specs.Wrapped.{wrapped};

use crate::round_trip::RoundTrip;
use std::hash::Hash;
use yaml_read::YamlNodeWrapper;
use yaml_text::laws::written_is_carried;

/// A value that comes back, with lists and maps at most 64 deep, stands in its text, and as nothing else: the text
/// that `to_string` gives for it is one that `from_str` reads as this value.
pub fn returning_values_come_back<T: RoundTrip>()
    ensures { (x : T)
        → T.Returns x
        → depth (tree_of (T.written x)) ≤ 64
        → Holds T.of_node (written 0 (T.written x)) (T.seen x) }
{
    written_is_carried();
}

/// Two wrappers of values of any kind are equal exactly where they hold the same value.
pub fn equal_values_are_the_same()
    ensures { (one other : Wrapper) → (⟦<YamlNodeWrapper as PartialEq>⟧.eq one other ≡ true)
        ↔ (view (wrapped one) ≡ view (wrapped other)) }
{}

/// Two wrappers that hold the same value are fed alike to a hasher.
pub fn the_same_values_hash_alike()
    ensures { (one other : Wrapper) → view (wrapped one) ≡ view (wrapped other)
        → ⟦<YamlNodeWrapper as Hash>⟧.hash_input one ≡ ⟦<YamlNodeWrapper as Hash>⟧.hash_input other }
{}
