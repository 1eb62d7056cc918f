//! Callers of `serde_yaml2`.

ghost use Rattle.std.specs.Prelude.{◌≡◌, ◌↔◌, IfOk, IsTrue, string_bytes};
ghost use Rattle.yaml_small.specs.View.{view};
ghost use Rattle.yaml_read.specs.Whole.{Holds};
ghost use Rattle.yaml_read.specs.Wrapped.{wrapped};

use serde_yaml2::laws::{equal_values_are_the_same, returning_values_come_back};
use serde_yaml2::{Errors, RoundTrip, YamlNodeWrapper, to_string};
use std::alloc::Global;

/// The text of a value that comes back: `from_str` reads this value there, and no other.
pub fn saved<T: RoundTrip>(alloc: Global, value: &T) -> Result<String, Errors>
    requires { T.Returns value.now }
    ensures { IfOk result (λ text. Holds T.of_node (string_bytes text) (T.seen value.now)) }
{
    returning_values_come_back::<T>();
    to_string(alloc, value)
}

/// Whether two wrappers hold the same value.
pub fn hold_the_same(one: &YamlNodeWrapper, other: &YamlNodeWrapper) -> bool
    ensures { IsTrue result ↔ (view (wrapped one.now) ≡ view (wrapped other.now)) }
{
    equal_values_are_the_same();
    *one == *other
}
