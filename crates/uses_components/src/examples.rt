//! A caller of `yaml_example`.

ghost use Rattle.std.specs.Prelude.{◌≡◌, IfOk, string_bytes};
ghost use Rattle.yaml_text.specs.Written.{written};
ghost use Rattle.yaml_example.specs.Fields.{written_sample};

use serde_yaml2::{Errors, to_string};
use std::alloc::Global;
use yaml_example::Sample;

/// The text of a sample.
pub fn saved_sample(alloc: Global, sample: &Sample) -> Result<String, Errors>
    ensures { IfOk result (λ text. string_bytes text ≡ written 0 (written_sample sample.now.x sample.now.y)) }
{
    to_string(alloc, sample)
}
