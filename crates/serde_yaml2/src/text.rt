//! Whole texts of values.

ghost use Rattle.std.specs.Prelude.{◌≡◌, ◌≤◌, IfOk, IfErr, OnOk, string_bytes};
ghost use Rattle.yaml_small.specs.Trees.{depth};
ghost use Rattle.yaml_text.specs.Written.{tree_of, written};
ghost use Rattle.serde_yaml2.specs.Output.{Explains};

use crate::error::Errors;
use crate::serializer::YamlSerializer;
use crate::write::WriteYaml;
use std::alloc::Global;

/// The text of a value.
pub fn to_string<T: WriteYaml>(alloc: Global, value: &T) -> Result<String, Errors>
    // The text is that of the definition.
    ensures text { IfOk result (λ text. string_bytes text ≡ written 0 (T.written value.now)) }
    // `FormArgsError` comes exactly where lists and maps are nested more than 64 deep.
    ensures fits { OnOk result (depth (tree_of (T.written value.now)) ≤ 64) }
    ensures refused { IfErr result (λ e. Explains e (depth (tree_of (T.written value.now)))) }
{
    let mut ser = YamlSerializer::new(String::new(alloc));
    value.write_yaml(&mut ser)?;
    Ok(ser.into_string())
}
