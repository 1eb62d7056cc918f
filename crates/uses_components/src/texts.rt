//! A caller of `yaml_text`.

ghost use Rattle.std.specs.Prelude.{◌≡◌, ◌++◌, codes, string_bytes, OnOk};
ghost use Rattle.yaml_text.specs.Texts.{quoted};

use warg_values::Memory;
use yaml_text::push_key;

/// Writes a key and its colon behind the output.
pub fn push_field(out: &mut String, key: &str) -> Result<(), Memory>
    ensures { OnOk result (string_bytes out.new ≡ (string_bytes out.old ++ quoted key.now) ++ codes ": ") }
{
    push_key(out, key)?;
    out.push_str(": ")?;
    Ok(())
}
