//! Values read from whole texts.

ghost use Rattle.std.specs.Prelude.{IfOk, Ok};
ghost use Rattle.yaml_read.specs.Whole as whole;
ghost use Rattle.yaml_read.specs.Answers.{ReadGives};

use crate::deserializer::YamlDeserializer;
use crate::error::DeError;
use crate::read::ReadYaml;
use std::alloc::Global;

/// Reads the one value that a text holds: one document and nothing behind it.
#[tactic(auto, unfolding(crate::specs::Whole::whole_from))]
pub fn from_str<T: ReadYaml>(alloc: Global, text: &str) -> Result<T, DeError>
    // What is read stands in a carried document.
    ensures found { IfOk result (λ value. whole.Holds T.of_node text.now (T.seen value)) }
    // What stands in a carried document is read, unless memory runs out.
    ensures only { (x : T.Seen) → whole.Holds T.of_node text.now x → ReadGives T.seen result (Ok x) }
    // Which error it is.
    ensures exact { ReadGives T.seen result (whole.whole_at T.read_at text.now) }
{
    let read = read_whole(alloc, text);
    read
}

/// Reads the one value that a text holds, step by step.
#[tactic(auto, unfolding(crate::specs::Whole::whole_from))]
fn read_whole<T: ReadYaml>(alloc: Global, text: &str) -> Result<T, DeError>
    ensures { ReadGives T.seen result (whole.whole_at T.read_at text.now) }
{
    let mut de = YamlDeserializer::from_str(alloc, text)?;
    let value = T::read_yaml(alloc, &mut de)?;
    de.finish(alloc)?;
    Ok(value)
}
