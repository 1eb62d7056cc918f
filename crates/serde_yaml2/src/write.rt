//! Types that are written as YAML.

ghost use Rattle.yaml_text.specs.Written.{Written};
ghost use Rattle.serde_yaml2.specs.Output.{output_of, Writes};

use crate::error::Errors;
use crate::serializer::YamlSerializer;

/// A type whose values are written as YAML.
pub trait WriteYaml {
    /// What is written for a value.
    ghost written: { Self → Written };

    /// Writes a value: its text behind what was written before, at the serializer's level.
    ///
    /// `FormArgsError` exactly where lists and maps come to be nested more than 64 deep. After a refusal a front of
    /// the text stands there.
    fn write_yaml(&self, ser: &mut YamlSerializer) -> Result<(), Errors>
        ensures { Writes result (output_of ser.old) (written self.now) (output_of ser.new) };
}
