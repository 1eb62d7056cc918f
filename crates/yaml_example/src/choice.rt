//! An enum with each kind of variant, which is a map of one entry.

ghost use Rattle.yaml_example.specs.Choices as choices;
ghost use Rattle.yaml_example.specs.ChoiceLaws as laws;

use crate::sample::{Sample, SampleFields};
use serde_yaml2::{
    DeError, Errors, MapFill, ReadYaml, RoundTrip, WriteYaml, YamlDeserializer, YamlSerializer,
};
use std::alloc::Global;
use warg_values::Text;

/// Nothing, a number, or a number and a text, as a tuple or by their names.
#[derive(Debug, Drop, PartialEq, Eq)]
pub enum Choice {
    /// Nothing.
    Nothing,
    /// A number.
    Number(u64),
    /// A number and a text.
    VariantC(i64, Text),
    /// A number and a text, by their names.
    Both {
        /// The number.
        x: i64,
        /// The text.
        y: Text,
    },
}

/// The variant that was read.
#[derive(Drop)]
struct ChoiceFill {
    choice: Choice,
}

impl MapFill for ChoiceFill {
    ghost use Rattle.yaml_example.specs.Choices.{Kind};
    ghost use Rattle.yaml_example.specs.Kinds.{kind_of};

    ghost Seen = { Kind };

    ghost seen = { λ fill. kind_of fill.choice };

    ghost takes = { choices.takes };

    ghost fills = { choices.fills };

    fn entry(
        &mut self,
        alloc: Global,
        key: Text,
        de: &mut YamlDeserializer<'_>,
    ) -> Result<(), DeError> {
        match key.as_str() {
            "Nothing" => {
                de.read_unit(alloc)?;
                self.choice = Choice::Nothing;
                Ok(())
            }
            "Number" => {
                self.choice = Choice::Number(de.read_u64(alloc)?);
                Ok(())
            }
            "VariantC" => {
                let (x, y) = <(i64, Text)>::read_yaml(alloc, de)?;
                self.choice = Choice::VariantC(x, y);
                Ok(())
            }
            "Both" => {
                let Sample { x, y } = Sample::read_yaml(alloc, de)?;
                self.choice = Choice::Both { x, y };
                Ok(())
            }
            _ => Err(DeError::UnknownField(key)),
        }
    }

    ghost reads = { laws.kinds_read };
}

impl ReadYaml for Choice {
    ghost use Rattle.yaml_example.specs.Choices.{Kind};
    ghost use Rattle.yaml_example.specs.Kinds.{kind_of};

    ghost Seen = { Kind };

    ghost seen = { kind_of };

    ghost of_node = { choices.choice_node };

    ghost read_at = { choices.choice_at };

    fn read_yaml(alloc: Global, de: &mut YamlDeserializer<'_>) -> Result<Self, DeError> {
        let mut fill = ChoiceFill {
            choice: Choice::Nothing,
        };
        de.read_enum(alloc, &mut fill)?;
        let ChoiceFill { choice } = fill;
        Ok(choice)
    }

    ghost reads = { laws.choice_reads };
}

impl WriteYaml for Choice {
    ghost use Rattle.yaml_example.specs.Kinds.{kind_of};

    ghost written = { λ c. choices.written_choice (kind_of c) };

    fn write_yaml(&self, ser: &mut YamlSerializer) -> Result<(), Errors> {
        match self {
            Choice::Nothing => ser.write_unit_variant("Nothing"),
            Choice::Number(number) => ser.write_newtype_variant("Number", number),
            Choice::VariantC(x, y) => ser.write_newtype_variant("VariantC", &(*x, y)),
            Choice::Both { x, y } => ser.write_newtype_variant("Both", &SampleFields { x: *x, y }),
        }
    }
}

/// A choice comes back.
impl RoundTrip for Choice {
    ghost use Rattle.yaml_example.specs.Kinds.{kind_of};

    ghost Returns = { λ c. choices.ChoiceReturns (kind_of c) };

    ghost reads_back = { λ c h. laws.choice_reads_back (kind_of c) h };

    ghost written_alike = { λ c d e. laws.choice_alike (kind_of c) (kind_of d) e };

    ghost comes_back = { λ c h. laws.choice_comes_back (kind_of c) h };
}
