//! A struct, which is a map of its fields.

ghost use Rattle.yaml_read.specs.Answers.{ReadGives};
ghost use Rattle.yaml_example.specs.Fields as fields;
ghost use Rattle.yaml_example.specs.FieldLaws as laws;

use serde_yaml2::{
    DeError, Errors, MapFill, ReadYaml, RoundTrip, WriteYaml, YamlDeserializer, YamlSerializer,
};
use std::alloc::Global;
use warg_values::Text;

/// A number and a text.
#[derive(Debug, Drop, PartialEq, Eq)]
pub struct Sample {
    /// The number.
    pub x: i64,
    /// The text.
    pub y: Text,
}

/// The fields so far.
#[derive(Drop)]
struct SampleFill {
    x: Option<i64>,
    y: Option<Text>,
}

impl MapFill for SampleFill {
    ghost use Rattle.yaml_example.specs.Fields.{Parts};

    ghost Seen = { Parts };

    ghost seen = { λ fill. record { x = fill.x; y = fill.y } };

    ghost takes = { fields.takes };

    ghost fills = { fields.fills };

    fn entry(
        &mut self,
        alloc: Global,
        key: Text,
        de: &mut YamlDeserializer<'_>,
    ) -> Result<(), DeError> {
        match key.as_str() {
            "x" => {
                self.x = Some(de.read_i64(alloc)?);
                Ok(())
            }
            "y" => {
                self.y = Some(de.read_text(alloc)?);
                Ok(())
            }
            _ => Err(DeError::UnknownField(key)),
        }
    }

    ghost reads = { laws.fields_read };
}

/// The sample of its fields, of which none may be missing.
fn sample_of(alloc: Global, x: Option<i64>, y: Option<Text>) -> Result<Sample, DeError>
    ensures { ReadGives (λ s. fields.seen_sample s.x s.y) result (fields.sample_of (record { x = x; y = y })) }
{
    let Some(x) = x else {
        return Err(DeError::MissingField(Text::copy_of(alloc, "x")?));
    };
    let Some(y) = y else {
        return Err(DeError::MissingField(Text::copy_of(alloc, "y")?));
    };
    Ok(Sample { x, y })
}

impl ReadYaml for Sample {
    ghost use Rattle.yaml_example.specs.Fields.{Seen};

    ghost Seen = { Seen };

    ghost seen = { λ s. fields.seen_sample s.x s.y };

    ghost of_node = { fields.sample_node };

    ghost read_at = { fields.sample_at };

    fn read_yaml(alloc: Global, de: &mut YamlDeserializer<'_>) -> Result<Self, DeError> {
        let mut fill = SampleFill { x: None, y: None };
        de.read_map(alloc, &mut fill)?;
        let SampleFill { x, y } = fill;
        sample_of(alloc, x, y)
    }

    ghost reads = { laws.sample_reads };
}

/// The fields of a sample, lent.
#[derive(Drop)]
pub struct SampleFields<'a> {
    /// The number.
    pub x: i64,
    /// The text.
    pub y: &'a Text,
}

impl WriteYaml for SampleFields<'_> {
    ghost written = { λ f. fields.written_sample f.x f.y.now };

    fn write_yaml(&self, ser: &mut YamlSerializer) -> Result<(), Errors> {
        let mut map = ser.map(2)?;
        map.key("x")?;
        map.value(&self.x)?;
        map.key("y")?;
        map.value(self.y)?;
        map.end()
    }
}

impl WriteYaml for Sample {
    ghost written = { λ s. fields.written_sample s.x s.y };

    fn write_yaml(&self, ser: &mut YamlSerializer) -> Result<(), Errors> {
        let fields = SampleFields {
            x: self.x,
            y: &self.y,
        };
        fields.write_yaml(ser)
    }
}

/// A sample comes back.
impl RoundTrip for Sample {
    ghost Returns = { λ s. fields.SampleReturns s.x s.y };

    ghost reads_back = { λ s h. laws.sample_reads_back s.x s.y h };

    ghost written_alike = { λ s r e. laws.sample_alike s.x s.y r.x r.y e };

    ghost comes_back = { λ s h. laws.sample_comes_back s.x s.y h };
}
