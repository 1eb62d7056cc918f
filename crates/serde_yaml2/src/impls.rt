//! Types of std that are written.

ghost use Rattle.std.specs.Prelude.{pos, string_bytes};
ghost use Rattle.yaml_text.specs.Written as spec;
ghost use Rattle.serde_yaml2.specs.Values.{character_of, optional, pair_of, triple_of};

use crate::error::Errors;
use crate::serializer::YamlSerializer;
use crate::write::WriteYaml;
use warg_values::Text;

/// A value that is lent is written as it is.
impl<T: WriteYaml> WriteYaml for &T {
    ghost written = { λ r. T.written r.now };

    fn write_yaml(&self, ser: &mut YamlSerializer) -> Result<(), Errors> {
        let value: &T = *self;
        value.write_yaml(ser)
    }
}

impl WriteYaml for bool {
    ghost written = { λ b. spec.boolean b };

    fn write_yaml(&self, ser: &mut YamlSerializer) -> Result<(), Errors> {
        ser.write_bool(*self)
    }
}

impl WriteYaml for char {
    ghost written = { λ c. character_of c };

    fn write_yaml(&self, ser: &mut YamlSerializer) -> Result<(), Errors> {
        ser.write_char(*self)
    }
}

impl WriteYaml for u8 {
    ghost written = { λ n. spec.number (pos n) };

    fn write_yaml(&self, ser: &mut YamlSerializer) -> Result<(), Errors> {
        ser.write_u64(u64::from(*self))
    }
}

impl WriteYaml for u16 {
    ghost written = { λ n. spec.number (pos n) };

    fn write_yaml(&self, ser: &mut YamlSerializer) -> Result<(), Errors> {
        ser.write_u64(u64::from(*self))
    }
}

impl WriteYaml for u32 {
    ghost written = { λ n. spec.number (pos n) };

    fn write_yaml(&self, ser: &mut YamlSerializer) -> Result<(), Errors> {
        ser.write_u64(u64::from(*self))
    }
}

impl WriteYaml for u64 {
    ghost written = { λ n. spec.number (pos n) };

    fn write_yaml(&self, ser: &mut YamlSerializer) -> Result<(), Errors> {
        ser.write_u64(*self)
    }
}

impl WriteYaml for i8 {
    ghost written = { λ n. spec.number n };

    fn write_yaml(&self, ser: &mut YamlSerializer) -> Result<(), Errors> {
        ser.write_i64(i64::from(*self))
    }
}

impl WriteYaml for i16 {
    ghost written = { λ n. spec.number n };

    fn write_yaml(&self, ser: &mut YamlSerializer) -> Result<(), Errors> {
        ser.write_i64(i64::from(*self))
    }
}

impl WriteYaml for i32 {
    ghost written = { λ n. spec.number n };

    fn write_yaml(&self, ser: &mut YamlSerializer) -> Result<(), Errors> {
        ser.write_i64(i64::from(*self))
    }
}

impl WriteYaml for i64 {
    ghost written = { λ n. spec.number n };

    fn write_yaml(&self, ser: &mut YamlSerializer) -> Result<(), Errors> {
        ser.write_i64(*self)
    }
}

impl WriteYaml for Text {
    ghost written = { λ t. spec.text t };

    fn write_yaml(&self, ser: &mut YamlSerializer) -> Result<(), Errors> {
        ser.write_text(self.as_str())
    }
}

impl WriteYaml for String {
    ghost written = { λ t. spec.text (string_bytes t) };

    fn write_yaml(&self, ser: &mut YamlSerializer) -> Result<(), Errors> {
        ser.write_text(self.as_str())
    }
}

impl WriteYaml for () {
    ghost written = { λ _. spec.null };

    fn write_yaml(&self, ser: &mut YamlSerializer) -> Result<(), Errors> {
        ser.write_none()
    }
}

impl<T: WriteYaml> WriteYaml for Option<T> {
    ghost written = { λ o. optional T.written o };

    fn write_yaml(&self, ser: &mut YamlSerializer) -> Result<(), Errors> {
        match self {
            Some(value) => value.write_yaml(ser),
            None => ser.write_none(),
        }
    }
}

impl<A: WriteYaml, B: WriteYaml> WriteYaml for (A, B) {
    ghost written = { λ p. pair_of (A.written p.0) (B.written p.1) };

    fn write_yaml(&self, ser: &mut YamlSerializer) -> Result<(), Errors> {
        let mut list = ser.seq(2)?;
        list.element(&self.0)?;
        list.element(&self.1)?;
        list.end()
    }
}

impl<A: WriteYaml, B: WriteYaml, C: WriteYaml> WriteYaml for (A, B, C) {
    ghost written = { λ p. triple_of (A.written p.0) (B.written p.1) (C.written p.2) };

    fn write_yaml(&self, ser: &mut YamlSerializer) -> Result<(), Errors> {
        let mut list = ser.seq(3)?;
        list.element(&self.0)?;
        list.element(&self.1)?;
        list.element(&self.2)?;
        list.end()
    }
}
