//! Serializers of lists and maps.

ghost use Rattle.std.specs.Prelude.{◌≡◌, ◌+◌, IsOk};
ghost use Rattle.yaml_small.specs.Trees.{depth};
ghost use Rattle.yaml_text.specs.Written.{tree_of};
ghost use Rattle.serde_yaml2.specs.Output.{list_output, list_name, map_output, map_name, item_text, key_text, nested, Puts, Pushes};

use crate::error::Errors;
use crate::serializer::YamlSerializer;
use crate::write::WriteYaml;

/// Writes the items of a list.
#[derive(Drop)]
pub struct SequenceSerializer<'a> {
    pub(crate) ser: &'a mut YamlSerializer,
}

impl<'a> SequenceSerializer<'a> {
    /// An item.
    ///
    /// `FormArgsError` exactly where lists and maps come to be nested more than 64 deep.
    pub fn element<T: WriteYaml>(&mut self, value: &T) -> Result<(), Errors>
        ensures puts { Puts result (list_output self.old) (item_text (list_output self.old).level (T.written value.now))
            (depth (tree_of (T.written value.now)) + 1) (list_output self.new) }
        ensures same { list_name self.new ≡ list_name self.old }
    {
        self.ser.push("- ")?;
        self.ser.write_nested(value)
    }

    /// The end of the list. It writes nothing.
    pub fn end(self) -> Result<(), Errors>
        ensures ok { IsOk result }
        ensures same { self.exit.0.now ≡ self.entry.ser.now }
    {
        let SequenceSerializer { ser: _ } = self;
        Ok(())
    }
}

/// Writes the entries of a map: a key, and then its value.
#[derive(Drop)]
pub struct MapSerializer<'a> {
    pub(crate) ser: &'a mut YamlSerializer,
}

impl<'a> MapSerializer<'a> {
    /// A key, in quotes.
    pub fn key(&mut self, key: &str) -> Result<(), Errors>
        ensures pushes { Pushes result (map_output self.old) (key_text key.now) (map_output self.new) }
        ensures same { map_name self.new ≡ map_name self.old }
    {
        self.ser.push_key(key)
    }

    /// The value of the key.
    ///
    /// `FormArgsError` exactly where lists and maps come to be nested more than 64 deep.
    pub fn value<T: WriteYaml>(&mut self, value: &T) -> Result<(), Errors>
        ensures puts { Puts result (map_output self.old) (nested (map_output self.old).level (T.written value.now))
            (depth (tree_of (T.written value.now)) + 1) (map_output self.new) }
        ensures same { map_name self.new ≡ map_name self.old }
    {
        self.ser.write_nested(value)
    }

    /// The end of the map. It writes nothing.
    pub fn end(self) -> Result<(), Errors>
        ensures ok { IsOk result }
        ensures same { self.exit.0.now ≡ self.entry.ser.now }
    {
        let MapSerializer { ser: _ } = self;
        Ok(())
    }
}
