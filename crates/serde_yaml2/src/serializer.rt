//! The serializer, and its writes of single values.

ghost use Rattle.std.specs.Prelude.{◌≡◌, ◌++◌, ◌+◌, ◌≤◌, [], string_bytes, pos, Err, IfOk, IfErr, IsErr};
ghost use Rattle.yaml_small.specs.Trees.{depth};
ghost use Rattle.yaml_text.specs.Written.{tree_of};
ghost use Rattle.yaml_text.specs.Written as spec;
ghost use Rattle.serde_yaml2.specs.declared.error.Errors.TheVariants.{FormArgsError};
ghost use Rattle.serde_yaml2.specs.Values.{character_of};
ghost use Rattle.serde_yaml2.specs.Output.{output_of, list_output, list_name, map_output, map_name, list_head, map_head, head, key_text, appended, Explains, Puts, Writes, Pushes, line_of, below, nested};

use crate::collection::{MapSerializer, SequenceSerializer};
use crate::error::Errors;
use crate::level::Level;
use crate::write::WriteYaml;
use itoa::Buffer;
use std::alloc::Global;
use warg_values::Text;
use yaml_text::{push_indentation, push_key, push_text};

/// Writes values as YAML behind a text.
///
/// After a refusal the text is what it was, and behind it a front of what was to be written.
#[derive(Debug, Drop)]
pub struct YamlSerializer {
    text: String,
    pub(crate) level: Level,
}

impl YamlSerializer {
    ghost use Rattle.std.specs.Borrow.{sem};
    ghost use Rattle.serde_yaml2.specs.Lending.{ListRests, MapRests};

    /// A serializer that writes behind a text.
    pub fn new(text: String) -> Self
        ensures { output_of result ≡ record { text = string_bytes text; level = 0 } }
    {
        YamlSerializer {
            text,
            level: Level::outermost(),
        }
    }

    /// The text that was given, and what was written behind it.
    pub fn into_string(self) -> String
        ensures { string_bytes result ≡ (output_of self).text }
    {
        let YamlSerializer { text, level: _ } = self;
        text
    }

    /// Writes a value.
    ///
    /// `FormArgsError` exactly where lists and maps come to be nested more than 64 deep.
    pub fn write<T: WriteYaml>(&mut self, value: &T) -> Result<(), Errors>
        ensures { Writes result (output_of self.old) (T.written value.now) (output_of self.new) }
    {
        value.write_yaml(self)
    }

    /// `true` or `false`.
    pub fn write_bool(&mut self, value: bool) -> Result<(), Errors>
        ensures { Writes result (output_of self.old) (spec.boolean value) (output_of self.new) }
    {
        self.push_scalar(if value { "true" } else { "false" })
    }

    /// A number in decimal.
    pub fn write_i64(&mut self, value: i64) -> Result<(), Errors>
        ensures { Writes result (output_of self.old) (spec.number value) (output_of self.new) }
    {
        let mut buffer = Buffer::new();
        self.push_scalar(buffer.format(value))
    }

    /// A number in decimal.
    pub fn write_u64(&mut self, value: u64) -> Result<(), Errors>
        ensures { Writes result (output_of self.old) (spec.number (pos value)) (output_of self.new) }
    {
        let mut buffer = Buffer::new();
        self.push_scalar(buffer.format(value))
    }

    /// A character: a letter or digit of ASCII as it is, and any other as a text of it alone.
    #[tactic(auto, using(crate::proofs::Characters::letter_text))]
    pub fn write_char(&mut self, value: char) -> Result<(), Errors>
        ensures { Writes result (output_of self.old) (character_of value) (output_of self.new) }
    {
        let mut buffer = [0u8; 4];
        let text = value.encode_utf8(&mut buffer);
        if value.is_ascii_alphanumeric() {
            self.push_scalar(text)
        } else {
            self.write_text(text)
        }
    }

    /// A text, in quotes or as a block of lines.
    #[tactic(auto, using(crate::specs::PieceLaws::cut_held))]
    pub fn write_text(&mut self, value: &str) -> Result<(), Errors>
        ensures { Writes result (output_of self.old) (spec.text value.now) (output_of self.new) }
    {
        push_text(&mut self.text, self.level.depth(), value)?;
        Ok(())
    }

    /// Nothing: `~`.
    pub fn write_none(&mut self) -> Result<(), Errors>
        ensures { Writes result (output_of self.old) spec.null (output_of self.new) }
    {
        self.push_scalar("~")
    }

    /// A variant without data. Its name stands as it is.
    pub fn write_unit_variant(&mut self, name: &str) -> Result<(), Errors>
        ensures { Writes result (output_of self.old) (spec.unit_variant name.now) (output_of self.new) }
    {
        self.push_variant(name, ": ~", 1)
    }

    /// A variant with a tuple of no items. Its name stands as it is.
    pub fn write_empty_variant(&mut self, name: &str) -> Result<(), Errors>
        ensures { Writes result (output_of self.old) (spec.empty_variant name.now) (output_of self.new) }
    {
        self.push_variant(name, ": []", 2)
    }

    /// A variant with a value. Its name stands as it is.
    pub fn write_newtype_variant<T: WriteYaml>(
        &mut self,
        name: &str,
        value: &T,
    ) -> Result<(), Errors>
        ensures { Writes result (output_of self.old) (spec.variant name.now (T.written value.now)) (output_of self.new) }
    {
        self.push(name)?;
        self.push(":")?;
        self.write_below(value)
    }

    /// Bytes have no form in YAML here: always `UnsupportedSerializationError`, and nothing is written.
    pub fn write_bytes(&mut self, alloc: Global, _bytes: &[u8]) -> Result<(), Errors>
        ensures refused { IsErr result }
        ensures cause { result ≡ Err FormArgsError → ⊥ }
        ensures same { output_of self.new ≡ output_of self.old }
    {
        Err(Errors::UnsupportedSerializationError(Text::copy_of(alloc, "bytes")?))
    }

    /// The serializer of a list of so many items, which the caller gives.
    ///
    /// `FormArgsError` exactly where 64 lists and maps are open.
    pub fn seq(&mut self, len: usize) -> Result<SequenceSerializer<'_>, Errors>
        ensures* rests { sem 𝓛 (ListRests self.entry (list_head len) result) }
        ensures begun { IfOk result
            (λ list. (list_output list ≡ appended (output_of self.old) (list_head len))
            × (list_name list ≡ self.entry.ghost_name)
            × ((output_of self.old).level + 1 ≤ 64)) }
        ensures refused { IfErr result (λ e. Explains e ((output_of self.old).level + 1)) }
    {
        self.begin(len, "[]")?;
        Ok(SequenceSerializer { ser: self })
    }

    /// The serializer of a map of so many entries, which the caller gives.
    ///
    /// `FormArgsError` exactly where 64 lists and maps are open.
    pub fn map(&mut self, len: usize) -> Result<MapSerializer<'_>, Errors>
        ensures* rests { sem 𝓛 (MapRests self.entry (map_head len) result) }
        ensures begun { IfOk result
            (λ map. (map_output map ≡ appended (output_of self.old) (map_head len))
            × (map_name map ≡ self.entry.ghost_name)
            × ((output_of self.old).level + 1 ≤ 64)) }
        ensures refused { IfErr result (λ e. Explains e ((output_of self.old).level + 1)) }
    {
        self.begin(len, "{}")?;
        Ok(MapSerializer { ser: self })
    }

    /// Begins a list or map of so many parts: writes what stands for none.
    #[tactic(auto, using(crate::specs::PieceLaws::cut_none))]
    pub(crate) fn begin(&mut self, len: usize, empty: &str) -> Result<(), Errors>
        ensures { Puts result (output_of self.old) (head len empty.now) 1 (output_of self.new) }
    {
        if self.level.deeper().is_none() {
            return Err(Errors::FormArgsError);
        }
        if len == 0 {
            self.push(empty)?;
        }
        Ok(())
    }

    /// A value on a line of its own, one level deeper, and a new line behind it.
    pub(crate) fn write_nested<T: WriteYaml>(&mut self, value: &T) -> Result<(), Errors>
        ensures { Puts result (output_of self.old) (nested (output_of self.old).level (T.written value.now))
            (depth (tree_of (T.written value.now)) + 1) (output_of self.new) }
    {
        self.write_below(value)?;
        self.new_line()
    }

    /// A value on a line of its own, one level deeper.
    fn write_below<T: WriteYaml>(&mut self, value: &T) -> Result<(), Errors>
        ensures { Puts result (output_of self.old) (below (output_of self.old).level (T.written value.now))
            (depth (tree_of (T.written value.now)) + 1) (output_of self.new) }
    {
        let outer = self.level;
        let Some(inner) = outer.deeper() else {
            return Err(Errors::FormArgsError);
        };
        self.level = inner;
        let put = self.write_on_new_line(value);
        self.level = outer;
        put
    }

    /// A value on a line of its own.
    fn write_on_new_line<T: WriteYaml>(&mut self, value: &T) -> Result<(), Errors>
        ensures { Puts result (output_of self.old) (line_of (output_of self.old).level (T.written value.now))
            (depth (tree_of (T.written value.now))) (output_of self.new) }
    {
        self.new_line()?;
        value.write_yaml(self)
    }

    /// A new line, indented to the level.
    pub(crate) fn new_line(&mut self) -> Result<(), Errors>
        ensures { Pushes result (output_of self.old) (spec.new_line (output_of self.old).level) (output_of self.new) }
    {
        self.push("\n")?;
        push_indentation(&mut self.text, self.level.depth())?;
        Ok(())
    }

    /// A variant's name, and what stands behind it, which holds so many levels of lists and maps.
    fn push_variant(&mut self, name: &str, rest: &str, levels: usize) -> Result<(), Errors>
        requires { levels ≤ 2 }
        ensures { Puts result (output_of self.old) (name.now ++ rest.now) levels (output_of self.new) }
    {
        if self.level.depth() + levels > 64 {
            return Err(Errors::FormArgsError);
        }
        self.push(name)?;
        self.push(rest)?;
        Ok(())
    }

    /// A scalar's text.
    fn push_scalar(&mut self, text: &str) -> Result<(), Errors>
        ensures { Puts result (output_of self.old) text.now 0 (output_of self.new) }
    {
        self.push(text)
    }

    /// A key of a map, and a colon.
    pub(crate) fn push_key(&mut self, key: &str) -> Result<(), Errors>
        ensures { Pushes result (output_of self.old) (key_text key.now) (output_of self.new) }
    {
        push_key(&mut self.text, key)?;
        self.push(":")
    }

    /// A piece of text.
    #[tactic(auto, using(crate::specs::PieceLaws::cut_none))]
    pub(crate) fn push(&mut self, piece: &str) -> Result<(), Errors>
        ensures { Pushes result (output_of self.old) piece.now (output_of self.new) }
    {
        self.text.push_str(piece)?;
        Ok(())
    }
}
