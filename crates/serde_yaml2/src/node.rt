//! Values of any kind.

ghost use Rattle.std.specs.Prelude.{◌+◌};
ghost use Rattle.yaml_small.specs.Trees.{depth};
ghost use Rattle.yaml_small.specs.View.{view};
ghost use Rattle.yaml_text.specs.Written.{tree_of};
ghost use Rattle.yaml_read.specs.Wrapped.{wrapped};
ghost use Rattle.serde_yaml2.specs.Output.{output_of, Puts, Writes, line_of, below, nested, item_text};
ghost use Rattle.serde_yaml2.specs.Values.{list_of, map_of};
ghost use Rattle.serde_yaml2.specs.Nodes.{data_written, node_written};

use crate::error::Errors;
use crate::serializer::YamlSerializer;
use crate::write::WriteYaml;
use warg_values::Text;
use yaml_read::YamlNodeWrapper;
use yaml_small::Yaml;

/// A value of any kind is written by its kind.
impl WriteYaml for YamlNodeWrapper {
    ghost written = { λ w. data_written (view (wrapped w)) };

    fn write_yaml(&self, ser: &mut YamlSerializer) -> Result<(), Errors> {
        write_node(ser, self.as_yaml())
    }
}

/// A value by its kind.
#[cycle(node)]
fn write_node(ser: &mut YamlSerializer, node: &Yaml) -> Result<(), Errors>
    ensures { Writes result (output_of ser.old) (node_written node.now) (output_of ser.new) }
{
    match node {
        Yaml::Integer(number) => ser.write_i64(*number),
        Yaml::Text(text) => ser.write_text(text.as_str()),
        Yaml::Boolean(truth) => ser.write_bool(*truth),
        Yaml::Array(items) => write_items(ser, items.as_slice()),
        Yaml::Hash(pairs) => write_pairs(ser, pairs.as_slice()),
        Yaml::Null => ser.write_none(),
    }
}

/// A list of these values.
#[cycle(node)]
fn write_items(ser: &mut YamlSerializer, items: &[Yaml]) -> Result<(), Errors>
    ensures { Writes result (output_of ser.old) (list_of node_written items.now) (output_of ser.new) }
{
    ser.begin(items.len(), "[]")?;
    for item in items {
        write_item(ser, item)?;
    }
    Ok(())
}

/// An item of a list.
#[cycle(node)]
fn write_item(ser: &mut YamlSerializer, item: &Yaml) -> Result<(), Errors>
    ensures { Puts result (output_of ser.old) (item_text (output_of ser.old).level (node_written item.now))
        (depth (tree_of (node_written item.now)) + 1) (output_of ser.new) }
{
    ser.push("- ")?;
    write_nested(ser, item)
}

/// A map of these pairs.
#[cycle(node)]
fn write_pairs(ser: &mut YamlSerializer, pairs: &[(Text, Yaml)]) -> Result<(), Errors>
    ensures { Writes result (output_of ser.old) (map_of node_written pairs.now) (output_of ser.new) }
{
    ser.begin(pairs.len(), "{}")?;
    for (key, value) in pairs {
        ser.push_key(key.as_str())?;
        write_nested(ser, value)?;
    }
    Ok(())
}

/// A value on a line of its own, one level deeper, and a new line behind it.
#[cycle(node)]
fn write_nested(ser: &mut YamlSerializer, node: &Yaml) -> Result<(), Errors>
    ensures { Puts result (output_of ser.old) (nested (output_of ser.old).level (node_written node.now))
        (depth (tree_of (node_written node.now)) + 1) (output_of ser.new) }
{
    write_below(ser, node)?;
    ser.new_line()
}

/// A value on a line of its own, one level deeper.
#[cycle(node)]
fn write_below(ser: &mut YamlSerializer, node: &Yaml) -> Result<(), Errors>
    ensures { Puts result (output_of ser.old) (below (output_of ser.old).level (node_written node.now))
        (depth (tree_of (node_written node.now)) + 1) (output_of ser.new) }
{
    let outer = ser.level;
    let Some(inner) = outer.deeper() else {
        return Err(Errors::FormArgsError);
    };
    ser.level = inner;
    let put = write_on_new_line(ser, node);
    ser.level = outer;
    put
}

/// A value on a line of its own.
#[cycle(node)]
fn write_on_new_line(ser: &mut YamlSerializer, node: &Yaml) -> Result<(), Errors>
    ensures { Puts result (output_of ser.old) (line_of (output_of ser.old).level (node_written node.now))
        (depth (tree_of (node_written node.now))) (output_of ser.new) }
{
    ser.new_line()?;
    write_node(ser, node)
}
