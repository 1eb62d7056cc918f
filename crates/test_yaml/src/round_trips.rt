//! Values that go through YAML and come back.

use indexmap::IndexMap;
use serde_yaml2::{Errors, ReadYaml, RoundTrip, WriteYaml, YamlNodeWrapper, from_str, to_string};
use std::alloc::Global;
use std::hash::{DefaultHasher, Hash, Hasher};
use std::test::Fail;
use test_check::{holds, is_text};
use warg_values::Text;
use yaml_example::{Choice, Sample};
use yaml_small::{Yaml, YamlList};

/// A text of its own.
fn text_of(alloc: Global, text: &str) -> Result<Text, Fail> {
    Ok(Text::copy_of(alloc, text)?)
}

/// Fails where a value is written as another text.
fn is_written<T: WriteYaml>(alloc: Global, value: &T, want: &str) -> Result<(), Fail> {
    is_text(&to_string(alloc, value)?, want)
}

/// Fails where another value is read from this text.
fn is_read<T: ReadYaml + PartialEq>(alloc: Global, value: &T, text: &str) -> Result<(), Fail> {
    holds(from_str::<T>(alloc, text)? == *value, text)
}

/// Fails where a value is written as another text, or not read from this one again.
fn comes_back<T: RoundTrip + PartialEq>(alloc: Global, value: &T, want: &str) -> Result<(), Fail> {
    is_written(alloc, value, want)?;
    is_read(alloc, value, want)
}

#[test]
fn a_struct_comes_back(rt: HostRuntime) -> Result<(), Fail> {
    let sample = Sample {
        x: 321,
        y: text_of(rt.alloc(), "Hello")?,
    };
    comes_back(rt.alloc(), &sample, "'x':\n  321\n'y':\n  'Hello'\n")
}

/// A variant, by its name.
fn variant(alloc: Global, name: &str) -> Result<Choice, Fail> {
    match name {
        "Nothing" => Ok(Choice::Nothing),
        "Number" => Ok(Choice::Number(7)),
        "VariantC" => Ok(Choice::VariantC(12, text_of(alloc, "Hello world")?)),
        _ => Ok(Choice::Both {
            x: -1,
            y: text_of(alloc, "a\nb")?,
        }),
    }
}

/// Fails at the first variant that does not come back.
fn return_all(alloc: Global, table: &[(&str, &str)]) -> Result<(), Fail> {
    for (name, text) in table {
        let variant = variant(alloc, name)?;
        comes_back(alloc, &variant, text)?;
    }
    Ok(())
}

#[test]
fn each_kind_of_variant_comes_back(rt: HostRuntime) -> Result<(), Fail> {
    return_all(rt.alloc(), VARIANTS)
}

#[test]
fn a_flow_list_is_the_tuple_of_a_variant(rt: HostRuntime) -> Result<(), Fail> {
    let tuple = variant(rt.alloc(), "VariantC")?;
    is_read(rt.alloc(), &tuple, "VariantC: [12, 'Hello world']")
}

#[test]
fn maps_of_maps_come_back(rt: HostRuntime) -> Result<(), Fail> {
    let alloc = rt.alloc();
    let maps = from_str::<IndexMap<Text, IndexMap<Text, Vec<u64>>>>(alloc, "a: {b: [1, 2]}")?;
    let text = "'a':\n  'b':\n   - \n    1\n   - \n    2\n   \n  \n";
    comes_back(alloc, &maps, text)
}

/// A list of one value.
fn list_of(alloc: Global, value: Yaml) -> Result<Yaml, Fail> {
    Ok(Yaml::Array(YamlList::new(vec![in alloc; value]?)))
}

/// A list of a list of a list, and so on, so many lists in all.
fn nested(alloc: Global, lists: usize) -> Result<YamlNodeWrapper, Fail> {
    let mut value = Yaml::Array(YamlList::new(Vec::new(alloc)));
    for _ in 1..lists {
        value = list_of(alloc, value)?;
    }
    Ok(YamlNodeWrapper::new(value))
}

/// Fails where a value does not come back from what was written of it.
fn is_returned(
    alloc: Global,
    value: &YamlNodeWrapper,
    text: &Result<String, Errors>,
) -> Result<(), Fail> {
    match text {
        Ok(text) => is_read(alloc, value, text.as_str()),
        Err(_) => Err(Fail::new("a list is not written")),
    }
}

/// Fails where so many lists do not come back.
fn nested_come_back(alloc: Global, lists: usize) -> Result<(), Fail> {
    let value = nested(alloc, lists)?;
    is_returned(alloc, &value, &to_string(alloc, &value))
}

/// Whether lists are refused for their depth.
fn are_too_deep(answer: &Result<String, Errors>) -> bool {
    matches!(answer, Err(Errors::FormArgsError))
}

/// Fails where so many lists are not refused for their depth.
fn nested_are_too_deep(alloc: Global, lists: usize) -> Result<(), Fail> {
    let value = nested(alloc, lists)?;
    holds(
        are_too_deep(&to_string(alloc, &value)),
        "lists are refused for their depth",
    )
}

#[test]
fn lists_come_back_64_deep_and_are_refused_65_deep(rt: HostRuntime) -> Result<(), Fail> {
    nested_come_back(rt.alloc(), 64)?;
    nested_are_too_deep(rt.alloc(), 65)
}

/// The hash of the value that a text is read as.
fn hash_of(alloc: Global, text: &str) -> Result<u64, Fail> {
    let value = from_str::<YamlNodeWrapper>(alloc, text)?;
    let mut state = DefaultHasher::new();
    value.hash(&mut state);
    Ok(state.finish())
}

#[test]
fn equal_values_hash_alike_and_others_otherwise(rt: HostRuntime) -> Result<(), Fail> {
    let alloc = rt.alloc();
    let hash = hash_of(alloc, "a: [1, true, ~, b]")?;
    holds(
        hash_of(alloc, "{a: [1, true, null, 'b']}")? == hash,
        "equal values hash alike",
    )?;
    holds(
        hash_of(alloc, "a: [1, true, ~, c]")? != hash,
        "another value hashes otherwise",
    )
}

/// Names of variants, and the texts that they are written as.
const VARIANTS: &[(&str, &str)] = &[
    ("Nothing", "Nothing: ~"),
    ("Number", "Number:\n  7"),
    (
        "VariantC",
        "VariantC:\n  - \n   12\n  - \n   'Hello world'\n  ",
    ),
    (
        "Both",
        "Both:\n  'x':\n   -1\n  'y':\n   |-\n    a\n    b\n  ",
    ),
];
