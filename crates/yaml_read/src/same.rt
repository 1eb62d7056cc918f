//! Values of any kind that are the same, and what a hasher is fed of them.

ghost use Rattle.std.specs.Prelude.{◌≡◌, fold};
ghost use Rattle.yaml_small.specs.View.{view, items_view, members_view};
ghost use Rattle.yaml_read.specs.Same.{same_data, same_items, same_members};
ghost use Rattle.yaml_read.specs.Fed.{fed_data, fed_items, fed_members};

use std::hash::{Hash, Hasher};
use warg_values::Text;
use yaml_small::Yaml;

/// Whether two values are the same.
#[cycle(same)]
pub fn is_same(one: &Yaml, other: &Yaml) -> bool
    ensures { result ≡ same_data (view one.now) (view other.now) }
{
    match one {
        Yaml::Integer(number) => {
            let Yaml::Integer(second) = other else {
                return false;
            };
            *number == *second
        }
        Yaml::Text(text) => {
            let Yaml::Text(second) = other else {
                return false;
            };
            *text == *second
        }
        Yaml::Boolean(truth) => {
            let Yaml::Boolean(second) = other else {
                return false;
            };
            *truth == *second
        }
        Yaml::Array(items) => {
            let Yaml::Array(second) = other else {
                return false;
            };
            are_same(items.as_slice(), second.as_slice())
        }
        Yaml::Hash(pairs) => {
            let Yaml::Hash(second) = other else {
                return false;
            };
            are_same_pairs(pairs.as_slice(), second.as_slice())
        }
        Yaml::Null => {
            let Yaml::Null = other else {
                return false;
            };
            true
        }
    }
}

/// Whether two lists have the same values.
#[cycle(same)]
fn are_same(items: &[Yaml], others: &[Yaml]) -> bool
    ensures { result ≡ same_items (items_view items.now) (items_view others.now) }
{
    let mut left = items;
    let mut right = others;
    while let [one, rest @ ..] = left {
        let [other, behind @ ..] = right else {
            return false;
        };
        if !is_same(one, other) {
            return false;
        }
        left = rest;
        right = behind;
    }
    match right {
        [] => true,
        [_, ..] => false,
    }
}

/// Whether two maps have the same pairs, in the same order.
#[cycle(same)]
fn are_same_pairs(pairs: &[(Text, Yaml)], others: &[(Text, Yaml)]) -> bool
    ensures { result ≡ same_members (members_view pairs.now) (members_view others.now) }
{
    let mut left = pairs;
    let mut right = others;
    while let [(key, one), rest @ ..] = left {
        let [(name, other), behind @ ..] = right else {
            return false;
        };
        if *key != *name || !is_same(one, other) {
            return false;
        }
        left = rest;
        right = behind;
    }
    match right {
        [] => true,
        [_, ..] => false,
    }
}

/// Feeds a hasher a value: its kind, and what it holds.
#[cycle(fed)]
pub fn feed<H: Hasher>(state: &mut H, node: &Yaml)
    ensures { state.new ≡ fold H.write state.old (fed_data (view node.now)) }
{
    match node {
        Yaml::Integer(number) => {
            state.write_u8(0);
            number.hash(state);
        }
        Yaml::Text(text) => {
            state.write_u8(1);
            text.hash(state);
        }
        Yaml::Boolean(truth) => {
            state.write_u8(2);
            truth.hash(state);
        }
        Yaml::Array(items) => {
            state.write_u8(3);
            feed_items(state, items.as_slice());
        }
        Yaml::Hash(pairs) => {
            state.write_u8(4);
            feed_pairs(state, pairs.as_slice());
        }
        Yaml::Null => state.write_u8(5),
    }
}

/// Feeds it a list: 1 in front of each value, and 0 behind them.
#[cycle(fed)]
fn feed_items<H: Hasher>(state: &mut H, items: &[Yaml])
    ensures { state.new ≡ fold H.write state.old (fed_items (items_view items.now)) }
{
    let mut left = items;
    while let [item, rest @ ..] = left {
        state.write_u8(1);
        feed(state, item);
        left = rest;
    }
    state.write_u8(0);
}

/// Feeds it a map: 1, the key and its value for each pair, and 0 behind them.
#[cycle(fed)]
fn feed_pairs<H: Hasher>(state: &mut H, pairs: &[(Text, Yaml)])
    ensures { state.new ≡ fold H.write state.old (fed_members (members_view pairs.now)) }
{
    let mut left = pairs;
    while let [(key, value), rest @ ..] = left {
        state.write_u8(1);
        key.hash(state);
        feed(state, value);
        left = rest;
    }
    state.write_u8(0);
}
