//! Readers of what the forms are made of. Each gives what it read and the bytes behind it, and refuses with the number
//! of bytes that were left where the fault stands.

ghost use Rattle.std.specs.Prelude.{◌≡◌, ◌≤◌, ◌<◌, ◌^◌, ◌+◌, ◌*◌, [], ℕ, List, Result, map, Ok, IfOk, IfErr, true, false, MatchOption};
ghost use Rattle.std.specs.Str.{is_utf8};
ghost use Rattle.comp_format.specs.Numbers.{leb_at, signed_leb_at, number_at, signed_index_at};
ghost use Rattle.comp_format.specs.Vectors.{ReaderOf, front_at, name_at, any_name_at, byte_at, mark_at, carried_at, many_at, vector_at, labelled_at, labelled_vector_at};
ghost use Rattle.comp_format.specs.Sections.{whole_at};
ghost use Rattle.comp_reader.specs.Refusal.{Gives, IsForm};

use crate::refusal::Refusal;
use std::alloc::Global;
use std::collections::BTreeSet;
use warg_values::Text;

/// LEB128 in at most so many bytes. `at` bytes are left where the number begins.
#[tactic(auto, unfolding(comp_format::specs::Numbers::leb_at))]
fn leb_of(left: u8, at: usize, bytes: &[u8]) -> Result<(u64, &[u8]), Refusal>
    requires { left ≤ 5 }
    ensures exact { Gives (λ x. (x.0, x.1.now)) result (leb_at left bytes.now) }
    ensures form { IfErr result IsForm }
    ensures below { IfOk result (λ x. x.0 < 128 ^ left) }
{
    if left == 0 {
        return Err(Refusal::Form(at));
    }
    match bytes {
        [] => Err(Refusal::Form(at)),
        [byte, rest @ ..] => {
            if *byte < 128 {
                return Ok((*byte as u64, rest));
            }
            let (high, rest) = leb_of(left - 1, at, rest)?;
            Ok((*byte as u64 - 128 + 128 * high, rest))
        }
    }
}

/// A number below 2^32.
#[tactic(auto, unfolding(comp_format::specs::Numbers::number_at))]
pub fn number_of(bytes: &[u8]) -> Result<(u32, &[u8]), Refusal>
    ensures exact { Gives (λ x. (x.0, x.1.now)) result (number_at bytes.now) }
    ensures form { IfErr result IsForm }
{
    let (number, rest) = leb_of(5, bytes.len(), bytes)?;
    match u32::try_from(number) {
        Ok(number) => Ok((number, rest)),
        Err(_) => Err(Refusal::Form(bytes.len())),
    }
}

/// Signed LEB128, from 0 on, in at most so many bytes. `at` bytes are left where the number begins.
#[tactic(auto, unfolding(comp_format::specs::Numbers::signed_leb_at))]
fn signed_leb_of(left: u8, at: usize, bytes: &[u8]) -> Result<(u64, &[u8]), Refusal>
    requires { left ≤ 5 }
    ensures exact { Gives (λ x. (x.0, x.1.now)) result (signed_leb_at left bytes.now) }
    ensures below { IfOk result (λ x. x.0 < 128 ^ left) }
{
    if left == 0 {
        return Err(Refusal::Form(at));
    }
    match bytes {
        [] => Err(Refusal::Form(at)),
        [byte, rest @ ..] => {
            if *byte < 64 {
                return Ok((*byte as u64, rest));
            }
            if *byte < 128 {
                return Err(Refusal::Form(at));
            }
            let (high, rest) = signed_leb_of(left - 1, at, rest)?;
            Ok((*byte as u64 - 128 + 128 * high, rest))
        }
    }
}

/// The index of a type, as a value type has it.
#[tactic(auto, unfolding(comp_format::specs::Numbers::signed_index_at))]
pub fn signed_index_of(bytes: &[u8]) -> Result<(u32, &[u8]), Refusal>
    ensures { Gives (λ x. (x.0, x.1.now)) result (signed_index_at bytes.now) }
{
    let (number, rest) = signed_leb_of(5, bytes.len(), bytes)?;
    match u32::try_from(number) {
        Ok(number) => Ok((number, rest)),
        Err(_) => Err(Refusal::Form(bytes.len())),
    }
}

/// So many bytes, and the bytes behind them.
#[tactic(auto, unfolding(comp_format::specs::Vectors::front_at))]
pub fn front_of(count: u32, bytes: &[u8]) -> Result<(&[u8], &[u8]), Refusal>
    ensures exact { Gives (λ x. (x.0.now, x.1.now)) result (front_at count bytes.now) }
    ensures form { IfErr result IsForm }
{
    let count = count as usize;
    if bytes.len() < count {
        return Err(Refusal::Form(bytes.len()));
    }
    Ok(bytes.split_at(count))
}

/// Bytes as a text, where they are UTF-8.
fn text_of(bytes: &[u8]) -> Option<&str>
    ensures { MatchOption result (is_utf8 bytes.now ≡ false)
        (λ text. (is_utf8 bytes.now ≡ true) × (text.now ≡ bytes.now)) }
{
    match str::from_utf8(bytes) {
        Ok(text) => Some(text),
        Err(_) => None,
    }
}

/// A name, which is not empty.
#[tactic(auto, unfolding(comp_format::specs::Vectors::name_at))]
fn str_of(bytes: &[u8]) -> Result<(&str, &[u8]), Refusal>
    ensures { Gives (λ x. (x.0.now, x.1.now)) result (name_at bytes.now) }
{
    let (count, rest) = number_of(bytes)?;
    let (text, after) = front_of(count, rest)?;
    if count == 0 {
        return Err(Refusal::Form(bytes.len()));
    }
    match text_of(text) {
        Some(text) => Ok((text, after)),
        None => Err(Refusal::Form(bytes.len())),
    }
}

/// A name, which is not empty, as a text of its own.
pub fn name_of(alloc: Global, bytes: &[u8]) -> Result<(Text, &[u8]), Refusal>
    ensures { Gives (λ x. (x.0, x.1.now)) result (name_at bytes.now) }
{
    let (text, after) = str_of(bytes)?;
    Ok((Text::copy_of(alloc, text)?, after))
}

/// A name that may be empty.
#[tactic(auto, unfolding(comp_format::specs::Vectors::any_name_at))]
pub fn any_name_of(alloc: Global, bytes: &[u8]) -> Result<(Text, &[u8]), Refusal>
    ensures { Gives (λ x. (x.0, x.1.now)) result (any_name_at bytes.now) }
{
    let (count, rest) = number_of(bytes)?;
    let (text, after) = front_of(count, rest)?;
    match text_of(text) {
        Some(text) => Ok((Text::copy_of(alloc, text)?, after)),
        None => Err(Refusal::Form(bytes.len())),
    }
}

/// The byte at the front.
pub fn byte_of(bytes: &[u8]) -> Result<(u8, &[u8]), Refusal>
    ensures { Gives (λ x. (x.0, x.1.now)) result (byte_at bytes.now) }
{
    match bytes {
        [] => Err(Refusal::Form(0)),
        [byte, rest @ ..] => Ok((*byte, rest)),
    }
}

/// The bytes behind this one byte.
#[tactic(auto, unfolding(comp_format::specs::Vectors::mark_at))]
pub fn mark_of(mark: u8, bytes: &[u8]) -> Result<&[u8], Refusal>
    ensures { Gives (λ x. x.now) result (mark_at mark bytes.now) }
{
    let (byte, rest) = byte_of(bytes)?;
    if byte == mark {
        Ok(rest)
    } else {
        Err(Refusal::Form(bytes.len()))
    }
}

/// The bytes behind this one byte, where others stand for forms that are not carried.
#[tactic(auto, unfolding(comp_format::specs::Vectors::carried_at))]
pub fn carried_of(mark: u8, bytes: &[u8]) -> Result<&[u8], Refusal>
    ensures { Gives (λ x. x.now) result (carried_at mark bytes.now) }
{
    let (byte, rest) = byte_of(bytes)?;
    if byte == mark {
        Ok(rest)
    } else {
        Err(Refusal::NotCarried(bytes.len()))
    }
}

/// What vectors are made of.
pub trait Field: Drop {
    /// The value, wherever it lies in memory.
    ghost Tree: { Type 0 };

    ghost tree: { Self → Tree };

    /// The reading where so many scopes may be open.
    ghost tree_at: { ℕ → ReaderOf Tree };

    /// The value at the front, and the bytes behind it.
    fn read(alloc: Global, scopes: u8, bytes: &[u8]) -> Result<(Self, &[u8]), Refusal>
        ensures { Gives (λ x. (tree x.0, x.1.now)) result (tree_at scopes bytes.now) };
}

/// So many values.
fn many_of<T: Field>(
    alloc: Global,
    scopes: u8,
    count: u32,
    bytes: &[u8],
) -> Result<(Vec<T>, &[u8]), Refusal>
    ensures { Gives (λ x. (map T.tree x.0.items, x.1.now)) result (many_at (T.tree_at scopes) count bytes.now) }
{
    let mut values = Vec::new(alloc);
    let mut rest = bytes;
    for _ in 0..count {
        let (value, after) = T::read(alloc, scopes, rest)?;
        values.push(value)?;
        rest = after;
    }
    Ok((values, rest))
}

/// How many values there are, and the values.
#[tactic(auto, unfolding(comp_format::specs::Vectors::vector_at))]
pub fn vector_of<T: Field>(
    alloc: Global,
    scopes: u8,
    bytes: &[u8],
) -> Result<(Vec<T>, &[u8]), Refusal>
    ensures { Gives (λ x. (map T.tree x.0.items, x.1.now)) result (vector_at (T.tree_at scopes) bytes.now) }
{
    let (count, rest) = number_of(bytes)?;
    many_of(alloc, scopes, count, rest)
}

/// A vector that is all of the bytes.
#[tactic(auto, unfolding(comp_format::specs::Sections::whole_at))]
pub fn whole_of<T: Field>(alloc: Global, scopes: u8, bytes: &[u8]) -> Result<Vec<T>, Refusal>
    ensures { Gives (λ values. map T.tree values.items) result (whole_at (T.tree_at scopes) bytes.now) }
{
    let (values, rest) = vector_of(alloc, scopes, bytes)?;
    if !rest.is_empty() {
        return Err(Refusal::Form(rest.len()));
    }
    Ok(values)
}

/// What stands behind labels.
pub trait Labelled: Drop {
    /// The reading behind a label.
    ghost behind_at: { List ℕ → ReaderOf Self };

    /// The value behind its label, and the bytes behind it.
    fn read_behind(alloc: Global, label: Text, bytes: &[u8]) -> Result<(Self, &[u8]), Refusal>
        ensures { Gives (λ x. (x.0, x.1.now)) result (behind_at label bytes.now) };
}

/// So many values under labels that differ.
fn labelled_many_of<T: Labelled>(
    alloc: Global,
    count: u32,
    bytes: &[u8],
) -> Result<(Vec<T>, &[u8]), Refusal>
    ensures { Gives (λ x. (x.0.items, x.1.now)) result (labelled_at T.behind_at [] count bytes.now) }
{
    let mut seen: BTreeSet<&str> = BTreeSet::new(alloc);
    let mut values = Vec::new(alloc);
    let mut rest = bytes;
    for _ in 0..count {
        let (label, behind) = str_of(rest)?;
        let added = seen.insert(label)?;
        if !added {
            return Err(Refusal::Form(rest.len()));
        }
        let label = Text::copy_of(alloc, label)?;
        let (value, after) = T::read_behind(alloc, label, behind)?;
        values.push(value)?;
        rest = after;
    }
    Ok((values, rest))
}

/// How many values under labels that differ there are, and the values.
#[tactic(auto, unfolding(comp_format::specs::Vectors::labelled_vector_at))]
pub fn labelled_of<T: Labelled>(alloc: Global, bytes: &[u8]) -> Result<(Vec<T>, &[u8]), Refusal>
    ensures { Gives (λ x. (x.0.items, x.1.now)) result (labelled_vector_at T.behind_at bytes.now) }
{
    let (count, rest) = number_of(bytes)?;
    labelled_many_of(alloc, count, rest)
}
