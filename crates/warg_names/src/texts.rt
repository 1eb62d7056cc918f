//! The texts of locked packages and of requirements.

ghost use Rattle.std.specs.Prelude.{◌≡◌, ◌++◌, IfOk, OnOk, map, string_bytes};
ghost use Rattle.semver.specs.Identifiers.{comparator_view, parts_of, pre_text, version_text};
ghost use Rattle.warg_names.specs.Mark.{mark_text};
ghost use Rattle.warg_names.specs.Texts as spec;
ghost use Rattle.warg_names.specs.View.{requirement_view};

use crate::cut::{behind, cut_first, cut_last};
use semver::{BuildMetadata, Comparator, Op, Version, VersionReq};
use std::alloc::Global;
use warg_hash::AnyHash;
use warg_log::Release;
use warg_values::{Memory, Text};

/// A release of a package as the name of an import, with the digest of its content.
pub fn locked_package(
    alloc: Global,
    name: &str,
    release: &Release,
    content: &AnyHash,
) -> Result<Text, Memory>
    ensures { IfOk result (λ text. text ≡ spec.locked_text name.now (parts_of release.now.version) content.now) }
{
    let package = versioned(alloc, name, &release.version)?;
    let mark = mark_of(alloc, content)?;
    let text = format!(in alloc; "locked-dep=<{package}>,integrity=<{mark}>")?;
    Ok(Text::new(text))
}

/// A name with a version behind an `@`.
pub fn versioned(alloc: Global, name: &str, version: &Version) -> Result<String, Memory>
    ensures { IfOk result (λ text. string_bytes text ≡ spec.versioned_name name.now (version_text version.now)) }
{
    Ok(format!(in alloc; "{name}@{version}")?)
}

/// The mark of a digest.
fn mark_of(alloc: Global, digest: &AnyHash) -> Result<String, Memory>
    ensures { IfOk result (λ text. string_bytes text ≡ mark_text digest.now) }
{
    let digits = hex::encode(alloc, digest.bytes())?;
    Ok(format!(in alloc; "sha256-{digits}")?)
}

/// A package's name with a requirement. Nothing stands for the one that any release meets.
pub fn versioned_package(alloc: Global, name: &str, version: &VersionReq) -> Result<Text, Memory>
    ensures { IfOk result (λ text. text ≡ spec.versioned_text name.now (requirement_view version.now)) }
{
    let mut text = String::from_str(alloc, name)?;
    if !version.comparators.is_empty() {
        text.push_str("@")?;
        push_braced(alloc, &mut text, version)?;
    }
    Ok(Text::new(text))
}

/// A requirement: `*` where any release meets it, `=` and a version where one version alone does, and else its comparators
/// in braces.
pub fn version_string(alloc: Global, version: &VersionReq) -> Result<Text, Memory>
    ensures { IfOk result (λ text. text ≡ spec.requirement_text (requirement_view version.now)) }
{
    let mut text = String::new(alloc);
    match version.comparators.as_slice() {
        [] => text.push_str("*")?,
        [comparator] if comparator.op == Op::Exact => push_comparator(
            alloc, &mut text, comparator,
        )?,
        _ => push_braced(alloc, &mut text, version)?,
    }
    Ok(Text::new(text))
}

/// A name without its kind: behind `unlocked-dep=<` the text up to the last `>`, and behind `locked-dep=<` the text up to
/// the next one. Any other name, and one without that `>`, is given whole.
#[tactic(auto, unfolding(crate::specs::Texts::kindless))]
pub fn kindless_name(name: &str) -> &str
    ensures { result.now ≡ spec.kindless name.now }
{
    let cut = match behind("unlocked-dep=<", name) {
        Some(rest) => cut_last(rest, '>'),
        None => match behind("locked-dep=<", name) {
            Some(rest) => cut_first(rest, '>'),
            None => None,
        },
    };
    match cut {
        Some((inside, _)) => inside,
        None => name,
    }
}

/// Adds comparators in braces.
fn push_braced(alloc: Global, text: &mut String, req: &VersionReq) -> Result<(), Memory>
    ensures { OnOk result (string_bytes text.new ≡ string_bytes text.old ++ spec.braced (requirement_view req.now)) }
{
    text.push_str("{")?;
    if let [first, rest @ ..] = req.comparators.as_slice() {
        push_comparator(alloc, text, first)?;
        push_following(alloc, text, rest)?;
    }
    text.push_str("}")?;
    Ok(())
}

/// Adds comparators, each behind a space.
fn push_following(
    alloc: Global,
    text: &mut String,
    comparators: &[Comparator],
) -> Result<(), Memory>
    ensures { OnOk result (string_bytes text.new
        ≡ string_bytes text.old ++ spec.following (map comparator_view comparators.now)) }
{
    for comparator in comparators {
        text.push_str(" ")?;
        push_comparator(alloc, text, comparator)?;
    }
    Ok(())
}

/// Adds a comparator: its operator, and its version.
fn push_comparator(alloc: Global, text: &mut String, comparator: &Comparator) -> Result<(), Memory>
    ensures { OnOk result (string_bytes text.new
        ≡ string_bytes text.old ++ spec.comparator_text (comparator_view comparator.now)) }
{
    text.push_str(op_str(comparator.op))?;
    let numbers = numbers_of(alloc, comparator)?;
    text.push_str(&numbers)?;
    Ok(())
}

/// The text of an operator.
fn op_str(op: Op) -> &'static str
    ensures { result.now ≡ spec.op_text op }
{
    match op {
        Op::Exact => "=",
        Op::Greater => ">",
        Op::GreaterEq => ">=",
        Op::Less => "<",
        Op::LessEq => "<=",
        Op::Tilde => "~",
        Op::Caret => "^",
        Op::Wildcard => "",
    }
}

/// What stands for the numbers that a comparator leaves out.
fn left_out(op: Op) -> &'static str
    ensures { result.now ≡ spec.left_out op }
{
    match op {
        Op::Wildcard => ".*",
        _ => "",
    }
}

/// The version of a comparator, as far as it has numbers.
fn numbers_of(alloc: Global, comparator: &Comparator) -> Result<String, Memory>
    ensures { IfOk result (λ text. string_bytes text
        ≡ spec.numbers_text comparator.now.op comparator.now.major comparator.now.minor comparator.now.patch
        (pre_text comparator.now.pre)) }
{
    let left_out = left_out(comparator.op);
    let major = comparator.major;
    let Some(minor) = comparator.minor else {
        return Ok(format!(in alloc; "{major}{left_out}")?);
    };
    let Some(patch) = comparator.patch else {
        return Ok(format!(in alloc; "{major}.{minor}{left_out}")?);
    };
    let pre = comparator.pre.clone()?;
    let version = Version {
        major,
        minor,
        patch,
        pre,
        build: BuildMetadata::empty(),
    };
    Ok(format!(in alloc; "{version}")?)
}
