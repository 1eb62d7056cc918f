//! Reading import names. What is read is wanted, or there is nothing: where a text stops being a name, `fault` finds.

ghost use Rattle.std.specs.Prelude.{◌≡◌, ◌∷◌, [], IfOk, option_map, option_copied};
ghost use Rattle.semver.specs.Identifiers.{comparator_view, parts_of};
ghost use Rattle.semver.specs.declared.Op.TheVariants.{Exact};
ghost use Rattle.warg_hash.specs.Name.{is_package_name};
ghost use Rattle.warg_names.specs.Import as spec;
ghost use Rattle.warg_names.specs.View.{import_tree, requirement_view};

use crate::cut::{behind, closed_by, cut_first, ended_by};
use crate::import::{Import, ImportKind};
use semver::{Comparator, Op, Version, VersionReq};
use std::alloc::{AllocError, Global};
use warg_hash::{NameError, PackageName};
use warg_values::{Memory, Text};

/// The version that a text is.
#[tactic(auto, unfolding(crate::specs::Import::version_of))]
fn version_of(alloc: Global, text: &str) -> Result<Option<Version>, Memory>
    ensures { IfOk result (λ version. option_map parts_of version ≡ spec.version_of text.now) }
{
    match Version::parse(alloc, text) {
        Ok(version) => Ok(Some(version)),
        Err(e) if e == semver::Error::from(AllocError) => Err(Memory),
        Err(_) => Ok(None),
    }
}

/// Whether a text is the name of a package.
fn is_package_name(alloc: Global, text: &str) -> Result<bool, Memory>
    ensures { IfOk result (λ is. is ≡ is_package_name text.now) }
{
    match PackageName::new(alloc, text) {
        Ok(_) => Ok(true),
        Err(NameError::Form) => Ok(false),
        Err(NameError::Memory) => Err(Memory),
    }
}

/// The name of a package that a text is.
#[tactic(auto, unfolding(crate::specs::Import::package_of))]
fn package_of(alloc: Global, text: &str) -> Result<Option<Text>, Memory>
    ensures { IfOk result (λ name. name ≡ spec.package_of text.now) }
{
    if !is_package_name(alloc, text)? {
        return Ok(None);
    }
    Ok(Some(Text::copy_of(alloc, text)?))
}

/// A comparator with a whole version, without its build metadata.
fn compared(op: Op, version: Version) -> Comparator
    ensures { comparator_view result ≡ spec.compared op (parts_of version) }
{
    Comparator {
        op,
        major: version.major,
        minor: Some(version.minor),
        patch: Some(version.patch),
        pre: version.pre,
    }
}

/// A requirement of one comparator.
fn requirement_of_one(alloc: Global, comparator: Comparator) -> Result<VersionReq, Memory>
    ensures { IfOk result (λ req. requirement_view req ≡ comparator_view comparator ∷ []) }
{
    let mut comparators = Vec::new(alloc);
    comparators.push(comparator)?;
    Ok(VersionReq { comparators })
}

/// The bound that a text is: a mark, and a version.
#[tactic(auto, unfolding(crate::specs::Import::bound_of))]
fn bound_of(alloc: Global, text: &str, mark: &str, op: Op) -> Result<Option<Comparator>, Memory>
    ensures { IfOk result (λ bound. option_map comparator_view bound ≡ spec.bound_of mark.now op text.now) }
{
    let Some(text) = behind(mark, text) else {
        return Ok(None);
    };
    match version_of(alloc, text)? {
        Some(version) => Ok(Some(compared(op, version))),
        None => Ok(None),
    }
}

/// The lower bound that a text is.
fn lower_of(alloc: Global, text: &str) -> Result<Option<Comparator>, Memory>
    ensures { IfOk result (λ bound. option_map comparator_view bound ≡ spec.lower_of text.now) }
{
    bound_of(alloc, text, ">=", Op::GreaterEq)
}

/// The upper bound that a text is.
fn upper_of(alloc: Global, text: &str) -> Result<Option<Comparator>, Memory>
    ensures { IfOk result (λ bound. option_map comparator_view bound ≡ spec.upper_of text.now) }
{
    bound_of(alloc, text, "<", Op::Less)
}

/// One bound.
#[tactic(auto, unfolding(crate::specs::Import::one_bound))]
fn one_bound(alloc: Global, text: &str) -> Result<Option<VersionReq>, Memory>
    ensures { IfOk result (λ req. option_map requirement_view req ≡ spec.one_bound text.now) }
{
    if let Some(lower) = lower_of(alloc, text)? {
        return Ok(Some(requirement_of_one(alloc, lower)?));
    }
    match upper_of(alloc, text)? {
        Some(upper) => Ok(Some(requirement_of_one(alloc, upper)?)),
        None => Ok(None),
    }
}

/// A lower bound and an upper one.
#[tactic(auto, unfolding(crate::specs::Import::both_bounds))]
fn both_bounds(alloc: Global, low: &str, high: &str) -> Result<Option<VersionReq>, Memory>
    ensures { IfOk result (λ req. option_map requirement_view req ≡ spec.both_bounds low.now high.now) }
{
    let Some(lower) = lower_of(alloc, low)? else {
        return Ok(None);
    };
    let Some(upper) = upper_of(alloc, high)? else {
        return Ok(None);
    };
    let mut comparators = Vec::new(alloc);
    comparators.push(lower)?;
    comparators.push(upper)?;
    Ok(Some(VersionReq { comparators }))
}

/// What stands in braces: a bound, or a lower and an upper one with a space between them.
#[tactic(auto, unfolding(crate::specs::Import::bounds_of))]
fn bounds_of(alloc: Global, text: &str) -> Result<Option<VersionReq>, Memory>
    ensures { IfOk result (λ req. option_map requirement_view req ≡ spec.bounds_of text.now) }
{
    match cut_first(text, ' ') {
        Some((low, high)) => both_bounds(alloc, low, high),
        None => one_bound(alloc, text),
    }
}

/// What stands after the `@` of a dependency: a star, or bounds in braces.
#[tactic(auto, unfolding(crate::specs::Import::requirement_of))]
fn requirement_of(alloc: Global, text: &str) -> Result<Option<VersionReq>, Memory>
    ensures { IfOk result (λ req. option_map requirement_view req ≡ spec.requirement_of text.now) }
{
    if text == "*" {
        return Ok(Some(VersionReq::star(alloc)));
    }
    let Some(text) = behind("{", text) else {
        return Ok(None);
    };
    match closed_by(text, '}') {
        Some(text) => bounds_of(alloc, text),
        None => Ok(None),
    }
}

/// What a text asks for as the inside of `unlocked-dep=<>`: a package, and where there is an `@`, a requirement after it.
#[tactic(auto, unfolding(crate::specs::Import::dependency_of))]
pub fn dependency_of(alloc: Global, text: &str) -> Result<Option<Import>, Memory>
    ensures { IfOk result (λ import. option_map import_tree import ≡ spec.dependency_of text.now) }
{
    let (package, req) = match cut_first(text, '@') {
        Some((package, rest)) => (package, requirement_of(alloc, rest)?),
        None => (text, Some(VersionReq::star(alloc))),
    };
    let Some(name) = package_of(alloc, package)? else {
        return Ok(None);
    };
    let Some(req) = req else {
        return Ok(None);
    };
    Ok(Some(Import {
        name,
        req,
        kind: ImportKind::Unlocked,
        exact: None,
    }))
}

/// What stands behind a locked package: nothing, or an integrity.
#[tactic(auto, unfolding(crate::specs::Import::integrity_of, crate::specs::Import::integrity_in))]
fn integrity_of(alloc: Global, text: &str) -> Result<Option<Option<Text>>, Memory>
    ensures { IfOk result (λ integrity. integrity ≡ spec.integrity_of text.now) }
{
    if text.is_empty() {
        return Ok(Some(None));
    }
    let Some(text) = behind(",integrity=<", text) else {
        return Ok(None);
    };
    match ended_by(text, '>') {
        Some(integrity) if !integrity.is_empty() => {
            Ok(Some(Some(Text::copy_of(alloc, integrity)?)))
        }
        _ => Ok(None),
    }
}

/// What stands inside `locked-dep=<>`: a package, and where there is an `@`, a version after it.
#[tactic(auto, unfolding(crate::specs::Import::release_of))]
fn release_of(alloc: Global, text: &str) -> Result<Option<(Text, Option<Version>)>, Memory>
    ensures { IfOk result (λ release. option_map (λ r. (r.0, option_map parts_of r.1)) release
        ≡ spec.release_of text.now) }
{
    let Some((package, version)) = cut_first(text, '@') else {
        return match package_of(alloc, text)? {
            Some(name) => Ok(Some((name, None))),
            None => Ok(None),
        };
    };
    let Some(name) = package_of(alloc, package)? else {
        return Ok(None);
    };
    match version_of(alloc, version)? {
        Some(version) => Ok(Some((name, Some(version)))),
        None => Ok(None),
    }
}

/// A locked release.
fn locked(
    alloc: Global,
    name: Text,
    version: Option<Version>,
    integrity: Option<Text>,
) -> Result<Import, Memory>
    ensures { IfOk result (λ import. import_tree import ≡ spec.locked name (option_map parts_of version) integrity) }
{
    let req = match &version {
        Some(version) => exactly(alloc, version)?,
        None => VersionReq::star(alloc),
    };
    Ok(Import {
        name,
        req,
        kind: ImportKind::Locked(integrity),
        exact: version,
    })
}

/// The requirement that only a version meets.
fn exactly(alloc: Global, version: &Version) -> Result<VersionReq, Memory>
    ensures { IfOk result (λ req. requirement_view req ≡ spec.compared Exact (parts_of version.now) ∷ []) }
{
    requirement_of_one(alloc, compared(Op::Exact, version.clone()?))
}

/// What stands behind `locked-dep=`.
#[tactic(auto, unfolding(crate::specs::Import::locked_of))]
fn locked_of(alloc: Global, text: &str) -> Result<Option<Import>, Memory>
    ensures { IfOk result (λ import. option_map import_tree import ≡ spec.locked_of text.now) }
{
    let Some(text) = behind("<", text) else {
        return Ok(None);
    };
    let Some((release, rest)) = cut_first(text, '>') else {
        return Ok(None);
    };
    let Some((name, version)) = release_of(alloc, release)? else {
        return Ok(None);
    };
    match integrity_of(alloc, rest)? {
        Some(integrity) => Ok(Some(locked(alloc, name, version, integrity)?)),
        None => Ok(None),
    }
}

/// An interface of a name.
fn interface(
    alloc: Global,
    name: &str,
    req: VersionReq,
    version: Option<Text>,
) -> Result<Import, Memory>
    ensures { IfOk result (λ import. import_tree import ≡ spec.interface name.now (requirement_view req) version) }
{
    Ok(Import {
        name: Text::copy_of(alloc, name)?,
        req,
        kind: ImportKind::Interface(version),
        exact: None,
    })
}

/// Any other name: where there is an `@`, a version stands after the first one.
#[tactic(auto, unfolding(crate::specs::Import::interface_of))]
fn interface_of(alloc: Global, text: &str) -> Result<Option<Import>, Memory>
    ensures { IfOk result (λ import. option_map import_tree import ≡ spec.interface_of text.now) }
{
    let Some((name, rest)) = cut_first(text, '@') else {
        if text.is_empty() {
            return Ok(None);
        }
        return Ok(Some(interface(alloc, text, VersionReq::star(alloc), None)?));
    };
    let Some(version) = version_of(alloc, rest)? else {
        return Ok(None);
    };
    let req = exactly(alloc, &version)?;
    Ok(Some(interface(alloc, name, req, Some(Text::copy_of(alloc, rest)?))?))
}

/// The import that a name asks for.
#[tactic(auto, unfolding(crate::specs::Import::import_of))]
pub fn import_of(alloc: Global, text: &str) -> Result<Option<Import>, Memory>
    ensures { IfOk result (λ import. option_map import_tree import ≡ spec.import_of text.now) }
{
    match behind("unlocked-dep=", text) {
        Some(rest) => unlocked_of(alloc, rest),
        None => other_of(alloc, text),
    }
}

/// What a name asks for that does not begin with `unlocked-dep=`.
#[tactic(auto, unfolding(crate::specs::Import::other_of))]
fn other_of(alloc: Global, text: &str) -> Result<Option<Import>, Memory>
    ensures { IfOk result (λ import. option_map import_tree import ≡ spec.other_of text.now) }
{
    match behind("locked-dep=", text) {
        Some(rest) => locked_of(alloc, rest),
        None => interface_of(alloc, text),
    }
}

/// What stands behind `unlocked-dep=`.
#[tactic(auto, unfolding(crate::specs::Import::unlocked_of))]
fn unlocked_of(alloc: Global, text: &str) -> Result<Option<Import>, Memory>
    ensures { IfOk result (λ import. option_map import_tree import ≡ spec.unlocked_of text.now) }
{
    let Some(text) = behind("<", text) else {
        return Ok(None);
    };
    match closed_by(text, '>') {
        Some(text) => dependency_of(alloc, text),
        None => Ok(None),
    }
}
