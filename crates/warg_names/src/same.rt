//! Whether imports ask for the same, and copies of them.

ghost use Rattle.std.specs.Prelude.{◌≡◌, ◌&&◌, ℕ, List, IfOk, map, option_map, option_copied, bytes_eq};
ghost use Rattle.std.specs.Cmp.Lexicographic.{pointwise};
ghost use Rattle.std.specs.Option.{option_eq};
ghost use Rattle.semver.specs.Identifiers.{comparator_view, parts_of};
ghost use Rattle.warg_log.specs.History.{same_version};
ghost use Rattle.warg_names.specs.Same as spec;
ghost use Rattle.warg_names.specs.View.{import_tree, kind_tree, requirement_view};

use crate::import::{Import, ImportKind};
use semver::{Comparator, Op, Version, VersionReq};
use std::alloc::Global;
use warg_values::Memory;

impl Import {
    /// Whether two imports ask for the same: name, requirement, kind and exact version.
    #[tactic(auto, unfolding(crate::specs::Same::same_import))]
    pub fn is_same(&self, other: &Import) -> bool
        ensures { result ≡ spec.same_import (import_tree self.now) (import_tree other.now) }
    {
        let name = self.name == other.name;
        let req = are_same(&self.req.comparators, &other.req.comparators);
        let kind = is_same_kind(&self.kind, &other.kind);
        let exact = is_same_exact(self.exact.as_ref(), other.exact.as_ref());
        name && (req && (kind && exact))
    }

    /// An import of its own that asks for the same.
    pub fn try_clone(&self, alloc: Global) -> Result<Self, Memory>
        ensures { IfOk result (λ copy. import_tree copy ≡ import_tree self.now) }
    {
        let exact = match &self.exact {
            Some(version) => Some(version.clone()?),
            None => None,
        };
        Ok(Import {
            name: self.name.try_clone(alloc)?,
            req: copy_of(alloc, &self.req)?,
            kind: self.kind.try_clone(alloc)?,
            exact,
        })
    }
}

impl ImportKind {
    /// An equal kind of its own.
    pub fn try_clone(&self, alloc: Global) -> Result<Self, Memory>
        ensures { IfOk result (λ copy. kind_tree copy ≡ kind_tree self.now) }
    {
        Ok(match self {
            ImportKind::Locked(Some(integrity)) => {
                ImportKind::Locked(Some(integrity.try_clone(alloc)?))
            }
            ImportKind::Locked(None) => ImportKind::Locked(None),
            ImportKind::Unlocked => ImportKind::Unlocked,
            ImportKind::Interface(Some(version)) => {
                ImportKind::Interface(Some(version.try_clone(alloc)?))
            }
            ImportKind::Interface(None) => ImportKind::Interface(None),
        })
    }
}

/// A requirement of its own with the same comparators.
fn copy_of(alloc: Global, req: &VersionReq) -> Result<VersionReq, Memory>
    ensures { IfOk result (λ copy. requirement_view copy ≡ requirement_view req.now) }
{
    let mut comparators = Vec::new(alloc);
    for comparator in req.comparators.as_slice() {
        comparators.push(comparator_of(comparator)?)?;
    }
    Ok(VersionReq { comparators })
}

/// An equal comparator of its own.
fn comparator_of(comparator: &Comparator) -> Result<Comparator, Memory>
    ensures { IfOk result (λ copy. comparator_view copy ≡ comparator_view comparator.now) }
{
    Ok(Comparator {
        op: comparator.op,
        major: comparator.major,
        minor: comparator.minor,
        patch: comparator.patch,
        pre: comparator.pre.clone()?,
    })
}

/// Whether two lists have the same comparators.
fn are_same(a: &[Comparator], b: &[Comparator]) -> bool
    ensures { result ≡ spec.same_requirement (map comparator_view a.now) (map comparator_view b.now) }
{
    let mut left = a;
    let mut right = b;
    while let [x, more @ ..] = left {
        let [y, others @ ..] = right else {
            return false;
        };
        if !is_same_comparator(x, y) {
            return false;
        }
        left = more;
        right = others;
    }
    right.is_empty()
}

/// Whether two comparators are the same.
fn is_same_comparator(a: &Comparator, b: &Comparator) -> bool
    ensures { result ≡ spec.same_held (comparator_view a.now) (comparator_view b.now) }
{
    let op = op_number(a.op) == op_number(b.op);
    op && (a.major == b.major && (a.minor == b.minor && (a.patch == b.patch && a.pre == b.pre)))
}

/// The number of an operator.
fn op_number(op: Op) -> u8
    ensures { result ≡ spec.op_number op }
{
    match op {
        Op::Exact => 0,
        Op::Greater => 1,
        Op::GreaterEq => 2,
        Op::Less => 3,
        Op::LessEq => 4,
        Op::Tilde => 5,
        Op::Caret => 6,
        Op::Wildcard => 7,
    }
}

/// Whether two kinds are the same.
fn is_same_kind(a: &ImportKind, b: &ImportKind) -> bool
    ensures { result ≡ spec.same_kind (kind_tree a.now) (kind_tree b.now) }
{
    match (a, b) {
        (ImportKind::Locked(a), ImportKind::Locked(b)) => a == b,
        (ImportKind::Unlocked, ImportKind::Unlocked) => true,
        (ImportKind::Interface(a), ImportKind::Interface(b)) => a == b,
        _ => false,
    }
}

/// Whether two versions are the same, build metadata too, where they are given.
fn is_same_exact(a: Option<&Version>, b: Option<&Version>) -> bool
    ensures { result ≡ option_eq same_version (option_map parts_of (option_copied a.entry))
        (option_map parts_of (option_copied b.entry)) }
{
    match (a, b) {
        (Some(a), Some(b)) => is_same_version(a, b),
        (None, None) => true,
        _ => false,
    }
}

/// Whether two versions are the same, build metadata too.
fn is_same_version(a: &Version, b: &Version) -> bool
    ensures { result ≡ same_version (parts_of a.now) (parts_of b.now) }
{
    let core = a.major == b.major && (a.minor == b.minor && a.patch == b.patch);
    core && (a.pre == b.pre && a.build == b.build)
}
