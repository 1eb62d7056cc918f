//! The ways in which a learner learns what a plan needs.

ghost use Rattle.warg_assemble.specs.Parts.{Part, learnt};
ghost use Rattle.warg_learn.specs.Learnt.{IsLearnt};
ghost use Rattle.warg_learn.specs.Recalled.{IsRecalledOrLearnt, IsNeitherLearnt, Lesson as KeptLesson, taught};
ghost use Rattle.warg_learn.specs.Seen.{Seen, seen, tells};
ghost use Rattle.warg_learn.specs.Unlearnt.{IsUnlearnt};

use crate::error::LearnError;
use crate::learner::Learner;
use std::alloc::Global;
use warg_api::Link;
use warg_assemble::ContentReader;
use warg_hash::{AnyHash, PackageName};
use warg_hint::Decide;
use warg_log::{Release, Verifier};
use warg_plan::Content;
use warg_search::Learn;
use warg_store::{ContentStorage, NamespaceMapStorage, RegistryStorage};

/// The way of one who begins anew: the log of each package is updated.
#[derive(Clone, Copy, Debug, PartialEq, Eq, Drop)]
pub struct Updates;

/// The way of one who goes by what is kept: the log of a package is the one that is kept, and only where none is kept
/// the package is updated.
#[derive(Clone, Copy, Debug, PartialEq, Eq, Drop)]
pub struct KeptFirst;

impl<
    L: Link,
    R: RegistryStorage,
    C: ContentStorage,
    N: NamespaceMapStorage,
    V: Verifier,
    D: Decide,
    K: ContentReader,
> Learn<Learner<L, R, C, N, V, D, K>> for Updates {
    type Refusal = LearnError<K::Refusal>;

    ghost Told = { Seen L.Told D };

    ghost told = { seen (tells V.good L.told L.faults R.told R.faults C.told C.faults N.told N.faults) };

    ghost Lesson = { Part };

    ghost teaches = { learnt };

    ghost Learns = { IsLearnt L.Steps K.Reads };

    ghost Refuses = { IsUnlearnt L.Steps D.said K.Refuses };

    fn learn_log(
        &self,
        alloc: Global,
        learner: &mut Learner<L, R, C, N, V, D, K>,
        name: &PackageName,
    ) -> Result<Vec<Release>, LearnError<K::Refusal>> {
        learner.update_log(alloc, name)
    }

    fn learn_content(
        &self,
        alloc: Global,
        learner: &mut Learner<L, R, C, N, V, D, K>,
        name: &PackageName,
        digest: &AnyHash,
    ) -> Result<Content, LearnError<K::Refusal>> {
        learner.load_content(alloc, name, digest)
    }
}

impl<
    L: Link,
    R: RegistryStorage,
    C: ContentStorage,
    N: NamespaceMapStorage,
    V: Verifier,
    D: Decide,
    K: ContentReader,
> Learn<Learner<L, R, C, N, V, D, K>> for KeptFirst {
    type Refusal = LearnError<K::Refusal>;

    ghost Told = { Seen L.Told D };

    ghost told = { seen (tells V.good L.told L.faults R.told R.faults C.told C.faults N.told N.faults) };

    ghost Lesson = { KeptLesson };

    ghost teaches = { taught };

    ghost Learns = { IsRecalledOrLearnt L.Steps K.Reads };

    ghost Refuses = { IsNeitherLearnt L.Steps D.said K.Refuses };

    fn learn_log(
        &self,
        alloc: Global,
        learner: &mut Learner<L, R, C, N, V, D, K>,
        name: &PackageName,
    ) -> Result<Vec<Release>, LearnError<K::Refusal>> {
        match learner.recall_log(alloc, name)? {
            Some(releases) => Ok(releases),
            None => learner.update_log(alloc, name),
        }
    }

    fn learn_content(
        &self,
        alloc: Global,
        learner: &mut Learner<L, R, C, N, V, D, K>,
        name: &PackageName,
        digest: &AnyHash,
    ) -> Result<Content, LearnError<K::Refusal>> {
        learner.load_content(alloc, name, digest)
    }
}
