//! Who learns what a plan needs: the logs of packages by updates, and contents.

ghost use Rattle.std.specs.Prelude.{◌≡◌, IfOk, IfErr};
ghost use Rattle.warg_log.specs.Places.{release_views};
ghost use Rattle.warg_plan.specs.Known.{with_content, with_log};
ghost use Rattle.warg_plan.specs.View.{content_view};
ghost use Rattle.warg_plan.specs.Walk.{Facts, NeedsContent, NeedsLog};
ghost use Rattle.warg_assemble.specs.Parts.{Part, learnt};
ghost use Rattle.warg_learn.specs.Learnt.{IsLearnt};
ghost use Rattle.warg_learn.specs.Refusals.{fetch_refusal};
ghost use Rattle.warg_learn.specs.Seen.{seen, tells};
ghost use Rattle.warg_learn.specs.Taught.{IsTaught};
ghost use Rattle.warg_learn.specs.Unlearnt.{IsUnlearnt};

use crate::error::LearnError;
use crate::log::releases_of;
use crate::updated::note_registry;
use indexmap::IndexMap;
use std::alloc::Global;
use warg_api::{Client, Link};
use warg_assemble::ContentReader;
use warg_fetch::{FetchError, Fetcher, PackageUpdate, fetch_content};
use warg_hash::{AnyHash, PackageName};
use warg_hint::{Decide, HintSettings};
use warg_log::{Release, Verifier};
use warg_plan::Content;
use warg_session::{Recording, Settings};
use warg_store::{ContentStorage, NamespaceMapStorage, RegistryStorage};
use warg_url::RegistryDomain;

/// Learns what a plan needs, as a client of registries, over a link, and keeps it in stores.
#[derive(Drop)]
pub struct Learner<L, R, C, N, V, D, K> {
    /// As whom registries are asked.
    pub client: Client,
    /// The link, with the exchanges over it.
    pub link: Recording<L>,
    /// The store of registries.
    pub registries: R,
    /// The store of contents.
    pub contents: C,
    /// The store of the registries of namespaces.
    pub namespaces: N,
    /// Who says which signatures are good.
    pub verifier: V,
    /// Who decides what is not the client's own to decide.
    pub decide: D,
    /// Who reads contents.
    pub reader: K,
    /// What is done about hints at other registries.
    pub hints: HintSettings,
    /// How many pages of records may still be asked for.
    pub pages_left: u64,
    /// The name of the registry under which each package was updated, which the home registry has not.
    pub updated: IndexMap<PackageName, Option<RegistryDomain>>,
}

impl<
    L: Link,
    R: RegistryStorage,
    C: ContentStorage,
    N: NamespaceMapStorage,
    V: Verifier,
    D: Decide,
    K: ContentReader,
> Learner<L, R, C, N, V, D, K> {
    /// The update of a package, which begins with no log of it. What it proves is kept; it does not count as updated yet.
    pub(crate) fn update_package(
        &mut self,
        alloc: Global,
        name: &PackageName,
    ) -> Result<PackageUpdate, FetchError>
        ensures taught { IfOk result (IsTaught L.Steps
            (seen (tells V.good L.told L.faults R.told R.faults C.told C.faults N.told N.faults) self.old)
            (seen (tells V.good L.told L.faults R.told R.faults C.told C.faults N.told N.faults) self.new)
            name.now) }
        ensures refused { IfErr result (λ e. IsUnlearnt L.Steps D.said K.Refuses
            (seen (tells V.good L.told L.faults R.told R.faults C.told C.faults N.told N.faults) self.old)
            (NeedsLog name.now) (fetch_refusal e)
            (seen (tells V.good L.told L.faults R.told R.faults C.told C.faults N.told N.faults) self.new)) }
        ensures updated { self.new.updated ≡ self.old.updated }
    {
        let fetcher = Fetcher {
            client: &self.client,
            verifier: &self.verifier,
            settings: Settings {
                hints: self.hints,
                round_limit: self.pages_left,
            },
        };
        fetcher.fetch_package(
            alloc,
            &mut self.link,
            &mut self.registries,
            &mut self.namespaces,
            &mut self.decide,
            name,
        )
    }

    /// The releases in the log of a package, which is updated and kept.
    pub fn update_log(
        &mut self,
        alloc: Global,
        name: &PackageName,
    ) -> Result<Vec<Release>, LearnError<K::Refusal>>
        ensures learnt { IfOk result (λ releases. (part : Part)
            × ((facts : Facts) → learnt facts part ≡ with_log facts name.now (release_views releases.items))
            × IsLearnt L.Steps K.Reads
            (seen (tells V.good L.told L.faults R.told R.faults C.told C.faults N.told N.faults) self.old)
            (NeedsLog name.now) part
            (seen (tells V.good L.told L.faults R.told R.faults C.told C.faults N.told N.faults) self.new)) }
        ensures refused { IfErr result (λ e. IsUnlearnt L.Steps D.said K.Refuses
            (seen (tells V.good L.told L.faults R.told R.faults C.told C.faults N.told N.faults) self.old)
            (NeedsLog name.now) e
            (seen (tells V.good L.told L.faults R.told R.faults C.told C.faults N.told N.faults) self.new)) }
    {
        let key = name.try_clone(alloc)?;
        let update = self.update_package(alloc, name)?;
        let pages_left = update.pages_left;
        let info = update.info;
        let releases = releases_of(alloc, &info)?;
        note_registry(&mut self.updated, key, info.registry)?;
        self.pages_left = pages_left;
        Ok(releases)
    }

    /// The content of a digest, from the store or by a download, under the registry of its package's update.
    pub fn load_content(
        &mut self,
        alloc: Global,
        name: &PackageName,
        digest: &AnyHash,
    ) -> Result<Content, LearnError<K::Refusal>>
        ensures learnt { IfOk result (λ content. (part : Part)
            × ((facts : Facts) → learnt facts part ≡ with_content facts digest.now (content_view content))
            × IsLearnt L.Steps K.Reads
            (seen (tells V.good L.told L.faults R.told R.faults C.told C.faults N.told N.faults) self.old)
            (NeedsContent name.now digest.now) part
            (seen (tells V.good L.told L.faults R.told R.faults C.told C.faults N.told N.faults) self.new)) }
        ensures refused { IfErr result (λ e. IsUnlearnt L.Steps D.said K.Refuses
            (seen (tells V.good L.told L.faults R.told R.faults C.told C.faults N.told N.faults) self.old)
            (NeedsContent name.now digest.now) e
            (seen (tells V.good L.told L.faults R.told R.faults C.told C.faults N.told N.faults) self.new)) }
    {
        let Some(registry) = self.updated.get(name) else {
            // A walk asks for the contents of a package after its log, whose registry is noted then.
            return Err(LearnError::Memory);
        };
        let bytes = fetch_content(
            alloc,
            &self.client,
            &mut self.link,
            &mut self.contents,
            registry.as_ref(),
            digest,
        )?;
        match self.reader.read_content(alloc, bytes) {
            Ok(content) => Ok(content),
            Err(refusal) => Err(LearnError::Content(refusal)),
        }
    }
}
