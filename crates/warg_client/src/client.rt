//! A client of registries.

ghost use Rattle.std.specs.Prelude.{◌≡◌, ◌≢◌, ◌≤◌, [], codes, true, Some, None, Ok, Err, IfOk, IfErr, IfSome, OnErr, option_copied, option_map};
ghost use Rattle.url.specs.declared.error.ParseError.{ParseError as Fault};
ghost use Rattle.url.specs.Parts.{Parts, nonempty_host};
ghost use Rattle.warg_url.specs.declared.error.UrlError.{UrlError};
ghost use Rattle.warg_url.specs.RegistryUrl.{IsLocal, IsSafe, ReadsAs, base_of};
ghost use Rattle.warg_url.specs.declared.error.UrlError.TheVariants.{NotUrl as IsNotUrl, NotHttps as IsNotHttps, Insecure as IsInsecure};
ghost use Rattle.warg_store.specs.Held.{Tells};
ghost use Rattle.warg_assemble.specs.Known.{Known};
ghost use Rattle.warg_learn.specs.Fetched.{IsLookupFault};
ghost use Rattle.warg_learn.specs.Stored.{KnowsNames, KnowsRegistries, registry_for as registry_by_names};
ghost use Rattle.warg_complete.specs.Calls.{url_refusal};
ghost use Rattle.warg_client.specs.Errors.{IsOfStore};
ghost use Rattle.warg_client.specs.Shown.{asking, said_by, registry_of, content_of, names_of, verifier_of, decider_of, settings_of, assembly_of, left_of, lock_of, plan_of};

use crate::settings::Settings;
use indexmap::IndexMap;
use std::alloc::Global;
use warg_api::{Client as RegistryClient, Link};
use warg_complete::ClientError;
use warg_compose::{ComponentReader, Lock};
use warg_exchange::Exchange;
use warg_learn::{Learner, Recording, registry_for};
use warg_plan::Plan;
use warg_store::{NamespaceMapStorage, RegistryStorage};
use warg_url::{RegistryDomain, RegistryUrl};
use warg_values::Text;

/// A client of registries: whom it asks and over which link, what it keeps, and what it goes by.
#[derive(Drop)]
pub struct Client<L, R, C, N, V, D> {
    /// As whom it asks registries, over which link, what it keeps, and by which signatures and decisions it goes.
    pub(crate) learner: Learner<L, R, C, N, V, D, ComponentReader>,
    /// What is set for it.
    pub(crate) settings: Settings,
    /// What it assembled last.
    pub(crate) last: Option<Assembly>,
}

/// What a component was assembled of.
#[derive(Debug, Drop)]
pub struct Assembly {
    /// The plan.
    pub plan: Plan,
    /// The plan's lock.
    pub lock: Lock,
}

impl<L: Link, R: Drop, C: Drop, N: Drop, V: Drop, D: Drop> Client<L, R, C, N, V, D> {
    /// A client of the registry at a URL, which asks it over this link, keeps what it learns in these stores, and goes
    /// by these signatures, decisions and settings.
    ///
    /// The URL is refused as `RegistryUrl::new` refuses it.
    pub fn new(
        alloc: Global,
        url: &str,
        link: L,
        registry: R,
        content: C,
        namespace_map: N,
        verifier: V,
        decide: D,
        auth_token: Option<Text>,
        settings: Settings,
    ) -> Result<Self, ClientError>
        ensures asks { IfOk result (λ client. (read : Parts) × ReadsAs url.now (Ok read) × IsSafe read
            × (asking client ≡ record { url = base_of read; auth_token = auth_token; warg_registry = None })) }
        ensures link { IfOk result (λ client. said_by L.told client
            ≡ record { link = L.told link; exchanges = []; is_whole = true }) }
        ensures registry { IfOk result (λ client. registry_of client ≡ registry) }
        ensures content { IfOk result (λ client. content_of client ≡ content) }
        ensures names { IfOk result (λ client. names_of client ≡ namespace_map) }
        ensures verifier { IfOk result (λ client. verifier_of client ≡ verifier) }
        ensures decider { IfOk result (λ client. decider_of client ≡ decide) }
        ensures settings { IfOk result (λ client. settings_of client ≡ settings) }
        ensures plan { IfOk result (λ client. plan_of client ≡ None) }
        ensures not_url { (result ≡ Err (url_refusal IsNotUrl)) → (e : Fault) × ReadsAs url.now (Err e) }
        ensures not_https { (result ≡ Err (url_refusal IsNotHttps)) → (read : Parts) × ReadsAs url.now (Ok read)
            × (read.scheme ≢ codes "https") × (read.scheme ≢ codes "http") }
        ensures insecure { (result ≡ Err (url_refusal IsInsecure)) → (read : Parts) × ReadsAs url.now (Ok read)
            × (read.scheme ≡ codes "http") × (IsLocal (nonempty_host read) → ⊥) }
        ensures of_url { IfErr result (λ e. (refusal : UrlError) × (e ≡ url_refusal refusal)) }
    {
        let client = RegistryClient::new(alloc, url, auth_token)?;
        Ok(Client {
            learner: Learner {
                client,
                link: Recording::new(alloc, link),
                registries: registry,
                contents: content,
                namespaces: namespace_map,
                verifier,
                decide,
                reader: ComponentReader,
                hints: settings.hints(),
                pages_left: settings.round_limit,
                updated: IndexMap::new(alloc),
            },
            settings,
            last: None,
        })
    }

    /// Where the home registry is.
    pub fn url(&self) -> &RegistryUrl
        ensures { result.now ≡ (asking self.now).url }
    {
        self.learner.client.url()
    }

    /// The store of registries.
    pub fn registry(&self) -> &R
        ensures { result.now ≡ registry_of self.now }
    {
        &self.learner.registries
    }

    /// The store of contents.
    pub fn content(&self) -> &C
        ensures { result.now ≡ content_of self.now }
    {
        &self.learner.contents
    }

    /// The store of the registries of namespaces.
    pub fn namespace_map(&self) -> &N
        ensures { result.now ≡ names_of self.now }
    {
        &self.learner.namespaces
    }

    /// The exchanges over the link, in order.
    pub fn transcript(&self) -> &[Exchange]
        ensures { result.now ≡ (said_by L.told self.now).exchanges }
    {
        self.learner.link.exchanges()
    }

    /// The plan of what was assembled last.
    pub fn last_plan(&self) -> Option<&Plan>
        ensures { option_copied result ≡ plan_of self.now }
    {
        match &self.last {
            Some(made) => Some(&made.plan),
            None => None,
        }
    }

    /// The lock of what was assembled last: a component that imports those of the plan's releases, each under the name of
    /// its release.
    pub fn last_lock(&self) -> Option<&[u8]>
        ensures { option_map (λ bytes. bytes.now) result ≡ lock_of self.now }
    {
        match &self.last {
            Some(made) => Some(&made.lock.bytes),
            None => None,
        }
    }

    /// The names of the imports that what was assembled last leaves open, in the order in which the lock has them.
    pub fn last_left(&self) -> Option<&[Text]>
        ensures { option_map (λ names. names.now) result ≡ left_of self.now }
    {
        match &self.last {
            Some(made) => Some(&made.lock.left),
            None => None,
        }
    }

    /// What was assembled last, without the client.
    pub fn into_assembly(self) -> Option<Assembly>
        ensures { result ≡ assembly_of self }
    {
        self.last
    }

    /// The stores: those of registries, of contents and of the registries of namespaces.
    pub fn into_stores(self) -> (R, C, N)
        ensures registry { result.0 ≡ registry_of self }
        ensures content { result.1 ≡ content_of self }
        ensures names { result.2 ≡ names_of self }
    {
        let learner = self.learner;
        (learner.registries, learner.contents, learner.namespaces)
    }
}

impl<L: Link, R: RegistryStorage, C, N: NamespaceMapStorage, V, D> Client<L, R, C, N, V, D> {
    /// The name of the registry that has the packages of a namespace, which the home registry has not: the one of which
    /// the home registry's operator says so, by the log that is kept, or else the one of the map that is kept.
    pub fn get_warg_registry(
        &mut self,
        alloc: Global,
        namespace: &str,
    ) -> Result<Option<RegistryDomain>, ClientError>
        ensures registries_never_fall { R.faults (registry_of self.old) ≤ R.faults (registry_of self.new) }
        ensures names_never_fall { N.faults (names_of self.old) ≤ N.faults (names_of self.new) }
        ensures kept { IfSome (R.told (registry_of self.old)) (Tells (R.told (registry_of self.new))) }
        ensures names_kept { N.told (names_of self.new) ≡ N.told (names_of self.old) }
        ensures unasked { said_by L.told self.new ≡ said_by L.told self.old }
        ensures found { IfOk result (λ registry. (known : Known)
            → KnowsRegistries (R.told (registry_of self.old)) known → KnowsNames (N.told (names_of self.old)) known
            → registry ≡ registry_by_names known namespace.now) }
        ensures cause { IfErr result (λ e. IsOfStore e (λ refusal. IsLookupFault refusal
            (record {
              before = R.faults (registry_of self.old);
              after = R.faults (registry_of self.new);
              told = R.told (registry_of self.old);
            })
            (record {
              before = N.faults (names_of self.old);
              after = N.faults (names_of self.new);
              told = N.told (names_of self.old);
            }))) }
    {
        let registry = registry_for(
            alloc,
            &mut self.learner.registries,
            &mut self.learner.namespaces,
            namespace,
        )?;
        Ok(registry)
    }
}
