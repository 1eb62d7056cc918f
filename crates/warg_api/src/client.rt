//! Calls of registries.

ghost use Rattle.std.specs.Prelude.{◌≡◌, ◌≢◌, ◌≤◌, codes, Ok, Err, IfOk, IfErr, option_copied, None};
ghost use Rattle.url.specs.declared.error.ParseError.{ParseError as Fault};
ghost use Rattle.url.specs.Parts.{Parts, nonempty_host};
ghost use Rattle.warg_url.specs.RegistryUrl.{ReadsAs, IsLocal, IsSafe, base_of};
ghost use Rattle.warg_url.specs.declared.error.UrlError.TheVariants.{NotUrl as IsNotUrl, NotHttps as IsNotHttps, Insecure as IsInsecure};
ghost use Rattle.warg_values.specs.Faults.{Rose};
ghost use Rattle.warg_exchange.specs.Replies.{says, checkpoint_in, page_in, names_in, sources_in, ledger_in, publishing_in, verification_in};
ghost use Rattle.warg_record.specs.View.{envelope_view, package_entry_view};
ghost use Rattle.warg_exchange.specs.Requests.{checkpoint_request, logs_request, names_request, sources_request, ledger_request, record_request, publish_request, verification_request};
ghost use Rattle.warg_exchange.specs.Views.{page_view, names_view, sources_view, publishing_view};
ghost use Rattle.warg_api.specs.Asking.{asker};
ghost use Rattle.warg_api.specs.Calls.{Asks, IsCallFault};
ghost use Rattle.warg_api.specs.Errors.{fetch_error, package_error, content_error, monitor_error, ledger_error, logs_error};
ghost use Rattle.warg_api.specs.declared.error.ClientError.TheVariants.{LinkFault as Faulted};

use crate::ask::call;
use crate::error::ClientError;
use crate::link::Link;
use crate::service::Logs;
use std::alloc::Global;
use warg_exchange::{
    CheckpointVerificationResponse, ContentError, ContentSourcesResponse, FetchError,
    FetchLogsRequest, FetchLogsResponse, FetchPackageNamesResponse, LedgerError,
    LedgerSourcesResponse, MonitorError, PackageError, PackageRecord, PublishRecordRequest,
    SignedCheckpoint,
};
use warg_hash::{AnyHash, LogId, RecordId};
use warg_request::Asker;
use warg_url::{RegistryDomain, RegistryUrl, UrlError};
use warg_values::Text;

/// A client of registries, which asks them through a link.
#[derive(Debug, Drop)]
pub struct Client {
    /// Where the registry is.
    pub url: RegistryUrl,
    /// The token by which registries know the client, where it has one.
    pub auth_token: Option<Text>,
    /// The registry that the client was told to mean, which is sent nowhere.
    pub warg_registry: Option<RegistryDomain>,
}

impl Client {
    /// A client of the registry at a URL, with a token by which registries know it.
    ///
    /// The URL is refused as `RegistryUrl::new` refuses it.
    pub fn new(alloc: Global, url: &str, auth_token: Option<Text>) -> Result<Self, UrlError>
        ensures ok { IfOk result (λ client. (read : Parts) × ReadsAs url.now (Ok read) × IsSafe read
            × (client ≡ record { url = base_of read; auth_token = auth_token; warg_registry = None })) }
        ensures not_url { (result ≡ Err IsNotUrl) → (e : Fault) × ReadsAs url.now (Err e) }
        ensures not_https { (result ≡ Err IsNotHttps) → (read : Parts) × ReadsAs url.now (Ok read)
            × (read.scheme ≢ codes "https") × (read.scheme ≢ codes "http") }
        ensures insecure { (result ≡ Err IsInsecure) → (read : Parts) × ReadsAs url.now (Ok read)
            × (read.scheme ≡ codes "http") × (IsLocal (nonempty_host read) → ⊥) }
    {
        match RegistryUrl::new(alloc, url) {
            Ok(url) => Ok(Client {
                url,
                auth_token,
                warg_registry: None,
            }),
            Err(error) => Err(error),
        }
    }

    /// Where the registry is.
    pub fn url(&self) -> &RegistryUrl
        ensures { result.now ≡ self.now.url }
    {
        &self.url
    }

    /// The token by which a registry knows the client, where it has one.
    pub fn auth_token(&self) -> Option<&str>
        ensures { option_copied result ≡ self.now.auth_token }
    {
        match &self.auth_token {
            Some(token) => Some(token.as_str()),
            None => None,
        }
    }

    /// Tells the client which registry it is to mean. It is kept, and sent nowhere.
    pub fn set_warg_registry(&mut self, registry: Option<RegistryDomain>)
        ensures { self.new ≡ record self.old { warg_registry = registry } }
    {
        self.warg_registry = registry;
    }

    /// The latest checkpoint of a registry.
    ///
    /// What the registry refuses is `Fetch`.
    pub fn latest_checkpoint<L: Link>(
        &self,
        alloc: Global,
        link: &mut L,
        registry: Option<&RegistryDomain>,
    ) -> Result<SignedCheckpoint, ClientError>
        ensures never_falls { L.faults link.old ≤ L.faults link.new }
        ensures ok { IfOk result (λ checkpoint. Asks L.Steps (L.told link.old)
            (checkpoint_request (asker self.now (option_copied registry.entry)))
            (L.told link.new)
            (λ reply. says checkpoint_in reply ≡ Ok checkpoint)) }
        ensures err { IfErr result (λ e. IsCallFault (asker self.now (option_copied registry.entry)) fetch_error e
            L.Steps (L.told link.old)
            (checkpoint_request (asker self.now (option_copied registry.entry)))
            (L.told link.new) checkpoint_in) }
        ensures link_fault { (result ≡ Err Faulted) → Rose (L.faults link.old) (L.faults link.new) }
    {
        let asker = Asker {
            url: &self.url,
            token: &self.auth_token,
            registry,
        };
        let request = asker.checkpoint_request(alloc);
        call::<L, SignedCheckpoint, FetchError>(alloc, link, request)
    }

    /// What a monitor knows of a checkpoint.
    ///
    /// What the monitor refuses is `Monitor`.
    pub fn verify_checkpoint<L: Link>(
        &self,
        alloc: Global,
        link: &mut L,
        registry: Option<&RegistryDomain>,
        checkpoint: &SignedCheckpoint,
    ) -> Result<CheckpointVerificationResponse, ClientError>
        ensures never_falls { L.faults link.old ≤ L.faults link.new }
        ensures ok { IfOk result (λ verified. Asks L.Steps (L.told link.old)
            (verification_request (asker self.now (option_copied registry.entry)) checkpoint.now)
            (L.told link.new)
            (λ reply. says verification_in reply ≡ Ok verified)) }
        ensures err { IfErr result (λ e. IsCallFault (asker self.now (option_copied registry.entry)) monitor_error e
            L.Steps (L.told link.old)
            (verification_request (asker self.now (option_copied registry.entry)) checkpoint.now)
            (L.told link.new) verification_in) }
        ensures link_fault { (result ≡ Err Faulted) → Rose (L.faults link.old) (L.faults link.new) }
    {
        let asker = Asker {
            url: &self.url,
            token: &self.auth_token,
            registry,
        };
        let request = asker.verification_request(alloc, checkpoint);
        call::<L, CheckpointVerificationResponse, MonitorError>(alloc, link, request)
    }

    /// A page of logs.
    ///
    /// What the registry refuses is `Fetch`, and `LogNotFoundWithHint` where it has no such log and tells of another
    /// registry.
    pub fn fetch_logs<L: Link>(
        &self,
        alloc: Global,
        link: &mut L,
        registry: Option<&RegistryDomain>,
        request: &FetchLogsRequest,
    ) -> Result<FetchLogsResponse, ClientError>
        ensures never_falls { L.faults link.old ≤ L.faults link.new }
        ensures ok { IfOk result (λ page. Asks L.Steps (L.told link.old)
            (logs_request (asker self.now (option_copied registry.entry)) request.now.log_length request.now.operator request.now.packages.entries)
            (L.told link.new)
            (λ reply. says page_in reply ≡ Ok (page_view page))) }
        ensures err { IfErr result (λ e. IsCallFault (asker self.now (option_copied registry.entry)) logs_error e
            L.Steps (L.told link.old)
            (logs_request (asker self.now (option_copied registry.entry)) request.now.log_length request.now.operator request.now.packages.entries)
            (L.told link.new) page_in) }
        ensures link_fault { (result ≡ Err Faulted) → Rose (L.faults link.old) (L.faults link.new) }
    {
        let asker = Asker {
            url: &self.url,
            token: &self.auth_token,
            registry,
        };
        let request = asker.logs_request(alloc, request);
        call::<L, FetchLogsResponse, Logs>(alloc, link, request)
    }

    /// The names of the packages whose logs have these ids, where the registry tells them.
    ///
    /// What the registry refuses is `Fetch`.
    pub fn fetch_package_names<L: Link>(
        &self,
        alloc: Global,
        link: &mut L,
        registry: Option<&RegistryDomain>,
        ids: &[LogId],
    ) -> Result<FetchPackageNamesResponse, ClientError>
        ensures never_falls { L.faults link.old ≤ L.faults link.new }
        ensures ok { IfOk result (λ names. Asks L.Steps (L.told link.old)
            (names_request (asker self.now (option_copied registry.entry)) ids.now)
            (L.told link.new)
            (λ reply. says names_in reply ≡ Ok (names_view names))) }
        ensures err { IfErr result (λ e. IsCallFault (asker self.now (option_copied registry.entry)) fetch_error e
            L.Steps (L.told link.old)
            (names_request (asker self.now (option_copied registry.entry)) ids.now)
            (L.told link.new) names_in) }
        ensures link_fault { (result ≡ Err Faulted) → Rose (L.faults link.old) (L.faults link.new) }
    {
        let asker = Asker {
            url: &self.url,
            token: &self.auth_token,
            registry,
        };
        let request = asker.names_request(alloc, ids);
        call::<L, FetchPackageNamesResponse, FetchError>(alloc, link, request)
    }

    /// Where a registry's log is.
    ///
    /// What the registry refuses is `Ledger`.
    pub fn ledger_sources<L: Link>(
        &self,
        alloc: Global,
        link: &mut L,
        registry: Option<&RegistryDomain>,
    ) -> Result<LedgerSourcesResponse, ClientError>
        ensures never_falls { L.faults link.old ≤ L.faults link.new }
        ensures ok { IfOk result (λ sources. Asks L.Steps (L.told link.old)
            (ledger_request (asker self.now (option_copied registry.entry)))
            (L.told link.new)
            (λ reply. says ledger_in reply ≡ Ok sources)) }
        ensures err { IfErr result (λ e. IsCallFault (asker self.now (option_copied registry.entry)) ledger_error e
            L.Steps (L.told link.old)
            (ledger_request (asker self.now (option_copied registry.entry)))
            (L.told link.new) ledger_in) }
        ensures link_fault { (result ≡ Err Faulted) → Rose (L.faults link.old) (L.faults link.new) }
    {
        let asker = Asker {
            url: &self.url,
            token: &self.auth_token,
            registry,
        };
        let request = asker.ledger_request(alloc);
        call::<L, LedgerSourcesResponse, LedgerError>(alloc, link, request)
    }

    /// Publishes a record of a package's log, and tells how far its publishing is.
    ///
    /// What the registry refuses is `Package`.
    pub fn publish_package_record<L: Link>(
        &self,
        alloc: Global,
        link: &mut L,
        registry: Option<&RegistryDomain>,
        log_id: &LogId,
        request: &PublishRecordRequest,
    ) -> Result<PackageRecord, ClientError>
        ensures never_falls { L.faults link.old ≤ L.faults link.new }
        ensures ok { IfOk result (λ state. Asks L.Steps (L.told link.old)
            (publish_request (asker self.now (option_copied registry.entry)) log_id.now request.now.package_name (envelope_view package_entry_view request.now.envelope))
            (L.told link.new)
            (λ reply. says publishing_in reply ≡ Ok (publishing_view state))) }
        ensures err { IfErr result (λ e. IsCallFault (asker self.now (option_copied registry.entry)) package_error e
            L.Steps (L.told link.old)
            (publish_request (asker self.now (option_copied registry.entry)) log_id.now request.now.package_name (envelope_view package_entry_view request.now.envelope))
            (L.told link.new) publishing_in) }
        ensures link_fault { (result ≡ Err Faulted) → Rose (L.faults link.old) (L.faults link.new) }
    {
        let asker = Asker {
            url: &self.url,
            token: &self.auth_token,
            registry,
        };
        let request = asker.publish_request(alloc, log_id, request);
        call::<L, PackageRecord, PackageError>(alloc, link, request)
    }

    /// How far the publishing of a record is.
    ///
    /// What the registry refuses is `Package`.
    pub fn get_package_record<L: Link>(
        &self,
        alloc: Global,
        link: &mut L,
        registry: Option<&RegistryDomain>,
        log_id: &LogId,
        record_id: &RecordId,
    ) -> Result<PackageRecord, ClientError>
        ensures never_falls { L.faults link.old ≤ L.faults link.new }
        ensures ok { IfOk result (λ state. Asks L.Steps (L.told link.old)
            (record_request (asker self.now (option_copied registry.entry)) log_id.now record_id.now)
            (L.told link.new)
            (λ reply. says publishing_in reply ≡ Ok (publishing_view state))) }
        ensures err { IfErr result (λ e. IsCallFault (asker self.now (option_copied registry.entry)) package_error e
            L.Steps (L.told link.old)
            (record_request (asker self.now (option_copied registry.entry)) log_id.now record_id.now)
            (L.told link.new) publishing_in) }
        ensures link_fault { (result ≡ Err Faulted) → Rose (L.faults link.old) (L.faults link.new) }
    {
        let asker = Asker {
            url: &self.url,
            token: &self.auth_token,
            registry,
        };
        let request = asker.record_request(alloc, log_id, record_id);
        call::<L, PackageRecord, PackageError>(alloc, link, request)
    }

    /// Where a content is.
    ///
    /// What the registry refuses is `Content`.
    pub fn content_sources<L: Link>(
        &self,
        alloc: Global,
        link: &mut L,
        registry: Option<&RegistryDomain>,
        digest: &AnyHash,
    ) -> Result<ContentSourcesResponse, ClientError>
        ensures never_falls { L.faults link.old ≤ L.faults link.new }
        ensures ok { IfOk result (λ sources. Asks L.Steps (L.told link.old)
            (sources_request (asker self.now (option_copied registry.entry)) digest.now)
            (L.told link.new)
            (λ reply. says sources_in reply ≡ Ok (sources_view sources))) }
        ensures err { IfErr result (λ e. IsCallFault (asker self.now (option_copied registry.entry)) content_error e
            L.Steps (L.told link.old)
            (sources_request (asker self.now (option_copied registry.entry)) digest.now)
            (L.told link.new) sources_in) }
        ensures link_fault { (result ≡ Err Faulted) → Rose (L.faults link.old) (L.faults link.new) }
    {
        let asker = Asker {
            url: &self.url,
            token: &self.auth_token,
            registry,
        };
        let request = asker.sources_request(alloc, digest);
        call::<L, ContentSourcesResponse, ContentError>(alloc, link, request)
    }
}
