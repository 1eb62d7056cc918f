//! Who asks, and what is asked.

ghost use Rattle.std.specs.Prelude.{◌≡◌, ◌++◌, Err, IfOk, false, codes};
ghost use Rattle.url.specs.Parts.{serialize};
ghost use Rattle.serde_json.specs.View.{view};
ghost use Rattle.serde_json.specs.Written.{has_float};
ghost use Rattle.warg_hash.specs.Hash.{hash_text};
ghost use Rattle.warg_record.specs.View.{envelope_view, package_entry_view};
ghost use Rattle.warg_exchange.specs.Requests.{get_request, post_request, who as who_of};
ghost use Rattle.warg_exchange.specs.Requests.{checkpoint_request as checkpoint_request_of, verification_request as verification_request_of, logs_request as logs_request_of, names_request as names_request_of, ledger_request as ledger_request_of};
ghost use Rattle.warg_exchange.specs.Requests.{publish_request as publish_request_of, record_request as record_request_of, sources_request as sources_request_of, inclusion_request as inclusion_request_of, consistency_request as consistency_request_of};
ghost use Rattle.warg_request.specs.Asking.{asker_view, CanAsk};
ghost use Rattle.warg_url.specs.declared.domain.HeaderError.TheVariants.{BadHeader as IsBadHeader};

use crate::bodies::{
    checkpoint_value, consistency_value, inclusion_value, logs_value, names_value, publish_value,
};
use crate::headers::bearer_value;
use crate::paths::{publish_path, record_path, sources_path};
use http_header::{HeaderName, HeaderValue};
use serde_json::Value;
use std::alloc::{AllocError, Global};
use warg_exchange::{
    ConsistencyRequest, FetchLogsRequest, InclusionRequest, Method, PublishRecordRequest, Request,
    SignedCheckpoint,
};
use warg_hash::{AnyHash, LogId, RecordId};
use warg_url::{HeaderError, RegistryDomain, RegistryUrl};
use warg_values::{Sequence, Text};

/// The headers of a request, in the order in which they are sent.
type Headers = Vec<(HeaderName, HeaderValue)>;

/// Who asks which registry.
#[derive(Clone, Copy)]
pub struct Asker<'a> {
    /// Where the registry is.
    pub url: &'a RegistryUrl,
    /// The token by which the registry knows who asks, where it has one.
    pub token: &'a Option<Text>,
    /// The registry that is meant, unless it is the one at the URL.
    pub registry: Option<&'a RegistryDomain>,
}

impl Asker<'_> {
    /// The headers that say who asks.
    fn who(&self, alloc: Global) -> Result<Headers, HeaderError>
        ensures value { IfOk result (λ headers. headers.items ≡ who_of (asker_view self.now)) }
        ensures bad_header { (result ≡ Err IsBadHeader) → CanAsk (asker_view self.now) → ⊥ }
    {
        let mut headers = Vec::new(alloc);
        if let Some(registry) = self.registry {
            let value = registry.header_value(alloc)?;
            headers.push((HeaderName::from_static("warg-registry"), value))?;
        }
        if let Some(token) = self.token {
            let value = bearer_value(alloc, token)?;
            headers.push((HeaderName::from_static("authorization"), value))?;
        }
        Ok(headers)
    }

    /// The URL of a path.
    fn url_of(&self, alloc: Global, path: &str) -> Result<Text, AllocError>
        ensures { IfOk result (λ url. url ≡ serialize self.now.url.now ++ path.now) }
    {
        let mut url = String::from_str(alloc, self.url.as_str())?;
        url.push_str(path)?;
        Ok(Text::new(url))
    }

    /// Asks for what a path names.
    fn get(&self, alloc: Global, path: &str) -> Result<Request, HeaderError>
        ensures value { IfOk result (λ r.
            r ≡ get_request (asker_view self.now) path.now) }
        ensures bad_header { (result ≡ Err IsBadHeader) → CanAsk (asker_view self.now) → ⊥ }
    {
        let headers = self.who(alloc)?;
        Ok(Request {
            method: Method::Get,
            url: self.url_of(alloc, path)?,
            headers: Sequence::from_vec(headers),
            body: Sequence::new(alloc),
        })
    }

    /// Sends a JSON value to a path.
    fn post(&self, alloc: Global, path: &str, body: &Value) -> Result<Request, HeaderError>
        ensures value { IfOk result (λ r. has_float (view body.now) ≡ false
            → r ≡ post_request (asker_view self.now) path.now (view body.now)) }
        ensures bad_header { (result ≡ Err IsBadHeader) → CanAsk (asker_view self.now) → ⊥ }
    {
        let mut headers = self.who(alloc)?;
        let json = HeaderValue::from_static("application/json");
        headers.push((HeaderName::from_static("content-type"), json))?;
        let text = body.to_string(alloc)?;
        Ok(Request {
            method: Method::Post,
            url: self.url_of(alloc, path)?,
            headers: Sequence::from_vec(headers),
            body: Sequence::from_vec(text.into_bytes()),
        })
    }

    /// The request for a registry's latest checkpoint. `BadHeader` comes only where the registry's name or the token is no value of a header.
    pub fn checkpoint_request(&self, alloc: Global) -> Result<Request, HeaderError>
        ensures value { IfOk result (λ r. r ≡ checkpoint_request_of (asker_view self.now)) }
        ensures bad_header { (result ≡ Err IsBadHeader) → CanAsk (asker_view self.now) → ⊥ }
    {
        self.get(alloc, "v1/fetch/checkpoint")
    }

    /// The request for what a monitor knows of a checkpoint. `BadHeader` comes only where the registry's name or the token is no value of a header.
    pub fn verification_request(
        &self,
        alloc: Global,
        checkpoint: &SignedCheckpoint,
    ) -> Result<Request, HeaderError>
        ensures value { IfOk result (λ r. r ≡ verification_request_of (asker_view self.now) checkpoint.now) }
        ensures bad_header { (result ≡ Err IsBadHeader) → CanAsk (asker_view self.now) → ⊥ }
    {
        let body = checkpoint_value(alloc, checkpoint)?;
        let request = self.post(alloc, "v1/verify/checkpoint", &body)?;
        Ok(request)
    }

    /// The request for a page of logs. `BadHeader` comes only where the registry's name or the token is no value of a header.
    pub fn logs_request(
        &self,
        alloc: Global,
        request: &FetchLogsRequest,
    ) -> Result<Request, HeaderError>
        ensures value { IfOk result (λ r. r ≡ logs_request_of (asker_view self.now)
            request.now.log_length request.now.operator request.now.packages.entries) }
        ensures bad_header { (result ≡ Err IsBadHeader) → CanAsk (asker_view self.now) → ⊥ }
    {
        let body = logs_value(alloc, request)?;
        let asked = self.post(alloc, "v1/fetch/logs", &body)?;
        Ok(asked)
    }

    /// The request for the names of the packages whose logs have these ids. `BadHeader` comes only where the registry's name or the token is no value of a header.
    pub fn names_request(&self, alloc: Global, ids: &[LogId]) -> Result<Request, HeaderError>
        ensures value { IfOk result (λ r. r ≡ names_request_of (asker_view self.now) ids.now) }
        ensures bad_header { (result ≡ Err IsBadHeader) → CanAsk (asker_view self.now) → ⊥ }
    {
        let body = names_value(alloc, ids)?;
        let asked = self.post(alloc, "v1/fetch/names", &body)?;
        Ok(asked)
    }

    /// The request for the sources of a registry's log. `BadHeader` comes only where the registry's name or the token is no value of a header.
    pub fn ledger_request(&self, alloc: Global) -> Result<Request, HeaderError>
        ensures value { IfOk result (λ r. r ≡ ledger_request_of (asker_view self.now)) }
        ensures bad_header { (result ≡ Err IsBadHeader) → CanAsk (asker_view self.now) → ⊥ }
    {
        self.get(alloc, "v1/ledger")
    }

    /// The request that publishes a record of a package's log. `BadHeader` comes only where the registry's name or the token is no value of a header.
    pub fn publish_request(
        &self,
        alloc: Global,
        log_id: &LogId,
        request: &PublishRecordRequest,
    ) -> Result<Request, HeaderError>
        ensures value { IfOk result (λ r. r ≡ publish_request_of (asker_view self.now) log_id.now
            request.now.package_name (envelope_view package_entry_view request.now.envelope)) }
        ensures bad_header { (result ≡ Err IsBadHeader) → CanAsk (asker_view self.now) → ⊥ }
    {
        let body = publish_value(alloc, request)?;
        let path = publish_path(alloc, log_id)?;
        let asked = self.post(alloc, path.as_str(), &body)?;
        Ok(asked)
    }

    /// The request for how far the publishing of a record is. `BadHeader` comes only where the registry's name or the token is no value of a header.
    pub fn record_request(
        &self,
        alloc: Global,
        log_id: &LogId,
        record_id: &RecordId,
    ) -> Result<Request, HeaderError>
        ensures value { IfOk result (λ r. r ≡ record_request_of (asker_view self.now) log_id.now record_id.now) }
        ensures bad_header { (result ≡ Err IsBadHeader) → CanAsk (asker_view self.now) → ⊥ }
    {
        let path = record_path(alloc, log_id, record_id)?;
        self.get(alloc, path.as_str())
    }

    /// The request for the sources of a content. `BadHeader` comes only where the registry's name or the token is no value of a header.
    pub fn sources_request(&self, alloc: Global, digest: &AnyHash) -> Result<Request, HeaderError>
        ensures value { IfOk result (λ r. r ≡ sources_request_of (asker_view self.now) digest.now) }
        ensures bad_header { (result ≡ Err IsBadHeader) → CanAsk (asker_view self.now) → ⊥ }
    {
        let path = sources_path(alloc, digest)?;
        self.get(alloc, path.as_str())
    }

    /// The request for proofs that entries are in a registry's log and map. `BadHeader` comes only where the registry's name or the token is no value of a header.
    pub fn inclusion_request(
        &self,
        alloc: Global,
        request: &InclusionRequest,
    ) -> Result<Request, HeaderError>
        ensures value { IfOk result (λ r. r ≡ inclusion_request_of (asker_view self.now) request.now.log_length request.now.leafs) }
        ensures bad_header { (result ≡ Err IsBadHeader) → CanAsk (asker_view self.now) → ⊥ }
    {
        let body = inclusion_value(alloc, request)?;
        let asked = self.post(alloc, "v1/proof/inclusion", &body)?;
        Ok(asked)
    }

    /// The request for a proof that a registry's log continues an older one. `BadHeader` comes only where the registry's name or the token is no value of a header.
    pub fn consistency_request(
        &self,
        alloc: Global,
        request: &ConsistencyRequest,
    ) -> Result<Request, HeaderError>
        ensures value { IfOk result (λ r. r ≡ consistency_request_of (asker_view self.now) request.now.from request.now.to) }
        ensures bad_header { (result ≡ Err IsBadHeader) → CanAsk (asker_view self.now) → ⊥ }
    {
        let body = consistency_value(alloc, request)?;
        let asked = self.post(alloc, "v1/proof/consistency", &body)?;
        Ok(asked)
    }
}
