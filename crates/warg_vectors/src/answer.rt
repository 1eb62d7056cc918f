//! What is answered.

ghost use Rattle.std.specs.Prelude.{◌≡◌, ◌⊎◌, ◌<◌, ◌≤◌, ◌++◌, ℕ, List, Ok, Some, None, false, min, codes, length, Contains, IfOk, option_map, option_copied, find, bytes_eq};
ghost use Rattle.std.specs.List.{All};
ghost use Rattle.warg_exchange.specs.Replies.{is_success, refusal_in};
ghost use Rattle.warg_exchange.specs.declared.service.ServiceError.{ServiceError as Error};
ghost use Rattle.warg_exchange.specs.declared.service.ServiceError.TheVariants.{CheckpointNotFound, LeafNotFound};
ghost use Rattle.warg_exchange.specs.declared.checkpoint.SignedCheckpoint.{SignedCheckpoint as Signed};
ghost use Rattle.warg_ledger.specs.Registry.{Registry, entry_texts};
ghost use Rattle.warg_ledger.specs.Honest.{GivesGrowth};
ghost use Rattle.warg_model.specs.Held.{registry_of};
ghost use Rattle.warg_model.specs.Hashes.{AreHashesBelow};
ghost use Rattle.warg_model.specs.State.{held};
ghost use Rattle.warg_vectors.specs.Asked.{content_url as url_of_content, registry_of_request, asked_by};
ghost use Rattle.warg_vectors.specs.AskViews.{registry_ask_view, ask_view};
ghost use Rattle.warg_vectors.specs.Answers.{Refuses, IsErrorOf, IsRefusal, IsPageReply, GivesPlaces, RefusesPlaces, RefusesGrowth, IsAnswerBelow, IsAnswerBehind, IsAnswerOf, IsSourcesReply, IsContentReply, IsReplyTo};
ghost use Rattle.warg_vectors.specs.State.{IsSoundNamed, IsSound, world};
ghost use Rattle.warg_vectors.specs.World.{registry_in, content_in};

use crate::ask::{Ask, CONTENT_PATH, HOME, RegistryAsk, asked_of, registry_named};
use crate::registry::{ModelRegistry, NamedRegistry};
use std::alloc::Global;
use warg_exchange::{
    ConsistencyRequest, FetchLogsRequest, InclusionRequest, Reply, Request, ServiceError,
    SignedCheckpoint,
};
use warg_hash::AnyHash;
use warg_model::{LogsError, RegistryHashes};
use warg_prover::ProverFault;
use warg_reply::{
    checkpoint_reply, consistency_reply, content_reply, inclusion_reply, page_reply, refusal_reply,
    sources_reply,
};
use warg_values::{Memory, Text};

/// The status of each refusal (RFC 9110, section 15.5.5).
const NOT_FOUND: u16 = 404;

/// The reply that refuses a request with this error.
fn refused(alloc: Global, error: &ServiceError) -> Result<Reply, Memory>
    ensures { IfOk result (λ reply. Refuses error.now reply) }
{
    let mut reply = refusal_reply(alloc, error)?;
    reply.status = NOT_FOUND;
    Ok(reply)
}

/// The reply that there is no checkpoint of this length.
fn no_checkpoint(alloc: Global, length: u64) -> Result<Reply, Memory>
    ensures { IfOk result (λ reply. Refuses (CheckpointNotFound length) reply) }
{
    refused(alloc, &ServiceError::CheckpointNotFound { length })
}

/// The reply that refuses with a text.
fn refused_with(alloc: Global, message: &str) -> Result<Reply, Memory>
    ensures { IfOk result (λ reply. IsRefusal reply) }
{
    let message = Text::copy_of(alloc, message)?;
    refused(alloc, &ServiceError::Message { message })
}

/// The smaller of two lengths.
fn smaller(length: u64, other: u64) -> u64
    ensures value { result ≡ min length other }
    ensures below { result ≤ other }
{
    if length < other { length } else { other }
}

/// The URL of a content.
fn content_url(alloc: Global, digest: &AnyHash) -> Result<Text, Memory>
    ensures { IfOk result (λ url. url ≡ url_of_content digest.now) }
{
    let digits = hex::encode(alloc, digest.bytes())?;
    let mut url = String::from_str(alloc, HOME)?;
    url.push_str(CONTENT_PATH)?;
    url.push_str(&digits)?;
    Ok(Text::new(url))
}

/// The reply that a log cannot be given.
fn no_page(alloc: Global, fault: LogsError) -> Result<Reply, Memory>
    ensures { IfOk result (λ reply. (error : Error) × IsErrorOf fault error × Refuses error reply) }
{
    match fault {
        LogsError::LogNotFound(id) => refused(alloc, &ServiceError::LogNotFound { id }),
        LogsError::FetchTokenNotFound(token) => {
            refused(alloc, &ServiceError::FetchTokenNotFound { token })
        }
        LogsError::Memory => Err(Memory),
    }
}

/// The page of a registry below a length.
fn page_answer(
    alloc: Global,
    named: &NamedRegistry,
    asked: &FetchLogsRequest,
) -> Result<Reply, Memory>
    ensures { IfOk result (λ reply. IsSoundNamed named.now
        → IsPageReply (registry_of (held named.now.registry)) asked.now.log_length
        asked.now.operator asked.now.packages.entries reply) }
{
    match named.registry.page(alloc, asked) {
        Ok(page) => page_reply(alloc, &page),
        Err(fault) => no_page(alloc, fault),
    }
}

/// The page of a registry below the smaller of the length that is asked for and that of its last checkpoint.
fn logs_answer(
    alloc: Global,
    named: &NamedRegistry,
    latest: u64,
    asked: FetchLogsRequest,
) -> Result<Reply, Memory>
    ensures { IfOk result (λ reply. IsSoundNamed named.now
        → IsPageReply (registry_of (held named.now.registry)) (min asked.log_length latest)
        asked.operator asked.packages.entries reply) }
{
    let FetchLogsRequest {
        log_length,
        operator,
        packages,
    } = asked;
    let asked = FetchLogsRequest {
        log_length: smaller(log_length, latest),
        operator,
        packages,
    };
    page_answer(alloc, named, &asked)
}

/// The reply that a record is not there: the first of these places that is not below a length.
fn no_leaf(alloc: Global, length: u64, places: &[u64]) -> Result<Reply, Memory>
    ensures { IfOk result (λ reply. (All (λ place. place < length) places.now → ⊥)
        → (place : ℕ) × Contains places.now place × (length ≤ place) × Refuses (LeafNotFound place) reply) }
{
    for place in places {
        if *place >= length {
            return refused(alloc, &ServiceError::LeafNotFound { index: *place });
        }
    }
    // One of the places is not below the length, so this is not reached.
    Err(Memory)
}

/// The proofs of inclusion that are made of these hashes.
fn inclusion_by(
    alloc: Global,
    hashes: &RegistryHashes,
    below: u64,
    places: &[u64],
) -> Result<Reply, Memory>
    ensures { IfOk result (λ reply. (w : Registry) → AreHashesBelow w below hashes.now
        → below ≤ length w.entries
        → GivesPlaces w below places.now reply ⊎ RefusesPlaces w below places.now reply) }
{
    match hashes.inclusion(alloc, places) {
        Ok(bundles) => inclusion_reply(alloc, &bundles),
        Err(ProverFault::NoSuchProof) => no_leaf(alloc, below, places),
        Err(ProverFault::LogTooShort) => no_checkpoint(alloc, below),
        Err(ProverFault::TooLarge) => refused_with(alloc, "ask for fewer proofs at once"),
        Err(ProverFault::Memory) => Err(Memory),
    }
}

/// The proofs of inclusion below a length of a registry, where its last checkpoint has this one.
fn inclusion_below(
    alloc: Global,
    named: &NamedRegistry,
    latest: u64,
    length: u64,
    places: &[u64],
) -> Result<Reply, Memory>
    ensures { IfOk result (λ reply. (c : Signed) → IsSoundNamed named.now
        → (held named.now.registry).latest ≡ Some c → c.contents.log_length ≡ latest → length ≤ latest
        → GivesPlaces (registry_of (held named.now.registry)) length places.now reply
        ⊎ RefusesPlaces (registry_of (held named.now.registry)) length places.now reply) }
{
    if length == latest
        && let Some(hashes) = &named.hashes
    {
        return inclusion_by(alloc, hashes, length, places);
    }
    let hashes = named.registry.hashes(alloc, length as usize)?;
    inclusion_by(alloc, &hashes, length, places)
}

/// The proofs of inclusion of a registry below the smaller of the length that is asked for and that of its last
/// checkpoint.
fn inclusion_answer(
    alloc: Global,
    named: &NamedRegistry,
    latest: u64,
    asked: &InclusionRequest,
) -> Result<Reply, Memory>
    ensures { IfOk result (λ reply. (c : Signed) → IsSoundNamed named.now
        → (held named.now.registry).latest ≡ Some c → c.contents.log_length ≡ latest
        → GivesPlaces (registry_of (held named.now.registry)) (min asked.now.log_length latest) asked.now.leafs reply
        ⊎ RefusesPlaces (registry_of (held named.now.registry)) (min asked.now.log_length latest) asked.now.leafs
        reply) }
{
    let length = smaller(asked.log_length, latest);
    inclusion_below(alloc, named, latest, length, asked.leafs.as_slice())
}

/// The proof of consistency that is made of these hashes.
fn consistency_by(
    alloc: Global,
    hashes: &RegistryHashes,
    asked: &ConsistencyRequest,
) -> Result<Reply, Memory>
    ensures { IfOk result (λ reply. (w : Registry) (n : ℕ) → AreHashesBelow w n hashes.now
        → GivesGrowth w asked.now.from asked.now.to reply ⊎ RefusesGrowth w n asked.now.from asked.now.to reply) }
{
    match hashes.consistency(alloc, asked.from as usize, asked.to as usize) {
        Ok(shown) => consistency_reply(alloc, &shown),
        Err(ProverFault::NoSuchProof) => no_checkpoint(alloc, asked.from),
        Err(ProverFault::LogTooShort) => no_checkpoint(alloc, asked.to),
        Err(ProverFault::TooLarge) => refused_with(alloc, "ask for the proof of a shorter growth"),
        Err(ProverFault::Memory) => Err(Memory),
    }
}

/// The proof of consistency of two lengths of a registry, where its last checkpoint has this one.
fn consistency_answer(
    alloc: Global,
    named: &NamedRegistry,
    latest: u64,
    asked: &ConsistencyRequest,
) -> Result<Reply, Memory>
    ensures { IfOk result (λ reply. (c : Signed) → IsSoundNamed named.now
        → (held named.now.registry).latest ≡ Some c → c.contents.log_length ≡ latest
        → GivesGrowth (registry_of (held named.now.registry)) asked.now.from asked.now.to reply
        ⊎ RefusesGrowth (registry_of (held named.now.registry)) latest asked.now.from asked.now.to reply) }
{
    if let Some(hashes) = &named.hashes {
        return consistency_by(alloc, hashes, asked);
    }
    let hashes = named.registry.hashes(alloc, latest as usize)?;
    consistency_by(alloc, &hashes, asked)
}

/// What a registry answers behind its last checkpoint.
fn grown_answer(
    alloc: Global,
    named: &NamedRegistry,
    latest: &SignedCheckpoint,
    asked: RegistryAsk,
) -> Result<Reply, Memory>
    ensures { IfOk result (λ reply. IsSoundNamed named.now → (held named.now.registry).latest ≡ Some latest.now
        → IsAnswerBelow (registry_of (held named.now.registry)) latest.now (registry_ask_view asked) reply) }
{
    let length = latest.contents.log_length;
    match asked {
        RegistryAsk::Checkpoint => checkpoint_reply(alloc, latest),
        RegistryAsk::Logs(asked) => logs_answer(alloc, named, length, asked),
        RegistryAsk::Inclusion(asked) => inclusion_answer(alloc, named, length, &asked),
        RegistryAsk::Consistency(asked) => consistency_answer(alloc, named, length, &asked),
    }
}

/// What a registry answers.
fn registry_answer(
    alloc: Global,
    named: &NamedRegistry,
    asked: RegistryAsk,
) -> Result<Reply, Memory>
    ensures { IfOk result (λ reply. IsSoundNamed named.now
        → IsAnswerOf (Some (held named.now.registry)) (registry_ask_view asked) reply) }
{
    match named.registry.checkpoint() {
        Some(latest) => grown_answer(alloc, named, latest, asked),
        None => no_checkpoint(alloc, 0),
    }
}

/// The reply that there is no content of this digest.
fn no_content(alloc: Global, digest: &AnyHash) -> Result<Reply, Memory>
    ensures { IfOk result (λ reply. IsContentReply digest.now None reply) }
{
    refused(
        alloc,
        &ServiceError::ContentDigestNotFound { digest: *digest },
    )
}

/// The reply that tells where a content is.
fn sources_at(alloc: Global, digest: &AnyHash) -> Result<Reply, Memory>
    ensures { IfOk result (λ reply. (content : List ℕ) → IsSourcesReply digest.now (Some content) reply) }
{
    let url = content_url(alloc, digest)?;
    sources_reply(alloc, digest, &url)
}

impl ModelRegistry {
    /// The reply that gives a content.
    fn content_answer(&self, alloc: Global, digest: &AnyHash) -> Result<Reply, Memory>
        ensures { IfOk result (IsContentReply digest.now (content_in (world self.now).contents digest.now)) }
    {
        match self.content(digest) {
            Some(content) => content_reply(alloc, content),
            None => no_content(alloc, digest),
        }
    }

    /// The reply that tells where a content is.
    fn sources_answer(&self, alloc: Global, digest: &AnyHash) -> Result<Reply, Memory>
        ensures { IfOk result (IsSourcesReply digest.now (content_in (world self.now).contents digest.now)) }
    {
        match self.content(digest) {
            Some(_) => sources_at(alloc, digest),
            None => no_content(alloc, digest),
        }
    }

    /// What the registry that a request names answers.
    fn named_answer(
        &self,
        alloc: Global,
        request: &Request,
        asked: RegistryAsk,
    ) -> Result<Reply, Memory>
        ensures { IfOk result (λ reply. IsSound self.now
            → IsAnswerOf (registry_in (world self.now).registries (registry_of_request request.now))
            (registry_ask_view asked) reply) }
    {
        match self.registry_called(registry_named(request)) {
            Some(named) => registry_answer(alloc, named, asked),
            None => no_checkpoint(alloc, 0),
        }
    }

    /// The reply to a request.
    pub(crate) fn answer(&self, alloc: Global, request: &Request) -> Result<Reply, Memory>
        ensures { IfOk result (λ reply. IsSound self.now → IsReplyTo (world self.now) request.now reply) }
    {
        match asked_of(alloc, request)? {
            Ask::Registry(asked) => self.named_answer(alloc, request, asked),
            Ask::Sources(digest) => self.sources_answer(alloc, &digest),
            Ask::Content(digest) => self.content_answer(alloc, &digest),
            Ask::Other => refused_with(alloc, "this registry does not answer such requests"),
        }
    }
}
