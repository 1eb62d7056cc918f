//! Calls of registries, and requests that they do not know.

use crate::registries::{filled, published, yanked};
use crate::world::ROOT;
use std::alloc::Global;
use std::rt::HostRuntime;
use std::test::Fail;
use test_check::holds;
use warg_api::Link;
use warg_log::{ListedVerifier, Verifier};
use warg_record::{PublicKey, Signature};
use warg_request::plain_get;
use warg_vectors::{ModelError, ModelRegistry};

/// The text of the home registry's first checkpoint that is signed.
const SIGNED: &str =
    "WARG-CHECKPOINT-SIGNATURE-V0\n4\nsha256:e7235eeacc3d5906225d7a3d5659cdf877c108cc7cb65fa1d20c97f8034c99c7\nsha256:e48666ba1c1a143bac3c00e06b48eaae081e8240fb8cb9f8ac4280fbc96f7bdc\n4\n";

/// The status of the reply to a request without a body.
fn status(alloc: Global, link: &mut ModelRegistry, url: &str) -> Result<u16, Fail> {
    let request = plain_get(alloc, url)?;
    let reply = link.exchange(alloc, &request)?;
    Ok(reply.status)
}

/// The status of the reply whose body is opened.
fn opened(alloc: Global, link: &mut ModelRegistry, url: &str) -> Result<u16, Fail> {
    let request = plain_get(alloc, url)?;
    let (status, _) = link.open_body(alloc, &request)?;
    Ok(status)
}

#[test]
fn other_requests_are_refused(rt: HostRuntime) -> Result<(), Fail> {
    let alloc = rt.alloc();
    let mut link = filled(alloc)?;
    let unknown = status(alloc, &mut link, "https://home.test/v1/ledger")?;
    let elsewhere = opened(alloc, &mut link, "https://b.test/v1/fetch/checkpoint")?;
    holds(unknown == 404 && elsewhere == 404, "both are refused")
}

#[test]
fn calls_are_refused_by_their_causes(rt: HostRuntime) -> Result<(), Fail> {
    let alloc = rt.alloc();
    let mut link = filled(alloc)?;
    let again = published(alloc, &mut link, None, "a:b", "1.1.0")?;
    let yanked_again = published(alloc, &mut link, None, "a:b", "1.0.0")?;
    let twice = yanked(alloc, &mut link, "a:b", "1.0.0")?;
    let unknown = yanked(alloc, &mut link, "a:d", "1.0.0")?;
    holds(
        again == Err(ModelError::ReleaseAgain)
            && yanked_again == Err(ModelError::ReleaseAgain)
            && twice == Err(ModelError::NotReleased)
            && unknown == Err(ModelError::NotReleased),
        "each is refused by its cause",
    )
}

/// Whether the home registry's signature of a text is accepted.
fn is_accepted(alloc: Global, verifier: &ListedVerifier, text: &str) -> Result<bool, Fail> {
    let key = PublicKey::new(alloc, "demo:AAAAAAAAAAA=")?;
    let signature = Signature::new(alloc, "demo:AAAAAAAAAAA=")?;
    Ok(verifier.accepts(&key, text.as_bytes(), &signature))
}

#[test]
fn the_verifier_accepts_what_was_signed(rt: HostRuntime) -> Result<(), Fail> {
    let alloc = rt.alloc();
    let verifier = filled(alloc)?.verifier(alloc)?;
    let signed = is_accepted(alloc, &verifier, SIGNED)?;
    let other = is_accepted(alloc, &verifier, ROOT)?;
    holds(signed && !other, "the checkpoint's text alone is accepted")
}
