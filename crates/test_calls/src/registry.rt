//! What is asked of a registry, and what it answers.

use crate::replies::{client, json, link, told, words};
use std::alloc::{AllocError, Global};
use std::test::Fail;
use test_check::{holds, is_text};
use warg_api::{Client, ClientError, RecordedLink};
use warg_exchange::SignedCheckpoint;
use warg_url::RegistryUrl;

/// Replies to the request for a registry's configuration, with what is answered.
const CONFIGURATIONS: &[(&str, &str)] = &[
    (r#"[{"status":404,"headers":[],"body":""}]"#, "none"),
    (
        r#"[{"status":200,"headers":[],"body":"eyJ3YXJnVXJsIjpudWxsfQ=="}]"#,
        "none",
    ),
    (
        r#"[{"status":200,"headers":[],"body":"eyJ3YXJnVXJsIjoid2FyZy50ZXN0L2EifQ=="}]"#,
        "https://warg.test/a/",
    ),
    (
        r#"[{"status":200,"headers":[],"body":"W10="}]"#,
        "registry `home.test` has a configuration of another form: check that this is the URL of a registry",
    ),
    (
        r#"[{"status":200,"headers":[],"body":"eyJ3YXJnVXJsIjoiaHR0cDovL290aGVyLnRlc3QifQ=="}]"#,
        "the registry names a place that is no URL, or none to which anything is sent: ask its operator",
    ),
    (
        "[]",
        "the registry could not be reached: check the network and the registry's URL",
    ),
];

/// The configuration of a registry. It stands alone, since a call brings its whole contract with it.
fn ask_configuration(
    alloc: Global,
    client: &Client,
    link: &mut RecordedLink,
) -> Result<Option<RegistryUrl>, ClientError> {
    client.well_known_config(alloc, link)
}

/// A URL, or none.
fn url_text(alloc: Global, url: &Option<RegistryUrl>) -> Result<String, AllocError> {
    match url {
        Some(url) => format!(in alloc; "{url}"),
        None => String::from_str(alloc, "none"),
    }
}

/// The URL that a registry's configuration gives.
fn configuration(
    alloc: Global,
    client: &Client,
    link: &mut RecordedLink,
) -> Result<String, ClientError> {
    let url = ask_configuration(alloc, client, link)?;
    words(url_text(alloc, &url))
}

/// What the call for a registry's configuration answers over these replies.
fn configured(alloc: Global, replies: &str) -> Result<String, Fail> {
    let client = client(alloc)?;
    let mut link = link(alloc, replies)?;
    told(alloc, configuration(alloc, &client, &mut link))
}

/// Fails at the first replies over which something else is answered.
fn are_configured(alloc: Global, rows: &[(&str, &str)]) -> Result<(), Fail> {
    for (replies, expected) in rows {
        is_text(&configured(alloc, replies)?, expected)?;
    }
    Ok(())
}

#[test]
fn a_configuration_gives_a_url_or_none(rt: HostRuntime) -> Result<(), Fail> {
    are_configured(rt.alloc(), CONFIGURATIONS)
}

/// A checkpoint of 7 records.
const CHECKPOINT: &str =
    "eyJjb250ZW50cyI6eyJsb2dMZW5ndGgiOjcsImxvZ1Jvb3QiOiJzaGEyNTY6YmE3ODE2YmY4ZjAxY2ZlYTQxNDE0MGRlNWRhZTIyMjNiMDAzNjFhMzk2MTc3YTljYjQxMGZmNjFmMjAwMTVhZCIsIm1hcFJvb3QiOiJzaGEyNTY6MGRiOTE3OGFhYmM4NzdiNDJmMDNhMDM4YmY0NTNlZTUzZjA4ZTNjOGM1NWZhYjkxNjA0MzQyODA3ODU5NmJmYiIsInRpbWVzdGFtcCI6OX0sImtleUlkIjoic2hhMjU2OmJhNzgxNmJmOGYwMWNmZWE0MTQxNDBkZTVkYWUyMjIzYjAwMzYxYTM5NjE3N2E5Y2I0MTBmZjYxZjIwMDE1YWQiLCJzaWduYXR1cmUiOiJlY2RzYS1wMjU2OkFBPT0ifQ==";

/// The latest checkpoint. It stands alone, since a call brings its whole contract with it.
fn ask_checkpoint(
    alloc: Global,
    client: &Client,
    link: &mut RecordedLink,
) -> Result<SignedCheckpoint, ClientError> {
    client.latest_checkpoint(alloc, link, None)
}

/// The length of the latest checkpoint.
fn length(alloc: Global, client: &Client, link: &mut RecordedLink) -> Result<String, ClientError> {
    let length = ask_checkpoint(alloc, client, link)?.contents.log_length;
    words(format!(in alloc; "{length}"))
}

/// What the call for the latest checkpoint answers over these replies.
fn latest(alloc: Global, replies: &str) -> Result<String, Fail> {
    let client = client(alloc)?;
    let mut link = link(alloc, replies)?;
    told(alloc, length(alloc, &client, &mut link))
}

/// What the call for the latest checkpoint answers over one reply.
fn latest_over(alloc: Global, status: u16, kind: &str, body: &str) -> Result<String, Fail> {
    let replies = json(alloc, status, kind, body)?;
    latest(alloc, &replies)
}

/// Fails where the reply with the checkpoint is one that was asked for, where it has this status and kind.
fn is_unexpected(alloc: Global, status: u16, kind: &str, end: &str) -> Result<(), Fail> {
    let found = latest_over(alloc, status, kind, CHECKPOINT)?;
    let unexpected =
        "the reply is not the JSON that was asked for: check that this is the URL of a registry";
    holds(
        found.starts_with(unexpected) && found.ends_with(end),
        found.as_str(),
    )
}

#[test]
fn a_checkpoint_is_told_by_a_success_in_json_alone(rt: HostRuntime) -> Result<(), Fail> {
    let alloc = rt.alloc();
    is_text(
        &latest_over(alloc, 200, "application/json", CHECKPOINT)?,
        "7",
    )?;
    is_unexpected(alloc, 200, "text/html", "(status 200)")?;
    is_unexpected(alloc, 300, "application/json", "(status 300)")
}

#[test]
fn an_error_of_the_registry_is_told(rt: HostRuntime) -> Result<(), Fail> {
    let body = "eyJ0eXBlIjoiY2hlY2twb2ludE5vdEZvdW5kIiwibGVuZ3RoIjo5fQ==";
    is_text(
        &latest_over(rt.alloc(), 404, "application/json", body)?,
        "the registry has no checkpoint of length 9: ask for its latest one",
    )
}
