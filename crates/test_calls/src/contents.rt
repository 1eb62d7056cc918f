//! Contents that are loaded and sent.

use crate::replies::{HASH, client, link, told, words};
use indexmap::IndexMap;
use std::alloc::Global;
use std::test::Fail;
use test_check::{holds, is_text};
use warg_api::{Client, ClientError, RecordedLink};
use warg_hash::AnyHash;
use warg_values::Text;

/// Three sources of a content, of which the first has no URL, and what two URLs give.
const SOURCES: &str =
    r#"{"status":200,"headers":[["content-type","application/json"]],"body":"eyJjb250ZW50U291cmNlcyI6eyJzaGEyNTY6YmE3ODE2YmY4ZjAxY2ZlYTQxNDE0MGRlNWRhZTIyMjNiMDAzNjFhMzk2MTc3YTljYjQxMGZmNjFmMjAwMTVhZCI6W3sidHlwZSI6Imh0dHBHZXQiLCJ1cmwiOiJubyB1cmwifSx7InR5cGUiOiJodHRwR2V0IiwidXJsIjoiaHR0cHM6Ly9hLnRlc3QvYyJ9LHsidHlwZSI6Imh0dHBHZXQiLCJ1cmwiOiJodHRwczovL2IudGVzdC9jIn1dfX0="}"#;

const GONE: &str = r#"{"status":410,"headers":[],"body":""}"#;

const FOUND: &str = r#"{"status":200,"headers":[],"body":"YWJj"}"#;

/// A content that is loaded whole. It stands alone, since a call brings its whole contract with it.
fn ask_whole(
    alloc: Global,
    client: &Client,
    link: &mut RecordedLink,
    digest: &AnyHash,
) -> Result<Vec<u8>, ClientError> {
    client.download_whole(alloc, link, None, digest)
}

/// A content that is loaded whole.
fn load(
    alloc: Global,
    client: &Client,
    link: &mut RecordedLink,
    digest: &AnyHash,
) -> Result<String, ClientError> {
    let bytes = ask_whole(alloc, client, link, digest)?;
    String::from_utf8(bytes).map_err(|_| ClientError::Memory)
}

/// Opens a content as a stream, of which nothing is read.
fn ask_stream(
    alloc: Global,
    client: &Client,
    link: &mut RecordedLink,
    digest: &AnyHash,
) -> Result<(), ClientError> {
    client.download_content(alloc, link, None, digest)?;
    Ok(())
}

/// A content that is opened as a stream, of which nothing is read.
fn open(
    alloc: Global,
    client: &Client,
    link: &mut RecordedLink,
    digest: &AnyHash,
) -> Result<String, ClientError> {
    ask_stream(alloc, client, link, digest)?;
    words(String::from_str(alloc, "opened"))
}

/// What a content is loaded as whole, or what its opening answers.
fn taken(
    alloc: Global,
    client: &Client,
    link: &mut RecordedLink,
    whole: bool,
) -> Result<String, Fail> {
    let digest = AnyHash::from_text(alloc, HASH)?;
    let answer = if whole {
        load(alloc, client, link, &digest)
    } else {
        open(alloc, client, link, &digest)
    };
    told(alloc, answer)
}

/// The same over these replies.
fn taken_over(alloc: Global, replies: &str, whole: bool) -> Result<String, Fail> {
    let client = client(alloc)?;
    let mut link = link(alloc, replies)?;
    taken(alloc, &client, &mut link, whole)
}

/// Replies, of which the sources are the first.
fn replies(alloc: Global, behind: &[&str]) -> Result<String, Fail> {
    let mut text = String::from_str(alloc, "[")?;
    text.push_str(SOURCES)?;
    for reply in behind {
        text.push_str(",")?;
        text.push_str(reply)?;
    }
    text.push_str("]")?;
    Ok(text)
}

/// Fails where a content is not loaded or not opened over these replies behind its sources.
fn is_given(alloc: Global, behind: &[&str]) -> Result<(), Fail> {
    let replies = replies(alloc, behind)?;
    is_text(&taken_over(alloc, &replies, true)?, "abc")?;
    is_text(&taken_over(alloc, &replies, false)?, "opened")
}

#[test]
fn the_first_source_that_gives_a_content_is_taken(rt: HostRuntime) -> Result<(), Fail> {
    is_given(rt.alloc(), &[FOUND])?;
    is_given(rt.alloc(), &[GONE, FOUND])
}

/// Fails where the loading or the opening of a content is answered otherwise over these replies behind its sources.
fn is_not_given(alloc: Global, behind: &[&str], front: &str) -> Result<(), Fail> {
    let replies = replies(alloc, behind)?;
    holds(taken_over(alloc, &replies, true)?.starts_with(front), front)?;
    holds(
        taken_over(alloc, &replies, false)?.starts_with(front),
        front,
    )
}

#[test]
fn a_content_that_no_source_gives_is_told(rt: HostRuntime) -> Result<(), Fail> {
    let gone = "no source gave the content sha256:ba78";
    is_not_given(rt.alloc(), &[GONE, GONE, FOUND], gone)?;
    is_not_given(rt.alloc(), &[GONE], "the registry could not be reached")
}

/// An upload: by which method, where and with which header, and what the place answers, with what is answered to it.
type Upload = (
    &'static str,
    &'static str,
    &'static str,
    &'static str,
    &'static str,
    &'static str,
);

const TAKEN: &str = r#"[{"status":204,"headers":[],"body":""}]"#;

const REFUSED: &str =
    r#"[{"status":403,"headers":[["content-type","application/json"]],"body":"eyJ0eXBlIjoidW5hdXRob3JpemVkIiwibWVzc2FnZSI6Im5vIn0="}]"#;

/// Uploads of a content.
const UPLOADS: &[Upload] = &[
    ("PUT", "/up", "content-type", "a/b", TAKEN, "taken"),
    (
        "POST",
        "https://other.test/up",
        "authorization",
        "x",
        TAKEN,
        "taken",
    ),
    (
        "GET",
        "/up",
        "content-type",
        "a/b",
        TAKEN,
        "a content can't be sent by `GET`: ask the registry's operator to name `POST` or `PUT`",
    ),
    (
        "PUT",
        "https://",
        "content-type",
        "a/b",
        TAKEN,
        "the registry names a place that is no URL, or none to which anything is sent: ask its operator",
    ),
    (
        "PUT",
        "/up",
        "Content-Type",
        "a/b",
        TAKEN,
        "the header `Content-Type` with the value `a/b` can't be sent with a content: ask the registry's operator",
    ),
    (
        "PUT",
        "/up",
        "content-type",
        "a/b",
        REFUSED,
        "the registry does not allow this: no",
    ),
    (
        "PUT",
        "/up",
        "content-type",
        "a/b",
        "[]",
        "the registry could not be reached: check the network and the registry's URL",
    ),
];

/// Sends a content. It stands alone, since a call brings its whole contract with it.
fn ask_upload(
    alloc: Global,
    client: &Client,
    link: &mut RecordedLink,
    upload: &Upload,
    headers: &IndexMap<Text, Text>,
) -> Result<(), ClientError> {
    client.upload_content(alloc, link, upload.0, upload.1, headers, b"abc")
}

/// A content that is sent.
fn send(
    alloc: Global,
    client: &Client,
    link: &mut RecordedLink,
    upload: &Upload,
    headers: &IndexMap<Text, Text>,
) -> Result<String, ClientError> {
    ask_upload(alloc, client, link, upload, headers)?;
    words(String::from_str(alloc, "taken"))
}

/// The header of an upload.
fn header(alloc: Global, upload: &Upload) -> Result<IndexMap<Text, Text>, Fail> {
    let name = Text::copy_of(alloc, upload.2)?;
    let value = Text::copy_of(alloc, upload.3)?;
    let mut headers = IndexMap::new(alloc);
    headers.insert(name, value)?;
    Ok(headers)
}

/// What an upload answers.
fn upload_with(
    alloc: Global,
    client: &Client,
    link: &mut RecordedLink,
    upload: &Upload,
) -> Result<String, Fail> {
    let headers = header(alloc, upload)?;
    told(alloc, send(alloc, client, link, upload, &headers))
}

/// What it answers over its replies.
fn sent(alloc: Global, upload: &Upload) -> Result<String, Fail> {
    let client = client(alloc)?;
    let mut link = link(alloc, upload.4)?;
    upload_with(alloc, &client, &mut link, upload)
}

/// Fails at the first upload that answers something else.
fn are_sent(alloc: Global, rows: &[Upload]) -> Result<(), Fail> {
    for upload in rows {
        is_text(&sent(alloc, upload)?, upload.5)?;
    }
    Ok(())
}

#[test]
fn contents_are_sent_as_a_registry_asks(rt: HostRuntime) -> Result<(), Fail> {
    are_sent(rt.alloc(), UPLOADS)
}
