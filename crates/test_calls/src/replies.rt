//! A client over recorded replies.

use std::alloc::{AllocError, Global};
use std::fmt::Display;
use std::test::Fail;
use warg_api::{Client, ClientError, RecordedLink};
use warg_recorded::read_replies;
use warg_values::Text;

/// The SHA-256 of `abc`, as its hash text.
pub const HASH: &str = "sha256:ba7816bf8f01cfea414140de5dae2223b00361a396177a9cb410ff61f20015ad";

/// A client of a registry, with a token.
pub fn client(alloc: Global) -> Result<Client, Fail> {
    let token = Text::copy_of(alloc, "secret")?;
    Ok(Client::new(alloc, "https://home.test", Some(token))?)
}

/// A link over the replies in a text.
pub fn link(alloc: Global, replies: &str) -> Result<RecordedLink, Fail> {
    Ok(RecordedLink::new(alloc, read_replies(alloc, replies.as_bytes())?))
}

/// A text of one reply, with a body in base64.
pub fn json(alloc: Global, status: u16, kind: &str, body: &str) -> Result<String, Fail> {
    Ok(format!(in alloc;
        r#"[{{"status":{status},"headers":[["content-type","{kind}"]],"body":"{body}"}}]"#
    )?)
}

/// An answer in words, where there was memory for them.
pub fn words(text: Result<String, AllocError>) -> Result<String, ClientError> {
    text.map_err(|_| ClientError::Memory)
}

/// An error in words. It takes an error of any type, since one of a known type is dropped by a proof for each kind of
/// it.
fn error_text<E: Display + Drop>(alloc: Global, error: E) -> Result<String, Fail> {
    Ok(format!(in alloc; "{error}")?)
}

/// What a call answers, with an error as it is told.
pub fn told(alloc: Global, answer: Result<String, ClientError>) -> Result<String, Fail> {
    match answer {
        Ok(words) => Ok(words),
        Err(error) => error_text(alloc, error),
    }
}
