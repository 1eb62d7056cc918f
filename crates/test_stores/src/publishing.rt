//! What is to be published, as texts. The written one is that of Python's `json`.

use std::alloc::Global;
use std::rt::HostRuntime;
use std::str;
use std::test::Fail;
use test_check::{is_row, is_text};
use warg_publish::PublishInfo;
use warg_publish_text::{read_publish, write_publish};

/// An info with each kind of entry.
const WRITTEN: &str = r#"{
  "entries": [
    {
      "type": "init"
    },
    {
      "content": "sha256:9f77034b1eb57d24f21ac7deb65c9cc99f63b72775e311f1f280ab2b6c2e06a2",
      "type": "release",
      "version": "1.2.0"
    },
    {
      "type": "yank",
      "version": "1.1.0-rc.1+5"
    },
    {
      "key": "k:BA==",
      "permissions": [
        "release",
        "yank"
      ],
      "type": "grant"
    },
    {
      "keyId": "sha256:4efe654bc30051152bd60218d04e883ec1e6b92f39f8623b4caa049a90f71205",
      "permissions": [
        "yank"
      ],
      "type": "revoke"
    }
  ],
  "head": "sha256:96821d936df6b0494b21fac7f5ef251be58d55d1f6198e13ba57f64a778d05c5",
  "name": "a:b"
}"#;

/// What a text is read as, in a word.
fn word(alloc: Global, text: &str) -> &'static str {
    match read_publish(alloc, text.as_bytes()) {
        Ok(Some(info)) if info.initializing() => "made",
        Ok(Some(_)) => "whole",
        Ok(None) => "none",
        Err(_) => "no memory",
    }
}

/// Fails at the first text that is read otherwise.
fn are_read(alloc: Global, rows: &[(&str, &str)]) -> Result<(), Fail> {
    for (text, wanted) in rows {
        is_row(text, word(alloc, text), wanted)?;
    }
    Ok(())
}

#[test]
fn infos_of_texts(rt: HostRuntime) -> Result<(), Fail> {
    are_read(
        rt.alloc(),
        &[
            (WRITTEN, "made"),
            (r#"{"entries":[],"name":"a:b"}"#, "whole"),
            (
                r#"{"name":"a:b","head":null,"entries":[],"other":[1]}"#,
                "whole",
            ),
            (
                r#"{"entries":[{"type":"init","other":1}],"name":"a:b"}"#,
                "made",
            ),
            (
                r#"{"entries":[{"type":"yank","version":"1.0.0"}],"name":"a:b"}"#,
                "whole",
            ),
            (
                r#"{"entries":[{"type":"yank","version":"1.0"}],"name":"a:b"}"#,
                "none",
            ),
            (r#"{"entries":[{"type":"yank"}],"name":"a:b"}"#, "none"),
            (r#"{"entries":[{"type":"other"}],"name":"a:b"}"#, "none"),
            (r#"{"entries":[{}],"name":"a:b"}"#, "none"),
            (
                r#"{"entries":[{"type":"grant","key":"k:BA==","permissions":["yank"]}],"name":"a:b"}"#,
                "whole",
            ),
            (
                r#"{"entries":[{"type":"grant","key":"k:BA==","permissions":[]}],"name":"a:b"}"#,
                "none",
            ),
            (
                r#"{"entries":[{"type":"grant","key":"k:BA==","permissions":["commit"]}],"name":"a:b"}"#,
                "none",
            ),
            (
                r#"{"entries":[{"type":"grant","key":"BA==","permissions":["yank"]}],"name":"a:b"}"#,
                "none",
            ),
            (
                r#"{"entries":[{"type":"revoke","keyId":"k:BA==","permissions":["yank"]}],"name":"a:b"}"#,
                "none",
            ),
            (
                r#"{"entries":[{"type":"release","version":"1.0.0","content":"sha256:00"}],"name":"a:b"}"#,
                "none",
            ),
            (r#"{"entries":[],"head":"sha256:00","name":"a:b"}"#, "none"),
            (r#"{"entries":[],"name":"a"}"#, "none"),
            (r#"{"entries":[]}"#, "none"),
            (r#"{"name":"a:b"}"#, "none"),
            ("[]", "none"),
            ("{", "none"),
            ("", "none"),
        ],
    )
}

/// The text of an info that was read of one.
fn written(alloc: Global, text: &str) -> Result<Vec<u8>, Fail> {
    let found: Option<PublishInfo> = read_publish(alloc, text.as_bytes())?;
    let Some(info) = found else {
        return Err(Fail::new("it is not read"));
    };
    let copy = info.try_clone(alloc)?;
    Ok(write_publish(alloc, &copy)?)
}

#[test]
fn an_info_is_written_in_lines(rt: HostRuntime) -> Result<(), Fail> {
    let bytes = written(rt.alloc(), WRITTEN)?;
    let Ok(text) = str::from_utf8(&bytes) else {
        return Err(Fail::new("no text"));
    };
    is_text(text, WRITTEN)
}
