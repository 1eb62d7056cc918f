//! What a test wants. Each call fails with a text, so that a test hands on what its last check answers.
#![tactic(auto)]

use std::alloc::Global;
use std::test::Fail;

/// Fails where something does not hold: what was wanted.
pub fn holds(is: bool, wanted: &str) -> Result<(), Fail> {
    if is {
        return Ok(());
    }
    Err(Fail::new(format_args!("not so: {wanted}")))
}

/// Fails where a text is another one.
pub fn is_text(found: &str, wanted: &str) -> Result<(), Fail> {
    if found == wanted {
        return Ok(());
    }
    Err(Fail::new(format_args!("`{found}` in place of `{wanted}`")))
}

/// Fails where something else than what is wanted is found of a row's text.
pub fn is_row(text: &str, found: &str, wanted: &str) -> Result<(), Fail> {
    if found == wanted {
        return Ok(());
    }
    Err(Fail::new(format_args!("of {text:?} `{found}` in place of `{wanted}`")))
}

/// A file of recorded replies, with status 200 and these bodies, each in base64.
pub fn replies_file(alloc: Global, bodies: &[&str]) -> Result<String, Fail> {
    let mut text = String::from_str(alloc, "[")?;
    for body in bodies {
        if text.len() > 1 {
            text.push_str(",")?;
        }
        text.push_str(r#"{"status":200,"headers":[["content-type","application/json"]],"body":""#)?;
        text.push_str(body)?;
        text.push_str("\"}")?;
    }
    text.push_str("]")?;
    Ok(text)
}
