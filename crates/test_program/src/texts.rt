//! What people read on standard error, and in texts.

use comp_shape::ShapeError;
use std::alloc::Global;
use std::rt::HostRuntime;
use std::test::Fail;
use warg_base::{FileError, Text};
use warg_program::{Access, ComposerError, ConfigError, ConfigRefusal, Form, Stop, Why};

/// Fails where the text of a stop begins otherwise, or says no more.
fn says(alloc: Global, stop: Stop<'_>, front: &str) -> Result<(), Fail> {
    let text = format!(in alloc; "{stop}")?;
    if !text.starts_with(front) || text.len() <= front.len() + 10 {
        return Err(Fail::new(format_args!("{text}")));
    }
    Ok(())
}

#[test]
fn a_stop_names_the_file_and_says_what_to_do(rt: HostRuntime) -> Result<(), Fail> {
    let alloc = rt.alloc();
    let path = "a.wasm";
    says(alloc, Stop::Missing { path }, "a.wasm: ")?;
    says(
        alloc,
        Stop::Fault(Access::Read(path)),
        "a.wasm: the file could not be read",
    )?;
    says(
        alloc,
        Stop::Fault(Access::Written(path)),
        "a.wasm: the file could not be written",
    )?;
    says(alloc, Stop::Fault(Access::Printed), "standard output: ")?;
    let why = Why::NeedsUnbrought(Text::copy_of(alloc, "n")?);
    says(
        alloc,
        Stop::Incompatible { path, why },
        "a.wasm: the import `n` mentions a type",
    )
}

#[test]
fn a_stop_of_a_form_or_a_number_says_which(rt: HostRuntime) -> Result<(), Fail> {
    let alloc = rt.alloc();
    let path = "a.wasm";
    let error = ShapeError::Form(4);
    says(alloc, Stop::BadComponent { path, error }, "a.wasm: ")?;
    let number = 4_294_967_296;
    says(
        alloc,
        Stop::TooLarge { path, number },
        "a.wasm: 4294967296 is more than",
    )?;
    let form = Form::Replies;
    says(
        alloc,
        Stop::Bad { path, form },
        "a.wasm: no recorded replies",
    )?;
    says(alloc, Stop::Usage, "these words are no command")?;
    says(alloc, Stop::Memory, "out of memory")
}

#[test]
fn a_stop_of_a_composition_says_what_stands_in_the_way(rt: HostRuntime) -> Result<(), Fail> {
    let alloc = rt.alloc();
    let path = "c.yaml";
    let refusal = ConfigRefusal::from(ConfigError::NotUtf8);
    says(
        alloc,
        Stop::BadConfig { path, refusal },
        "c.yaml: the configuration is no UTF-8 text",
    )?;
    says(
        alloc,
        Stop::NotComposed(ComposerError::NoDependencies),
        "no component is found for what the root imports",
    )?;
    let error = ComposerError::File(Text::copy_of(alloc, "b.wasm")?, FileError::Failed);
    says(
        alloc,
        Stop::Unread(error),
        "`b.wasm`: the file could not be read",
    )
}

#[test]
fn texts_are_copied_and_put_in_lower_case(rt: HostRuntime) -> Result<(), Fail> {
    let alloc = rt.alloc();
    let text = Text::copy_of(alloc, "Wasm-\u{c4}")?;
    assert_eq!(rt; text.try_clone(alloc)?.as_str(), "Wasm-\u{c4}");
    assert_eq!(rt; text.to_ascii_lowercase(alloc)?.as_str(), "wasm-\u{c4}");
    assert_eq!(rt; text.into_string().as_str(), "Wasm-\u{c4}");
    Ok(())
}
