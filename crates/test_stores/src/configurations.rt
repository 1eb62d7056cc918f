//! Configurations that are written by hand, what is written of one, and where one is looked for.

use crate::stores::one_file;
use std::alloc::Global;
use std::rt::HostRuntime;
use std::str;
use std::test::Fail;
use test_check::{is_row, is_text};
use warg_base::{Files, MemoryFiles};
use warg_config::{ClientConfigError, Config, Dirs};
use warg_url::RegistryUrl;
use warg_values::Text;

/// The configuration of the specification's example, as it is written to `/e/d.json`.
const WRITTEN: &str = r#"{
  "disableAutoAcceptFederationHints": false,
  "disableAutoPackageInit": false,
  "disableInteractive": false,
  "ignoreFederationHints": false,
  "keyringAuth": false,
  "namespaceMapPath": "../n",
  "registriesDir": "regs"
}"#;

/// Why a call ended, in a word.
fn word(error: &ClientConfigError) -> &'static str {
    match error {
        ClientConfigError::File(_) => "file",
        ClientConfigError::Form => "form",
        ClientConfigError::NoDirectory => "no directory",
        ClientConfigError::NoParent => "no parent",
        ClientConfigError::Memory => "memory",
    }
}

/// Fails where a path is another one, or an error has another word.
fn is_path(row: &str, answer: &Result<Text, ClientConfigError>, wanted: &str) -> Result<(), Fail> {
    match answer {
        Ok(path) => is_row(row, path.as_str(), wanted),
        Err(error) => is_row(row, word(error), wanted),
    }
}

/// Fails where a text is another one. One that is missing is `none`.
fn is_option(row: &str, text: &Option<Text>, wanted: &str) -> Result<(), Fail> {
    match text {
        Some(text) => is_row(row, text.as_str(), wanted),
        None => is_row(row, "none", wanted),
    }
}

/// The configuration of files at a path.
fn read(alloc: Global, files: &mut MemoryFiles, path: &str) -> Result<Config, Fail> {
    match Config::from_file(alloc, files, path) {
        Ok(config) => Ok(config),
        Err(error) => Err(Fail::new(format_args!("not read: {error}"))),
    }
}

/// Folders of the machine, of which an empty one is missing.
fn machine(alloc: Global, cache: &str, config: &str) -> Result<Dirs, Fail> {
    let (Ok(cache_dir), Ok(config_dir)) = (
        Text::copy_of(alloc, cache),
        Text::copy_of(alloc, config),
    ) else {
        return Err(Fail::new(format_args!("no memory")));
    };
    Ok(Dirs {
        cache: if cache.is_empty() {
            None
        } else {
            Some(cache_dir)
        },
        config: if config.is_empty() {
            None
        } else {
            Some(config_dir)
        },
    })
}

/// Each row: the text of `/e/c.json`, and the folder of registries that it gives, or why it is not read.
fn check_texts(alloc: Global, rows: &[(&str, &str)]) -> Result<(), Fail> {
    for (text, wanted) in rows {
        let mut files = one_file(alloc, "/e/c.json", text)?;
        match Config::from_file(alloc, &mut files, "/e/c.json") {
            Ok(config) => is_option(text, &config.registries_dir, wanted)?,
            Err(error) => is_row(text, word(&error), wanted)?,
        }
    }
    Ok(())
}

/// Each row: the path of a file, and where the registries are of the default configuration in `/a/b`.
fn check_places(alloc: Global, rows: &[(&str, &str)]) -> Result<(), Fail> {
    for (path, wanted) in rows {
        let mut files = one_file(alloc, path, r#"{"registriesDir":"regs"}"#)?;
        let dirs = machine(alloc, "", "/m")?;
        match Config::from_default_file(alloc, &mut files, "/a/b", &dirs) {
            Ok(Some(config)) => is_option(path, &config.registries_dir, wanted)?,
            Ok(None) => is_row(path, "nothing", wanted)?,
            Err(error) => is_row(path, word(&error), wanted)?,
        }
    }
    Ok(())
}

#[test]
fn an_example_is_read_and_written(rt: HostRuntime) -> Result<(), Fail> {
    let alloc = rt.alloc();
    let mut files = one_file(
        alloc,
        "/e/c.json",
        r#"{"registriesDir":"regs","namespaceMapPath":"/n"}"#,
    )?;
    let config = read(alloc, &mut files, "/e/c.json")?;
    is_option("registries", &config.registries_dir, "/e/regs")?;
    is_option("contents", &config.content_dir, "none")?;
    is_option("namespaces", &config.namespace_map_path, "/n")?;
    if config
        .write_to_file(alloc, &mut files, "/e", "d.json")
        .is_err()
    {
        return Err(Fail::new(format_args!("not written")));
    }
    let Ok(bytes) = files.read(alloc, "/e/d.json") else {
        return Err(Fail::new(format_args!("no file")));
    };
    let Ok(text) = str::from_utf8(&bytes) else {
        return Err(Fail::new(format_args!("no text")));
    };
    is_text(text, WRITTEN)
}

#[test]
fn folders_of_the_machine(rt: HostRuntime) -> Result<(), Fail> {
    let alloc = rt.alloc();
    let config = Config::new(alloc);
    let dirs = machine(alloc, "/k", "/m")?;
    let none = machine(alloc, "", "")?;
    is_path(
        "registries",
        &config.registries_dir(alloc, &dirs),
        "/k/warg/registries",
    )?;
    is_path(
        "contents",
        &config.content_dir(alloc, &dirs),
        "/k/warg/content",
    )?;
    is_path(
        "namespaces",
        &config.namespace_map_path(alloc, &dirs),
        "/k/warg/namespaces",
    )?;
    is_path(
        "file",
        &Config::default_config_path(alloc, &dirs),
        "/m/warg/config.json",
    )?;
    is_path(
        "registries",
        &config.registries_dir(alloc, &none),
        "no directory",
    )?;
    is_path(
        "file",
        &Config::default_config_path(alloc, &none),
        "no directory",
    )
}

/// The three paths at which a client of a registry stores, each in a line, or why there are none, in a word.
fn stored(alloc: Global, config: &Config, dirs: &Dirs, url: &str) -> Result<String, Fail> {
    let url = RegistryUrl::new(alloc, url)?;
    match config.storage_paths(alloc, url, dirs) {
        Ok(paths) => {
            let registries = paths.registries_dir.as_str();
            let contents = paths.content_dir.as_str();
            let namespaces = paths.namespace_map_path.as_str();
            Ok(format!(in alloc; "{registries}\n{contents}\n{namespaces}")?)
        }
        Err(error) => Ok(String::from_str(alloc, word(&error))?),
    }
}

#[test]
fn paths_of_a_registry(rt: HostRuntime) -> Result<(), Fail> {
    let alloc = rt.alloc();
    let config = Config::new(alloc);
    let dirs = machine(alloc, "/k", "")?;
    is_text(
        &stored(alloc, &config, &dirs, "port:1234/with/path")?,
        "/k/warg/registries/port-1234_with_path\n/k/warg/content\n/k/warg/namespaces",
    )?;
    let none = machine(alloc, "", "")?;
    is_text(&stored(alloc, &config, &none, "host")?, "no directory")
}

#[test]
fn texts_of_configurations(rt: HostRuntime) -> Result<(), Fail> {
    check_texts(
        rt.alloc(),
        &[
            ("{}", "none"),
            (r#"{"registriesDir":null}"#, "none"),
            (r#"{"registriesDir":"/r"}"#, "/r"),
            (r#"{"registriesDir":"r","other":[1,{"a":2}]}"#, "/e/r"),
            (r#"{"registriesDir":"a","registriesDir":"b"}"#, "/e/b"),
            (r#"{"keys":["a","b","a"]}"#, "none"),
            ("", "form"),
            ("{", "form"),
            ("[]", "form"),
            ("{} {}", "form"),
            (r#"{"registriesDir":1}"#, "form"),
            (r#"{"homeUrl":["https://home.test/"]}"#, "form"),
            (r#"{"keys":"a"}"#, "form"),
            (r#"{"keys":[1]}"#, "form"),
            (r#"{"keyringAuth":"yes"}"#, "form"),
            (r#"{"disableInteractive":null}"#, "form"),
        ],
    )
}

#[test]
fn default_files(rt: HostRuntime) -> Result<(), Fail> {
    check_places(
        rt.alloc(),
        &[
            ("/a/b/warg-config.json", "/a/b/regs"),
            ("/a/warg-config.json", "/a/regs"),
            ("/warg-config.json", "/regs"),
            ("/m/warg/config.json", "/m/warg/regs"),
            ("/a/b/c/warg-config.json", "nothing"),
            ("/warg/config.json", "nothing"),
        ],
    )
}
