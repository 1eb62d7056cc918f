//! Configurations that are read from files.

ghost use Rattle.std.specs.Prelude.{◌≡◌, ◌≤◌, true, IfErr, IfOk, Some};
ghost use Rattle.warg_values.specs.Faults.{Rose};
ghost use Rattle.warg_base.specs.Files.{FileMap};
ghost use Rattle.compose_config.specs.Plan.{Settings};
ghost use Rattle.compose_config.specs.View.{settings_of};
ghost use Rattle.compose_files.specs.Paths.{folder};
ghost use Rattle.compose_files.specs.Read.{HoldsSettings, IsConfigRefusal, IsConfigShort, is_outside, refusal_of};

use crate::config_error::{ConfigError, ConfigRefusal};
use crate::paths::folder;
use compose_config::Config;
use std::alloc::Global;
use warg_base::{FileError, Files, Memory, Text};
use yaml_read::{DeError, Marker};

/// The error of a text that is refused.
fn error_of(error: DeError) -> ConfigError
    ensures { result ≡ refusal_of error }
{
    if let DeError::Memory = &error {
        return ConfigError::Memory;
    }
    ConfigError::Yaml(error)
}

/// Where the reading of a text ended, for an error that tells no place itself.
fn place_of(alloc: Global, text: &str, error: &DeError) -> Option<Marker> {
    match error {
        DeError::UnknownField(_) | DeError::MissingField(_) | DeError::ParseNumber(_) => {
            Config::refused_place(alloc, text)
        }
        _ => None,
    }
}

/// The refusal of a text.
fn refused(alloc: Global, text: &str, error: DeError) -> ConfigRefusal
    ensures { result.error ≡ refusal_of error }
{
    let place = place_of(alloc, text, &error);
    ConfigRefusal {
        error: error_of(error),
        place,
    }
}

/// The configuration of the file at a path, as [`FromFile::from_file`] gives it; where it is refused, with the place in the
/// text.
pub fn read_config<F: Files>(
    alloc: Global,
    files: &mut F,
    path: &str,
) -> Result<Config, ConfigRefusal>
    ensures never_falls { F.faults files.old ≤ F.faults files.new }
    ensures kept { F.told files.new ≡ F.told files.old }
    ensures read { IfOk result (λ config. (held : FileMap) → F.told files.old ≡ Some held
        → HoldsSettings held path.now (settings_of config)) }
    ensures dir { IfOk result (λ config. config.dir ≡ folder path.now) }
    ensures refused { IfErr result (λ refusal. (held : FileMap) → F.told files.old ≡ Some held
        → IsConfigRefusal held path.now refusal.error) }
    ensures failed { IfErr result
        (λ refusal. is_outside refusal.error ≡ true → Rose (F.faults files.old) (F.faults files.new)) }
    // A configuration that is there is read, unless memory runs out or the outside fails.
    ensures only { IfErr result (λ refusal. (held : FileMap) → F.told files.old ≡ Some held
        → (settings : Settings) → HoldsSettings held path.now settings → IsConfigShort refusal.error) }
{
    let bytes = match files.read(alloc, path) {
        Ok(bytes) => bytes,
        Err(FileError::Memory) => return Err(ConfigRefusal::from(ConfigError::Memory)),
        Err(error) => return Err(ConfigRefusal::from(ConfigError::File(error))),
    };
    let Ok(text) = std::str::from_utf8(&bytes) else {
        return Err(ConfigRefusal::from(ConfigError::NotUtf8));
    };
    let mut config = match Config::from_text(alloc, text) {
        Ok(config) => config,
        Err(error) => return Err(refused(alloc, text, error)),
    };
    match Text::copy_of(alloc, folder(path)) {
        Ok(dir) => config.dir = dir,
        Err(Memory) => return Err(ConfigRefusal::from(ConfigError::Memory)),
    }
    Ok(config)
}

/// What can be read from a file.
pub trait FromFile: Sized {
    /// What the file at a path holds.
    fn from_file<F: Files>(alloc: Global, files: &mut F, path: &str) -> Result<Self, ConfigError>
        ensures never_falls { F.faults files.old ≤ F.faults files.new }
        ensures kept { F.told files.new ≡ F.told files.old };
}

impl FromFile for Config {
    /// The configuration of the file at a path: one YAML document, as `Config::from_text` reads it. Its folder is that of
    /// the path.
    ///
    /// `File` is answered where the file is missing or the outside fails, `NotUtf8` where its bytes are no UTF-8, and
    /// `Yaml` where `Config::from_text` refuses its text.
    fn from_file<F: Files>(alloc: Global, files: &mut F, path: &str) -> Result<Config, ConfigError>
        ensures never_falls { F.faults files.old ≤ F.faults files.new }
        ensures kept { F.told files.new ≡ F.told files.old }
        ensures read { IfOk result (λ config. (held : FileMap) → F.told files.old ≡ Some held
            → HoldsSettings held path.now (settings_of config)) }
        ensures dir { IfOk result (λ config. config.dir ≡ folder path.now) }
        ensures refused { IfErr result (λ e. (held : FileMap) → F.told files.old ≡ Some held
            → IsConfigRefusal held path.now e) }
        ensures failed { IfErr result
            (λ e. is_outside e ≡ true → Rose (F.faults files.old) (F.faults files.new)) }
        // A configuration that is there is read, unless memory runs out or the outside fails.
        ensures only { IfErr result (λ e. (held : FileMap) → F.told files.old ≡ Some held
            → (settings : Settings) → HoldsSettings held path.now settings → IsConfigShort e) }
    {
        match read_config(alloc, files, path) {
            Ok(config) => Ok(config),
            Err(refusal) => Err(refusal.error),
        }
    }
}
