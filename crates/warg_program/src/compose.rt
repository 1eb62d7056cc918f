//! The command `compose ROOT CONFIG OUT`.

ghost use Rattle.std.specs.Prelude.{◌≡◌, ◌≤◌, IfErr, IfOk, IfSome, OnOk, string_bytes};
ghost use Rattle.compose_config.specs.View.{settings_of};
ghost use Rattle.compose_files.specs.Composed.{IsComposed};
ghost use Rattle.compose_files.specs.Paths.{folder};
ghost use Rattle.compose_files.specs.Read.{HoldsSettings};
ghost use Rattle.compose_files.specs.View.{sources};
ghost use Rattle.warg_program.specs.Assembly.{IsReadCause};
ghost use Rattle.warg_program.specs.Compose.{HasSomeFile, IsComposition, IsCompositionCause, IsConfigCause, IsUncomposed, stop_of};
ghost use Rattle.warg_program.specs.World.{seen_files};

use crate::delivery::Made;
use crate::lines::bytes_line;
use crate::stop::{Access, Stop};
use std::alloc::{AllocError, Global};
use warg_base::{FileError, Files};
use wasm_compose::composer::{
    ComponentComposer, ComposerError, ConfigError, ConfigRefusal, read_config,
};
use wasm_compose::config::Config;

/// Checks that there is a file at `root`.
fn check_root<'a, F: Files>(alloc: Global, files: &mut F, root: &'a str) -> Result<(), Stop<'a>>
    ensures never_falls { F.faults files.old ≤ F.faults files.new }
    ensures kept { F.told files.new ≡ F.told files.old }
    ensures there { OnOk result (HasSomeFile (seen_files (F.told files.old) (F.faults files.old)) root.now) }
    ensures cause { IfErr result (λ stop. IsReadCause stop root.now
        (seen_files (F.told files.old) (F.faults files.old)) (seen_files (F.told files.new) (F.faults files.new))) }
{
    match files.is_file(alloc, root) {
        Ok(true) => Ok(()),
        Ok(false) => Err(Stop::Missing { path: root }),
        Err(FileError::Failed) => Err(Stop::Fault(Access::Read(root))),
        Err(FileError::Memory) => Err(Stop::Memory),
        // Only a read answers this.
        Err(FileError::Missing) => unreachable!(),
    }
}

/// The configuration in the file at `path`.
fn config_at<'a, F: Files>(alloc: Global, files: &mut F, path: &'a str) -> Result<Config, Stop<'a>>
    ensures never_falls { F.faults files.old ≤ F.faults files.new }
    ensures kept { F.told files.new ≡ F.told files.old }
    ensures says { IfOk result (λ config. IfSome (F.told files.old) (λ held.
        HoldsSettings held path.now (settings_of config))) }
    ensures dir { IfOk result (λ config. config.dir ≡ folder path.now) }
    ensures cause { IfErr result (λ stop. IsConfigCause stop path.now
        (seen_files (F.told files.old) (F.faults files.old)) (seen_files (F.told files.new) (F.faults files.new))) }
{
    let (error, place) = match read_config(alloc, files, path) {
        Ok(config) => return Ok(config),
        Err(ConfigRefusal { error, place }) => (error, place),
    };
    match error {
        ConfigError::File(FileError::Missing) => Err(Stop::Missing { path }),
        ConfigError::File(FileError::Failed) => Err(Stop::Fault(Access::Read(path))),
        ConfigError::File(FileError::Memory) => Err(Stop::Memory),
        ConfigError::Memory => Err(Stop::Memory),
        ConfigError::NotUtf8 => {
            let error = ConfigError::NotUtf8;
            let refusal = ConfigRefusal { error, place };
            Err(Stop::BadConfig { path, refusal })
        }
        ConfigError::Yaml(error) => {
            let error = ConfigError::Yaml(error);
            let refusal = ConfigRefusal { error, place };
            Err(Stop::BadConfig { path, refusal })
        }
    }
}

/// The stop of an error.
fn stop_of<'a>(error: ComposerError) -> Stop<'a>
    ensures { result ≡ stop_of error }
{
    if let ComposerError::Memory = &error {
        // A call that is generic is proved once, and not for each of the cases of an error.
        drop(error);
        return Stop::Memory;
    }
    if let ComposerError::File(_, FileError::Failed) = &error {
        return Stop::Unread(error);
    }
    Stop::NotComposed(error)
}

/// The bytes that compose the component at `root` by a configuration.
fn composed_by<'a, F: Files>(
    alloc: Global,
    files: &mut F,
    root: &str,
    config: &Config,
) -> Result<Vec<u8>, Stop<'a>>
    ensures never_falls { F.faults files.old ≤ F.faults files.new }
    ensures kept { F.told files.new ≡ F.told files.old }
    ensures composed { IfOk result (λ bytes. IfSome (F.told files.old) (λ held.
        IsComposed root.now (sources config.now held) bytes.items)) }
    ensures cause { IfErr result (λ stop. IsUncomposed stop root.now
        (λ Holds. IfSome (F.told files.old) (λ held. Holds (sources config.now held)))
        (F.faults files.old) (F.faults files.new)) }
{
    match ComponentComposer::new(root, config).compose(alloc, files) {
        Ok(bytes) => Ok(bytes),
        Err(error) => Err(stop_of(error)),
    }
}

/// The bytes that compose the component at `root` by the configuration at `config`, and the line that tells how many they
/// are and their SHA-256. Nothing is written.
pub fn composed<'a, F: Files>(
    alloc: Global,
    files: &mut F,
    root: &'a str,
    config: &'a str,
) -> Result<Made, Stop<'a>>
    ensures never_falls { F.faults files.old ≤ F.faults files.new }
    ensures kept { F.told files.new ≡ F.told files.old }
    ensures made { IfOk result (λ made. IsComposition root.now config.now
        (seen_files (F.told files.old) (F.faults files.old)) made.bytes.items (string_bytes made.lines)) }
    ensures stopped { IfErr result (λ stop. IsCompositionCause stop root.now config.now
        (seen_files (F.told files.old) (F.faults files.old)) (seen_files (F.told files.new) (F.faults files.new))) }
{
    check_root(alloc, files, root)?;
    let settings = config_at(alloc, files, config)?;
    let bytes = composed_by(alloc, files, root, &settings)?;
    match bytes_line(alloc, &bytes) {
        Ok(lines) => Ok(Made { bytes, lines }),
        Err(AllocError) => Err(Stop::Memory),
    }
}
