//! Callers of `warg_config`.

ghost use Rattle.std.specs.Prelude.{◌≡◌, ◌≤◌, IfOk, IfSome, None, Some, codes};
ghost use Rattle.warg_config.specs.ConfigFile.{default_paths, first_file, given_or_under};

use std::alloc::Global;
use warg_base::Files;
use warg_config::{ClientConfigError, Config, Dirs};
use warg_values::Text;

/// The folder of contents of the default configuration, which is the machine's where there is no configuration.
pub fn default_content_dir<F: Files>(
    alloc: Global,
    files: &mut F,
    cwd: &str,
    dirs: &Dirs,
) -> Result<Text, ClientConfigError>
    ensures never_falls { F.faults files.old ≤ F.faults files.new }
    ensures kept { F.told files.new ≡ F.told files.old }
    ensures machine { IfOk result (λ folder. IfSome (F.told files.old) (λ held.
        first_file held (default_paths cwd.now dirs.now) ≡ None
        → given_or_under None dirs.now.cache (codes "warg/content") ≡ Some folder)) }
{
    let config = match Config::from_default_file(alloc, files, cwd, dirs)? {
        Some(config) => config,
        None => Config::new(alloc),
    };
    config.content_dir(alloc, dirs)
}
