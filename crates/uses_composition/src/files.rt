//! A caller of `compose_files`.

ghost use Rattle.std.specs.Prelude.{◌≡◌, Some, IfSome};
ghost use Rattle.warg_base.specs.Files.{FileMap};
ghost use Rattle.compose_config.specs.Plan.{Settings};
ghost use Rattle.compose_files.specs.Composed.{IsComposed};
ghost use Rattle.compose_files.specs.Paths.{folder};
ghost use Rattle.compose_files.specs.Read.{HoldsSettings};

use compose_files::{ComponentComposer, Config, Files, FromFile};
use std::alloc::Global;

/// The component that the configuration in a file composes of a root, where it composes one.
pub fn composed_by_file<F: Files>(
    alloc: Global,
    files: &mut F,
    path: &str,
    root: &str,
) -> Option<Vec<u8>>
    ensures { IfSome result (λ bytes. (held : FileMap) → F.told files.old ≡ Some held
        → (settings : Settings) × HoldsSettings held path.now settings
        × IsComposed root.now (record { dir = folder path.now; settings = settings; files = held }) bytes.items) }
{
    let Ok(config) = Config::from_file(alloc, files, path) else {
        return None;
    };
    match ComponentComposer::new(root, &config).compose(alloc, files) {
        Ok(bytes) => Some(bytes),
        Err(_) => None,
    }
}
