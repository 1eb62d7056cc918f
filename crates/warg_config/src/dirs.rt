//! Folders of the machine, and the paths at which a client stores.

use warg_url::RegistryUrl;
use warg_values::Text;

/// The machine's own folders, which may be missing.
#[derive(Debug, Drop)]
pub struct Dirs {
    /// The folder of what can be fetched again.
    pub cache: Option<Text>,
    /// The folder of configurations.
    pub config: Option<Text>,
}

/// The paths at which a client of a registry stores.
#[derive(Debug, Drop)]
pub struct StoragePaths {
    /// The URL of the registry.
    pub registry_url: RegistryUrl,
    /// The folder of what is kept of the registry.
    pub registries_dir: Text,
    /// The folder of contents.
    pub content_dir: Text,
    /// The file of the registries of namespaces.
    pub namespace_map_path: Text,
}
