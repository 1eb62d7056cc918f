//! The configuration of a client.

ghost use Rattle.std.specs.Prelude.{◌≡◌, ◌≤◌, ◌⊎◌, Err, IfErr, IfOk, IfSome, OnErr, OnOk, Some, None, codes, option_map, option_copied};
ghost use Rattle.std.specs.Path.{path_join, path_parent};
ghost use Rattle.warg_base.specs.Files.{LeavesPartlyWritten, with_file};
ghost use Rattle.warg_url.specs.Label.{label};
ghost use Rattle.warg_config.specs.Answers.{IsSearchFault, refusal_of};
ghost use Rattle.warg_config.specs.ConfigFile.{IsDefaultFault, IsFirst, IsNowhere, IsReadFault, IsWriteFault, ReadsBack, config_text, default_paths, first_file, given_or_under, local_paths, machine_path, settings_at};
ghost use Rattle.warg_config.specs.Settings.{no_settings};
ghost use Rattle.warg_config.specs.Shown.{settings_of};
ghost use Rattle.warg_config.specs.declared.error.ClientConfigError.TheVariants.{NoParent as has_no_parent};

use crate::dirs::{Dirs, StoragePaths};
use crate::error::ClientConfigError;
use crate::paths::{folder_of, joined};
use crate::reading::{ReadError, read_config};
use crate::writing::write_config;
use indexmap::IndexSet;
use std::alloc::Global;
use std::path::Path;
use warg_base::{FileError, Files};
use warg_url::RegistryUrl;
use warg_values::{Memory, Text};

/// The name of a configuration's file in a folder or in one above it.
const LOCAL_NAME: &str = "warg-config.json";

/// The path of a configuration's file under the machine's configuration folder.
const MACHINE_PATH: &str = "warg/config.json";

/// The configuration of a client.
///
/// In JSON each field has its name in camel case, as `registriesDir`; a field that is missing is none, empty or false.
#[derive(Debug, Drop)]
pub struct Config {
    /// The URL of the home registry.
    pub home_url: Option<Text>,
    /// The folder in which each registry has a folder of its own.
    pub registries_dir: Option<Text>,
    /// The folder of contents.
    pub content_dir: Option<Text>,
    /// The file of the registries of namespaces.
    pub namespace_map_path: Option<Text>,
    /// The name of a store of keys. It is kept and not used.
    pub keyring_backend: Option<Text>,
    /// The names of keys in a store. They are kept and not used.
    pub keys: IndexSet<Text>,
    /// Whether a token is taken from a store of keys. It is kept and not used.
    pub keyring_auth: bool,
    /// Whether hints of registries are passed over.
    pub ignore_federation_hints: bool,
    /// Whether a hint is not accepted without asking.
    pub disable_auto_accept_federation_hints: bool,
    /// Whether a package that is missing is not made on publishing.
    pub disable_auto_package_init: bool,
    /// Whether nothing is asked.
    pub disable_interactive: bool,
}

/// The error of files as one of configurations.
fn refusal(error: FileError) -> ClientConfigError
    ensures { result ≡ refusal_of error }
{
    match error {
        FileError::Memory => ClientConfigError::Memory,
        FileError::Failed | FileError::Missing => ClientConfigError::File(error),
    }
}

/// A copy of a text that may be missing.
fn copied(alloc: Global, text: &Option<Text>) -> Result<Option<Text>, Memory>
    ensures { IfOk result (λ copy. copy ≡ text.now) }
{
    match text {
        Some(text) => Ok(Some(text.try_clone(alloc)?)),
        None => Ok(None),
    }
}

/// A copy of keys, in their order.
fn copied_keys(alloc: Global, keys: &IndexSet<Text>) -> Result<IndexSet<Text>, Memory>
    ensures { IfOk result (λ copy. copy.keys ≡ keys.now.keys) }
{
    let mut copy = IndexSet::new(alloc);
    for key in keys {
        copy.insert(key.try_clone(alloc)?)?;
    }
    Ok(copy)
}

/// A text, joined with a folder, where there is one.
fn joined_option(alloc: Global, folder: &str, path: &Option<Text>) -> Result<Option<Text>, Memory>
    ensures { IfOk result (λ whole. whole ≡ option_map (path_join folder.now) path.now) }
{
    match path {
        Some(path) => Ok(Some(joined(alloc, folder, path.as_str())?)),
        None => Ok(None),
    }
}

/// A path that a configuration gives, or else one under a folder of the machine.
fn given_or_joined(
    alloc: Global,
    path: &Option<Text>,
    folder: &Option<Text>,
    name: &str,
) -> Result<Text, ClientConfigError>
    ensures found { IfOk result (λ whole. given_or_under path.now folder.now name.now ≡ Some whole) }
    ensures err { IfErr result (λ e. IsNowhere e (given_or_under path.now folder.now name.now)) }
{
    if let Some(path) = path {
        return Ok(path.try_clone(alloc)?);
    }
    match folder {
        Some(folder) => Ok(joined(alloc, folder.as_str(), name)?),
        None => Err(ClientConfigError::NoDirectory),
    }
}

/// The first file that is looked for from a folder on.
fn local_file<F: Files>(
    alloc: Global,
    files: &mut F,
    cwd: &str,
) -> Result<Option<Text>, ClientConfigError>
    ensures never_falls { F.faults files.old ≤ F.faults files.new }
    ensures kept { F.told files.new ≡ F.told files.old }
    ensures found { IfOk result (λ path. IfSome (F.told files.old) (λ held.
        first_file held (local_paths cwd.now) ≡ path)) }
    ensures fault { IfErr result (λ e. IsSearchFault e (F.faults files.old) (F.faults files.new)) }
{
    for folder in Path::new(cwd).ancestors() {
        let path = joined(alloc, folder.as_str(), LOCAL_NAME)?;
        match files.is_file(alloc, path.as_str()) {
            Ok(true) => return Ok(Some(path)),
            Ok(false) => {}
            Err(error) => return Err(refusal(error)),
        }
    }
    Ok(None)
}

/// The first file that is looked for, in the folders and then in the machine's.
#[tactic(auto, using(crate::proofs::FileLaws::search_fault, crate::proofs::FileLaws::nowhere_fault, crate::proofs::FileLaws::first_in_folders, crate::proofs::FileLaws::machine_first, crate::proofs::FileLaws::none_first, crate::proofs::FileLaws::refused_default))]
fn default_file<F: Files>(
    alloc: Global,
    files: &mut F,
    cwd: &str,
    dirs: &Dirs,
) -> Result<Option<Text>, ClientConfigError>
    ensures never_falls { F.faults files.old ≤ F.faults files.new }
    ensures kept { F.told files.new ≡ F.told files.old }
    ensures found { IfOk result (λ path. IfSome (F.told files.old) (λ held.
        first_file held (default_paths cwd.now dirs.now) ≡ path)) }
    ensures fault { IfErr result (λ e.
        IsDefaultFault e (F.faults files.old) (F.faults files.new) (F.told files.old) cwd.now dirs.now) }
{
    if let Some(path) = local_file(alloc, files, cwd)? {
        return Ok(Some(path));
    }
    let path = Config::default_config_path(alloc, dirs)?;
    match files.is_file(alloc, path.as_str()) {
        Ok(true) => Ok(Some(path)),
        Ok(false) => Ok(None),
        Err(error) => Err(refusal(error)),
    }
}

impl Config {
    /// A configuration that says nothing.
    pub fn new(alloc: Global) -> Self
        ensures { settings_of result ≡ no_settings }
    {
        Config {
            home_url: None,
            registries_dir: None,
            content_dir: None,
            namespace_map_path: None,
            keyring_backend: None,
            keys: IndexSet::new(alloc),
            keyring_auth: false,
            ignore_federation_hints: false,
            disable_auto_accept_federation_hints: false,
            disable_auto_package_init: false,
            disable_interactive: false,
        }
    }

    /// A configuration that says the same.
    pub fn try_clone(&self, alloc: Global) -> Result<Self, Memory>
        ensures { IfOk result (λ copy. settings_of copy ≡ settings_of self.now) }
    {
        Ok(Config {
            home_url: copied(alloc, &self.home_url)?,
            registries_dir: copied(alloc, &self.registries_dir)?,
            content_dir: copied(alloc, &self.content_dir)?,
            namespace_map_path: copied(alloc, &self.namespace_map_path)?,
            keyring_backend: copied(alloc, &self.keyring_backend)?,
            keys: copied_keys(alloc, &self.keys)?,
            keyring_auth: self.keyring_auth,
            ignore_federation_hints: self.ignore_federation_hints,
            disable_auto_accept_federation_hints: self.disable_auto_accept_federation_hints,
            disable_auto_package_init: self.disable_auto_package_init,
            disable_interactive: self.disable_interactive,
        })
    }

    /// The configuration that a file has. Its three paths are joined with the file's folder.
    #[tactic(auto, using(crate::proofs::FileLaws::read_is, crate::proofs::FileLaws::unreadable, crate::proofs::FileLaws::refused_read))]
    pub fn from_file<F: Files>(
        alloc: Global,
        files: &mut F,
        path: &str,
    ) -> Result<Self, ClientConfigError>
        ensures never_falls { F.faults files.old ≤ F.faults files.new }
        ensures kept { F.told files.new ≡ F.told files.old }
        ensures found { IfOk result (λ config. IfSome (F.told files.old) (λ held.
            settings_at held path.now ≡ Some (settings_of config))) }
        ensures fault { IfErr result (λ e.
            IsReadFault e (F.faults files.old) (F.faults files.new) (F.told files.old) path.now) }
    {
        let bytes = match files.read(alloc, path) {
            Ok(bytes) => bytes,
            Err(error) => return Err(refusal(error)),
        };
        let mut config = match read_config(alloc, &bytes) {
            Ok(config) => config,
            Err(ReadError::Form) => return Err(ClientConfigError::Form),
            Err(ReadError::Memory) => return Err(ClientConfigError::Memory),
        };
        let folder = folder_of(path);
        config.registries_dir = joined_option(alloc, folder, &config.registries_dir)?;
        config.content_dir = joined_option(alloc, folder, &config.content_dir)?;
        config.namespace_map_path = joined_option(alloc, folder, &config.namespace_map_path)?;
        Ok(config)
    }

    /// Writes the configuration to a file, whose path is joined with `cwd`, a path that begins with `/`. Each of its
    /// three paths is written relative to the file's folder.
    #[tactic(auto, using(crate::proofs::FileLaws::nothing_written, crate::proofs::FileLaws::refused_write, crate::proofs::FileLaws::written_text, crate::proofs::FileLaws::refused_text))]
    pub fn write_to_file<F: Files>(
        &self,
        alloc: Global,
        files: &mut F,
        cwd: &str,
        path: &str,
    ) -> Result<(), ClientConfigError>
        ensures never_falls { F.faults files.old ≤ F.faults files.new }
        ensures written { OnOk result (IfSome (F.told files.old) (λ held. F.told files.new
            ≡ Some (with_file held (path_join cwd.now path.now)
            (config_text (path_join cwd.now path.now) (settings_of self.now))))) }
        ensures reads_back { OnOk result (ReadsBack (path_join cwd.now path.now) (settings_of self.now)) }
        ensures refused { OnErr result (LeavesPartlyWritten (F.told files.old) (F.told files.new)
            (path_join cwd.now path.now) (config_text (path_join cwd.now path.now) (settings_of self.now))) }
        ensures no_parent { result ≡ Err has_no_parent → F.told files.new ≡ F.told files.old }
        ensures fault { IfErr result (λ e.
            IsWriteFault e (F.faults files.old) (F.faults files.new) (path_join cwd.now path.now)) }
    {
        let whole = joined(alloc, cwd, path)?;
        let Some(folder) = Path::new(whole.as_str()).parent() else {
            return Err(ClientConfigError::NoParent);
        };
        let text = write_config(alloc, self, folder.as_str())?;
        match files.write(alloc, whole.as_str(), &text) {
            Ok(()) => Ok(()),
            Err(error) => Err(refusal(error)),
        }
    }

    /// The configuration of the first of these files: `warg-config.json` in the folder `cwd` and in those above it,
    /// then `warg/config.json` under the machine's configuration folder. None where none of them is there.
    #[tactic(auto, using(crate::proofs::FileLaws::first_reads, crate::proofs::FileLaws::first_fault))]
    pub fn from_default_file<F: Files>(
        alloc: Global,
        files: &mut F,
        cwd: &str,
        dirs: &Dirs,
    ) -> Result<Option<Self>, ClientConfigError>
        ensures never_falls { F.faults files.old ≤ F.faults files.new }
        ensures kept { F.told files.new ≡ F.told files.old }
        ensures found { IfOk result (λ config. IfSome (F.told files.old) (λ held.
            IsFirst held (default_paths cwd.now dirs.now) (option_map settings_of config))) }
        ensures fault { IfErr result (λ e.
            IsDefaultFault e (F.faults files.old) (F.faults files.new) (F.told files.old) cwd.now dirs.now) }
    {
        match default_file(alloc, files, cwd, dirs)? {
            Some(path) => Ok(Some(Config::from_file(alloc, files, path.as_str())?)),
            None => Ok(None),
        }
    }

    /// The path of the configuration under the machine's configuration folder.
    pub fn default_config_path(alloc: Global, dirs: &Dirs) -> Result<Text, ClientConfigError>
        ensures found { IfOk result (λ path. option_map machine_path dirs.now.config ≡ Some path) }
        ensures err { IfErr result (λ e. IsNowhere e (option_map machine_path dirs.now.config)) }
    {
        given_or_joined(alloc, &None, &dirs.config, MACHINE_PATH)
    }

    /// The folder in which each registry has one: the configuration's, or `warg/registries` under the machine's cache.
    pub fn registries_dir(&self, alloc: Global, dirs: &Dirs) -> Result<Text, ClientConfigError>
        ensures found { IfOk result (λ path. given_or_under self.now.registries_dir dirs.now.cache
            (codes "warg/registries") ≡ Some path) }
        ensures err { IfErr result (λ e. IsNowhere e (given_or_under self.now.registries_dir dirs.now.cache
            (codes "warg/registries"))) }
    {
        given_or_joined(alloc, &self.registries_dir, &dirs.cache, "warg/registries")
    }

    /// The folder of contents: the configuration's, or `warg/content` under the machine's cache.
    pub fn content_dir(&self, alloc: Global, dirs: &Dirs) -> Result<Text, ClientConfigError>
        ensures found { IfOk result (λ path. given_or_under self.now.content_dir dirs.now.cache
            (codes "warg/content") ≡ Some path) }
        ensures err { IfErr result (λ e. IsNowhere e (given_or_under self.now.content_dir dirs.now.cache
            (codes "warg/content"))) }
    {
        given_or_joined(alloc, &self.content_dir, &dirs.cache, "warg/content")
    }

    /// The file of the registries of namespaces: the configuration's, or `warg/namespaces` under the machine's cache.
    pub fn namespace_map_path(&self, alloc: Global, dirs: &Dirs) -> Result<Text, ClientConfigError>
        ensures found { IfOk result (λ path. given_or_under self.now.namespace_map_path dirs.now.cache
            (codes "warg/namespaces") ≡ Some path) }
        ensures err { IfErr result (λ e. IsNowhere e (given_or_under self.now.namespace_map_path dirs.now.cache
            (codes "warg/namespaces"))) }
    {
        given_or_joined(
            alloc,
            &self.namespace_map_path,
            &dirs.cache,
            "warg/namespaces",
        )
    }

    /// The paths at which a client of a registry stores: a folder under the registries' named by the URL's label, and
    /// the other two as they are.
    pub fn storage_paths(
        &self,
        alloc: Global,
        registry_url: RegistryUrl,
        dirs: &Dirs,
    ) -> Result<StoragePaths, ClientConfigError>
        ensures url { IfOk result (λ paths. paths.registry_url ≡ registry_url) }
        ensures registries { IfOk result (λ paths. option_map (λ folder. path_join folder (label registry_url))
            (given_or_under self.now.registries_dir dirs.now.cache (codes "warg/registries"))
            ≡ Some paths.registries_dir) }
        ensures contents { IfOk result (λ paths. given_or_under self.now.content_dir dirs.now.cache
            (codes "warg/content") ≡ Some paths.content_dir) }
        ensures namespaces { IfOk result (λ paths. given_or_under self.now.namespace_map_path dirs.now.cache
            (codes "warg/namespaces") ≡ Some paths.namespace_map_path) }
        ensures err { IfErr result (λ e.
            IsNowhere e (given_or_under self.now.registries_dir dirs.now.cache (codes "warg/registries"))
            ⊎ IsNowhere e (given_or_under self.now.content_dir dirs.now.cache (codes "warg/content"))
            ⊎ IsNowhere e (given_or_under self.now.namespace_map_path dirs.now.cache (codes "warg/namespaces"))) }
    {
        let registries = self.registries_dir(alloc, dirs)?;
        let label = registry_url.safe_label(alloc)?;
        Ok(StoragePaths {
            registries_dir: joined(alloc, registries.as_str(), label.as_str())?,
            content_dir: self.content_dir(alloc, dirs)?,
            namespace_map_path: self.namespace_map_path(alloc, dirs)?,
            registry_url,
        })
    }
}
