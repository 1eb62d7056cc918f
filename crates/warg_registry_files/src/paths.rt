//! The paths of files of registries.

ghost use Rattle.std.specs.Prelude.{◌≡◌, ◌≢◌, ◌⊎◌, ◌++◌, ◌∷◌, [], ℕ, nat_eq, true, false, if◌then◌else◌, List, length, codes, string_bytes, option_map, IfOk, MatchOption, OnOk};
ghost use Rattle.std.specs.List.{list_all};
ghost use Rattle.hex.specs.Hex.{encode_lower};
ghost use Rattle.warg_base.specs.Files.{is_under};
ghost use Rattle.warg_hash.specs.Hash.{package_log_id};
ghost use Rattle.warg_registry_files.specs.Paths.{are_bytes as are_bytes_of, stands as stands_of, escaped_byte, escaped as escaped_of, is_text, dot, has_slash, percent, slash};
ghost use Rattle.warg_registry_files.specs.Resets.{is_entry as is_entry_of, is_of_name as is_of_name_by, is_plain as is_plain_by};

use hex::FromHexError;
use percent_encoding::percent_decode;
use std::alloc::Global;
use warg_hash::{LogId, PackageName};
use warg_url::RegistryDomain;
use warg_values::{Memory, Text};

/// Where the folders of registries are.
#[derive(Debug, Drop)]
pub struct Place {
    /// The path of the folder that has them.
    pub parent: Text,
    /// The name of the home registry's folder.
    pub own: Text,
    /// It is one name.
    ghost single: { has_slash own ≡ false },
}

/// Whether a byte of a registry's name stands in a folder's name as it is.
fn stands(first: bool, byte: u8) -> bool
    ensures { result ≡ stands_of first byte }
{
    byte.is_ascii_alphanumeric() || byte == b'-' || byte == b'_' || (!first && byte == b'.')
}

/// Adds a byte of a registry's name to the name of its folder.
fn push_escaped(alloc: Global, name: &mut String, first: bool, byte: u8) -> Result<(), Memory>
    ensures { OnOk result (string_bytes name.new ≡ string_bytes name.old ++ escaped_byte first byte) }
{
    if stands(first, byte) {
        name.push(char::from(byte))?;
        return Ok(());
    }
    let digits = hex::encode_upper(alloc, [byte])?;
    name.push_str("%")?;
    name.push_str(&digits)?;
    Ok(())
}

/// Each byte is below 256.
fn are_bytes(bytes: &[u8])
    ensures { are_bytes_of bytes.now ≡ true }
{}

/// Each byte of a text is below 256, and the text is UTF-8.
fn are_text(text: &str)
    ensures { is_text text.now ≡ true }
{
    are_bytes(text.as_bytes());
}

/// A registry's name, escaped so that it can be a folder's.
fn escaped(alloc: Global, registry: &str) -> Result<String, Memory>
    ensures { IfOk result (λ name. string_bytes name ≡ escaped_of registry.now) }
{
    let mut name = String::new(alloc);
    if registry.is_empty() {
        name.push_str("%")?;
        return Ok(name);
    }
    let mut first = true;
    for byte in registry.as_bytes() {
        push_escaped(alloc, &mut name, first, *byte)?;
        first = false;
    }
    Ok(name)
}

/// The digits of the id of a package's log.
fn log_digits(alloc: Global, name: &PackageName) -> Result<String, Memory>
    ensures digits { IfOk result (λ digits. string_bytes digits ≡ encode_lower (package_log_id name.now)) }
    ensures bytes { IfOk result (λ _. are_bytes_of (package_log_id name.now) ≡ true) }
{
    let id = LogId::package_log(name);
    let bytes = id.hash().bytes();
    are_bytes(bytes.as_slice());
    Ok(hex::encode(alloc, bytes)?)
}

/// Whether memory was wanting for what digits mean.
fn wants_memory(error: FromHexError) -> bool
    ensures { result ≡ false → error ≢ FromHexError.OutOfMemory }
{
    matches!(error, FromHexError::OutOfMemory)
}

/// The id of which a text is the lower-case hexadecimal digits, where it is that of one.
fn id_of(alloc: Global, digits: &str) -> Result<Option<Vec<u8>>, Memory>
    ensures { IfOk result (λ o.
        MatchOption o ((id : List ℕ) → are_bytes_of id ≡ true → digits.now ≡ encode_lower id → ⊥)
        (λ id. (are_bytes_of id.items ≡ true) × (digits.now ≡ encode_lower id.items))) }
{
    let id = match hex::decode(alloc, digits) {
        Ok(id) => id,
        Err(error) => {
            if wants_memory(error) {
                return Err(Memory);
            }
            return Ok(None);
        }
    };
    let written = hex::encode(alloc, id.as_slice())?;
    // Upper-case digits decode too.
    if written.as_str() == digits {
        are_bytes(id.as_slice());
        return Ok(Some(id));
    }
    Ok(None)
}

/// A folder's name without the `%%` that it has before it where the registry's name alone were the home folder's.
fn without_mark(folder: &str) -> &str
    ensures { (name : List ℕ)
        → (folder.now ≡ escaped_of name) ⊎ (folder.now ≡ percent ∷ percent ∷ escaped_of name)
        → result.now ≡ escaped_of name }
{
    match folder.strip_prefix("%%") {
        Some(name) => name,
        None => folder,
    }
}

/// The text of which a folder's name is the escaped one, where it is that of one. Of another name it is none or any.
fn unescaped(alloc: Global, folder: &str) -> Result<Option<String>, Memory>
    ensures { IfOk result (λ o. (name : List ℕ) → is_text name ≡ true → folder.now ≡ escaped_of name
        → option_map (λ found. string_bytes found) o ≡ Some name) }
{
    if folder == "%" {
        return Ok(Some(String::new(alloc)));
    }
    let mut bytes = Vec::new(alloc);
    percent_decode(folder.as_bytes()).append_to(&mut bytes)?;
    match String::from_utf8(bytes) {
        Ok(name) => Ok(Some(name)),
        Err(_) => Ok(None),
    }
}

/// What a path in a registry's folder has behind the folder of the packages' logs.
fn digits_in(path: &str) -> Option<&str>
    ensures { MatchOption result ((rest : List ℕ) → path.now ≡ codes "package-logs/sha256/" ++ rest → ⊥)
        (λ rest. path.now ≡ codes "package-logs/sha256/" ++ rest.now) }
{
    path.strip_prefix("package-logs/sha256/")
}

/// Whether a byte can stand in the name of a registry's folder.
fn is_of_name(first: bool, byte: u8) -> bool
    ensures { result ≡ is_of_name_by first byte }
{
    stands(first, byte) || byte == b'%'
}

/// Whether all bytes can stand in the name of a registry's folder, behind the first.
fn are_of_name(bytes: &[u8]) -> bool
    ensures { result ≡ list_all (λ b. is_of_name_by false b) bytes.now }
{
    bytes.iter().all(|byte| is_of_name(false, *byte))
}

/// Whether a name has only bytes that the names of registries' folders have.
fn is_plain(name: &[u8]) -> bool
    ensures { result ≡ is_plain_by name.now }
{
    match name {
        [] => false,
        [first, rest @ ..] => is_of_name(true, *first) && are_of_name(rest),
    }
}

/// Whether a path in a registry's folder is in the folder of packages' logs.
fn is_in_logs(path: &str) -> bool
    ensures { result ≡ is_under (codes "package-logs") path.now }
{
    path.starts_with("package-logs/")
}

/// Whether a path in a registry's folder is of what is kept there.
fn is_entry(path: &str) -> bool
    ensures { result ≡ is_entry_of path.now }
{
    path == "checkpoint"
        || path == "operator.log"
        || path == "pending-publish.json"
        || is_in_logs(path)
}

/// The name of the folder at a path without a slash.
fn name_at(path: &str) -> &str
    ensures { result.now ≡ (if nat_eq (length path.now) 0 then dot ∷ [] else path.now) }
{
    if path.is_empty() { "." } else { path }
}

/// What a path has behind a folder's path and a slash, where it lies under the folder.
fn behind<'a>(path: &'a str, folder: &str) -> Option<&'a str>
    ensures { MatchOption result ((rest : List ℕ) → path.now ≡ folder.now ++ slash ∷ rest → ⊥)
        (λ rest. path.now ≡ folder.now ++ slash ∷ rest.now) }
{
    let Some(inside) = path.strip_prefix(folder) else {
        return None;
    };
    inside.strip_prefix("/")
}

/// A path, split at its first slash.
fn parts(path: &str) -> Option<(&str, &str)>
    ensures { MatchOption result (has_slash path.now ≡ false)
        (λ x. (path.now ≡ x.0.now ++ slash ∷ x.1.now) × (has_slash x.0.now ≡ false)) }
{
    path.split_once('/')
}

impl Place {
    ghost use Rattle.std.specs.Prelude.{◌≡◌, true, string_bytes, option_copied, IfOk};
    ghost use Rattle.warg_store.specs.Held.{Package, Registry, package_key};
    ghost use Rattle.warg_registry_files.specs.Paths.{IsPlaceOf, is_log, is_named, folder_name as folder_name_of, folder_path as folder_path_of, checkpoint_path, operator_path, packages_path, package_path, publish_path};
    ghost use Rattle.warg_registry_files.specs.Resets.{IsKept, is_folder};
    ghost use Rattle.warg_registry_files.specs.Shown.{place_view};

    /// The place of a folder.
    pub fn of(alloc: Global, base: &str) -> Result<Self, Memory>
        ensures { IfOk result (λ place. IsPlaceOf base.now (place_view place)) }
    {
        let Some((parent, own)) = base.rsplit_once('/') else {
            return Ok(Place {
                parent: Text::copy_of(alloc, ".")?,
                own: Text::copy_of(alloc, name_at(base))?,
            });
        };
        Ok(Place {
            parent: Text::copy_of(alloc, parent)?,
            own: Text::copy_of(alloc, own)?,
        })
    }

    /// The name of a registry's folder.
    fn folder_name(
        &self,
        alloc: Global,
        registry: Option<&RegistryDomain>,
    ) -> Result<String, Memory>
        ensures name { IfOk result (λ name. string_bytes name
            ≡ folder_name_of (place_view self.now).own (option_copied registry.entry)) }
        ensures named { IfOk result (λ _. is_named (option_copied registry.entry) ≡ true) }
    {
        let Some(registry) = registry else {
            return Ok(String::from_str(alloc, self.own.as_str())?);
        };
        are_text(registry.as_str());
        let name = escaped(alloc, registry.as_str())?;
        if name.as_str() == self.own.as_str() {
            let mut marked = String::from_str(alloc, "%%")?;
            marked.push_str(&name)?;
            return Ok(marked);
        }
        Ok(name)
    }

    /// The path of a registry's folder.
    fn folder_path(
        &self,
        alloc: Global,
        registry: Option<&RegistryDomain>,
    ) -> Result<String, Memory>
        ensures path { IfOk result (λ path. string_bytes path
            ≡ folder_path_of (place_view self.now) (option_copied registry.entry)) }
        ensures named { IfOk result (λ _. is_named (option_copied registry.entry) ≡ true) }
    {
        let name = self.folder_name(alloc, registry)?;
        let mut path = String::from_str(alloc, self.parent.as_str())?;
        path.push_str("/")?;
        path.push_str(&name)?;
        Ok(path)
    }

    /// The registry whose folder has a name, where it is that of one. The home registry is `Some(None)`.
    fn registry_of(
        &self,
        alloc: Global,
        folder: &str,
    ) -> Result<Option<Option<RegistryDomain>>, Memory>
        ensures { IfOk result (λ o. MatchOption o
            ((r : Registry) → is_named r ≡ true → folder.now ≡ folder_name_of (place_view self.now).own r → ⊥)
            (λ r. (is_named r ≡ true) × (folder.now ≡ folder_name_of (place_view self.now).own r))) }
    {
        if folder == self.own.as_str() {
            return Ok(Some(None));
        }
        let Some(name) = unescaped(alloc, without_mark(folder))? else {
            return Ok(None);
        };
        let registry = RegistryDomain::new(Text::new(name));
        let known = self.folder_name(alloc, Some(&registry))?;
        // Escapes of bytes that stand as they are decode too, and so do lower-case digits.
        if known.as_str() == folder {
            return Ok(Some(Some(registry)));
        }
        Ok(None)
    }

    /// The registry and the id of the log of a package, where a path is that of one.
    pub fn log_at(
        &self,
        alloc: Global,
        path: &str,
    ) -> Result<Option<(Option<RegistryDomain>, Vec<u8>)>, Memory>
        ensures { IfOk result (λ o. MatchOption o
            ((p : Package) → is_log p ≡ true → path.now ≡ package_path (place_view self.now) p → ⊥)
            (λ x. (is_log (x.0, x.1.items) ≡ true)
            × (path.now ≡ package_path (place_view self.now) (x.0, x.1.items)))) }
    {
        let Some(inside) = behind(path, self.parent.as_str()) else {
            return Ok(None);
        };
        let Some((folder, entry)) = parts(inside) else {
            return Ok(None);
        };
        let Some(digits) = digits_in(entry) else {
            return Ok(None);
        };
        let Some(id) = id_of(alloc, digits)? else {
            return Ok(None);
        };
        let Some(registry) = self.registry_of(alloc, folder)? else {
            return Ok(None);
        };
        Ok(Some((registry, id)))
    }

    /// The path of a registry's checkpoint.
    pub fn checkpoint_path(
        &self,
        alloc: Global,
        registry: Option<&RegistryDomain>,
    ) -> Result<Text, Memory>
        ensures path { IfOk result (λ path.
            path ≡ checkpoint_path (place_view self.now) (option_copied registry.entry)) }
        ensures named { IfOk result (λ _. is_named (option_copied registry.entry) ≡ true) }
    {
        let mut path = self.folder_path(alloc, registry)?;
        path.push_str("/checkpoint")?;
        Ok(Text::new(path))
    }

    /// The path of the log of a registry's operator.
    pub fn operator_path(
        &self,
        alloc: Global,
        registry: Option<&RegistryDomain>,
    ) -> Result<Text, Memory>
        ensures path { IfOk result (λ path.
            path ≡ operator_path (place_view self.now) (option_copied registry.entry)) }
        ensures named { IfOk result (λ _. is_named (option_copied registry.entry) ≡ true) }
    {
        let mut path = self.folder_path(alloc, registry)?;
        path.push_str("/operator.log")?;
        Ok(Text::new(path))
    }

    /// The path of what is to be published.
    pub fn publish_path(&self, alloc: Global) -> Result<Text, Memory>
        ensures { IfOk result (λ path. path ≡ publish_path (place_view self.now)) }
    {
        let mut path = self.folder_path(alloc, None)?;
        path.push_str("/pending-publish.json")?;
        Ok(Text::new(path))
    }

    /// The path of the folder of packages' logs.
    pub fn packages_path(
        &self,
        alloc: Global,
        registry: Option<&RegistryDomain>,
    ) -> Result<Text, Memory>
        ensures { IfOk result (λ path.
            path ≡ packages_path (place_view self.now) (option_copied registry.entry)) }
    {
        let mut path = self.folder_path(alloc, registry)?;
        path.push_str("/package-logs")?;
        Ok(Text::new(path))
    }

    /// The path of the log of a package.
    pub fn package_path(
        &self,
        alloc: Global,
        registry: Option<&RegistryDomain>,
        name: &PackageName,
    ) -> Result<Text, Memory>
        ensures path { IfOk result (λ path. path
            ≡ package_path (place_view self.now) (package_key (option_copied registry.entry) name.now)) }
        ensures named { IfOk result (λ _. is_log (package_key (option_copied registry.entry) name.now) ≡ true) }
    {
        let digits = log_digits(alloc, name)?;
        let mut path = self.folder_path(alloc, registry)?;
        path.push_str("/package-logs/sha256/")?;
        path.push_str(&digits)?;
        Ok(Text::new(path))
    }

    /// Whether a folder with a name beside the home registry's can be a registry's, or is the home registry's.
    fn is_folder(&self, name: &str) -> bool
        ensures { result ≡ is_folder (place_view self.now).own name.now }
    {
        name == self.own.as_str() || is_plain(name.as_bytes())
    }

    /// Whether a path is of what is kept of a registry.
    pub fn is_kept(&self, path: &str) -> bool
        ensures kept { result ≡ true → IsKept (place_view self.now) path.now }
        ensures other { result ≡ false → ¬ (IsKept (place_view self.now) path.now) }
    {
        let Some(inside) = behind(path, self.parent.as_str()) else {
            return false;
        };
        let Some((name, entry)) = parts(inside) else {
            return false;
        };
        self.is_folder(name) && is_entry(entry)
    }
}
