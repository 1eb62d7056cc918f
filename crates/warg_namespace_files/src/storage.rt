//! A store of the registries of namespaces in a file.

ghost use Rattle.std.specs.Prelude.{◌≡◌, ◌≢◌, ◌≤◌, Some, None, Err, IfOk, IfErr, IfSome, OnOk, OnErr, option_map};
ghost use Rattle.warg_base.specs.Files.{LeavesPartlyRemoved, LeavesPartlyWritten, with_file, without_path};
ghost use Rattle.warg_base.specs.declared.files.FileError.TheVariants.{Missing as is_missing, Failed as has_failed};
ghost use Rattle.warg_namespace_files.specs.NamespaceFile.{held_at, names_text};
ghost use Rattle.warg_namespace_files.specs.Shown.{files_of, path_of, names_held};
ghost use Rattle.warg_store.specs.Entry.{Absent, Whole, Unreadable, entry_of, IsLoadFault, IsStoreFault};
ghost use Rattle.warg_store.specs.Namespaces.{LeavesNames, LeavesNamesReset, names_of, with_name};
ghost use Rattle.warg_store.specs.declared.error.StoreError.TheVariants.{Failed as store_failed, Memory as no_memory, Damaged as IsDamaged};

use crate::laws::written_names_read_back;
use crate::names::{add_name, read_names, write_names};
use indexmap::IndexMap;
use std::alloc::Global;
use warg_base::{FileError, Files};
use warg_store::{EntryKind, NamespaceMapStorage, StoreError};
use warg_url::RegistryDomain;
use warg_values::{Memory, Text};

/// The registries of namespaces in one file, as a JSON object (RFC 8259). Nothing else of the files is touched.
#[derive(Drop)]
pub struct FileSystemNamespaceMapStorage<F> {
    files: F,
    path: Text,
}

/// Why a store refuses what files refused, which were not asked for a file that is missing.
fn refusal(error: FileError) -> StoreError
    ensures failed { error ≡ has_failed → result ≡ store_failed }
    ensures memory { error ≢ has_failed → error ≢ is_missing → result ≡ no_memory }
{
    match error {
        FileError::Memory => StoreError::Memory,
        FileError::Failed | FileError::Missing => StoreError::Failed,
    }
}

impl<F: Files + Drop> FileSystemNamespaceMapStorage<F> {
    /// The names that files hold at a path. No file is asked for.
    pub fn new(alloc: Global, files: F, path: &str) -> Result<Self, Memory>
        ensures files { IfOk result (λ store. files_of store ≡ files) }
        ensures path { IfOk result (λ store. path_of store ≡ path.now) }
    {
        let path = Text::copy_of(alloc, path)?;
        Ok(FileSystemNamespaceMapStorage { files, path })
    }

    /// The files of which one has the names.
    pub fn files(&self) -> &F
        ensures { result.now ≡ files_of self.now }
    {
        &self.files
    }

    /// The names that are held, which are none where nothing is.
    fn names(&mut self, alloc: Global) -> Result<IndexMap<Text, RegistryDomain>, StoreError>
        ensures never_falls { F.faults (files_of self.old) ≤ F.faults (files_of self.new) }
        ensures found { IfOk result (λ names. IfSome (names_held F.told self.old) (λ held.
            names.entries ≡ names_of held)) }
        ensures readable { OnOk result (IfSome (names_held F.told self.old) (λ held. held ≢ Unreadable)) }
        ensures fault { IfErr result (λ e. IsLoadFault e EntryKind.Namespaces (F.faults (files_of self.old))
            (F.faults (files_of self.new)) (names_held F.told self.old)) }
        ensures path { path_of self.new ≡ path_of self.old }
        ensures untouched { F.told (files_of self.new) ≡ F.told (files_of self.old) }
    {
        match self.load_namespace_map(alloc)? {
            Some(names) => Ok(names),
            None => Ok(IndexMap::new(alloc)),
        }
    }

    /// Makes these the names that are held.
    fn write(
        &mut self,
        alloc: Global,
        names: &IndexMap<Text, RegistryDomain>,
    ) -> Result<(), StoreError>
        ensures never_falls { F.faults (files_of self.old) ≤ F.faults (files_of self.new) }
        ensures stored { OnOk result (IfSome (names_held F.told self.old) (λ _.
            names_held F.told self.new ≡ Some (Whole names.now.entries))) }
        ensures refused { OnErr result (IfSome (names_held F.told self.old) (λ held.
            LeavesNames (names_held F.told self.new) held names.now.entries)) }
        ensures fault { IfErr result (λ e.
            IsStoreFault e (F.faults (files_of self.old)) (F.faults (files_of self.new))) }
        ensures path { path_of self.new ≡ path_of self.old }
        ensures written { OnOk result (IfSome (F.told (files_of self.old)) (λ files.
            F.told (files_of self.new) ≡ Some (with_file files (path_of self.old) (names_text names.now.entries)))) }
        ensures partly_written { OnErr result (LeavesPartlyWritten (F.told (files_of self.old))
            (F.told (files_of self.new)) (path_of self.old) (names_text names.now.entries)) }
    {
        written_names_read_back();
        let text = write_names(alloc, names)?;
        match self.files.write(alloc, self.path.as_str(), &text) {
            Ok(()) => Ok(()),
            Err(error) => Err(refusal(error)),
        }
    }
}

impl<F: Files + Drop> NamespaceMapStorage for FileSystemNamespaceMapStorage<F> {
    ghost faults = { λ s. F.faults (files_of s) };

    ghost told = { λ s. names_held F.told s };

    fn load_namespace_map(
        &mut self,
        alloc: Global,
    ) -> Result<Option<IndexMap<Text, RegistryDomain>>, StoreError>
        ensures never_falls { F.faults (files_of self.old) ≤ F.faults (files_of self.new) }
        ensures kept { names_held F.told self.new ≡ names_held F.told self.old }
        ensures found { IfOk result (λ o. IfSome (names_held F.told self.old) (λ held.
            held ≡ entry_of (option_map (λ names. names.entries) o))) }
        ensures fault { IfErr result (λ e. IsLoadFault e EntryKind.Namespaces (F.faults (files_of self.old))
            (F.faults (files_of self.new)) (names_held F.told self.old)) }
        ensures path { path_of self.new ≡ path_of self.old }
        ensures untouched { F.told (files_of self.new) ≡ F.told (files_of self.old) }
    {
        let bytes = match self.files.read(alloc, self.path.as_str()) {
            Ok(bytes) => bytes,
            Err(FileError::Missing) => return Ok(None),
            Err(error) => return Err(refusal(error)),
        };
        let Some(names) = read_names(alloc, &bytes)? else {
            return Err(StoreError::Damaged(EntryKind::Namespaces));
        };
        Ok(Some(names))
    }

    fn reset_namespaces(&mut self, alloc: Global) -> Result<(), StoreError>
        ensures never_falls { F.faults (files_of self.old) ≤ F.faults (files_of self.new) }
        ensures reset { OnOk result (IfSome (names_held F.told self.old) (λ _.
            names_held F.told self.new ≡ Some Absent)) }
        ensures refused { OnErr result (IfSome (names_held F.told self.old)
            (LeavesNamesReset (names_held F.told self.new))) }
        ensures fault { IfErr result (λ e.
            IsStoreFault e (F.faults (files_of self.old)) (F.faults (files_of self.new))) }
        ensures path { path_of self.new ≡ path_of self.old }
        ensures removed { OnOk result (IfSome (F.told (files_of self.old)) (λ files.
            F.told (files_of self.new) ≡ Some (without_path files (path_of self.old)))) }
        ensures partly_removed { OnErr result (LeavesPartlyRemoved (F.told (files_of self.old))
            (F.told (files_of self.new)) (path_of self.old)) }
    {
        match self.files.remove(alloc, self.path.as_str()) {
            Ok(()) => Ok(()),
            Err(error) => Err(refusal(error)),
        }
    }

    fn store_namespace(
        &mut self,
        alloc: Global,
        namespace: &str,
        registry: &RegistryDomain,
    ) -> Result<(), StoreError>
        ensures never_falls { F.faults (files_of self.old) ≤ F.faults (files_of self.new) }
        ensures stored { OnOk result (IfSome (names_held F.told self.old) (λ held.
            names_held F.told self.new ≡ Some (Whole (with_name held namespace.now registry.now)))) }
        ensures readable { OnOk result (IfSome (names_held F.told self.old) (λ held. held ≢ Unreadable)) }
        ensures refused { OnErr result (IfSome (names_held F.told self.old) (λ held.
            LeavesNames (names_held F.told self.new) held (with_name held namespace.now registry.now))) }
        ensures damaged { result ≡ Err (IsDamaged EntryKind.Namespaces)
            → names_held F.told self.new ≡ names_held F.told self.old }
        ensures fault { IfErr result (λ e. IsLoadFault e EntryKind.Namespaces (F.faults (files_of self.old))
            (F.faults (files_of self.new)) (names_held F.told self.old)) }
        ensures path { path_of self.new ≡ path_of self.old }
        ensures written { OnOk result (IfSome (F.told (files_of self.old)) (λ files.
            F.told (files_of self.new) ≡ Some (with_file files (path_of self.old)
            (names_text (with_name (held_at (path_of self.old) files) namespace.now registry.now))))) }
        ensures partly_written { OnErr result (IfSome (F.told (files_of self.old)) (λ files.
            LeavesPartlyWritten (F.told (files_of self.old)) (F.told (files_of self.new)) (path_of self.old)
            (names_text (with_name (held_at (path_of self.old) files) namespace.now registry.now)))) }
    {
        let mut names = self.names(alloc)?;
        add_name(alloc, &mut names, namespace, registry.as_str())?;
        self.write(alloc, &names)
    }
}
