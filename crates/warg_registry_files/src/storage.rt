//! What is kept of registries and of what is to be published, in files.

ghost use Rattle.std.specs.Prelude.{◌≡◌, ◌≢◌, ◌≤◌, ℕ, true, false, List, bytes_eq, Some, None, Ok, Err, IfOk, IfErr, IfSome, OnOk, OnErr, option_copied, option_map};
ghost use Rattle.warg_base.specs.Files.{LeavesPartlyRemoved, LeavesPartlyWritten, file_at, paths_under, with_file, without_path};
ghost use Rattle.warg_base.specs.declared.files.FileError.TheVariants.{Missing as is_missing, Failed as has_failed};
ghost use Rattle.warg_values.specs.Faults.{Rose};
ghost use Rattle.warg_locks.specs.declared.locks.LockError.TheVariants.{Failed as lock_failed};
ghost use Rattle.warg_hash.specs.Hash.{package_log_id};
ghost use Rattle.warg_info.specs.Info.{IsSoundOperator, IsSoundPackage};
ghost use Rattle.warg_info_text.specs.StoredTexts.{checkpoint_text, operator_text, package_text};
ghost use Rattle.warg_publish.specs.Shown.{info_view};
ghost use Rattle.warg_publish_text.specs.PublishText.{publish_text};
ghost use Rattle.warg_store.specs.Entry.{Absent, Whole, entry_of, IsLoadFault, IsStoreFault};
ghost use Rattle.warg_store.specs.Held.{IsSoundPublish, LeavesPublish, LeavesReset, LeavesStore, Tells, after_reset, entry_named, named_info, operator_info, package_info, package_key, with_checkpoint, with_operator, with_package, with_publish};
ghost use Rattle.warg_store.specs.Listed.{AreAllPackages, AreSoundLists, HaveSome, IsListingFault, listed_in};
ghost use Rattle.warg_store.specs.declared.error.StoreError.TheVariants.{Failed as store_failed, Memory as no_memory};
ghost use Rattle.warg_registry_files.specs.Paths.{IsPlaceOf, checkpoint_path, lock_path, operator_path, package_path, publish_path};
ghost use Rattle.warg_registry_files.specs.RegistryFiles.{IsReadAt, Lists, package_with_id};
ghost use Rattle.warg_registry_files.specs.Resets.{HasNone, IsKept, LeavesOthers, LeavesPublishFile, MayGo, is_at, with_publish_file};
ghost use Rattle.warg_registry_files.specs.Shown.{files_of, place_of, held_of, lock_of};

use crate::paths::Place;
use indexmap::IndexMap;
use std::alloc::Global;
use warg_base::{FileError, Files};
use warg_exchange::SignedCheckpoint;
use warg_hash::{LogId, PackageName};
use warg_info::{OperatorInfo, PackageInfo};
use warg_info_text::{
    read_checkpoint, read_operator, read_package, write_checkpoint, write_operator, write_package,
};
use warg_locks::{LockError, Locks};
use warg_publish::PublishInfo;
use warg_publish_text::{read_publish, write_publish};
use warg_store::{EntryKind, RegistryStorage, StoreError, list_package};
use warg_url::RegistryDomain;
use warg_values::{Memory, Text};

/// What is kept of registries in files: a folder for each registry, beside that of the home registry, which has what is
/// to be published too. Nothing else of the files is touched. It holds the lock that it was made with, until it is
/// dropped.
#[derive(Drop)]
pub struct FileSystemRegistryStorage<F, L> {
    files: F,
    place: Place,
    held: L,
}

/// Why a store refuses what files refused, which were not asked for a file that is missing.
fn refusal(error: FileError) -> StoreError
    ensures failed { error ≡ has_failed → result ≡ store_failed }
    ensures memory { error ≢ has_failed → error ≢ is_missing → result ≡ no_memory }
{
    match error {
        FileError::Memory => StoreError::Memory,
        FileError::Failed | FileError::Missing => StoreError::Failed,
    }
}

/// Whether the log of the package of a name has an id.
fn has_id(name: &PackageName, id: &[u8]) -> bool
    ensures { result ≡ bytes_eq (package_log_id name.now) id.now }
{
    let log = LogId::package_log(name);
    log.hash().bytes().as_slice() == id
}

/// The log of a package that bytes are, where it has an id, and none where they are none.
fn read_with_id(alloc: Global, bytes: &[u8], id: &[u8]) -> Result<Option<PackageInfo>, Memory>
    ensures found { IfOk result (λ o. option_map named_info o ≡ package_with_id id.now bytes.now) }
    ensures id { IfOk result (λ o. IfSome o (λ info. id.now ≡ package_log_id info.name)) }
    ensures sound { IfOk result (λ o. IfSome o IsSoundPackage) }
{
    let Some(info) = read_package(alloc, bytes)? else {
        return Ok(None);
    };
    if has_id(&info.name, id) {
        return Ok(Some(info));
    }
    Ok(None)
}

/// The path that a store locks, in the home registry's folder.
fn lock_in(alloc: Global, base: &str) -> Result<Text, Memory>
    ensures { IfOk result (λ path. path ≡ lock_path base.now) }
{
    if base.is_empty() {
        return Text::copy_of(alloc, ".lock");
    }
    Ok(Text::new(format!(in alloc; "{base}/.lock")?))
}

impl<F: Files + Drop> FileSystemRegistryStorage<F, ()> {
    /// What files hold of registries, of which the home registry has this folder, without a lock. No file is asked for.
    pub fn new(alloc: Global, files: F, base: &str) -> Result<Self, Memory>
        ensures files { IfOk result (λ store. files_of store ≡ files) }
        ensures place { IfOk result (λ store. IsPlaceOf base.now (place_of store)) }
    {
        FileSystemRegistryStorage::with_lock(alloc, files, base, ())
    }
}

impl<F: Files + Drop, L: Drop> FileSystemRegistryStorage<F, L> {
    /// The same, holding a lock.
    fn with_lock(alloc: Global, files: F, base: &str, held: L) -> Result<Self, Memory>
        ensures files { IfOk result (λ store. files_of store ≡ files) }
        ensures place { IfOk result (λ store. IsPlaceOf base.now (place_of store)) }
        ensures lock { IfOk result (λ store. lock_of store ≡ held) }
    {
        let place = Place::of(alloc, base)?;
        Ok(FileSystemRegistryStorage { files, place, held })
    }

    /// What files hold of registries, of which the home registry has this folder, in which it locks `.lock`. `None`
    /// where somebody else holds that.
    pub fn try_lock<K: Locks<Lock = L>>(
        alloc: Global,
        files: F,
        locks: &mut K,
        base: &str,
    ) -> Result<Option<Self>, LockError>
        ensures never_falls { K.faults locks.old ≤ K.faults locks.new }
        ensures files { IfOk result (λ found. IfSome found (λ store. files_of store ≡ files)) }
        ensures place { IfOk result (λ found. IfSome found (λ store. IsPlaceOf base.now (place_of store))) }
        ensures lock { IfOk result (λ found. IfSome found (λ store. K.locked (lock_of store) ≡ lock_path base.now)) }
        ensures held { result ≡ Ok None → Rose (K.met locks.old) (K.met locks.new) }
        ensures failed { result ≡ Err lock_failed → Rose (K.faults locks.old) (K.faults locks.new) }
    {
        let path = lock_in(alloc, base)?;
        let Some(held) = locks.try_lock(alloc, path.as_str())? else {
            return Ok(None);
        };
        Ok(Some(FileSystemRegistryStorage::with_lock(alloc, files, base, held)?))
    }

    /// The same, but waits while somebody else holds the lock.
    pub fn lock<K: Locks<Lock = L>>(
        alloc: Global,
        files: F,
        locks: &mut K,
        base: &str,
    ) -> Result<Self, LockError>
        ensures never_falls { K.faults locks.old ≤ K.faults locks.new }
        ensures files { IfOk result (λ store. files_of store ≡ files) }
        ensures place { IfOk result (λ store. IsPlaceOf base.now (place_of store)) }
        ensures lock { IfOk result (λ store. K.locked (lock_of store) ≡ lock_path base.now) }
        ensures failed { result ≡ Err lock_failed → Rose (K.faults locks.old) (K.faults locks.new) }
    {
        let path = lock_in(alloc, base)?;
        let held = locks.lock(alloc, path.as_str())?;
        Ok(FileSystemRegistryStorage::with_lock(alloc, files, base, held)?)
    }

    /// The lock that it holds.
    pub fn held(&self) -> &L
        ensures { result.now ≡ lock_of self.now }
    {
        &self.held
    }

    /// The files in which registries are kept.
    pub fn files(&self) -> &F
        ensures { result.now ≡ files_of self.now }
    {
        &self.files
    }

    /// The bytes of a file, and none where it is missing.
    fn read(&mut self, alloc: Global, path: &Text) -> Result<Option<Vec<u8>>, StoreError>
        ensures never_falls { F.faults (files_of self.old) ≤ F.faults (files_of self.new) }
        ensures found { IfOk result (λ o. IfSome (F.told (files_of self.old)) (λ files.
            file_at files path.now ≡ option_map (λ bytes. bytes.items) o)) }
        ensures fault { IfErr result (λ e.
            IsStoreFault e (F.faults (files_of self.old)) (F.faults (files_of self.new))) }
        ensures place { place_of self.new ≡ place_of self.old }
        ensures untouched { F.told (files_of self.new) ≡ F.told (files_of self.old) }
    {
        match self.files.read(alloc, path.as_str()) {
            Ok(bytes) => Ok(Some(bytes)),
            Err(FileError::Missing) => Ok(None),
            Err(error) => Err(refusal(error)),
        }
    }

    /// Makes these the bytes of a file.
    fn write(&mut self, alloc: Global, path: &Text, bytes: &[u8]) -> Result<(), StoreError>
        ensures never_falls { F.faults (files_of self.old) ≤ F.faults (files_of self.new) }
        ensures fault { IfErr result (λ e.
            IsStoreFault e (F.faults (files_of self.old)) (F.faults (files_of self.new))) }
        ensures place { place_of self.new ≡ place_of self.old }
        ensures written { OnOk result (IfSome (F.told (files_of self.old)) (λ files.
            F.told (files_of self.new) ≡ Some (with_file files path.now bytes.now))) }
        ensures partly_written { OnErr result (LeavesPartlyWritten (F.told (files_of self.old))
            (F.told (files_of self.new)) path.now bytes.now) }
    {
        match self.files.write(alloc, path.as_str(), bytes) {
            Ok(()) => Ok(()),
            Err(error) => Err(refusal(error)),
        }
    }

    /// Takes the file at a path away, and what lies under it.
    fn take(&mut self, alloc: Global, path: &Text) -> Result<(), StoreError>
        ensures never_falls { F.faults (files_of self.old) ≤ F.faults (files_of self.new) }
        ensures fault { IfErr result (λ e.
            IsStoreFault e (F.faults (files_of self.old)) (F.faults (files_of self.new))) }
        ensures place { place_of self.new ≡ place_of self.old }
        ensures others { IfSome (F.told (files_of self.old)) (λ files.
            LeavesOthers (F.told (files_of self.new)) files (λ q. is_at path.now q ≡ true)) }
        ensures gone { OnOk result (IfSome (F.told (files_of self.old)) (λ _.
            IfSome (F.told (files_of self.new)) (λ now.
            (q : List ℕ) → is_at path.now q ≡ true → file_at now q ≡ None))) }
        ensures removed { OnOk result (IfSome (F.told (files_of self.old)) (λ files.
            F.told (files_of self.new) ≡ Some (without_path files path.now))) }
        ensures partly_removed { OnErr result (LeavesPartlyRemoved (F.told (files_of self.old))
            (F.told (files_of self.new)) path.now) }
    {
        match self.files.remove(alloc, path.as_str()) {
            Ok(()) => Ok(()),
            Err(error) => Err(refusal(error)),
        }
    }

    /// The paths of the files beside the home registry's folder, and in the folders there.
    fn list(&mut self, alloc: Global) -> Result<Vec<Text>, StoreError>
        ensures never_falls { F.faults (files_of self.old) ≤ F.faults (files_of self.new) }
        ensures fault { IfErr result (λ e.
            IsStoreFault e (F.faults (files_of self.old)) (F.faults (files_of self.new))) }
        ensures place { place_of self.new ≡ place_of self.old }
        ensures untouched { F.told (files_of self.new) ≡ F.told (files_of self.old) }
        ensures listed { IfOk result (λ paths. IfSome (F.told (files_of self.old)) (λ files.
            paths.items ≡ paths_under files (place_of self.old).parent)) }
    {
        match self.files.list(alloc, self.place.parent.as_str()) {
            Ok(paths) => Ok(paths),
            Err(error) => Err(refusal(error)),
        }
    }

    /// The log of the package of whose log a path is, where it is that of one, with the registry that has it.
    fn load_at(
        &mut self,
        alloc: Global,
        path: &Text,
    ) -> Result<Option<(Option<RegistryDomain>, PackageInfo)>, StoreError>
        ensures never_falls { F.faults (files_of self.old) ≤ F.faults (files_of self.new) }
        ensures found { IfOk result (λ o. IfSome (F.told (files_of self.old)) (λ files.
            IsReadAt (place_of self.old) files path.now (option_map (λ x. (x.0, named_info x.1)) o))) }
        ensures sound { IfOk result (λ o. IfSome o (λ x. IsSoundPackage x.1)) }
        ensures fault { IfErr result (λ e. IsListingFault e (F.faults (files_of self.old))
            (F.faults (files_of self.new)) (option_map (λ held. held.packages) (held_of F.told self.old))) }
        ensures place { place_of self.new ≡ place_of self.old }
        ensures untouched { F.told (files_of self.new) ≡ F.told (files_of self.old) }
    {
        let Some((registry, id)) = self.place.log_at(alloc, path.as_str())? else {
            return Ok(None);
        };
        let Some(bytes) = self.read(alloc, path)? else {
            return Ok(None);
        };
        match read_with_id(alloc, &bytes, &id)? {
            Some(info) => Ok(Some((registry, info))),
            None => Err(StoreError::Damaged(EntryKind::Package)),
        }
    }

    /// Lists the log of the package of whose log a path is, where it is that of one.
    fn list_at(
        &mut self,
        alloc: Global,
        path: &Text,
        all: &mut IndexMap<Option<RegistryDomain>, Vec<PackageInfo>>,
    ) -> Result<(), StoreError>
        ensures never_falls { F.faults (files_of self.old) ≤ F.faults (files_of self.new) }
        ensures listed { OnOk result (IfSome (F.told (files_of self.old)) (λ files.
            Lists (place_of self.old) files path.now (listed_in all.old) (listed_in all.new))) }
        ensures sound { OnOk result (AreSoundLists all.old → AreSoundLists all.new) }
        ensures have_some { OnOk result (HaveSome all.old → HaveSome all.new) }
        ensures fault { IfErr result (λ e. IsListingFault e (F.faults (files_of self.old))
            (F.faults (files_of self.new)) (option_map (λ held. held.packages) (held_of F.told self.old))) }
        ensures place { place_of self.new ≡ place_of self.old }
        ensures untouched { F.told (files_of self.new) ≡ F.told (files_of self.old) }
    {
        let Some((registry, info)) = self.load_at(alloc, path)? else {
            return Ok(());
        };
        list_package(alloc, all, registry, info)?;
        Ok(())
    }

    /// Takes the file at a path away where it is of what is kept of a registry.
    fn take_kept(&mut self, alloc: Global, path: &Text) -> Result<(), StoreError>
        ensures never_falls { F.faults (files_of self.old) ≤ F.faults (files_of self.new) }
        ensures fault { IfErr result (λ e.
            IsStoreFault e (F.faults (files_of self.old)) (F.faults (files_of self.new))) }
        ensures place { place_of self.new ≡ place_of self.old }
        ensures others { IfSome (F.told (files_of self.old)) (λ files.
            LeavesOthers (F.told (files_of self.new)) files (MayGo (place_of self.old) true)) }
        ensures gone { OnOk result (IfSome (F.told (files_of self.old)) (λ _.
            IfSome (F.told (files_of self.new)) (λ now.
            IsKept (place_of self.old) path.now → file_at now path.now ≡ None))) }
    {
        if !self.place.is_kept(path.as_str()) {
            return Ok(());
        }
        self.take(alloc, path)
    }

    /// Takes away what is kept of all registries, and what is to be published.
    fn take_all(&mut self, alloc: Global) -> Result<(), StoreError>
        ensures never_falls { F.faults (files_of self.old) ≤ F.faults (files_of self.new) }
        ensures fault { IfErr result (λ e.
            IsStoreFault e (F.faults (files_of self.old)) (F.faults (files_of self.new))) }
        ensures place { place_of self.new ≡ place_of self.old }
        ensures others { IfSome (F.told (files_of self.old)) (λ files.
            LeavesOthers (F.told (files_of self.new)) files (MayGo (place_of self.old) true)) }
        ensures gone { OnOk result (IfSome (F.told (files_of self.old)) (λ _.
            IfSome (F.told (files_of self.new)) (HasNone (place_of self.old) true))) }
    {
        let paths = self.list(alloc)?;
        for path in &paths {
            self.take_kept(alloc, path)?;
        }
        Ok(())
    }

    /// Takes away what is kept of the home registry, and what is to be published.
    fn take_home(&mut self, alloc: Global) -> Result<(), StoreError>
        ensures never_falls { F.faults (files_of self.old) ≤ F.faults (files_of self.new) }
        ensures fault { IfErr result (λ e.
            IsStoreFault e (F.faults (files_of self.old)) (F.faults (files_of self.new))) }
        ensures place { place_of self.new ≡ place_of self.old }
        ensures others { IfSome (F.told (files_of self.old)) (λ files.
            LeavesOthers (F.told (files_of self.new)) files (MayGo (place_of self.old) false)) }
        ensures gone { OnOk result (IfSome (F.told (files_of self.old)) (λ _.
            IfSome (F.told (files_of self.new)) (HasNone (place_of self.old) false))) }
    {
        let checkpoint = self.place.checkpoint_path(alloc, None)?;
        let operator = self.place.operator_path(alloc, None)?;
        let publish = self.place.publish_path(alloc)?;
        let packages = self.place.packages_path(alloc, None)?;
        self.take(alloc, &checkpoint)?;
        self.take(alloc, &operator)?;
        self.take(alloc, &publish)?;
        self.take(alloc, &packages)
    }

    /// Takes away what is kept of all registries, or of the home registry, and what is to be published.
    fn take_away(&mut self, alloc: Global, all: bool) -> Result<(), StoreError>
        ensures never_falls { F.faults (files_of self.old) ≤ F.faults (files_of self.new) }
        ensures fault { IfErr result (λ e.
            IsStoreFault e (F.faults (files_of self.old)) (F.faults (files_of self.new))) }
        ensures place { place_of self.new ≡ place_of self.old }
        ensures others { IfSome (F.told (files_of self.old)) (λ files.
            LeavesOthers (F.told (files_of self.new)) files (MayGo (place_of self.old) all)) }
        ensures gone { OnOk result (IfSome (F.told (files_of self.old)) (λ _.
            IfSome (F.told (files_of self.new)) (HasNone (place_of self.old) all))) }
    {
        if all {
            self.take_all(alloc)
        } else {
            self.take_home(alloc)
        }
    }

    /// Keeps what is to be published.
    fn keep_publish(&mut self, alloc: Global, info: &PublishInfo) -> Result<(), StoreError>
        requires { IsSoundPublish info.now }
        ensures never_falls { F.faults (files_of self.old) ≤ F.faults (files_of self.new) }
        ensures stored { OnOk result (IfSome (held_of F.told self.old) (λ held. Tells (held_of F.told self.new)
            (with_publish held (Whole (info_view info.now))))) }
        ensures refused { OnErr result (IfSome (held_of F.told self.old) (λ held. LeavesStore (held_of F.told self.new)
            held (with_publish held) (info_view info.now))) }
        ensures fault { IfErr result (λ e.
            IsStoreFault e (F.faults (files_of self.old)) (F.faults (files_of self.new))) }
        ensures place { place_of self.new ≡ place_of self.old }
        ensures written { OnOk result (IfSome (F.told (files_of self.old)) (λ files. F.told (files_of self.new)
            ≡ Some (with_file files (publish_path (place_of self.old)) (publish_text (info_view info.now))))) }
        ensures partly_written { OnErr result (LeavesPartlyWritten (F.told (files_of self.old))
            (F.told (files_of self.new)) (publish_path (place_of self.old)) (publish_text (info_view info.now))) }
    {
        let path = self.place.publish_path(alloc)?;
        let text = write_publish(alloc, info)?;
        self.write(alloc, &path, &text)?;
        Ok(())
    }

    /// Takes what is to be published away.
    fn take_publish(&mut self, alloc: Global) -> Result<(), StoreError>
        ensures never_falls { F.faults (files_of self.old) ≤ F.faults (files_of self.new) }
        ensures stored { OnOk result (IfSome (held_of F.told self.old) (λ held. Tells (held_of F.told self.new)
            (with_publish held Absent))) }
        ensures refused { OnErr result (IfSome (held_of F.told self.old) (λ held.
            LeavesPublish (held_of F.told self.new) held None)) }
        ensures fault { IfErr result (λ e.
            IsStoreFault e (F.faults (files_of self.old)) (F.faults (files_of self.new))) }
        ensures place { place_of self.new ≡ place_of self.old }
        ensures removed { OnOk result (IfSome (F.told (files_of self.old)) (λ files.
            F.told (files_of self.new) ≡ Some (without_path files (publish_path (place_of self.old))))) }
        ensures partly_removed { OnErr result (LeavesPartlyRemoved (F.told (files_of self.old))
            (F.told (files_of self.new)) (publish_path (place_of self.old))) }
    {
        let path = self.place.publish_path(alloc)?;
        self.take(alloc, &path)
    }
}

impl<F: Files + Drop, L: Drop> RegistryStorage for FileSystemRegistryStorage<F, L> {
    ghost faults = { λ s. F.faults (files_of s) };

    ghost told = { λ s. held_of F.told s };

    fn reset(&mut self, alloc: Global, all_registries: bool) -> Result<(), StoreError>
        ensures never_falls { F.faults (files_of self.old) ≤ F.faults (files_of self.new) }
        ensures reset { OnOk result (IfSome (held_of F.told self.old) (λ held.
            Tells (held_of F.told self.new) (after_reset all_registries held))) }
        ensures refused { OnErr result (IfSome (held_of F.told self.old)
            (LeavesReset (held_of F.told self.new) all_registries)) }
        ensures fault { IfErr result (λ e.
            IsStoreFault e (F.faults (files_of self.old)) (F.faults (files_of self.new))) }
        ensures place { place_of self.new ≡ place_of self.old }
        ensures others { IfSome (F.told (files_of self.old)) (λ files.
            LeavesOthers (F.told (files_of self.new)) files (MayGo (place_of self.old) all_registries)) }
    {
        self.take_away(alloc, all_registries)
    }

    fn load_checkpoint(
        &mut self,
        alloc: Global,
        registry: Option<&RegistryDomain>,
    ) -> Result<Option<SignedCheckpoint>, StoreError>
        ensures never_falls { F.faults (files_of self.old) ≤ F.faults (files_of self.new) }
        ensures kept { IfSome (held_of F.told self.old) (Tells (held_of F.told self.new)) }
        ensures found { IfOk result (λ o. IfSome (held_of F.told self.old) (λ held.
            held.checkpoints (option_copied registry.entry) ≡ entry_of o)) }
        ensures fault { IfErr result (λ e. IsLoadFault e EntryKind.Checkpoint (F.faults (files_of self.old))
            (F.faults (files_of self.new))
            (option_map (λ held. held.checkpoints (option_copied registry.entry)) (held_of F.told self.old))) }
        ensures place { place_of self.new ≡ place_of self.old }
        ensures untouched { F.told (files_of self.new) ≡ F.told (files_of self.old) }
    {
        let path = self.place.checkpoint_path(alloc, registry)?;
        let Some(bytes) = self.read(alloc, &path)? else {
            return Ok(None);
        };
        match read_checkpoint(alloc, &bytes)? {
            Some(checkpoint) => Ok(Some(checkpoint)),
            None => Err(StoreError::Damaged(EntryKind::Checkpoint)),
        }
    }

    fn store_checkpoint(
        &mut self,
        alloc: Global,
        registry: Option<&RegistryDomain>,
        checkpoint: &SignedCheckpoint,
    ) -> Result<(), StoreError>
        ensures never_falls { F.faults (files_of self.old) ≤ F.faults (files_of self.new) }
        ensures stored { OnOk result (IfSome (held_of F.told self.old) (λ held. Tells (held_of F.told self.new)
            (with_checkpoint held (option_copied registry.entry) (Whole checkpoint.now)))) }
        ensures refused { OnErr result (IfSome (held_of F.told self.old) (λ held. LeavesStore (held_of F.told self.new)
            held (with_checkpoint held (option_copied registry.entry)) checkpoint.now)) }
        ensures fault { IfErr result (λ e.
            IsStoreFault e (F.faults (files_of self.old)) (F.faults (files_of self.new))) }
        ensures place { place_of self.new ≡ place_of self.old }
        ensures written { OnOk result (IfSome (F.told (files_of self.old)) (λ files. F.told (files_of self.new)
            ≡ Some (with_file files (checkpoint_path (place_of self.old) (option_copied registry.entry))
            (checkpoint_text checkpoint.now)))) }
        ensures partly_written { OnErr result (LeavesPartlyWritten (F.told (files_of self.old))
            (F.told (files_of self.new))
            (checkpoint_path (place_of self.old) (option_copied registry.entry)) (checkpoint_text checkpoint.now)) }
    {
        let path = self.place.checkpoint_path(alloc, registry)?;
        let text = write_checkpoint(alloc, checkpoint)?;
        self.write(alloc, &path, &text)?;
        Ok(())
    }

    fn load_operator(
        &mut self,
        alloc: Global,
        registry: Option<&RegistryDomain>,
    ) -> Result<Option<OperatorInfo>, StoreError>
        ensures never_falls { F.faults (files_of self.old) ≤ F.faults (files_of self.new) }
        ensures kept { IfSome (held_of F.told self.old) (Tells (held_of F.told self.new)) }
        ensures found { IfOk result (λ o. IfSome (held_of F.told self.old) (λ held.
            held.operators (option_copied registry.entry) ≡ entry_of (option_map operator_info o))) }
        ensures sound { IfOk result (λ o. IfSome o IsSoundOperator) }
        ensures fault { IfErr result (λ e. IsLoadFault e EntryKind.Operator (F.faults (files_of self.old))
            (F.faults (files_of self.new))
            (option_map (λ held. held.operators (option_copied registry.entry)) (held_of F.told self.old))) }
        ensures place { place_of self.new ≡ place_of self.old }
        ensures untouched { F.told (files_of self.new) ≡ F.told (files_of self.old) }
    {
        let path = self.place.operator_path(alloc, registry)?;
        let Some(bytes) = self.read(alloc, &path)? else {
            return Ok(None);
        };
        match read_operator(alloc, &bytes)? {
            Some(info) => Ok(Some(info)),
            None => Err(StoreError::Damaged(EntryKind::Operator)),
        }
    }

    fn store_operator(
        &mut self,
        alloc: Global,
        registry: Option<&RegistryDomain>,
        info: &OperatorInfo,
    ) -> Result<(), StoreError>
        requires { IsSoundOperator info.now }
        ensures never_falls { F.faults (files_of self.old) ≤ F.faults (files_of self.new) }
        ensures stored { OnOk result (IfSome (held_of F.told self.old) (λ held. Tells (held_of F.told self.new)
            (with_operator held (option_copied registry.entry) (Whole (operator_info info.now))))) }
        ensures refused { OnErr result (IfSome (held_of F.told self.old) (λ held. LeavesStore (held_of F.told self.new)
            held (with_operator held (option_copied registry.entry)) (operator_info info.now))) }
        ensures fault { IfErr result (λ e.
            IsStoreFault e (F.faults (files_of self.old)) (F.faults (files_of self.new))) }
        ensures place { place_of self.new ≡ place_of self.old }
        ensures written { OnOk result (IfSome (F.told (files_of self.old)) (λ files. F.told (files_of self.new)
            ≡ Some (with_file files (operator_path (place_of self.old) (option_copied registry.entry))
            (operator_text (operator_info info.now))))) }
        ensures partly_written { OnErr result (LeavesPartlyWritten (F.told (files_of self.old))
            (F.told (files_of self.new))
            (operator_path (place_of self.old) (option_copied registry.entry))
            (operator_text (operator_info info.now))) }
    {
        let path = self.place.operator_path(alloc, registry)?;
        let text = write_operator(alloc, info)?;
        self.write(alloc, &path, &text)?;
        Ok(())
    }

    fn load_all_packages(
        &mut self,
        alloc: Global,
    ) -> Result<IndexMap<Option<RegistryDomain>, Vec<PackageInfo>>, StoreError>
        ensures never_falls { F.faults (files_of self.old) ≤ F.faults (files_of self.new) }
        ensures kept { IfSome (held_of F.told self.old) (Tells (held_of F.told self.new)) }
        ensures found { IfOk result (λ all. IfSome (held_of F.told self.old) (λ held.
            AreAllPackages held.packages (listed_in all))) }
        ensures sound { IfOk result AreSoundLists }
        ensures have_some { IfOk result HaveSome }
        ensures fault { IfErr result (λ e. IsListingFault e (F.faults (files_of self.old))
            (F.faults (files_of self.new)) (option_map (λ held. held.packages) (held_of F.told self.old))) }
        ensures place { place_of self.new ≡ place_of self.old }
        ensures untouched { F.told (files_of self.new) ≡ F.told (files_of self.old) }
    {
        let paths = self.list(alloc)?;
        let mut all = IndexMap::new(alloc);
        for path in &paths {
            self.list_at(alloc, path, &mut all)?;
        }
        Ok(all)
    }

    fn load_package(
        &mut self,
        alloc: Global,
        registry: Option<&RegistryDomain>,
        name: &PackageName,
    ) -> Result<Option<PackageInfo>, StoreError>
        ensures never_falls { F.faults (files_of self.old) ≤ F.faults (files_of self.new) }
        ensures kept { IfSome (held_of F.told self.old) (Tells (held_of F.told self.new)) }
        ensures found { IfOk result (λ o. IfSome (held_of F.told self.old) (λ held.
            entry_named name.now (held.packages (package_key (option_copied registry.entry) name.now))
            ≡ entry_of (option_map named_info o))) }
        ensures sound { IfOk result (λ o. IfSome o IsSoundPackage) }
        ensures name { IfOk result (λ o. IfSome o (λ info. info.name ≡ name.now)) }
        ensures fault { IfErr result (λ e. IsLoadFault e EntryKind.Package (F.faults (files_of self.old))
            (F.faults (files_of self.new))
            (option_map (λ held. entry_named name.now (held.packages (package_key (option_copied registry.entry)
            name.now))) (held_of F.told self.old))) }
        ensures place { place_of self.new ≡ place_of self.old }
        ensures untouched { F.told (files_of self.new) ≡ F.told (files_of self.old) }
    {
        let path = self.place.package_path(alloc, registry, name)?;
        let Some(bytes) = self.read(alloc, &path)? else {
            return Ok(None);
        };
        // Of two packages whose logs have one id, the file has the one that was kept last.
        match read_package(alloc, &bytes)? {
            Some(info) if info.name == *name => Ok(Some(info)),
            _ => Err(StoreError::Damaged(EntryKind::Package)),
        }
    }

    fn store_package(
        &mut self,
        alloc: Global,
        registry: Option<&RegistryDomain>,
        info: &PackageInfo,
    ) -> Result<(), StoreError>
        requires { IsSoundPackage info.now }
        ensures never_falls { F.faults (files_of self.old) ≤ F.faults (files_of self.new) }
        ensures stored { OnOk result (IfSome (held_of F.told self.old) (λ held. Tells (held_of F.told self.new)
            (with_package held (package_key (option_copied registry.entry) info.now.name)
            (Whole (named_info info.now))))) }
        ensures refused { OnErr result (IfSome (held_of F.told self.old) (λ held. LeavesStore (held_of F.told self.new)
            held (with_package held (package_key (option_copied registry.entry) info.now.name))
            (named_info info.now))) }
        ensures fault { IfErr result (λ e.
            IsStoreFault e (F.faults (files_of self.old)) (F.faults (files_of self.new))) }
        ensures place { place_of self.new ≡ place_of self.old }
        ensures written { OnOk result (IfSome (F.told (files_of self.old)) (λ files. F.told (files_of self.new)
            ≡ Some (with_file files
            (package_path (place_of self.old) (package_key (option_copied registry.entry) info.now.name))
            (package_text info.now.name (package_info info.now))))) }
        ensures partly_written { OnErr result (LeavesPartlyWritten (F.told (files_of self.old))
            (F.told (files_of self.new))
            (package_path (place_of self.old) (package_key (option_copied registry.entry) info.now.name))
            (package_text info.now.name (package_info info.now))) }
    {
        let path = self.place.package_path(alloc, registry, &info.name)?;
        let text = write_package(alloc, info)?;
        self.write(alloc, &path, &text)?;
        Ok(())
    }

    fn load_publish(&mut self, alloc: Global) -> Result<Option<PublishInfo>, StoreError>
        ensures never_falls { F.faults (files_of self.old) ≤ F.faults (files_of self.new) }
        ensures kept { IfSome (held_of F.told self.old) (Tells (held_of F.told self.new)) }
        ensures found { IfOk result (λ o. IfSome (held_of F.told self.old) (λ held.
            held.publish ≡ entry_of (option_map info_view o))) }
        ensures publishable { IfOk result (λ o. IfSome o IsSoundPublish) }
        ensures fault { IfErr result (λ e. IsLoadFault e EntryKind.Publish (F.faults (files_of self.old))
            (F.faults (files_of self.new)) (option_map (λ held. held.publish) (held_of F.told self.old))) }
        ensures place { place_of self.new ≡ place_of self.old }
        ensures untouched { F.told (files_of self.new) ≡ F.told (files_of self.old) }
    {
        let path = self.place.publish_path(alloc)?;
        let Some(bytes) = self.read(alloc, &path)? else {
            return Ok(None);
        };
        match read_publish(alloc, &bytes)? {
            Some(info) => Ok(Some(info)),
            None => Err(StoreError::Damaged(EntryKind::Publish)),
        }
    }

    fn store_publish(&mut self, alloc: Global, info: Option<&PublishInfo>) -> Result<(), StoreError>
        requires { IfSome (option_copied info) IsSoundPublish }
        ensures never_falls { F.faults (files_of self.old) ≤ F.faults (files_of self.new) }
        ensures stored { OnOk result (IfSome (held_of F.told self.old) (λ held. Tells (held_of F.told self.new)
            (with_publish held (entry_of (option_map info_view (option_copied info.entry)))))) }
        ensures refused { OnErr result (IfSome (held_of F.told self.old) (λ held.
            LeavesPublish (held_of F.told self.new) held (option_map info_view (option_copied info.entry)))) }
        ensures fault { IfErr result (λ e.
            IsStoreFault e (F.faults (files_of self.old)) (F.faults (files_of self.new))) }
        ensures place { place_of self.new ≡ place_of self.old }
        ensures written { OnOk result (IfSome (F.told (files_of self.old)) (λ files. F.told (files_of self.new)
            ≡ Some (with_publish_file (place_of self.old) files (option_map info_view (option_copied info.entry))))) }
        ensures partly_written { OnErr result (LeavesPublishFile (place_of self.old) (F.told (files_of self.old))
            (F.told (files_of self.new)) (option_map info_view (option_copied info.entry))) }
    {
        match info {
            Some(info) => self.keep_publish(alloc, info),
            None => self.take_publish(alloc),
        }
    }
}
