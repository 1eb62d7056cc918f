//! A store of contents in files.

ghost use Rattle.std.specs.Prelude.{◌≡◌, ◌≢◌, ◌≤◌, ℕ, List, Some, None, Ok, Err, true, is_some, IfOk, IfErr, IfSome, OnOk, OnErr, option_copied, option_map};
ghost use Rattle.sha2.specs.Sha256.{sha256};
ghost use Rattle.warg_base.specs.Files.{LeavesPartlyRemoved, LeavesPartlyWritten, with_file, without_path};
ghost use Rattle.warg_values.specs.Faults.{Rose};
ghost use Rattle.warg_locks.specs.declared.locks.LockError.TheVariants.{Failed as lock_failed};
ghost use Rattle.warg_base.specs.declared.files.FileError.TheVariants.{Missing as is_missing, Failed as has_failed};
ghost use Rattle.warg_content_files.specs.ContentFiles.{content_folder, content_path, is_digest, lock_path};
ghost use Rattle.warg_content_files.specs.Shown.{files_of, folder_of, contents_of, lock_of};
ghost use Rattle.warg_store.specs.Contents.{TellsContents, LeavesContent, LeavesCleared, IsContentFault, IsStoreContentFault, with_content};
ghost use Rattle.warg_store.specs.Entry.{IsStoreFault};
ghost use Rattle.warg_store.specs.declared.error.StoreError.TheVariants.{Failed as store_failed, Memory as no_memory, IncorrectContent as IsIncorrect};

use std::alloc::Global;
use warg_base::{FileError, Files};
use warg_hash::AnyHash;
use warg_locks::{LockError, Locks};
use warg_store::{ContentStorage, StoreError};
use warg_values::{Memory, Text};

/// Contents in files: each stands in a file that is named by its digest, in one folder, and nothing else of the files
/// is touched. It holds the lock that it was made with, until it is dropped.
#[derive(Drop)]
pub struct FileSystemContentStorage<F, L> {
    files: F,
    folder: Text,
    held: L,
}

/// Why a store refuses what files refused, which were not asked for a file that is missing.
fn refusal(error: FileError) -> StoreError
    ensures failed { error ≡ has_failed → result ≡ store_failed }
    ensures memory { error ≢ has_failed → error ≢ is_missing → result ≡ no_memory }
{
    match error {
        FileError::Memory => StoreError::Memory,
        FileError::Failed | FileError::Missing => StoreError::Failed,
    }
}

/// Refuses a digest that is not the one that is expected, where one is.
fn expect(digest: AnyHash, expected: Option<&AnyHash>) -> Result<(), StoreError>
    ensures same { OnOk result (IfSome (option_copied expected.entry) (λ wanted. wanted ≡ digest)) }
    ensures other { IfErr result (λ e. (wanted : List ℕ) × (option_copied expected.entry ≡ Some wanted)
        × (digest ≢ wanted) × (e ≡ IsIncorrect digest wanted)) }
{
    match expected {
        Some(wanted) if *wanted != digest => Err(StoreError::IncorrectContent {
            digest,
            expected: *wanted,
        }),
        _ => Ok(()),
    }
}

/// The folder of contents below a base folder.
fn folder_below(alloc: Global, base: &str) -> Result<Text, Memory>
    ensures { IfOk result (λ folder. folder ≡ content_folder base.now) }
{
    if base.is_empty() {
        return Text::copy_of(alloc, "sha256");
    }
    Ok(Text::new(format!(in alloc; "{base}/sha256")?))
}

/// The path that a store locks, in a base folder.
fn lock_in(alloc: Global, base: &str) -> Result<Text, Memory>
    ensures { IfOk result (λ path. path ≡ lock_path base.now) }
{
    if base.is_empty() {
        return Text::copy_of(alloc, ".lock");
    }
    Ok(Text::new(format!(in alloc; "{base}/.lock")?))
}

impl<F, L> FileSystemContentStorage<F, L> {
    /// The path of a digest's content.
    fn path(&self, alloc: Global, digest: &AnyHash) -> Result<Text, Memory>
        ensures path { IfOk result (λ path. path ≡ content_path (folder_of self.now) digest.now) }
        ensures digest { OnOk result (is_digest digest.now ≡ true) }
    {
        let digits = hex::encode(alloc, digest.bytes())?;
        let mut path = String::from_str(alloc, self.folder.as_str())?;
        path.push_str("/")?;
        path.push_str(&digits)?;
        Ok(Text::new(path))
    }
}

impl<F: Files + Drop> FileSystemContentStorage<F, ()> {
    /// The contents that files hold in the folder `sha256` below a base folder, without a lock. No file is asked for.
    pub fn new(alloc: Global, files: F, base: &str) -> Result<Self, Memory>
        ensures files { IfOk result (λ store. files_of store ≡ files) }
        ensures folder { IfOk result (λ store. folder_of store ≡ content_folder base.now) }
    {
        FileSystemContentStorage::with_lock(alloc, files, base, ())
    }
}

impl<F: Files + Drop, L: Drop> FileSystemContentStorage<F, L> {
    /// The same, holding a lock.
    fn with_lock(alloc: Global, files: F, base: &str, held: L) -> Result<Self, Memory>
        ensures files { IfOk result (λ store. files_of store ≡ files) }
        ensures folder { IfOk result (λ store. folder_of store ≡ content_folder base.now) }
        ensures lock { IfOk result (λ store. lock_of store ≡ held) }
    {
        let folder = folder_below(alloc, base)?;
        Ok(FileSystemContentStorage {
            files,
            folder,
            held,
        })
    }

    /// The contents that files hold in the folder `sha256` below a base folder, in which it locks `.lock`. `None` where
    /// somebody else holds that.
    pub fn try_lock<K: Locks<Lock = L>>(
        alloc: Global,
        files: F,
        locks: &mut K,
        base: &str,
    ) -> Result<Option<Self>, LockError>
        ensures never_falls { K.faults locks.old ≤ K.faults locks.new }
        ensures files { IfOk result (λ found. IfSome found (λ store. files_of store ≡ files)) }
        ensures folder { IfOk result (λ found. IfSome found (λ store. folder_of store ≡ content_folder base.now)) }
        ensures lock { IfOk result (λ found. IfSome found (λ store. K.locked (lock_of store) ≡ lock_path base.now)) }
        ensures held { result ≡ Ok None → Rose (K.met locks.old) (K.met locks.new) }
        ensures failed { result ≡ Err lock_failed → Rose (K.faults locks.old) (K.faults locks.new) }
    {
        let path = lock_in(alloc, base)?;
        let Some(held) = locks.try_lock(alloc, path.as_str())? else {
            return Ok(None);
        };
        Ok(Some(FileSystemContentStorage::with_lock(alloc, files, base, held)?))
    }

    /// The same, but waits while somebody else holds the lock.
    pub fn lock<K: Locks<Lock = L>>(
        alloc: Global,
        files: F,
        locks: &mut K,
        base: &str,
    ) -> Result<Self, LockError>
        ensures never_falls { K.faults locks.old ≤ K.faults locks.new }
        ensures files { IfOk result (λ store. files_of store ≡ files) }
        ensures folder { IfOk result (λ store. folder_of store ≡ content_folder base.now) }
        ensures lock { IfOk result (λ store. K.locked (lock_of store) ≡ lock_path base.now) }
        ensures failed { result ≡ Err lock_failed → Rose (K.faults locks.old) (K.faults locks.new) }
    {
        let path = lock_in(alloc, base)?;
        let held = locks.lock(alloc, path.as_str())?;
        Ok(FileSystemContentStorage::with_lock(alloc, files, base, held)?)
    }

    /// The lock that it holds.
    pub fn held(&self) -> &L
        ensures { result.now ≡ lock_of self.now }
    {
        &self.held
    }

    /// The files in which contents are kept.
    pub fn files(&self) -> &F
        ensures { result.now ≡ files_of self.now }
    {
        &self.files
    }
}

impl<F: Files + Drop, L: Drop> ContentStorage for FileSystemContentStorage<F, L> {
    ghost faults = { λ s. F.faults (files_of s) };

    ghost told = { λ s. contents_of F.told s };

    fn clear(&mut self, alloc: Global) -> Result<(), StoreError>
        ensures never_falls { F.faults (files_of self.old) ≤ F.faults (files_of self.new) }
        ensures cleared { OnOk result (IfSome (contents_of F.told self.old) (λ _.
            TellsContents (contents_of F.told self.new) (λ _. None))) }
        ensures refused { OnErr result (IfSome (contents_of F.told self.old)
            (LeavesCleared (contents_of F.told self.new))) }
        ensures fault { IfErr result (λ e. IsStoreFault e (F.faults (files_of self.old)) (F.faults (files_of self.new))) }
        ensures folder { folder_of self.new ≡ folder_of self.old }
        ensures removed { OnOk result (IfSome (F.told (files_of self.old)) (λ files.
            F.told (files_of self.new) ≡ Some (without_path files (folder_of self.old)))) }
        ensures partly_removed { OnErr result (LeavesPartlyRemoved (F.told (files_of self.old))
            (F.told (files_of self.new)) (folder_of self.old)) }
    {
        match self.files.remove(alloc, self.folder.as_str()) {
            Ok(()) => Ok(()),
            Err(error) => Err(refusal(error)),
        }
    }

    fn content_location(
        &mut self,
        alloc: Global,
        digest: &AnyHash,
    ) -> Result<Option<Text>, StoreError>
        ensures never_falls { F.faults (files_of self.old) ≤ F.faults (files_of self.new) }
        ensures kept { IfSome (contents_of F.told self.old) (TellsContents (contents_of F.told self.new)) }
        ensures found { IfOk result (λ o. IfSome (contents_of F.told self.old) (λ held.
            is_some o ≡ is_some (held digest.now))) }
        ensures location { IfOk result (λ o. IfSome o (λ path. path ≡ content_path (folder_of self.old) digest.now)) }
        ensures fault { IfErr result (λ e. IsStoreFault e (F.faults (files_of self.old)) (F.faults (files_of self.new))) }
        ensures folder { folder_of self.new ≡ folder_of self.old }
        ensures untouched { F.told (files_of self.new) ≡ F.told (files_of self.old) }
    {
        let path = self.path(alloc, digest)?;
        match self.files.is_file(alloc, path.as_str()) {
            Ok(true) => Ok(Some(path)),
            Ok(false) => Ok(None),
            Err(error) => Err(refusal(error)),
        }
    }

    fn load_content(
        &mut self,
        alloc: Global,
        digest: &AnyHash,
    ) -> Result<Option<Vec<u8>>, StoreError>
        ensures never_falls { F.faults (files_of self.old) ≤ F.faults (files_of self.new) }
        ensures kept { IfSome (contents_of F.told self.old) (TellsContents (contents_of F.told self.new)) }
        ensures found { IfOk result (λ o. IfSome (contents_of F.told self.old) (λ held.
            held digest.now ≡ option_map (λ bytes. bytes.items) o)) }
        ensures whole { IfOk result (λ o. IfSome o (λ bytes. sha256 bytes.items ≡ digest.now)) }
        ensures fault { IfErr result (λ e. IsContentFault e digest.now (F.faults (files_of self.old))
            (F.faults (files_of self.new)) (option_map (λ held. held digest.now) (contents_of F.told self.old))) }
        ensures folder { folder_of self.new ≡ folder_of self.old }
        ensures untouched { F.told (files_of self.new) ≡ F.told (files_of self.old) }
    {
        let path = self.path(alloc, digest)?;
        let bytes = match self.files.read(alloc, path.as_str()) {
            Ok(bytes) => bytes,
            Err(FileError::Missing) => return Ok(None),
            Err(error) => return Err(refusal(error)),
        };
        let found = AnyHash::sha256_of(&bytes);
        if found != *digest {
            return Err(StoreError::IncorrectContent {
                digest: found,
                expected: *digest,
            });
        }
        Ok(Some(bytes))
    }

    fn store_content(
        &mut self,
        alloc: Global,
        bytes: &[u8],
        expected: Option<&AnyHash>,
    ) -> Result<AnyHash, StoreError>
        ensures never_falls { F.faults (files_of self.old) ≤ F.faults (files_of self.new) }
        ensures digest { IfOk result (λ digest. digest ≡ sha256 bytes.now) }
        ensures expected { IfOk result (λ digest. IfSome (option_copied expected.entry) (λ wanted. wanted ≡ digest)) }
        ensures stored { OnOk result (IfSome (contents_of F.told self.old) (λ held.
            TellsContents (contents_of F.told self.new) (with_content held (sha256 bytes.now) bytes.now))) }
        ensures refused { OnErr result (IfSome (contents_of F.told self.old) (λ held.
            LeavesContent (contents_of F.told self.new) held bytes.now)) }
        ensures incorrect { (found wanted : List ℕ) → result ≡ Err (IsIncorrect found wanted)
            → IfSome (contents_of F.told self.old) (TellsContents (contents_of F.told self.new)) }
        ensures fault { IfErr result (λ e. IsStoreContentFault e bytes.now (option_copied expected.entry)
            (F.faults (files_of self.old)) (F.faults (files_of self.new))) }
        ensures folder { folder_of self.new ≡ folder_of self.old }
        ensures written { OnOk result (IfSome (F.told (files_of self.old)) (λ files. F.told (files_of self.new)
            ≡ Some (with_file files (content_path (folder_of self.old) (sha256 bytes.now)) bytes.now))) }
        ensures partly_written { OnErr result (LeavesPartlyWritten (F.told (files_of self.old))
            (F.told (files_of self.new)) (content_path (folder_of self.old) (sha256 bytes.now)) bytes.now) }
    {
        let digest = AnyHash::sha256_of(bytes);
        expect(digest, expected)?;
        let path = self.path(alloc, &digest)?;
        match self.files.write(alloc, path.as_str(), bytes) {
            Ok(()) => Ok(digest),
            Err(error) => Err(refusal(error)),
        }
    }
}
