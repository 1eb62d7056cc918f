//! Files in memory.

ghost use Rattle.std.specs.Prelude.{◌≡◌, ◌≤◌, ◌++◌, ◌∷◌, [], ◌↔◌, ◌||◌, not, nat_eq, filter, bytes_eq, Some, None, is_some, IfOk, IsErrOf, OnOk, OnErr, Contains};
ghost use Rattle.std.specs.FinMap as map;
ghost use Rattle.std.specs.BTreeMap.{IsOrdered, keys};
ghost use Rattle.std.specs.Cmp.Lexicographic.{slice_cmp};
ghost use Rattle.std.specs.Ordering.{nat_cmp};
ghost use Rattle.std.specs.List.{starts_with};
ghost use Rattle.warg_values.specs.Faults.{Rose, after_call, one_more};
ghost use Rattle.warg_base.specs.Files.{LeavesPartlyRemoved, LeavesPartlyWritten, file_at, paths_under, with_file, without_path};
ghost use Rattle.warg_base.specs.Failures.{has_file_failed};

use crate::files::{FileError, Files};
use bytes::Bytes;
use std::alloc::Global;
use std::collections::BTreeMap;
use std::marker::Model;
use warg_values::{FaultSchedule, Memory, Text};

/// Files in memory, which tell what they hold.
#[derive(Debug, Drop)]
pub struct MemoryFiles {
    files: BTreeMap<Text, Bytes>,
    schedule: FaultSchedule,
}

impl Model for MemoryFiles {
    ghost use Rattle.warg_base.specs.Files.{FilesHeld, files_code};
    ghost use Rattle.std.specs.FinMap as map;

    ghost Value = { FilesHeld };

    ghost coded = { files_code };

    ghost view = { λ m. record { files = map.from_entries m.files.entries; schedule = m.schedule } };
}

impl MemoryFiles {
    /// No files.
    pub fn new(alloc: Global) -> Self
        ensures { result ≡ record { files = map.empty; schedule = record { calls = 0; failing = []; faults = 0 } } }
    {
        MemoryFiles {
            files: BTreeMap::new(alloc),
            schedule: FaultSchedule::new(alloc),
        }
    }

    /// Has the call of this number fail, counted from 1 over all calls. A refusal changes nothing.
    pub fn fail_at(&mut self, call: u64) -> Result<(), Memory>
        ensures listed { OnOk result (self.new ≡ record self.old { schedule = record self.old.schedule { failing = self.old.schedule.failing ++ call ∷ [] } }) }
        ensures unchanged { OnErr result (self.new ≡ self.old) }
    {
        self.schedule.fail_at(call)
    }
}

impl Files for MemoryFiles {
    ghost faults = { λ m. m.schedule.faults };

    ghost told = { λ m. Some m.files };

    fn read(&mut self, alloc: Global, path: &str) -> Result<Vec<u8>, FileError>
        ensures never_falls { self.old.schedule.faults ≤ self.new.schedule.faults }
        ensures kept { self.new.files ≡ self.old.files }
        ensures found { IfOk result (λ bytes. file_at self.old.files path.now ≡ Some bytes.items) }
        ensures missing { IsErrOf result FileError.Missing → file_at self.old.files path.now ≡ None }
        ensures failed { IsErrOf result FileError.Failed ↔ Contains self.old.schedule.failing (one_more self.old.schedule.calls) }
        ensures counted { IsErrOf result FileError.Failed → Rose self.old.schedule.faults self.new.schedule.faults }
        ensures scheduled { self.new.schedule ≡ after_call self.old.schedule (has_file_failed result) }
    {
        if self.schedule.fails_now() {
            return Err(FileError::Failed);
        }
        let path = Text::copy_of(alloc, path)?;
        match self.files.get(&path) {
            None => Err(FileError::Missing),
            Some(bytes) => Ok(Vec::from_slice(alloc, bytes.as_slice())?),
        }
    }

    fn write(&mut self, alloc: Global, path: &str, bytes: &[u8]) -> Result<(), FileError>
        ensures never_falls { self.old.schedule.faults ≤ self.new.schedule.faults }
        ensures written { OnOk result (self.new.files ≡ with_file self.old.files path.now bytes.now) }
        ensures refused { OnErr result (LeavesPartlyWritten (Some self.old.files) (Some self.new.files) path.now bytes.now) }
        ensures unchanged { OnErr result (self.new.files ≡ self.old.files) }
        ensures not_missing { IsErrOf result FileError.Missing → ⊥ }
        ensures failed { IsErrOf result FileError.Failed ↔ Contains self.old.schedule.failing (one_more self.old.schedule.calls) }
        ensures counted { IsErrOf result FileError.Failed → Rose self.old.schedule.faults self.new.schedule.faults }
        ensures scheduled { self.new.schedule ≡ after_call self.old.schedule (has_file_failed result) }
    {
        if self.schedule.fails_now() {
            return Err(FileError::Failed);
        }
        let path = Text::copy_of(alloc, path)?;
        let bytes = Bytes::copy_from_slice(alloc, bytes)?;
        self.files.insert(path, bytes)?;
        Ok(())
    }

    fn is_file(&mut self, alloc: Global, path: &str) -> Result<bool, FileError>
        ensures never_falls { self.old.schedule.faults ≤ self.new.schedule.faults }
        ensures kept { self.new.files ≡ self.old.files }
        ensures answer { IfOk result (λ there. there ≡ is_some (file_at self.old.files path.now)) }
        ensures not_missing { IsErrOf result FileError.Missing → ⊥ }
        ensures failed { IsErrOf result FileError.Failed ↔ Contains self.old.schedule.failing (one_more self.old.schedule.calls) }
        ensures counted { IsErrOf result FileError.Failed → Rose self.old.schedule.faults self.new.schedule.faults }
        ensures scheduled { self.new.schedule ≡ after_call self.old.schedule (has_file_failed result) }
    {
        if self.schedule.fails_now() {
            return Err(FileError::Failed);
        }
        let path = Text::copy_of(alloc, path)?;
        Ok(self.files.get(&path).is_some())
    }

    fn remove(&mut self, alloc: Global, path: &str) -> Result<(), FileError>
        ensures never_falls { self.old.schedule.faults ≤ self.new.schedule.faults }
        ensures removed { OnOk result (self.new.files ≡ without_path self.old.files path.now) }
        ensures refused { OnErr result (LeavesPartlyRemoved (Some self.old.files) (Some self.new.files) path.now) }
        ensures unchanged { OnErr result (self.new.files ≡ self.old.files) }
        ensures not_missing { IsErrOf result FileError.Missing → ⊥ }
        ensures failed { IsErrOf result FileError.Failed ↔ Contains self.old.schedule.failing (one_more self.old.schedule.calls) }
        ensures counted { IsErrOf result FileError.Failed → Rose self.old.schedule.faults self.new.schedule.faults }
        ensures scheduled { self.new.schedule ≡ after_call self.old.schedule (has_file_failed result) }
    {
        if self.schedule.fails_now() {
            return Err(FileError::Failed);
        }
        let folder = format!(in alloc; "{path}/")?;
        retain_outside(&mut self.files, path, folder.as_str());
        Ok(())
    }

    fn list(&mut self, alloc: Global, path: &str) -> Result<Vec<Text>, FileError>
        ensures never_falls { self.old.schedule.faults ≤ self.new.schedule.faults }
        ensures kept { self.new.files ≡ self.old.files }
        ensures listed { IfOk result (λ paths. paths.items ≡ paths_under self.old.files path.now) }
        ensures not_missing { IsErrOf result FileError.Missing → ⊥ }
        ensures failed { IsErrOf result FileError.Failed ↔ Contains self.old.schedule.failing (one_more self.old.schedule.calls) }
        ensures counted { IsErrOf result FileError.Failed → Rose self.old.schedule.faults self.new.schedule.faults }
        ensures scheduled { self.new.schedule ≡ after_call self.old.schedule (has_file_failed result) }
    {
        if self.schedule.fails_now() {
            return Err(FileError::Failed);
        }
        let folder = format!(in alloc; "{path}/")?;
        Ok(paths_with(alloc, &self.files, folder.as_str())?)
    }
}

/// Drops the file of this path and all files whose path begins with the folder's, which ends with a slash.
fn retain_outside(files: &mut BTreeMap<Text, Bytes>, path: &str, folder: &str)
    ensures { files.new.entries ≡ filter (λ e. not (bytes_eq e.0 path.now || starts_with nat_eq e.0 folder.now)) files.old.entries }
{
    files.retain(|file, _| {
        file.as_str() != path && !file.as_str().as_bytes().starts_with(folder.as_bytes())
    });
}

/// The paths that begin with the folder's, which ends with a slash.
fn paths_with(
    alloc: Global,
    files: &BTreeMap<Text, Bytes>,
    folder: &str,
) -> Result<Vec<Text>, Memory>
    ensures found { IfOk result (λ paths. paths.items ≡ filter (λ q. starts_with nat_eq q folder.now) (keys files.now)) }
    ensures ordered { OnOk result (IsOrdered (slice_cmp nat_cmp) files.now) }
{
    let mut paths = Vec::new(alloc);
    for file in files.keys() {
        if file.as_str().as_bytes().starts_with(folder.as_bytes()) {
            paths.push(file.try_clone(alloc)?)?;
        }
    }
    Ok(paths)
}
