//! The paths of requests, behind a registry's URL.

ghost use Rattle.std.specs.Prelude.{◌≡◌, ◌++◌, codes, IfOk};
ghost use Rattle.warg_hash.specs.Hash.{hash_text};

use std::alloc::Global;
use warg_hash::{AnyHash, LogId, RecordId};
use warg_values::{Memory, Text};

/// The path of the sources of a content.
pub fn sources_path(alloc: Global, digest: &AnyHash) -> Result<Text, Memory>
    ensures { IfOk result (λ path. path ≡ codes "v1/content/" ++ hash_text digest.now) }
{
    let digest = digest.text(alloc)?;
    let mut path = String::from_str(alloc, "v1/content/")?;
    path.push_str(digest.as_str())?;
    Ok(Text::new(path))
}

/// The path to which a record of a package's log is published.
pub fn publish_path(alloc: Global, log_id: &LogId) -> Result<Text, Memory>
    ensures { IfOk result (λ path. path ≡ codes "v1/package/" ++ hash_text log_id.now ++ codes "/record") }
{
    let log_id = log_id.text(alloc)?;
    let mut path = String::from_str(alloc, "v1/package/")?;
    path.push_str(log_id.as_str())?;
    path.push_str("/record")?;
    Ok(Text::new(path))
}

/// The path of a record of a package's log.
pub fn record_path(alloc: Global, log_id: &LogId, record_id: &RecordId) -> Result<Text, Memory>
    ensures { IfOk result (λ path.
        path ≡ codes "v1/package/" ++ hash_text log_id.now ++ codes "/record/" ++ hash_text record_id.now) }
{
    let log_id = log_id.text(alloc)?;
    let record_id = record_id.text(alloc)?;
    let mut path = String::from_str(alloc, "v1/package/")?;
    path.push_str(log_id.as_str())?;
    path.push_str("/record/")?;
    path.push_str(record_id.as_str())?;
    Ok(Text::new(path))
}
