//! Checkpoints and logs read from texts.

ghost use Rattle.std.specs.Prelude.{◌≡◌, IfOk, IfSome, option_map};
ghost use Rattle.warg_info.specs.Info.{IsSoundOperator, IsSoundPackage};
ghost use Rattle.warg_store.specs.Held.{operator_info, package_info};
ghost use Rattle.warg_info_text.specs.StoredTexts.{meaning_of, checkpoint_of, operator_of, package_of};

use crate::replay::log_of_stored;
use crate::stored::StoredInfo;
use std::alloc::Global;
use warg_exchange::SignedCheckpoint;
use warg_info::{OperatorInfo, PackageInfo};
use warg_json::{BodyError, FromBody, value_in_bytes};
use warg_url::RegistryDomain;
use warg_values::Memory;

/// What bytes mean, and nothing where they mean none.
fn meant<T: FromBody>(alloc: Global, bytes: &[u8]) -> Result<Option<T>, Memory>
    ensures { IfOk result (λ o. option_map T.plain o ≡ meaning_of T.meaning bytes.now) }
{
    let value = match value_in_bytes(alloc, bytes) {
        Ok(value) => value,
        Err(BodyError::Memory) => return Err(Memory),
        Err(_) => return Ok(None),
    };
    match T::from_body(alloc, &value) {
        Ok(found) => Ok(Some(found)),
        Err(BodyError::Memory) => Err(Memory),
        Err(_) => Ok(None),
    }
}

/// The signed checkpoint that bytes are, and none where they are none.
pub fn read_checkpoint(alloc: Global, bytes: &[u8]) -> Result<Option<SignedCheckpoint>, Memory>
    ensures { IfOk result (λ o. o ≡ checkpoint_of bytes.now) }
{
    meant(alloc, bytes)
}

/// The log of a registry's operator that bytes are, and none where they are none. It is sound.
pub fn read_operator(alloc: Global, bytes: &[u8]) -> Result<Option<OperatorInfo>, Memory>
    ensures found { IfOk result (λ o. option_map operator_info o ≡ operator_of bytes.now) }
    ensures sound { IfOk result (λ o. IfSome o IsSoundOperator) }
{
    let found: Option<StoredInfo> = meant(alloc, bytes)?;
    let Some(stored) = found else {
        return Ok(None);
    };
    if stored.name.is_some() {
        return Ok(None);
    }
    let Some(log) = log_of_stored(alloc, &stored)? else {
        return Ok(None);
    };
    Ok(Some(OperatorInfo {
        registry: stored.registry.map(RegistryDomain::new),
        checkpoint: stored.checkpoint,
        log,
    }))
}

/// The log of a package that bytes are, with the package's name, and none where they are none. It is sound.
pub fn read_package(alloc: Global, bytes: &[u8]) -> Result<Option<PackageInfo>, Memory>
    ensures found { IfOk result (λ o. option_map (λ info. (info.name, package_info info)) o
        ≡ package_of bytes.now) }
    ensures sound { IfOk result (λ o. IfSome o IsSoundPackage) }
{
    let found: Option<StoredInfo> = meant(alloc, bytes)?;
    let Some(stored) = found else {
        return Ok(None);
    };
    let Some(log) = log_of_stored(alloc, &stored)? else {
        return Ok(None);
    };
    let StoredInfo {
        name,
        registry,
        checkpoint,
        ..
    } = stored;
    let Some(name) = name else {
        return Ok(None);
    };
    Ok(Some(PackageInfo {
        name,
        registry: registry.map(RegistryDomain::new),
        checkpoint,
        log,
    }))
}
