//! A caller of `warg_locks`.

ghost use Rattle.std.specs.Prelude.{◌≡◌, Ok, None, IsErrOf};
ghost use Rattle.warg_values.specs.Faults.{Rose};

use std::alloc::Global;
use warg_locks::{LockError, Locks};

/// The locks of a registry's folder and of that of the contents, in this order, or `None` where somebody else holds
/// one of them: then none is kept.
pub fn both<K: Locks>(
    alloc: Global,
    locks: &mut K,
    registry: &str,
    contents: &str,
) -> Result<Option<(K::Lock, K::Lock)>, LockError>
    ensures held { result ≡ Ok None → Rose (K.met locks.old) (K.met locks.new) }
    ensures failed { IsErrOf result LockError.Failed → Rose (K.faults locks.old) (K.faults locks.new) }
{
    let Some(first) = locks.try_lock(alloc, registry)? else {
        return Ok(None);
    };
    match locks.try_lock(alloc, contents)? {
        Some(second) => Ok(Some((first, second))),
        None => Ok(None),
    }
}
