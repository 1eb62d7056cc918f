//! A caller of `compose_encode`.

ghost use Rattle.std.specs.Prelude.{◌<◌, length, true, IfOk, IfSome, Some};
ghost use Rattle.compose_check.specs.Composition.{IsComposition, composition_tree};
ghost use Rattle.compose_encode.specs.Whole.{HaveComponentNames, IsWhole};

use compose_check::Composition;
use compose_encode::{CompositionError, encode_composition};
use std::alloc::Global;
use warg_values::Memory;

/// A composition as one component that defines its components and exports what an instance of it exports. `None` where
/// something refuses it.
pub fn bundled(
    alloc: Global,
    composition: &Composition<'_>,
    export: usize,
) -> Result<Option<Vec<u8>>, Memory>
    requires made { IsComposition (composition_tree composition.now) }
    requires names { HaveComponentNames (composition_tree composition.now) }
    requires export { export < length (composition_tree composition.now).instances }
    ensures { IfOk result (λ found. IfSome found
        (λ bytes. IsWhole (composition_tree composition.now) true (Some export) bytes.items)) }
{
    match encode_composition(alloc, composition, true, Some(export)) {
        Ok(bytes) => Ok(Some(bytes)),
        Err(CompositionError::Memory) => Err(Memory),
        Err(CompositionError::Refused(_why)) => Ok(None),
        Err(CompositionError::ImportNameClash(_name)) => Ok(None),
        Err(CompositionError::TooLarge(_number)) => Ok(None),
    }
}
