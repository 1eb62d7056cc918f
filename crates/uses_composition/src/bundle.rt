//! A caller of `compose_bundle`.

ghost use Rattle.std.specs.Prelude.{◌<◌, ℕ, List, length, IfOk, IfSome, Some};
ghost use Rattle.compose_bundle.specs.Bundled.{AreComponents, content_in};
ghost use Rattle.compose_bundle.specs.Whole.{AreContentsOf, IsWholeBundle};
ghost use Rattle.compose_check.specs.Composition.{IsComposition, composition_tree};
ghost use Rattle.compose_encode.specs.Whole.{HaveComponentNames};

use compose_bundle::laws::bundles_are_whole;
use compose_bundle::{BundleError, bundle};
use compose_check::Composition;
use compose_encode::{CompositionError, encode_composition};
use indexmap::IndexMap;
use std::alloc::Global;
use warg_values::{Memory, Text};

/// A composition that is encoded with its components imported, and then bundled with their bytes. `None` where something
/// refuses it.
pub fn imported_and_bundled(
    alloc: Global,
    composition: &Composition<'_>,
    export: usize,
    contents: &IndexMap<Text, &[u8]>,
) -> Result<Option<Vec<u8>>, Memory>
    requires made { IsComposition (composition_tree composition.now) }
    requires names { HaveComponentNames (composition_tree composition.now) }
    requires export { export < length (composition_tree composition.now).instances }
    requires components { AreComponents (content_in contents.now) }
    requires contents { (bytes : List ℕ)
        → AreContentsOf (composition_tree composition.now) (content_in contents.now) bytes }
    ensures { IfOk result (λ found. IfSome found (λ bytes. (order : List ℕ)
        × IsWholeBundle (composition_tree composition.now) (Some export) order bytes.items)) }
{
    bundles_are_whole();
    let bytes = match encode_composition(alloc, composition, false, Some(export)) {
        Ok(bytes) => bytes,
        Err(CompositionError::Memory) => return Err(Memory),
        Err(_why) => return Ok(None),
    };
    match bundle(alloc, &bytes, contents) {
        Ok(bundle) => Ok(Some(bundle)),
        Err(BundleError::Memory) => Err(Memory),
        Err(_why) => Ok(None),
    }
}
