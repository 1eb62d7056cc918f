//! Callers of `warg_names`.

ghost use Rattle.std.specs.Prelude.{◌≡◌, ◌≢◌, None, Some, IfOk, IfErr};
ghost use Rattle.warg_names.specs.Import.{ImportTree, import_of};
ghost use Rattle.warg_names.specs.Texts.{requirement_text};
ghost use Rattle.warg_names.specs.declared.error.ImportNameError.TheVariants.{Memory as WantsMemory};

use std::alloc::Global;
use warg_names::{DependencyImportParser, ImportNameError, version_string};
use warg_values::Text;

/// The text of the requirement that an import's name asks for.
pub fn asked_versions(alloc: Global, name: &str) -> Result<Text, ImportNameError>
    ensures ok { IfOk result (λ text. (tree : ImportTree) × (import_of name.now ≡ Some tree)
        × (text ≡ requirement_text tree.requirement)) }
    ensures refused { IfErr result (λ e. (e ≢ WantsMemory) → import_of name.now ≡ None) }
{
    let mut parser = DependencyImportParser {
        next: name,
        offset: 0,
    };
    let import = parser.parse(alloc)?;
    Ok(version_string(alloc, &import.req)?)
}
