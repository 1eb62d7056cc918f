//! A caller of `warg_url`.

ghost use Rattle.std.specs.Prelude.{◌≡◌, IfOk, Ok};
ghost use Rattle.url.specs.Parts.{Parts};
ghost use Rattle.warg_url.specs.Label.{label};
ghost use Rattle.warg_url.specs.RegistryUrl.{ReadsAs, IsSafe, base_of};

use std::alloc::Global;
use warg_url::{RegistryUrl, UrlError};
use warg_values::Text;

/// The label of the registry's URL that a text names.
pub fn label_of(alloc: Global, text: &str) -> Result<Text, UrlError>
    ensures { IfOk result (λ found. (read : Parts) × ReadsAs text.now (Ok read) × IsSafe read
        × (found ≡ label (base_of read))) }
{
    let url = RegistryUrl::new(alloc, text)?;
    Ok(url.safe_label(alloc)?)
}
