//! Callers of `warg_hash`.

ghost use Rattle.std.specs.Prelude.{◌≡◌, IfOk, Err, MatchOption, bytes_eq, false};
ghost use Rattle.warg_hash.specs.Hash.{digest_of, hash_text, package_log_id};
ghost use Rattle.warg_hash.specs.Name.{IsPackageName};
ghost use Rattle.warg_hash.specs.declared.name.NameError.TheVariants.{Form};

use std::alloc::Global;
use warg_hash::{LogId, NameError, PackageName, RecordId};
use warg_values::Text;

/// The text of the id of a package's log.
pub fn log_id_text(alloc: Global, name: &str) -> Result<Text, NameError>
    ensures text { IfOk result (λ text. text ≡ hash_text (package_log_id name.now)) }
    ensures form { (result ≡ Err Form) → ¬ (IsPackageName name.now) }
{
    let name = PackageName::new(alloc, name)?;
    Ok(LogId::package_log(&name).text(alloc)?)
}

/// Whether a text is that of a record's id.
pub fn is_text_of(alloc: Global, text: &str, id: &RecordId) -> bool
    ensures { MatchOption (digest_of text.now) (result ≡ false) (λ digest. result ≡ bytes_eq digest id.now) }
{
    match RecordId::from_text(alloc, text) {
        Ok(named) => named == *id,
        Err(_) => false,
    }
}
