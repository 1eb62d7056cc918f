//! The marks of contents' digests.

ghost use Rattle.std.specs.Prelude.{◌≡◌};
ghost use Rattle.warg_names.specs.Mark.{digest_marked};

use crate::cut::behind;
use std::alloc::Global;
use warg_hash::AnyHash;

/// The digest that a mark names: `sha256-`, and 64 lower-case hex digits. No memory is taken.
#[tactic(auto, unfolding(crate::specs::Mark::digest_marked))]
pub fn marked(alloc: Global, mark: &str) -> Option<AnyHash>
    ensures { result ≡ digest_marked mark.now }
{
    let digits = behind("sha256-", mark)?;
    if digits.len() != 64 {
        return None;
    }
    let mut text = *b"sha256:0000000000000000000000000000000000000000000000000000000000000000";
    text[7..].copy_from_slice(digits.as_bytes());
    match str::from_utf8(&text) {
        Ok(text) => AnyHash::from_text(alloc, text).ok(),
        Err(_) => None,
    }
}
