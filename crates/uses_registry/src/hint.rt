//! A caller of `warg_hint`.

ghost use Rattle.std.specs.Prelude.{◌≡◌, true, option_copied};
ghost use Rattle.warg_hint.specs.Hint.{IsFollowed, hint_value};

use http_header::HeaderValue;
use warg_hash::PackageName;
use warg_hint::{Decide, HintAnswer, HintSettings, answer_hint};

/// Whether a package that a registry does not find is looked for in the registry of which a header tells.
pub fn moves<D: Decide>(
    settings: &HintSettings,
    decide: &mut D,
    name: &PackageName,
    value: Option<&HeaderValue>,
) -> bool
    ensures { result ≡ true
        → IsFollowed settings.now (D.said decide.old decide.new) name.now (hint_value (option_copied value.entry)) }
{
    match answer_hint(settings, decide, name, value) {
        HintAnswer::Followed => true,
        HintAnswer::Reported | HintAnswer::Left => false,
    }
}
