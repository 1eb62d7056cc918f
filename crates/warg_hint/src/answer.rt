//! What is done about a hint.

ghost use Rattle.std.specs.Prelude.{◌≡◌, ◌⊎◌, ℕ, List, true, false, option_copied};
ghost use Rattle.warg_hint.specs.Hint.{IsFor, MustAsk, Gives, IsReported, IsFollowed, IsLeft, hint_value};
ghost use Rattle.warg_hint.specs.declared.answer.HintAnswer.TheVariants.{Reported, Followed, Left};

use crate::decide::Decide;
use crate::hint::{RegistryHint, read_hint};
use crate::settings::HintSettings;
use http_header::HeaderValue;
use warg_hash::PackageName;

/// What is done about a hint.
#[derive(Clone, Copy, Debug, PartialEq, Eq)]
pub enum HintAnswer {
    /// It is reported, and nothing is asked of the other registry.
    Reported,
    /// The package is looked for in the other registry.
    Followed,
    /// Nothing is done about it.
    Left,
}

/// Whether a hint is followed, where nothing is reported.
fn is_followed<D: Decide>(
    settings: &HintSettings,
    decide: &mut D,
    name: &PackageName,
    hint: &RegistryHint<'_>,
) -> bool
    ensures followed { result ≡ true → IsFor settings.now name.now hint.now.namespace.now
        × ((settings.now.disable_auto_accept_federation_hints ≡ false) ⊎ (D.said decide.old decide.new true ≡ true)) }
    ensures left { result ≡ false → (IsFor settings.now name.now hint.now.namespace.now → ⊥)
        ⊎ (IsFor settings.now name.now hint.now.namespace.now
        × (settings.now.disable_auto_accept_federation_hints ≡ true) × (D.said decide.old decide.new false ≡ true)) }
    ensures unasked { (IsFor settings.now name.now hint.now.namespace.now
        → settings.now.disable_auto_accept_federation_hints ≡ true → ⊥) → decide.new ≡ decide.old }
{
    if settings.ignore_federation_hints || hint.namespace != name.namespace() {
        return false;
    }
    if !settings.disable_auto_accept_federation_hints {
        return true;
    }
    decide.follow_hint(name, hint.namespace, hint.registry)
}

/// What is done about the hint in a header's value, where the log of a package is not found.
///
/// Where nothing may be asked, a hint is reported. Else it is followed where hints are heeded and it is for the
/// package's namespace, and either hints are accepted without asking or the decision says so. The decision is asked once,
/// and only where nothing else decides.
pub fn answer_hint<D: Decide>(
    settings: &HintSettings,
    decide: &mut D,
    name: &PackageName,
    value: Option<&HeaderValue>,
) -> HintAnswer
    ensures reported { result ≡ Reported → IsReported settings.now (hint_value (option_copied value.entry)) }
    ensures followed { result ≡ Followed
        → IsFollowed settings.now (D.said decide.old decide.new) name.now (hint_value (option_copied value.entry)) }
    ensures left { result ≡ Left
        → IsLeft settings.now (D.said decide.old decide.new) name.now (hint_value (option_copied value.entry)) }
    ensures unasked { ((namespace registry : List ℕ) → Gives (hint_value (option_copied value.entry)) namespace registry
        → MustAsk settings.now name.now namespace → ⊥) → decide.new ≡ decide.old }
{
    let Some(value) = value else {
        return HintAnswer::Left;
    };
    let Some(hint) = read_hint(value) else {
        return HintAnswer::Left;
    };
    if settings.disable_interactive {
        return HintAnswer::Reported;
    }
    if is_followed(settings, decide, name, &hint) {
        HintAnswer::Followed
    } else {
        HintAnswer::Left
    }
}
