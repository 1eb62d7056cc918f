//! What is set for a client.

use warg_hint::HintSettings;

/// What is set for a client.
#[derive(Clone, Copy, Debug, PartialEq, Eq)]
pub struct Settings {
    /// No hint at another registry is followed.
    pub ignore_federation_hints: bool,
    /// A hint at another registry is followed only where a decision says so.
    pub disable_auto_accept_federation_hints: bool,
    /// A package that no registry has is begun only where a decision says so.
    pub disable_auto_package_init: bool,
    /// Nothing is decided by asking, and a hint at another registry is reported.
    pub disable_interactive: bool,
    /// How many pages of records a call may ask for.
    pub round_limit: u64,
    /// How often a call may ask whether a record is published.
    pub polls: u64,
}

impl Settings {
    /// What is set about hints at other registries.
    pub(crate) fn hints(&self) -> HintSettings {
        HintSettings {
            ignore_federation_hints: self.ignore_federation_hints,
            disable_auto_accept_federation_hints: self.disable_auto_accept_federation_hints,
            disable_interactive: self.disable_interactive,
        }
    }
}
