//! What a client sets for hints.

/// What a client sets for hints.
#[derive(Clone, Copy, Debug, PartialEq, Eq)]
pub struct HintSettings {
    /// No hint is followed.
    pub ignore_federation_hints: bool,
    /// A hint is followed only where a decision says so.
    pub disable_auto_accept_federation_hints: bool,
    /// Nothing is decided by asking, and a hint is reported.
    pub disable_interactive: bool,
}
