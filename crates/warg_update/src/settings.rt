//! What a client sets for its updates.

use warg_hint::HintSettings;

/// What a client sets for its updates.
#[derive(Clone, Copy, Debug, PartialEq, Eq)]
pub struct Settings {
    /// What is done about a hint at another registry.
    pub hints: HintSettings,
    /// How many pages an update may ask for.
    pub round_limit: u64,
}
