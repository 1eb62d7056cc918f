//! What a registry that does not find a package's log says of another one that has it, and what is done about it.
#![tactic(auto)]

mod answer;
mod decide;
mod hint;
mod settings;

pub use answer::{HintAnswer, answer_hint};
pub use decide::{AlwaysDecide, Decide};
pub use hint::{RegistryHint, read_hint};
pub use settings::HintSettings;
