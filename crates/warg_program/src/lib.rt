//! The program's commands, over any files and any output: `link ROOT OUT`, `compose ROOT CONFIG OUT`, `assemble PLAN
//! REPLIES CHECKED OUT` and `demo SEED COUNT`.
//!
//! [`run`] gives the exit status, and [`outcome`] the cause beside it. The program `warg` hands them the host's words,
//! files and output.
#![tactic(auto)]

mod assemble;
mod command;
mod compose;
mod composer_variant;
mod delivery;
mod demo;
mod lines;
mod link;
mod program;
mod sources;
mod stop;
mod variant;

pub use command::{Command, Sources, command_of};
pub use lines::refuse;
pub use program::{outcome, run};
pub use stop::{Access, Form, Stop};
pub use warg_replay::ClientError;
pub use wasm_compose::Why;
pub use wasm_compose::composer::{ComposerError, ConfigError, ConfigRefusal};
