//! Plans of compositions: which releases of which packages a composition takes, and how these are wired.
//!
//! The walk over what is known finds the plan, or says which log or which content it needs next, or refuses. It is a
//! definition, in `specs/Walk`, with its laws, and a call.
#![tactic(auto)]

mod choice;
mod facts;
mod key;
pub mod laws;
mod node;
mod plan;
mod stop;
mod text;
mod walk;

pub use choice::chosen;
pub use facts::{Content, Facts};
pub use key::PlanKey;
pub use node::{Node, Question, Wire, node_of};
pub use plan::{Plan, PlanArg, PlanEntry};
pub use stop::Stop;
pub use text::{TextError, check_text};
pub use walk::Walk;
