//! The search of a plan over a link that gives the replies of a session: it goes the way of the session, and finds its
//! plan.
#![tactic(auto)]

pub mod laws;

pub use warg_error::{ClientError, Other, PlanFault, plan_text};
