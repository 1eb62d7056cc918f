//! That no proper front of a written JSON object is one: a law, by which a file whose writing was cut is told from a
//! whole one.
#![tactic(auto)]

pub mod laws;
