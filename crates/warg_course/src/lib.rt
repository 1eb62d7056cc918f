//! The course of an update: that exchanges determine what is asked, and that over a link that gives replies which prove
//! logs no reply is refused.
#![tactic(auto)]

pub mod laws;
