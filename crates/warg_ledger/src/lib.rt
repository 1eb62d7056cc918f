//! An honest registry as one growing list of records, what its pages bring, and the laws that these are taken and
//! prove its logs.
#![tactic(auto)]

pub mod laws;
