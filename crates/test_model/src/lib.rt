//! Tests of `warg_model`: a registry of two packages, with three releases and a yank.
#![tactic(auto)]

#[cfg(test)]
mod model;
