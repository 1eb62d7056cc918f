//! Tests of `warg_update`, over replies of a small registry.
#![tactic(auto)]

#[cfg(test)]
mod update;
#[cfg(test)]
mod world;
