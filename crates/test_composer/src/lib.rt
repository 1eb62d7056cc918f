//! Tests of `compose_files`.
#![tactic(auto)]

#[cfg(test)]
mod compositions;
#[cfg(test)]
mod world;
