//! Tests of `warg_vectors`.
#![tactic(auto)]

#[cfg(test)]
mod asked;
#[cfg(test)]
mod calls;
#[cfg(test)]
mod registries;
#[cfg(test)]
mod world;
