//! Tests of `compose_bundle`.
#![tactic(auto)]

#[cfg(test)]
mod bundles;
