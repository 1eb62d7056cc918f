//! Tests of the crates by which registries are called: what other programs read of the same input, and each error once.
#![tactic(auto)]

#[cfg(test)]
mod exchange;
#[cfg(test)]
mod json;
#[cfg(test)]
mod registry_url;
