//! Tests of the crates of the registry: what other programs computed of the same input, and each error once.
#![tactic(auto)]

#[cfg(test)]
mod hash;
#[cfg(test)]
mod log;
#[cfg(test)]
mod names;
#[cfg(test)]
mod publish;
#[cfg(test)]
mod record;
#[cfg(test)]
mod values;
