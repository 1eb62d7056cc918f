//! Tests of proofs over a registry's log and map, judged and made: what other programs computed of the same input, and
//! each error once.
#![tactic(auto)]

#[cfg(test)]
mod proof;
#[cfg(test)]
mod prover;
