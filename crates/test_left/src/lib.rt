//! Tests of `compose_left` and `compose_agree`.
#![tactic(auto)]

#[cfg(test)]
mod merge;
#[cfg(test)]
mod order;
#[cfg(test)]
mod origins;
