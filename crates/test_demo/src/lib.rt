//! Tests of the demo world.
#![tactic(auto)]

#[cfg(test)]
mod lines;
#[cfg(test)]
mod world;
