//! Tests of the crates of components, a module for each crate. Expected values come from outside the program.
#![tactic(auto)]

#[cfg(test)]
mod compose;
#[cfg(test)]
mod encoder;
#[cfg(test)]
mod reader;
#[cfg(test)]
mod shape;
