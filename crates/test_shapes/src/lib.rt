//! Tests of the shapes of components. Expected values come from outside the program.
#![tactic(auto)]

#[cfg(test)]
mod entity;
#[cfg(test)]
mod table;
