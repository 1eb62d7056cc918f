//! Tests of what is read into the scopes of components. Expected values come from outside the program.
#![tactic(auto)]

#[cfg(test)]
mod closing;
#[cfg(test)]
mod reading;
#[cfg(test)]
mod types;
