//! Tests of what components make and export. Expected values come from outside the program.
#![tactic(auto)]

#[cfg(test)]
mod exports;
#[cfg(test)]
mod instances;
#[cfg(test)]
mod scopes;
#[cfg(test)]
mod words;
