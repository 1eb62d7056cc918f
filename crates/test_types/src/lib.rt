//! Tests of `compose_types`.
#![tactic(auto)]

#[cfg(test)]
mod calls;
#[cfg(test)]
mod form;
#[cfg(test)]
mod imports;
#[cfg(test)]
mod write;
