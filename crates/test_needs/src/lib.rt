//! Tests of `compose_needs` and `compose_order`.
#![tactic(auto)]

#[cfg(test)]
mod entities;
#[cfg(test)]
mod exports;
#[cfg(test)]
mod graph;
#[cfg(test)]
mod imports;
#[cfg(test)]
mod order;
