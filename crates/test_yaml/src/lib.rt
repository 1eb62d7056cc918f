//! Tests of the crates of YAML and of the configuration: the standard's examples, doubtful corners, printed texts, places
//! in a text, and each public call once with ample memory.
//!
//! Each case goes through a helper without clauses, which takes a table as a slice, so that a test's check carries no
//! contracts and costs nothing by the row. Values and errors are compared as `Debug` prints them. Expected values come
//! from the standard, from another reader, or were worked out by hand.
#![tactic(auto)]

#[cfg(test)]
mod events;
#[cfg(test)]
mod plans;
#[cfg(test)]
mod printed;
#[cfg(test)]
mod round_trips;
#[cfg(test)]
mod scans;
#[cfg(test)]
mod texts;
#[cfg(test)]
mod typed_reads;
#[cfg(test)]
mod writes;
