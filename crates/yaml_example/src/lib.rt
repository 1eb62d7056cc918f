//! Types of a build tool's own that go through YAML and come back the same, by the public traits alone: a struct, an
//! enum with each kind of variant, and maps of these.
#![tactic(auto)]

mod choice;
mod sample;

pub use choice::Choice;
pub use sample::Sample;
