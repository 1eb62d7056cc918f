//! That the names of a shape have a meaning, as far as types go.
//!
//! The crate joins what `comp_coherence` knows of shapes to what `compose_meaning` asks of what is written. It has
//! definitions (`specs`) and laws, and reads and writes no bytes.
#![tactic(auto)]

pub mod laws;
