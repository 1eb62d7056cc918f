//! Along the wires of a composition one number of an origin stands for one type.
//!
//! The crate joins what `comp_coherence` knows of each shape to the origins of `compose_left`. It has definitions
//! (`specs`) and laws, and reads and writes no bytes.
#![tactic(auto)]

pub mod laws;
