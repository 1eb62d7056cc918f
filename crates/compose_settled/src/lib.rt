//! What left imports mean as they are written, each named type by one number.
//!
//! The crate joins what `compose_origins` knows of the numbers of origins to what `compose_image` writes. It has
//! definitions (`specs`) and laws, and reads and writes no bytes.
#![tactic(auto)]

pub mod laws;
