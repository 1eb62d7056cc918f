//! Whether a composition of components can be written: whether its wires have no circle and fit, and whether what its
//! instances leave open agrees.

#![tactic(auto)]

mod agreed;
mod checking;
mod circles;
mod composition;
mod error;
mod exports;
mod fit;
mod instances;
pub mod laws;
mod open;

pub use agreed::Agreed;
pub use checking::check;
pub use composition::Composition;
pub use error::{CheckError, Why};
pub use exports::hidden_export;
