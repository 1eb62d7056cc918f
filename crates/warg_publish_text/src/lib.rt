//! What is to be published as a text that is kept: JSON that is read and written.
#![tactic(auto)]

mod reading;
mod stored;
mod values;
mod writing;

pub use reading::read_publish;
pub use writing::write_publish;
