//! Values on which nearly every crate stands: want of memory, moments, texts and lists that clauses see as bytes and
//! items, and the count of calls that are to fail. The definitions of reading stand in `specs/Reading`.
#![tactic(auto)]

mod faults;
mod memory;
mod moment;
mod sequence;
mod text;

pub use faults::FaultSchedule;
pub use memory::Memory;
pub use moment::Moment;
pub use sequence::Sequence;
pub use text::Text;
