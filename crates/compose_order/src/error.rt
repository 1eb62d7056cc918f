//! Why left imports have no order.

use thiserror::Error;
use warg_values::{Memory, Text};

/// Why left imports have no order.
#[derive(Debug, Drop, Error)]
pub enum OrderError {
    /// Two names differ in the case of letters alone: the one that is needed first, and the other.
    #[error("`{0}` and `{1}` differ in the case of letters alone: connect one of them, or give it another name")]
    CaseClash(Text, Text),
    /// An import mentions a type that it can't have there: it brings the type only later, no import that is left open
    /// has it, or a component within the import hides it.
    #[error("the import `{0}` mentions a type that it can't have there: connect it, or take another release of it")]
    NeedsUnbrought(Text),
    /// An import has no place in an order, since what it needs, or what that needs in turn, comes in a circle or is not
    /// there. This is the first such import.
    #[error("the import `{0}` has no place, since imports need types of each other in a circle: connect one of them")]
    Circle(Text),
    /// No memory was left.
    #[error("out of memory: free some, or give the program more, and try again")]
    Memory,
}

impl From<Memory> for OrderError {
    ghost use Rattle.std.specs.Prelude.{◌≡◌};
    ghost use Rattle.compose_order.specs.declared.error.OrderError.TheVariants.{Memory};

    ghost from_gives = { λ _ e. e ≡ Memory };

    fn from(_error: Memory) -> OrderError {
        OrderError::Memory
    }
}
