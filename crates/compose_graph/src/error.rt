//! Why a call of a graph is refused.

use thiserror::Error;
use warg_base::{Memory, Text};

/// Why a call of a graph is refused.
#[derive(Debug, Drop, Error)]
pub enum GraphError {
    /// Another component has this name.
    #[error("a component named `{0}` is there already: give this one another name, or remove that one")]
    NameExists(Text),
    /// All numbers were given.
    #[error("no number is left for it: begin a new graph")]
    IdLimit,
    /// The component is not there.
    #[error("there is no such component: add it first")]
    NoComponent,
    /// The instance would be given to itself.
    #[error("an instance can't be connected to itself: make another one, and connect that")]
    SelfConnection,
    /// The instance that is given is not there.
    #[error("there is no such instance to be given: make it first")]
    NoSource,
    /// The instance whose import it is is not there.
    #[error("there is no such instance to be given to: make it first")]
    NoTarget,
    /// The target's component has no import of this place.
    #[error("the component has no such import: look it up by its name")]
    BadImportIndex,
    /// Something is given to the import already.
    #[error("the import is connected already: disconnect it first")]
    AlreadyConnected,
    /// The source's component has no export of this place.
    #[error("the component has no such export: look it up by its name")]
    BadExportIndex,
    /// What is given does not fit what the import asks for.
    #[error("what is given does not fit the import: give something else, or take releases that fit")]
    NotCompatible,
    /// No memory was left.
    #[error("out of memory: free some, or give the program more, and try again")]
    Memory,
}

impl From<Memory> for GraphError {
    ghost use Rattle.std.specs.Prelude.{◌≡◌};
    ghost use Rattle.compose_graph.specs.declared.error.GraphError.TheVariants.{Memory};

    ghost from_gives = { λ _ e. e ≡ Memory };

    fn from(_error: Memory) -> GraphError {
        GraphError::Memory
    }
}
