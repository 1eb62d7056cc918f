//! Imports that are served.

use crate::error::ComposerError;
use compose_graph::{GraphError, ImportIndex, InstanceId};
use std::alloc::Global;
use warg_base::{Memory, Text};

/// An import of an instance.
#[derive(Clone, Copy)]
pub struct Need<'n> {
    /// The instance's name.
    pub instance: &'n Text,
    /// The instance's number.
    pub target: InstanceId,
    /// The import's place.
    pub place: ImportIndex,
    /// The import's name.
    pub name: &'n Text,
}

impl Need<'_> {
    ghost use Rattle.std.specs.Prelude.{◌≡◌, IfOk};
    ghost use Rattle.compose_files.specs.Needs.{need_of};
    ghost use Rattle.compose_files.specs.Refusals.{IsNeedRefusal};

    /// Why the import is not given what was found for it, by the error of the graph.
    pub fn refused(&self, alloc: Global, error: GraphError) -> ComposerError
        ensures { IsNeedRefusal (need_of self.now) (λ told. told ≡ error) result }
    {
        match error {
            GraphError::Memory => ComposerError::Memory,
            error => match self.connect_error(alloc, error) {
                Ok(refusal) => refusal,
                Err(Memory) => ComposerError::Memory,
            },
        }
    }

    /// The error of a connection that is refused.
    fn connect_error(&self, alloc: Global, error: GraphError) -> Result<ComposerError, Memory>
        ensures { IfOk result
            (λ told. told ≡ ComposerError.Connect self.now.name.now self.now.instance.now error) }
    {
        let import = self.name.try_clone(alloc)?;
        let instance = self.instance.try_clone(alloc)?;
        Ok(ComposerError::Connect(import, instance, error))
    }
}
