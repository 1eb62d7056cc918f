//! Graphs as components.

ghost use Rattle.std.specs.Prelude.{◌≡◌, ◌<◌, length, option_map, true, IfErr, IfOk, IfSome};
ghost use Rattle.comp_entity.specs.Entity.{ShapeTree};
ghost use Rattle.comp_shape.specs.Refusal.{IsRefused};
ghost use Rattle.comp_shape.specs.Shape.{HasShape};
ghost use Rattle.compose_graph.specs.Encoding.{IsComposeRefusal, IsEncoding, export_place, place_exported};
ghost use Rattle.compose_graph.specs.Listed.{graph_of};

use crate::compose_error::ComposeError;
use crate::graph::CompositionGraph;
use crate::ids::InstanceId;
use crate::options::EncodeOptions;
use crate::places::Places;
use comp_shape::{ShapeError, read_shape};
use compose_check::CheckError;
use compose_encode::laws::components_apart_have_own_names;
use compose_encode::{CompositionError, encode_composition};
use std::alloc::Global;
use warg_values::Memory;

/// Why bytes that were written can't be read again, where they can't.
fn fault_of(alloc: Global, bytes: &[u8]) -> Result<Option<ShapeError>, Memory>
    ensures valid { IfOk result (λ found. found ≡ None → (s : ShapeTree) × HasShape bytes.now s) }
    ensures fault { IfOk result (λ found. IfSome found (λ e. IsRefused e bytes.now)) }
{
    match read_shape(alloc, bytes) {
        Ok(_shape) => Ok(None),
        Err(ShapeError::Memory) => Err(Memory),
        Err(error) => Ok(Some(error)),
    }
}

impl<'a> CompositionGraph<'a> {
    /// The place of an instance.
    fn place_exported(&self, alloc: Global, id: InstanceId) -> Result<usize, Memory>
        ensures { IfOk result (λ place. place ≡ place_exported (graph_of self.now) id) }
    {
        let ids = self.instances.ids(alloc)?;
        let places = Places::of(alloc, &ids)?;
        Ok(places.place(id.0))
    }

    /// The place of the instance that is exported, where there is one.
    fn export_place(
        &self,
        alloc: Global,
        options: EncodeOptions,
    ) -> Result<Option<usize>, ComposeError>
        ensures place { IfOk result (λ place. place ≡ export_place (graph_of self.now) options) }
        ensures there { IfOk result (λ place. IfSome place (λ i. i < length (graph_of self.now).instances)) }
        ensures refused { IfErr result (IsComposeRefusal (graph_of self.now) options) }
    {
        let Some(id) = options.export else {
            return Ok(None);
        };
        if self.instances.component_of(id.0).is_none() {
            return Err(ComposeError::NoExportInstance);
        }
        let place = self.place_exported(alloc, id)?;
        Ok(Some(place))
    }

    /// The bytes of the graph as one component, in which the instance of this place is exported.
    fn encoded(
        &self,
        alloc: Global,
        options: EncodeOptions,
        export: Option<usize>,
    ) -> Result<Vec<u8>, ComposeError>
        requires place { export ≡ export_place (graph_of self.now) options }
        requires there { IfSome export (λ i. i < length (graph_of self.now).instances) }
        ensures encoded { IfOk result (λ bytes. IsEncoding (graph_of self.now) options bytes.items) }
        ensures refused { IfErr result (IsComposeRefusal (graph_of self.now) options) }
    {
        components_apart_have_own_names();
        let ids = self.instances.ids(alloc)?;
        let composition = self.composition(alloc)?;
        match encode_composition(alloc, &composition, options.define_components, export) {
            Ok(bytes) => Ok(bytes),
            Err(CompositionError::Refused(CheckError::Cycle(place, name))) => {
                Err(ComposeError::Check(CheckError::Cycle(ids[place], name)))
            }
            Err(CompositionError::Refused(CheckError::Incompatible(why))) => {
                Err(ComposeError::Check(CheckError::Incompatible(why)))
            }
            Err(CompositionError::Refused(CheckError::Memory)) => Err(ComposeError::Memory),
            Err(CompositionError::ImportNameClash(name)) => Err(ComposeError::ImportNameClash(
                name,
            )),
            Err(CompositionError::TooLarge(number)) => Err(ComposeError::TooLarge(number)),
            Err(CompositionError::Memory) => Err(ComposeError::Memory),
        }
    }

    /// The graph as one component (`Binary.md`, `component`): the components of which instances are made, defined or
    /// imported; the instances; imports of what they leave open; and exports of what the exported one exports.
    ///
    /// Of what refuses it the first is the error: `NoExportInstance` where the instance that is to be exported is not
    /// there; `Check` with what [`CompositionGraph::check`] answers, or with `Incompatible(ExportNeeds)` for the first
    /// export of the exported instance, or else the first import or export of a component that is imported, that
    /// mentions what can't be had outside; `ImportNameClash` for the first component that is imported and has the name
    /// of an import that is left open; `TooLarge` with a number of 2^32 or more that would have to be written; and,
    /// with `validate`, `InvalidOutput` where the output can't be read again.
    pub fn encode(&self, alloc: Global, options: EncodeOptions) -> Result<Vec<u8>, ComposeError>
        ensures encoded { IfOk result (λ bytes. IsEncoding (graph_of self.now) options bytes.items) }
        ensures valid { options.validate ≡ true
            → IfOk result (λ bytes. (s : ShapeTree) × HasShape bytes.items s) }
        ensures refused { IfErr result (IsComposeRefusal (graph_of self.now) options) }
    {
        let export = self.export_place(alloc, options)?;
        let bytes = self.encoded(alloc, options, export)?;
        if !options.validate {
            return Ok(bytes);
        }
        match fault_of(alloc, &bytes)? {
            None => Ok(bytes),
            Some(error) => Err(ComposeError::InvalidOutput(error)),
        }
    }
}
