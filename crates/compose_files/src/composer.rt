//! Composing a component of others, which are found among files.

ghost use Rattle.std.specs.Prelude.{◌≡◌, ◌≤◌, [], true, false, is_some, length, IfErr, IfOk, OnOk, Some};
ghost use Rattle.warg_values.specs.Faults.{Rose};
ghost use Rattle.warg_base.specs.Files.{FileMap};
ghost use Rattle.comp_entity.specs.Entity.{ShapeTree};
ghost use Rattle.comp_shape.specs.Shape.{HasShape};
ghost use Rattle.compose_config.specs.View.{settings_of};
ghost use Rattle.compose_graph.specs.Encoding.{IsEncoding};
ghost use Rattle.compose_graph.specs.Graph.{component_of, no_graph};
ghost use Rattle.compose_graph.specs.Listed.{graph_of};
ghost use Rattle.compose_files.specs.Composed.{HasDefined, ImportsSome, IsBuilt, IsStarted, begun, options_of};
ghost use Rattle.compose_files.specs.Refusals.{is_failure};
ghost use Rattle.compose_files.specs.Refused.{IsBuildRefusal, IsEndRefusal, IsImportsRefusal, IsStartRefusal};
ghost use Rattle.compose_files.specs.View.{built_of, sources};

use crate::arguments::check_arguments;
use crate::builder::Builder;
use crate::choice::component_of;
use crate::define::define_all;
use crate::error::ComposerError;
use crate::find::{add, read_file};
use crate::laws::{what_can_be_built_is_refused_in_the_end, what_is_built_is_the_graph};
use crate::serve::{make_named, take_turn};
use compose_complete::laws::graphs_that_can_be_encoded_are_refused_for_their_numbers;
use compose_config::Config;
use compose_graph::{ComponentId, ComposeError, CompositionGraph, EncodeOptions, InstanceId};
use std::alloc::Global;
use warg_base::{Files, Text};

/// The name of the root, and of its instance.
pub const ROOT_COMPONENT_NAME: &str = "root";

/// Composes a component of a root and of the components that it needs, which a configuration names, or which are found
/// among files.
#[derive(Clone, Copy)]
pub struct ComponentComposer<'a> {
    /// The path of the root's file.
    component: &'a str,
    /// How it is composed.
    config: &'a Config,
}

/// Checks that the component of an instance has imports.
fn check_imports(graph: &CompositionGraph<'_>, id: InstanceId) -> Result<(), ComposerError>
    ensures some { OnOk result (ImportsSome (graph_of graph.now) id.0) }
    ensures refused { IfErr result (IsImportsRefusal (graph_of graph.now) id.0) }
{
    let component = component_of(graph, id)?;
    if component.types().imports.is_empty() {
        Err(ComposerError::NoInstanceImports)
    } else {
        Ok(())
    }
}

/// Adds the root, and then the definitions; the number of the root.
fn add_root_and_definitions<F: Files>(
    builder: &mut Builder<'_>,
    alloc: Global,
    files: &mut F,
    config: &Config,
    root: &str,
) -> Result<ComponentId, ComposerError>
    requires { built_of builder.old ≡ begun no_graph }
    ensures id { IfOk result (λ id. id.0 ≡ 0) }
    ensures never_falls { F.faults files.old ≤ F.faults files.new }
    ensures kept { F.told files.new ≡ F.told files.old }
    ensures defined { OnOk result ((held : FileMap) → F.told files.old ≡ Some held
        → HasDefined root.now (sources config.now held) (length (settings_of config.now).definitions)
        (built_of builder.new)) }
    ensures unnamed { OnOk result ((built_of builder.new).named ≡ []) }
    ensures refused { IfErr result (λ e. (held : FileMap) → F.told files.old ≡ Some held
        → IsStartRefusal root.now (sources config.now held) e) }
    ensures failed { IfErr result
        (λ e. is_failure e ≡ true → Rose (F.faults files.old) (F.faults files.new)) }
{
    let component = read_file(alloc, files, ROOT_COMPONENT_NAME, root)?;
    let id = add(&mut builder.graph, alloc, component)?;
    define_all(builder, alloc, files, config)?;
    Ok(id)
}

/// The start of a composition: its root and the definitions are added, and an instance of the root is made.
fn start<F: Files>(
    builder: &mut Builder<'_>,
    alloc: Global,
    files: &mut F,
    config: &Config,
    root: &str,
) -> Result<(), ComposerError>
    requires { built_of builder.old ≡ begun no_graph }
    ensures never_falls { F.faults files.old ≤ F.faults files.new }
    ensures kept { F.told files.new ≡ F.told files.old }
    ensures started { OnOk result ((held : FileMap) → F.told files.old ≡ Some held
        → IsStarted root.now (sources config.now held) (built_of builder.new)) }
    ensures refused { IfErr result (λ e. (held : FileMap) → F.told files.old ≡ Some held
        → IsStartRefusal root.now (sources config.now held) e) }
    ensures failed { IfErr result
        (λ e. is_failure e ≡ true → Rose (F.faults files.old) (F.faults files.new)) }
{
    let id = add_root_and_definitions(builder, alloc, files, config, root)?;
    let instance = make_named(builder, alloc, ROOT_COMPONENT_NAME, id)?;
    let name = Text::copy_of(alloc, ROOT_COMPONENT_NAME)?;
    check_arguments(alloc, &builder.graph, config, &name, instance)?;
    check_imports(&builder.graph, instance)
}

/// What is built in the end: from the start on, each instance that has a name takes its turn.
fn build<F: Files>(
    builder: &mut Builder<'_>,
    alloc: Global,
    files: &mut F,
    config: &Config,
    root: &str,
) -> Result<(), ComposerError>
    requires { built_of builder.old ≡ begun no_graph }
    ensures never_falls { F.faults files.old ≤ F.faults files.new }
    ensures kept { F.told files.new ≡ F.told files.old }
    ensures built { OnOk result ((held : FileMap) → F.told files.old ≡ Some held
        → IsBuilt root.now (sources config.now held) (built_of builder.new)) }
    ensures refused { IfErr result (λ e. (held : FileMap) → F.told files.old ≡ Some held
        → IsBuildRefusal root.now (sources config.now held) e) }
    ensures failed { IfErr result
        (λ e. is_failure e ≡ true → Rose (F.faults files.old) (F.faults files.new)) }
{
    start(builder, alloc, files, config, root)?;
    let mut place = 0;
    while place < builder.named.len() {
        take_turn(builder, alloc, files, config, place)?;
        place += 1;
    }
    Ok(())
}

/// The bytes of a graph as one component, where it has an instance beside the root's.
fn written(
    alloc: Global,
    graph: &CompositionGraph<'_>,
    config: &Config,
) -> Result<Vec<u8>, ComposerError>
    ensures several { OnOk result (is_some (component_of (graph_of graph.now) 1) ≡ true) }
    ensures encoded { IfOk result
        (λ bytes. IsEncoding (graph_of graph.now) (options_of (settings_of config.now)) bytes.items) }
    ensures valid { config.now.skip_validation ≡ false
        → IfOk result (λ bytes. (s : ShapeTree) × HasShape bytes.items s) }
    ensures refused { IfErr result (IsEndRefusal (settings_of config.now) (graph_of graph.now)) }
{
    if graph.get_component_of_instance(InstanceId(1)).is_none() {
        return Err(ComposerError::NoDependencies);
    }
    let options = EncodeOptions {
        define_components: !config.import_components,
        export: Some(InstanceId(0)),
        validate: !config.skip_validation,
    };
    match graph.encode(alloc, options) {
        Ok(bytes) => Ok(bytes),
        Err(error) => match error {
            ComposeError::Memory => Err(ComposerError::Memory),
            error => Err(ComposerError::Encode(error)),
        },
    }
}

impl<'a> ComponentComposer<'a> {
    ghost use Rattle.compose_graph.specs.Graph.{GraphTree};
    ghost use Rattle.compose_files.specs.Composable.{IsComposable, IsShortOfMemory};
    ghost use Rattle.compose_files.specs.Composed.{IsComposed};
    ghost use Rattle.compose_files.specs.Refused.{IsComplete, IsEncodeRefusal, IsRefused};
    ghost use Rattle.compose_files.specs.View.{config_of, root_of};

    /// A composer of the root in the file at a path.
    pub fn new(component: &'a str, config: &'a Config) -> Self
        ensures root { root_of result ≡ component.now }
        ensures config { config_of result ≡ config.now }
    {
        ComponentComposer { component, config }
    }

    /// The bytes of the component that is composed.
    ///
    /// The root's file is added as `root`, and each definition under its file's stem. Then the imports of the root's
    /// instance are served, and those of each instance that is made for an import, in the order made. An import is given
    /// the instance of the first definition that exports an instance of its name. Else it is given the instance that its
    /// argument names, or the one of its own name; the component of which that is made is one that was added, or its file
    /// is named by `dependencies`, or it is the first of `NAME.wasm` in the configuration's folder and in those of
    /// `search-paths`. Where there is none the import is left open.
    ///
    /// The error is the first that comes in this order; each variant says what its cause is. Where an instance beside
    /// the root's is built of the files, and the outside does not fail, it is `Encode` or `Memory`; and `Memory` where what
    /// is built can be encoded and is not read again. Whatever is answered, the files hold what they held.
    pub fn compose<F: Files>(&self, alloc: Global, files: &mut F) -> Result<Vec<u8>, ComposerError>
        ensures never_falls { F.faults files.old ≤ F.faults files.new }
        ensures kept { F.told files.new ≡ F.told files.old }
        ensures composed { IfOk result (λ bytes. (held : FileMap) → F.told files.old ≡ Some held
            → IsComposed (root_of self.now) (sources (config_of self.now) held) bytes.items) }
        ensures valid { (config_of self.now).skip_validation ≡ false
            → IfOk result (λ bytes. (s : ShapeTree) × HasShape bytes.items s) }
        ensures refused { IfErr result (λ e. (held : FileMap) → F.told files.old ≡ Some held
            → IsRefused (root_of self.now) (sources (config_of self.now) held) e) }
        ensures complete { IfErr result (λ e. (held : FileMap) (g : GraphTree) → F.told files.old ≡ Some held
            → IsComplete (root_of self.now) (sources (config_of self.now) held) g
            → (Rose (F.faults files.old) (F.faults files.new) → ⊥)
            → IsEncodeRefusal (settings_of (config_of self.now)) g e) }
        ensures able { IfErr result (λ e. (held : FileMap) → F.told files.old ≡ Some held
            → IsComposable (root_of self.now) (sources (config_of self.now) held)
            → is_failure e ≡ false → IsShortOfMemory e) }
        ensures failed { IfErr result
            (λ e. is_failure e ≡ true → Rose (F.faults files.old) (F.faults files.new)) }
    {
        graphs_that_can_be_encoded_are_refused_for_their_numbers();
        what_can_be_built_is_refused_in_the_end();
        what_is_built_is_the_graph();
        let mut builder = Builder::new(alloc);
        build(&mut builder, alloc, files, self.config, self.component)?;
        written(alloc, &builder.graph, self.config)
    }
}
