//! Components, which are found among files.

ghost use Rattle.std.specs.Prelude.{◌≡◌, ◌≤◌, ◌<◌, true, None, length, Some, IfErr, IsSome, IfOk, OnOk, option_map};
ghost use Rattle.warg_values.specs.Faults.{Rose};
ghost use Rattle.warg_base.specs.Files.{FileMap, file_at};
ghost use Rattle.comp_shape.specs.Shape.{HasShape};
ghost use Rattle.compose_component.specs.Component.{bytes_of, name_of, shape_of};
ghost use Rattle.compose_graph.specs.Graph.{component_at, component_named, with_component};
ghost use Rattle.compose_graph.specs.Listed.{entry_of, graph_of};
ghost use Rattle.compose_graph.specs.Refusal.{IsAddRefusal};
ghost use Rattle.compose_files.specs.Built.{IsComponentFor, file_for, first_file, is_there};
ghost use Rattle.compose_files.specs.Refusals.{IsAskRefusal, IsComponentRefusal, IsGraphRefusal, IsLookRefusal, IsReadRefusal, IsSearchRefusal, is_failure};
ghost use Rattle.compose_files.specs.View.{sources};

use crate::error::ComposerError;
use crate::paths::{joined, wasm_in};
use compose_component::{Component, ComponentError};
use compose_config::Config;
use compose_graph::{ComponentId, CompositionGraph, GraphError};
use std::alloc::Global;
use warg_base::{FileError, Files, Text};

/// The component of the file at a path, under a name that is not empty.
pub fn read_file<'a, F: Files>(
    alloc: Global,
    files: &mut F,
    name: &str,
    path: &str,
) -> Result<Component<'a>, ComposerError>
    requires { 0 < length name.now }
    ensures never_falls { F.faults files.old ≤ F.faults files.new }
    ensures kept { F.told files.new ≡ F.told files.old }
    ensures named { IfOk result (λ c. name_of c ≡ name.now) }
    ensures shaped { IfOk result (λ c. HasShape (bytes_of c) (shape_of c)) }
    ensures found { IfOk result
        (λ c. (held : FileMap) → F.told files.old ≡ Some held → file_at held path.now ≡ Some (bytes_of c)) }
    ensures refused { IfErr result (λ e. (held : FileMap) → F.told files.old ≡ Some held
        → IsReadRefusal held path.now e) }
    ensures failed { IfErr result
        (λ e. is_failure e ≡ true → Rose (F.faults files.old) (F.faults files.new)) }
{
    match Component::from_file(alloc, files, name, path) {
        Ok(component) => Ok(component),
        Err(ComponentError::BadName) => unreachable!(),
        Err(ComponentError::BadComponent(error)) => Err(ComposerError::BadComponent(
            Text::copy_of(alloc, path)?,
            error,
        )),
        Err(ComponentError::File(error)) => Err(ComposerError::File(
            Text::copy_of(alloc, path)?,
            error,
        )),
        Err(ComponentError::Memory) => Err(ComposerError::Memory),
    }
}

/// Adds a component.
pub fn add<'a>(
    graph: &mut CompositionGraph<'a>,
    alloc: Global,
    component: Component<'a>,
) -> Result<ComponentId, ComposerError>
    ensures id { IfOk result (λ id. id.0 ≡ (graph_of graph.old).next_component) }
    ensures added { OnOk result (graph_of graph.new ≡ with_component (graph_of graph.old) (name_of component.entry)
        (bytes_of component.entry) (shape_of component.entry)) }
    ensures free { OnOk result (component_named (graph_of graph.old).components (name_of component.entry) ≡ None) }
    ensures there { IfOk result (λ id. component_at (graph_of graph.new).components id.0
        ≡ Some (entry_of id.0 component.entry)) }
    ensures refused { IfErr result (IsGraphRefusal (IsAddRefusal (graph_of graph.old) (name_of component.entry))) }
{
    match graph.add_component(alloc, component) {
        Ok(id) => Ok(id),
        Err(GraphError::Memory) => Err(ComposerError::Memory),
        Err(error) => Err(ComposerError::Graph(error)),
    }
}

/// Whether a file has this path.
fn is_there<F: Files>(alloc: Global, files: &mut F, path: &Text) -> Result<bool, ComposerError>
    ensures never_falls { F.faults files.old ≤ F.faults files.new }
    ensures kept { F.told files.new ≡ F.told files.old }
    ensures answer { IfOk result (λ there. (held : FileMap) → F.told files.old ≡ Some held
        → there ≡ is_there held path.now) }
    ensures refused { IfErr result (IsAskRefusal path.now) }
    ensures failed { IfErr result
        (λ e. is_failure e ≡ true → Rose (F.faults files.old) (F.faults files.new)) }
{
    match files.is_file(alloc, path.as_str()) {
        Ok(there) => Ok(there),
        Err(FileError::Memory) => Err(ComposerError::Memory),
        Err(error) => Err(ComposerError::File(path.try_clone(alloc)?, error)),
    }
}

/// The first file of a component's name in the folder of the configuration, and in those in which it looks.
fn search<F: Files>(
    alloc: Global,
    files: &mut F,
    config: &Config,
    name: &str,
) -> Result<Option<Text>, ComposerError>
    ensures never_falls { F.faults files.old ≤ F.faults files.new }
    ensures kept { F.told files.new ≡ F.told files.old }
    ensures first { IfOk result (λ path. (held : FileMap) → F.told files.old ≡ Some held
        → path ≡ first_file (sources config.now held) name.now) }
    ensures refused { IfErr result (λ e. (held : FileMap) → F.told files.old ≡ Some held
        → IsLookRefusal (sources config.now held) name.now e) }
    ensures failed { IfErr result
        (λ e. is_failure e ≡ true → Rose (F.faults files.old) (F.faults files.new)) }
{
    let dir = config.dir.as_str();
    let file = wasm_in(alloc, name, dir)?;
    if is_there(alloc, files, &file)? {
        return Ok(Some(file));
    }
    for folder in &config.search_paths {
        let folder = joined(alloc, dir, folder.as_str())?;
        let file = wasm_in(alloc, name, folder.as_str())?;
        if is_there(alloc, files, &file)? {
            return Ok(Some(file));
        }
    }
    Ok(None)
}

/// The file of a component of this name, where there is one.
fn file_for<F: Files>(
    alloc: Global,
    files: &mut F,
    config: &Config,
    name: &Text,
) -> Result<Option<Text>, ComposerError>
    ensures never_falls { F.faults files.old ≤ F.faults files.new }
    ensures kept { F.told files.new ≡ F.told files.old }
    ensures found { IfOk result (λ path. (held : FileMap) → F.told files.old ≡ Some held
        → path ≡ file_for (sources config.now held) name.now) }
    ensures named { IfOk result (λ path. IsSome path → 0 < length name.now) }
    ensures refused { IfErr result (λ e. (held : FileMap) → F.told files.old ≡ Some held
        → IsSearchRefusal (sources config.now held) name.now e) }
    ensures failed { IfErr result
        (λ e. is_failure e ≡ true → Rose (F.faults files.old) (F.faults files.new)) }
{
    if name.as_str().is_empty() {
        return Ok(None);
    }
    match config.dependencies.get(name) {
        Some(dependency) => {
            let path = joined(alloc, config.dir.as_str(), dependency.path.as_str())?;
            Ok(Some(path))
        }
        None => search(alloc, files, config, name.as_str()),
    }
}

/// The component of a name: that of the graph, or else the one of its file, which is added.
pub fn component_for<F: Files>(
    graph: &mut CompositionGraph<'_>,
    alloc: Global,
    files: &mut F,
    config: &Config,
    name: &Text,
) -> Result<Option<ComponentId>, ComposerError>
    ensures never_falls { F.faults files.old ≤ F.faults files.new }
    ensures kept { F.told files.new ≡ F.told files.old }
    ensures found { IfOk result (λ id. (held : FileMap) → F.told files.old ≡ Some held
        → IsComponentFor (sources config.now held) name.now (graph_of graph.old) (option_map (λ c. c.0) id)
        (graph_of graph.new)) }
    ensures refused { IfErr result (λ e. (held : FileMap) → F.told files.old ≡ Some held
        → IsComponentRefusal (sources config.now held) name.now (graph_of graph.old) e) }
    ensures failed { IfErr result
        (λ e. is_failure e ≡ true → Rose (F.faults files.old) (F.faults files.new)) }
{
    if let Some((id, _)) = graph.get_component_by_name(name.as_str()) {
        return Ok(Some(id));
    }
    let Some(path) = file_for(alloc, files, config, name)? else {
        return Ok(None);
    };
    let component = read_file(alloc, files, name.as_str(), path.as_str())?;
    let id = add(graph, alloc, component)?;
    Ok(Some(id))
}
