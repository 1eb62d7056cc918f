//! The releases of a plan.

ghost use Rattle.std.specs.Prelude.{◌≡◌, ◌<◌, ◌++◌, ◌∷◌, [], All, List, false, length, IfOk, OnOk, map};
ghost use Rattle.comp_entity.specs.Entity.{ShapeTree};
ghost use Rattle.comp_shape.specs.Shape.{HasShape};
ghost use Rattle.warg_plan.specs.View.{entry_view};
ghost use Rattle.warg_plan.specs.Walk.{Entry};
ghost use Rattle.warg_compose.specs.Composed.{release_name};
ghost use Rattle.warg_compose.specs.Held.{AreReleases, HasComponent, HasRelease, IsHeldOf, IsWithRelease, is_known, number_of};

use comp_shape::laws::shapes_are_read;
use compose_component::{Component, ComponentError};
use indexmap::IndexMap;
use std::alloc::Global;
use warg_log::Release;
use warg_names::locked_package;
use warg_plan::PlanEntry;
use warg_values::{Memory, Text};

/// The releases of some entries, in the order of first use.
#[derive(Drop)]
pub struct Releases<'a> {
    /// Their contents, by their names.
    pub contents: IndexMap<Text, &'a [u8]>,
    /// Their components.
    pub components: Vec<Component<'a>>,
    /// For each entry the number of its release.
    pub instances: Vec<usize>,
}

/// The name of the release of an entry.
fn release_name(alloc: Global, entry: &PlanEntry) -> Result<Text, Memory>
    ensures named { IfOk result (λ name. name ≡ release_name (entry_view entry.now)) }
{
    let release = Release {
        version: entry.version.clone()?,
        content: Some(entry.digest),
    };
    locked_package(alloc, entry.package.as_str(), &release, &entry.digest)
}

/// The component of a content, under a name.
fn component_of<'a>(alloc: Global, name: &str, content: &'a [u8]) -> Result<Component<'a>, Memory>
    requires named { 0 < length name.now }
    requires shape { (tree : ShapeTree) × HasShape content.now tree }
    ensures { IfOk result (λ c. IsHeldOf name.now content.now c) }
{
    shapes_are_read();
    match Component::from_bytes(alloc, name, content) {
        Ok(component) => Ok(component),
        Err(ComponentError::Memory) => Err(Memory),
        // The name is not empty, the content has a shape, and no file is read.
        Err(ComponentError::BadName) => unreachable!(),
        Err(ComponentError::BadComponent(_)) => unreachable!(),
        Err(ComponentError::File(_)) => unreachable!(),
    }
}

/// Adds a release whose name is not there, and gives its number.
fn add_release<'a>(
    alloc: Global,
    releases: &mut Releases<'a>,
    name: Text,
    content: &'a [u8],
) -> Result<usize, Memory>
    requires named { 0 < length name }
    requires shape { (tree : ShapeTree) × HasShape content.now tree }
    requires unknown { is_known releases.old name ≡ false }
    ensures number { IfOk result (λ number. number ≡ number_of releases.old name) }
    ensures added { OnOk result (IsWithRelease name content.now releases.old releases.new) }
{
    let component = component_of(alloc, name.as_str(), content)?;
    releases.components.push(component)?;
    let (number, _) = releases.contents.insert_full(name, content)?;
    Ok(number)
}

/// The number of the release of an entry, which is added where it is not there.
fn number_of<'a>(
    alloc: Global,
    releases: &mut Releases<'a>,
    entry: &'a PlanEntry,
) -> Result<usize, Memory>
    requires { HasComponent entry.now }
    ensures number { IfOk result (λ number. number ≡ number_of releases.old (release_name (entry_view entry.now))) }
    ensures has { OnOk result (HasRelease (entry_view entry.now) releases.old releases.new) }
{
    let name = release_name(alloc, entry)?;
    match releases.contents.get_index_of(&name) {
        Some(number) => Ok(number),
        None => add_release(alloc, releases, name, &entry.content),
    }
}

/// Adds an entry: its release, where that is not there, and the release's number.
fn add_entry<'a>(
    alloc: Global,
    releases: &mut Releases<'a>,
    entry: &'a PlanEntry,
) -> Result<(), Memory>
    requires { HasComponent entry.now }
    ensures { (es : List Entry) → AreReleases releases.old es
        → IfOk result (λ done. AreReleases releases.new (es ++ entry_view entry.now ∷ [])) }
{
    let number = number_of(alloc, releases, entry)?;
    releases.instances.push(number)?;
    Ok(())
}

/// The releases of entries, in the order of first use.
pub fn releases_of<'a>(alloc: Global, entries: &'a [PlanEntry]) -> Result<Releases<'a>, Memory>
    requires { All HasComponent entries.now }
    ensures { IfOk result (λ releases. AreReleases releases (map entry_view entries.now)) }
{
    let mut releases = Releases {
        contents: IndexMap::new(alloc),
        components: Vec::new(alloc),
        instances: Vec::new(alloc),
    };
    for entry in entries {
        add_entry(alloc, &mut releases, entry)?;
    }
    Ok(releases)
}
