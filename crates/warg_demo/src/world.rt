//! The demo world.

ghost use Rattle.std.specs.Prelude.{◌≡◌, ℕ, None, IfOk, OnOk};
ghost use Rattle.warg_vectors.specs.State.{IsSound, world};
ghost use Rattle.warg_vectors.specs.World.{published, yanked};
ghost use Rattle.warg_demo.specs.Content.{content_of, package_name, version_text};
ghost use Rattle.warg_demo.specs.World.{demo_registries, demo_text, packages_drawn, version, with_drawn, with_package, with_releases};
ghost use Rattle.warg_demo.specs.Needs.{needs_of};

use crate::content::{content_of, package_name, version_text};
use crate::draws::Draws;
use crate::needs::{draw_needs, needs_of};
use crate::releases::{Releases, draw_releases};
use semver::Version;
use std::alloc::Global;
use warg_hash::PackageName;
use warg_values::{Memory, Text};
use warg_vectors::ModelRegistry;

/// The text of the plan that is made over the demo world.
const TEXT: &str = "instantiations:\n  root:\n    dependency: demo:p0\n";

/// A registry of packages that need each other, and the text of a plan of all of them.
#[derive(Debug, Drop)]
pub struct DemoWorld {
    /// The registry, which has grown once.
    pub registry: ModelRegistry,
    /// The text of the plan, whose root is the first package.
    pub text: Text,
}

/// The name of the package with this number.
fn name_of(alloc: Global, number: u64) -> Result<PackageName, Memory>
    ensures { IfOk result (λ name. name ≡ package_name number) }
{
    let text = package_name(alloc, number)?;
    match PackageName::new(alloc, &text) {
        Ok(name) => Ok(name),
        // The text is a name, so only memory can be wanting.
        Err(_) => Err(Memory),
    }
}

/// Publishes the release of a package that so many others precede, whose content needs these others.
fn publish_release(
    alloc: Global,
    registry: &mut ModelRegistry,
    name: &PackageName,
    needs: &[u64],
    minor: u64,
) -> Result<(), Memory>
    ensures published { OnOk result (world registry.new ≡ published (world registry.old) None name.now (version minor)
        (content_of needs.now (version_text minor))) }
    ensures sound { IsSound registry.old → IsSound registry.new }
{
    let text = version_text(alloc, minor)?;
    let Ok(content) = content_of(alloc, needs, &text) else {
        // The numbers of a content are small, so only memory can be wanting.
        return Err(Memory);
    };
    match registry.publish_contents(alloc, None, name, &Version::new(1, minor, 0), &content) {
        Ok(()) => Ok(()),
        // Each version is new to its package, so only memory can be wanting.
        Err(_) => Err(Memory),
    }
}

/// Publishes so many releases of the package of a number.
fn publish_releases(
    alloc: Global,
    registry: &mut ModelRegistry,
    number: u64,
    needs: &[u64],
    count: u64,
) -> Result<(), Memory>
    ensures published { OnOk result (world registry.new ≡ with_releases number needs.now count (world registry.old)) }
    ensures sound { IsSound registry.old → IsSound registry.new }
{
    let name = name_of(alloc, number)?;
    for minor in 0..count {
        publish_release(alloc, registry, &name, needs, minor)?;
    }
    Ok(())
}

/// Yanks the release of the package of a number that so many others precede.
fn yank_release(
    alloc: Global,
    registry: &mut ModelRegistry,
    number: u64,
    minor: u64,
) -> Result<(), Memory>
    ensures yanked { OnOk result (world registry.new ≡ yanked (world registry.old) None (package_name number)
        (version minor)) }
    ensures sound { IsSound registry.old → IsSound registry.new }
{
    let name = name_of(alloc, number)?;
    match registry.yank(alloc, None, &name, &Version::new(1, minor, 0)) {
        Ok(()) => Ok(()),
        // The version is there, so only memory can be wanting.
        Err(_) => Err(Memory),
    }
}

/// Adds a package with its releases.
fn add_package(
    alloc: Global,
    registry: &mut ModelRegistry,
    number: u64,
    needs: &[u64],
    releases: Releases,
) -> Result<(), Memory>
    ensures added { OnOk result ((state : ℕ) → world registry.new ≡ with_package number needs.now
        (record { state = state; count = releases.count; yanks_last = releases.yanks_last }) (world registry.old)) }
    ensures sound { IsSound registry.old → IsSound registry.new }
{
    publish_releases(alloc, registry, number, needs, releases.count)?;
    if releases.yanks_last {
        yank_release(alloc, registry, number, releases.count.saturating_sub(1))?;
    }
    Ok(())
}

/// Adds the next package, whose releases are drawn, and which needs others by these pairs.
fn add_drawn(
    alloc: Global,
    draws: &mut Draws,
    registry: &mut ModelRegistry,
    number: u64,
    pairs: &[(u64, u64)],
) -> Result<(), Memory>
    ensures added { OnOk result ((record { state = draws.new.state; world = world registry.new })
        ≡ with_drawn number (needs_of number pairs.now)
        (record { state = draws.old.state; world = world registry.old })) }
    ensures sound { IsSound registry.old → IsSound registry.new }
{
    let needs = needs_of(alloc, number, pairs)?;
    let releases = draw_releases(draws);
    add_package(alloc, registry, number, &needs, releases)?;
    Ok(())
}

/// A registry of so many packages, which need each other by these pairs. It has not grown yet.
fn publish_packages(
    alloc: Global,
    draws: &mut Draws,
    pairs: &[(u64, u64)],
    count: u32,
) -> Result<ModelRegistry, Memory>
    ensures drawn { IfOk result (λ registry. (record { state = draws.new.state; world = world registry })
        ≡ packages_drawn pairs.now draws.old.state count) }
    ensures sound { IfOk result IsSound }
{
    let mut registry = ModelRegistry::new(alloc);
    for number in 0..count {
        add_drawn(alloc, draws, &mut registry, number as u64, pairs)?;
    }
    Ok(registry)
}

/// The demo world of so many packages, drawn from a seed.
///
/// Each package but the first is needed by an earlier one, so the plan of the first has them all. The same seed and count
/// make the same world.
pub fn demo_world(alloc: Global, seed: u64, count: u32) -> Result<DemoWorld, Memory>
    ensures registry { IfOk result (λ made. world made.registry ≡ demo_registries seed count) }
    ensures sound { IfOk result (λ made. IsSound made.registry) }
    ensures text { IfOk result (λ made. made.text ≡ demo_text) }
{
    let mut draws = Draws { state: seed };
    let pairs = draw_needs(alloc, &mut draws, count)?;
    let mut registry = publish_packages(alloc, &mut draws, &pairs, count)?;
    if registry.grow(alloc).is_err() {
        return Err(Memory);
    }
    Ok(DemoWorld {
        registry,
        text: Text::copy_of(alloc, TEXT)?,
    })
}
