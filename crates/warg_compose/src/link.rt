//! The component that a plan makes.

ghost use Rattle.std.specs.Prelude.{◌≡◌, All, Bool, false, IfErr, IfOk, OnOk, map};
ghost use Rattle.comp_format.specs.Fits.{IsComponent};
ghost use Rattle.compose_bundle.specs.Bundled.{AreComponents, IsBundled, content_in};
ghost use Rattle.compose_check.specs.Composition.{component_tree, composition_tree};
ghost use Rattle.compose_encode.specs.Whole.{IsWhole};
ghost use Rattle.warg_plan.specs.View.{entry_view, plan_view};
ghost use Rattle.warg_compose.specs.Composed.{AreComponentsOf, release_place, releases, root_of};
ghost use Rattle.warg_compose.specs.Held.{held_component};
ghost use Rattle.warg_compose.specs.Linked.{IsComposeFault, IsLock, IsLockFault, IsOfPlan, IsPlanLinked, IsPlanLocked, IsUnbundled, IsUnlocked};
ghost use Rattle.warg_compose.specs.Open.{IsAllowed};
ghost use Rattle.warg_compose.specs.Wired.{AreWired};

use crate::error::ComposeError;
use crate::lock::{Lock, left_names};
use crate::open::first_open;
use crate::releases::{Releases, releases_of};
use crate::wires::wires_of;
use comp_format::laws::each_component_is_read;
use comp_shape::laws::one_shape;
use compose_bundle::BundleError;
use compose_bundle::laws::bundles_are_whole;
use compose_check::{CheckError, Composition};
use compose_component::Component;
use compose_encode::laws::components_apart_have_own_names;
use compose_encode::{CompositionError, encode_composition};
use compose_image::laws::what_is_written_imports_these;
use indexmap::IndexMap;
use std::alloc::Global;
use warg_plan::{Plan, PlanEntry};
use warg_values::{Memory, Text};

/// A plan, linked.
#[derive(Debug, Drop)]
pub struct Linked {
    /// Its lock.
    pub lock: Lock,
    /// The component that the plan makes.
    pub bytes: Vec<u8>,
}

/// Components, lent.
fn lent<'a>(
    alloc: Global,
    components: &'a [Component<'a>],
) -> Result<Vec<&'a Component<'a>>, Memory>
    ensures { IfOk result (λ list. map component_tree list.items ≡ map held_component components.now) }
{
    let mut list = Vec::with_capacity(alloc, components.len())?;
    for component in components {
        list.push(component)?;
    }
    Ok(list)
}

/// The place of the root, which is the last entry.
fn root_of(entries: &[PlanEntry]) -> Option<usize>
    ensures { result ≡ root_of (map entry_view entries.now) }
{
    match entries.len() {
        0 => None,
        count => Some(count - 1),
    }
}

/// Refuses a plan that leaves an import open, where imports are disallowed.
fn check_open(
    alloc: Global,
    entries: &[PlanEntry],
    disallow_imports: bool,
) -> Result<(), ComposeError>
    ensures allowed { OnOk result (IsAllowed disallow_imports (map entry_view entries.now)) }
    ensures fault { IfErr result (λ e. IsLockFault disallow_imports e (map entry_view entries.now)) }
{
    if !disallow_imports {
        return Ok(());
    }
    match first_open(entries) {
        None => Ok(()),
        Some(name) => Err(ComposeError::ImportsDisallowed(name.try_clone(alloc)?)),
    }
}

/// The bytes of the lock of a plan, by its composition.
fn lock_bytes(
    alloc: Global,
    composition: &Composition<'_>,
    root: Option<usize>,
) -> Result<Vec<u8>, ComposeError>
    requires { IsOfPlan (composition_tree composition.now) root }
    ensures locked { IfOk result (λ lock. IsWhole (composition_tree composition.now) false root lock.items) }
    ensures fault { IfErr result (IsUnlocked (composition_tree composition.now) root) }
{
    one_shape();
    components_apart_have_own_names();
    match encode_composition(alloc, composition, false, root) {
        Ok(lock) => Ok(lock),
        Err(CompositionError::Refused(CheckError::Incompatible(why))) => {
            Err(ComposeError::Incompatible(why))
        }
        Err(CompositionError::TooLarge(number)) => Err(ComposeError::TooLarge(number)),
        Err(CompositionError::Memory) => Err(ComposeError::Memory),
        // Instances are given those before them, what is left open has the name of an interface, and want of memory is
        // told in one way.
        Err(CompositionError::Refused(CheckError::Cycle(..))) => unreachable!(),
        Err(CompositionError::Refused(CheckError::Memory)) => unreachable!(),
        Err(CompositionError::ImportNameClash(_)) => unreachable!(),
    }
}

/// The lock of a plan, by its composition.
fn lock(
    alloc: Global,
    composition: &Composition<'_>,
    root: Option<usize>,
) -> Result<Lock, ComposeError>
    requires { IsOfPlan (composition_tree composition.now) root }
    ensures locked { IfOk result (λ lock. IsLock (composition_tree composition.now) root lock) }
    ensures fault { IfErr result (IsUnlocked (composition_tree composition.now) root) }
{
    one_shape();
    what_is_written_imports_these();
    let bytes = lock_bytes(alloc, composition, root)?;
    let left = left_names(alloc, &bytes)?;
    Ok(Lock { bytes, left })
}

/// The lock of entries, by the components of their releases, and for each entry the number of its release.
fn lock_of(
    alloc: Global,
    entries: &[PlanEntry],
    components: &[Component<'_>],
    instances: Vec<usize>,
) -> Result<Lock, ComposeError>
    requires wired { AreWired (map entry_view entries.now) }
    requires components { AreComponentsOf (releases (map entry_view entries.now)) (map held_component components.now) }
    requires instances { instances.items
        ≡ map (release_place (map entry_view entries.now)) (map entry_view entries.now) }
    ensures locked { IfOk result (λ lock. IsPlanLocked (map entry_view entries.now) lock.left.items lock.bytes.items) }
    ensures fault { (disallow : Bool) → IsAllowed disallow (map entry_view entries.now)
        → IfErr result (λ e. IsLockFault disallow e (map entry_view entries.now)) }
{
    let composition = Composition {
        components: lent(alloc, components)?,
        instances,
        wires: wires_of(alloc, entries)?,
    };
    lock(alloc, &composition, root_of(entries))
}

/// The component that a plan makes: its lock, with the contents of the releases in the places of their imports.
fn bundle(
    alloc: Global,
    lock: &[u8],
    contents: &IndexMap<Text, &[u8]>,
) -> Result<Vec<u8>, ComposeError>
    requires contents { AreComponents (content_in contents.now) }
    requires lock { IsComponent lock.now }
    ensures bundled { IfOk result (λ bytes. IsBundled (content_in contents.now) lock.now bytes.items) }
    ensures fault { IfErr result (IsUnbundled (content_in contents.now) lock.now) }
{
    each_component_is_read();
    match compose_bundle::bundle(alloc, lock, contents) {
        Ok(bytes) => Ok(bytes),
        Err(BundleError::TooLarge(number)) => Err(ComposeError::TooLarge(number)),
        Err(BundleError::Memory) => Err(ComposeError::Memory),
        // The lock is a component.
        Err(BundleError::BadComponent(_)) => unreachable!(),
    }
}

/// The lock of a plan: it imports the content of each release, makes an instance of each entry, gives it what it is
/// wired to, imports what the entries leave open, and exports what the root exports.
///
/// The first that holds is answered: `ImportsDisallowed` with the first import that is left open, where none may be;
/// `Incompatible` where wires do not fit, or what is left open does not agree, or the lock would mention what can't be
/// had; `TooLarge` with a number that can't be written.
pub fn lock_plan(alloc: Global, plan: &Plan, disallow_imports: bool) -> Result<Lock, ComposeError>
    requires { AreWired (plan_view plan.now) }
    ensures locked { IfOk result (λ lock. IsPlanLocked (plan_view plan.now) lock.left.items lock.bytes.items) }
    ensures allowed { OnOk result (IsAllowed disallow_imports (plan_view plan.now)) }
    ensures fault { IfErr result (λ e. IsLockFault disallow_imports e (plan_view plan.now)) }
{
    check_open(alloc, &plan.entries, disallow_imports)?;
    let Releases {
        contents: _,
        components,
        instances,
    } = releases_of(alloc, &plan.entries)?;
    lock_of(alloc, &plan.entries, &components, instances)
}

/// The component that a plan makes, and its lock. It nests the content of each release, makes an instance of each entry,
/// gives it what it is wired to, imports what the entries leave open, and exports what the root exports.
///
/// The first that holds is answered: `ImportsDisallowed` with the first import that is left open, where none may be;
/// `Incompatible` where wires do not fit, or what is left open does not agree, or the lock would mention what can't be had;
/// `TooLarge` with a number that can't be written, of the lock and then of the component.
pub fn compose_plan(
    alloc: Global,
    plan: &Plan,
    disallow_imports: bool,
) -> Result<Linked, ComposeError>
    requires { AreWired (plan_view plan.now) }
    ensures linked { IfOk result (λ linked.
        IsPlanLinked (plan_view plan.now) linked.lock.left.items linked.lock.bytes.items linked.bytes.items) }
    ensures allowed { OnOk result (IsAllowed disallow_imports (plan_view plan.now)) }
    ensures fault { IfErr result (λ e. IsComposeFault disallow_imports e (plan_view plan.now)) }
{
    one_shape();
    bundles_are_whole();
    what_is_written_imports_these();
    check_open(alloc, &plan.entries, disallow_imports)?;
    let Releases {
        contents,
        components,
        instances,
    } = releases_of(alloc, &plan.entries)?;
    let lock = lock_of(alloc, &plan.entries, &components, instances)?;
    let bytes = bundle(alloc, &lock.bytes, &contents)?;
    Ok(Linked { lock, bytes })
}
