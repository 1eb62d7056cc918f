//! Core instances that a component makes.

ghost use Rattle.std.specs.Prelude.{◌≡◌, ℕ, suc, IfOk, List, OnErr, OnOk};
ghost use Rattle.warg_values.specs.Answers.{Gives};
ghost use Rattle.comp_format.specs.declared.types.CoreInstance.TheVariants as CoreInstance;
ghost use Rattle.comp_scope.specs.Instances.{all_below, core_member, core_members, with_core_instance, with_one_core_instance};
ghost use Rattle.comp_scope.specs.Spaces.{Spaces, if_below};
ghost use Rattle.comp_space.specs.Faults.{Finds, fault_of};
ghost use Rattle.comp_space.specs.SpaceViews.{ShowsSpaces};
ghost use Rattle.comp_table.specs.Trees.{PlainTree};

use comp_format::{CoreInstance, CoreSort};
use comp_space::{ScopeError, Space};
use warg_values::{Memory, Text};

/// Refuses an index that nothing has, where there are so many items.
pub fn check_below(count: usize, index: u32) -> Result<(), ScopeError>
    ensures { Gives fault_of (λ u. u) result (if_below count index tt) }
{
    if (index as usize) < count {
        Ok(())
    } else {
        Err(ScopeError::Index)
    }
}

/// Refuses arguments of which one has an index that nothing has, where there are so many core instances.
fn check_all_below(count: usize, args: &[(Text, u32)]) -> Result<(), ScopeError>
    ensures { (s : Spaces) → Gives fault_of (λ u. s) result (all_below count args.now s) }
{
    for (_, index) in args {
        check_below(count, *index)?;
    }
    Ok(())
}

/// How many core items of a sort there are.
fn core_count(space: &Space, sort: CoreSort) -> usize
    ensures { (table : List PlainTree) (s : Spaces) → ShowsSpaces table space.now s
        → (index : ℕ) → core_member s sort index ≡ if_below result index s }
{
    match sort {
        CoreSort::Func => space.core.funcs,
        CoreSort::Table => space.core.tables,
        CoreSort::Memory => space.core.memories,
        CoreSort::Global => space.core.globals,
        CoreSort::Ty => space.core_types.len(),
        CoreSort::Module => space.modules.len(),
        CoreSort::Instance => space.core.instances,
    }
}

/// Refuses core items of which one has an index that nothing of its sort has.
fn check_core_items(space: &Space, items: &[(Text, CoreSort, u32)]) -> Result<(), ScopeError>
    ensures { (table : List PlainTree) (s : Spaces) → ShowsSpaces table space.now s
        → Gives fault_of (λ u. s) result (core_members s items.now) }
{
    for (_, sort, index) in items {
        check_below(core_count(space, *sort), *index)?;
    }
    Ok(())
}

/// One more than a count. `Memory` where no number holds it.
pub fn one_more(count: usize) -> Result<usize, Memory>
    ensures { IfOk result (λ n. n ≡ suc count) }
{
    match count.checked_add(1) {
        Some(sum) => Ok(sum),
        None => Err(Memory),
    }
}

/// Counts one core instance more. A refusal changes nothing.
fn count_core_instance(space: &mut Space) -> Result<(), Memory>
    ensures counted { (table : List PlainTree) (s : Spaces) → ShowsSpaces table space.old s
        → OnOk result (ShowsSpaces table space.new (with_one_core_instance s)) }
    ensures unchanged { (table : List PlainTree) (s : Spaces) → ShowsSpaces table space.old s
        → OnErr result (ShowsSpaces table space.new s) }
{
    space.core.instances = one_more(space.core.instances)?;
    Ok(())
}

/// Refuses a core instance of which an index stands for nothing of its sort.
fn check_core_instance(space: &Space, item: &CoreInstance) -> Result<(), ScopeError>
    ensures { (table : List PlainTree) (s : Spaces) → ShowsSpaces table space.now s
        → Gives fault_of (λ u. with_one_core_instance s) result (with_core_instance s item.now) }
{
    match item {
        CoreInstance::Instantiate { module: of, args } => {
            check_below(space.modules.len(), *of)?;
            check_all_below(space.core.instances, args.as_slice())
        }
        CoreInstance::Exports(items) => check_core_items(space, items.as_slice()),
    }
}

/// Adds a core instance (`Explainer.md`, "Instance Definitions"), of which nothing is known but that its indices are
/// there. A refusal changes nothing.
pub fn add_core_instance(space: &mut Space, item: &CoreInstance) -> Result<(), ScopeError>
    ensures found { (table : List PlainTree) (s : Spaces) → ShowsSpaces table space.old s
        → Finds (λ u. ShowsSpaces table space.new) result (with_core_instance s item.now) }
    ensures unchanged { (table : List PlainTree) (s : Spaces) → ShowsSpaces table space.old s
        → OnErr result (ShowsSpaces table space.new s) }
{
    check_core_instance(&*space, item)?;
    count_core_instance(space)?;
    Ok(())
}
