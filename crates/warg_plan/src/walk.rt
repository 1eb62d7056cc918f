//! The walk over what is known: it finds the plan from a key on, or says why it goes no further. Once more is known, it
//! goes on from what it has found.

ghost use Rattle.std.specs.Prelude.{◌≡◌, ◌++◌, ◌∷◌, [], List, None, Ok, false, map, IfErr, IfOk, OnOk};
ghost use Rattle.warg_values.specs.Answers.{Gives};
ghost use Rattle.compose_config.specs.View.{settings_of};
ghost use Rattle.warg_plan.specs.Keys.{Key};
ghost use Rattle.warg_plan.specs.Walk as spec;
ghost use Rattle.warg_plan.specs.Onward.{GoesAlong, GoesOn, IsOnTheWay};
ghost use Rattle.warg_plan.specs.View.{key_view, arg_view, named_view, plan_view, facts_view, stop_view};
ghost use Rattle.warg_plan.specs.Steps.{wire_view, wires_view, node_view};
ghost use Rattle.warg_plan.specs.Found.{OnStop, found_view, found_keys, found_entries, open_keys, opened, nodes};

use crate::key::PlanKey;
use crate::node::{Node, Question, Wire, node_of};
use crate::plan::{Plan, PlanArg, PlanEntry};
use crate::stop::Stop;
use indexmap::{IndexMap, IndexSet};
use semver::Version;
use std::alloc::Global;
use warg_hash::{AnyHash, PackageName};
use warg_values::{Memory, Text};

/// How many keys are open at one place at most: each takes some of the machine's stack.
const MOST_OPEN: u32 = 1_000;

/// An entry that the walk has found.
#[derive(Debug, Drop)]
pub struct Found {
    /// The package.
    pub package: PackageName,
    /// The version of its release.
    pub version: Version,
    /// The digest of the release's content.
    pub digest: AnyHash,
    /// The content, a component.
    pub content: Vec<u8>,
    /// For each import of the content, in order, its name and what it is given.
    pub arguments: Vec<(Text, PlanArg)>,
}

/// How far a walk has come.
///
/// It keeps the entries that it has found where it stops for something that is not known yet, so that once this is known
/// no key is visited again but those that were being visited.
#[derive(Debug, Drop)]
pub struct Walk {
    /// The entries that it has found, by their keys.
    entries: IndexMap<PlanKey, Found>,
    /// The keys that it visits, the outermost first.
    open: IndexSet<PlanKey>,
}

/// The place of a key among those of entries, or how many these are.
fn place_of(entries: &IndexMap<PlanKey, Found>, key: &PlanKey) -> usize
    ensures { result ≡ spec.place_of (found_keys entries.now.entries) (key_view key.now) }
{
    match entries.get_index_of(key) {
        Some(place) => place,
        None => entries.len(),
    }
}

/// What an import is given, by the entries before its own.
fn argument(entries: &IndexMap<PlanKey, Found>, wire: &Wire) -> PlanArg
    ensures { arg_view result ≡ spec.argument (found_keys entries.now.entries) (wire_view wire.now) }
{
    match wire {
        Wire::Open => PlanArg::Left,
        Wire::To(key) => PlanArg::Entry(place_of(entries, key)),
    }
}

/// What imports are given, with their names, by the entries before their own.
fn arguments(
    alloc: Global,
    entries: &IndexMap<PlanKey, Found>,
    wires: &[(&Text, Wire)],
) -> Result<Vec<(Text, PlanArg)>, Memory>
    ensures { IfOk result (λ args. map named_view args.items
        ≡ spec.arguments (found_keys entries.now.entries) (wires_view wires.now)) }
{
    let mut arguments = Vec::with_capacity(alloc, wires.len())?;
    for (name, wire) in wires {
        arguments.push((name.try_clone(alloc)?, argument(entries, wire)))?;
    }
    Ok(arguments)
}

/// The entry of a node, behind others.
fn found_of(
    alloc: Global,
    entries: &IndexMap<PlanKey, Found>,
    node: Node<'_>,
) -> Result<Found, Memory>
    ensures { IfOk result (λ found. (key : PlanKey) → found_view (key, found)
        ≡ spec.entry_of (key_view key) (node_view node.entry) (map found_view entries.now.entries)) }
{
    let arguments = arguments(alloc, entries, node.wires.as_slice())?;
    Ok(Found {
        package: node.package,
        version: node.version.clone()?,
        digest: node.digest,
        content: Vec::from_slice(alloc, node.content)?,
        arguments,
    })
}

/// Whether a key has an entry.
fn is_found(walk: &Walk, key: &PlanKey) -> bool
    ensures { result ≡ spec.has_key (spec.keys (found_entries walk.now)) (key_view key.now) }
{
    walk.entries.contains_key(key)
}

/// Whether a key is being visited.
fn is_open(walk: &Walk, key: &PlanKey) -> bool
    ensures { result ≡ spec.has_key (open_keys walk.now) (key_view key.now) }
{
    walk.open.contains(key)
}

/// Begins the visit of a key that is not being visited.
fn open(alloc: Global, walk: &mut Walk, key: &PlanKey) -> Result<(), Stop>
    ensures memory { IfErr result (λ e. stop_view e ≡ None) }
    ensures open { OnOk result (spec.has_key (open_keys walk.old) (key_view key.now) ≡ false
        → open_keys walk.new ≡ key_view key.now ∷ open_keys walk.old) }
    ensures entries { OnOk result (found_entries walk.new ≡ found_entries walk.old) }
{
    walk.open.insert(key.try_clone(alloc)?)?;
    Ok(())
}

/// Ends the visit of the key that was opened last: its entry stands behind those that its imports are wired to.
fn close(alloc: Global, walk: &mut Walk, node: Node<'_>) -> Result<(), Stop>
    ensures gives { (path : List Key) (key : Key) → open_keys walk.old ≡ key ∷ path
        → spec.has_key (spec.keys (found_entries walk.old)) key ≡ false
        → Gives stop_view (λ _. found_entries walk.new) result
        (Ok (found_entries walk.old ++ spec.entry_of key (node_view node.entry) (found_entries walk.old) ∷ [])) }
    ensures open { OnOk result ((path : List Key) (key : Key) → open_keys walk.old ≡ key ∷ path
        → open_keys walk.new ≡ path) }
    ensures memory { IfErr result (λ e. stop_view e ≡ None) }
{
    let found = found_of(alloc, &walk.entries, node)?;
    let Some(key) = walk.open.pop() else {
        return Ok(());
    };
    walk.entries.insert(key, found)?;
    Ok(())
}

/// Visits a key: it has an entry already, or those that its imports are wired to are visited, and then its entry is
/// appended. What was found where it stops is kept.
#[cycle(walking)]
#[tactic(auto, using(crate::proofs::VisitSteps::visit_goes), unfolding(crate::specs::Walk::visit))]
fn visit(
    alloc: Global,
    question: &Question<'_>,
    left: u32,
    walk: &mut Walk,
    key: &PlanKey,
) -> Result<(), Stop>
    ensures gives { Gives stop_view (λ _. found_entries walk.new) result (spec.visit (nodes question.now) left
        (open_keys walk.old) (found_entries walk.old) (key_view key.now)) }
    ensures goes_on { OnStop result (GoesOn (nodes question.now) left (open_keys walk.old)
        (found_entries walk.old) (found_entries walk.new) (key_view key.now)) }
    ensures open { OnOk result (open_keys walk.new ≡ open_keys walk.old) }
{
    if left == 0 {
        return Err(Stop::TooDeep);
    }
    if is_found(walk, key) {
        return Ok(());
    }
    if is_open(walk, key) {
        return Err(Stop::Cycle(key.try_clone(alloc)?));
    }
    let node = node_of(alloc, question, key)?;
    visit_open(alloc, question, left - 1, walk, key, node)
}

/// Visits those that the imports of a key are wired to, and appends the key's entry.
#[cycle(walking)]
fn visit_open(
    alloc: Global,
    question: &Question<'_>,
    left: u32,
    walk: &mut Walk,
    key: &PlanKey,
    node: Node<'_>,
) -> Result<(), Stop>
    ensures gives { spec.has_key (spec.keys (found_entries walk.old)) (key_view key.now) ≡ false
        → spec.has_key (open_keys walk.old) (key_view key.now) ≡ false
        → Gives stop_view (λ _. found_entries walk.new) result (opened (nodes question.now) left
        (open_keys walk.old) (found_entries walk.old) (key_view key.now) (node_view node.entry)) }
    ensures goes_on { spec.has_key (open_keys walk.old) (key_view key.now) ≡ false
        → OnStop result (GoesAlong (nodes question.now) left (key_view key.now ∷ open_keys walk.old)
        (found_entries walk.old) (found_entries walk.new) (node_view node.entry).wires) }
    ensures open { spec.has_key (open_keys walk.old) (key_view key.now) ≡ false
        → OnOk result (open_keys walk.new ≡ open_keys walk.old) }
{
    open(alloc, walk, key)?;
    visit_each(alloc, question, left, walk, node.wires.as_slice())?;
    close(alloc, walk, node)?;
    Ok(())
}

/// Visits those that imports are wired to, in order.
#[cycle(walking)]
#[tactic(auto, unfolding(crate::specs::Walk::along))]
fn visit_each(
    alloc: Global,
    question: &Question<'_>,
    left: u32,
    walk: &mut Walk,
    wires: &[(&Text, Wire)],
) -> Result<(), Stop>
    ensures gives { Gives stop_view (λ _. found_entries walk.new) result (spec.along
        (spec.visit (nodes question.now) left (open_keys walk.old)) (found_entries walk.old) (wires_view wires.now)) }
    ensures goes_on { OnStop result (GoesAlong (nodes question.now) left (open_keys walk.old)
        (found_entries walk.old) (found_entries walk.new) (wires_view wires.now)) }
    ensures open { OnOk result (open_keys walk.new ≡ open_keys walk.old) }
{
    for (_, wire) in wires {
        if let Wire::To(key) = wire {
            visit(alloc, question, left, walk, key)?;
        }
    }
    Ok(())
}

impl Walk {
    /// A walk that has found nothing.
    pub fn new(alloc: Global) -> Self
        ensures { found_entries result ≡ [] }
    {
        Walk {
            entries: IndexMap::new(alloc),
            open: IndexSet::new(alloc),
        }
    }

    /// Goes on from what was found, until all of the plan from a root on is found, by a text and over what is known; or
    /// says why there is none yet, or none at all.
    ///
    /// What a walk from the same root has found, by the same text and over what was known before, is on its way: it
    /// answers as it would from the beginning. What it has found where it stops is on its way again. At most 1,000 keys
    /// are open at one place, since each takes some of the machine's stack: past them the stop is `TooDeep`.
    pub fn go_on(
        &mut self,
        alloc: Global,
        question: &Question<'_>,
        root: &PlanKey,
    ) -> Result<(), Stop>
        ensures gives { IsOnTheWay (settings_of question.now.config.now) (facts_view question.now.facts.now)
            spec.most_open (key_view root.now) (found_entries self.old)
            → Gives stop_view (λ _. found_entries self.new) result
            (spec.walk (nodes question.now) spec.most_open (key_view root.now)) }
        ensures goes_on { IsOnTheWay (settings_of question.now.config.now)
            (facts_view question.now.facts.now) spec.most_open (key_view root.now) (found_entries self.old)
            → OnStop result (IsOnTheWay (settings_of question.now.config.now)
            (facts_view question.now.facts.now) spec.most_open (key_view root.now) (found_entries self.new)) }
    {
        self.open = IndexSet::new(alloc);
        visit(alloc, question, MOST_OPEN, self, root)
    }

    /// The plan of what was found. No content is copied.
    pub fn into_plan(self, alloc: Global) -> Result<Plan, Memory>
        ensures { IfOk result (λ plan. plan_view plan ≡ found_entries self) }
    {
        let mut entries = Vec::with_capacity(alloc, self.entries.len())?;
        for (key, found) in self.entries {
            entries.push(PlanEntry {
                key,
                package: found.package,
                version: found.version,
                digest: found.digest,
                content: found.content,
                arguments: found.arguments,
            })?;
        }
        Ok(Plan { entries })
    }
}
