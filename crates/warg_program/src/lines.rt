//! What the program prints.

ghost use Rattle.std.specs.Prelude.{◌≡◌, ◌≤◌, IfOk, map, string_bytes};
ghost use Rattle.std.specs.List.{flat_map};
ghost use Rattle.warg_base.specs.Out.{LeavesPartlyAdded};
ghost use Rattle.warg_names.specs.View.{import_tree};
ghost use Rattle.warg_plan.specs.View.{entry_view, key_view, plan_view};
ghost use Rattle.warg_program.specs.Lines as spec;
ghost use Rattle.warg_program.specs.Stop.{line_of};

use crate::composer_variant::{composer_variant, config_variant};
use crate::stop::Stop;
use crate::variant::variant;
use hex::encode;
use sha2::{Digest, Sha256};
use std::alloc::{AllocError, Global};
use warg_base::Out;
use warg_names::{Import, ImportKind, versioned_package};
use warg_plan::{Plan, PlanEntry, PlanKey};
use warg_replay::Lock;
use warg_values::Text;

/// How many bytes there are, and their SHA-256.
fn digest_of(alloc: Global, bytes: &[u8]) -> Result<String, AllocError>
    ensures { IfOk result (λ text. string_bytes text ≡ spec.digest_of bytes.now) }
{
    let mut text = format!(in alloc; "{} ", bytes.len())?;
    let digest = encode(alloc, Sha256::digest(bytes))?;
    text.push_str(&digest)?;
    text.push_str("\n")?;
    Ok(text)
}

/// The line of bytes that were linked or composed.
pub fn bytes_line(alloc: Global, linked: &[u8]) -> Result<String, AllocError>
    ensures { IfOk result (λ line. string_bytes line ≡ spec.bytes_line linked.now) }
{
    let digest = digest_of(alloc, linked)?;
    format!(in alloc; "bytes {digest}")
}

/// What the name of an import asks for, without a digest.
fn import_text(alloc: Global, import: &Import) -> Result<String, AllocError>
    ensures { IfOk result (λ text. string_bytes text ≡ spec.import_text (import_tree import.now)) }
{
    let name = import.name.as_str();
    match (&import.kind, &import.exact) {
        (ImportKind::Locked(_), Some(version)) => format!(in alloc; "{name}@{version}"),
        (ImportKind::Locked(_), None) => String::from_str(alloc, name),
        _ => match versioned_package(alloc, name, &import.req) {
            Ok(text) => String::from_str(alloc, text.as_str()),
            Err(_) => Err(AllocError),
        },
    }
}

/// The key of an entry: the name that the plan's text gives it, or what the name of an import asks for.
fn key_text(alloc: Global, key: &PlanKey) -> Result<String, AllocError>
    ensures { IfOk result (λ text. string_bytes text ≡ spec.key_text (key_view key.now)) }
{
    match key {
        PlanKey::Named(name) => format!(in alloc; "named {name}"),
        PlanKey::Parsed(import) => {
            let asked = import_text(alloc, import)?;
            format!(in alloc; "parsed {asked}")
        }
    }
}

/// The line of an entry.
fn entry_line(alloc: Global, entry: &PlanEntry) -> Result<String, AllocError>
    ensures { IfOk result (λ line. string_bytes line ≡ spec.entry_line (entry_view entry.now)) }
{
    let key = key_text(alloc, &entry.key)?;
    let mut line = format!(in alloc;
        "entry {} {} {} ",
        entry.package, entry.version, entry.digest
    )?;
    line.push_str(&key)?;
    line.push_str("\n")?;
    Ok(line)
}

/// The lines of entries, one for each.
fn entry_lines(alloc: Global, entries: &[PlanEntry]) -> Result<String, AllocError>
    ensures { IfOk result (λ lines. string_bytes lines ≡ flat_map spec.entry_line (map entry_view entries.now)) }
{
    let mut lines = String::new(alloc);
    for entry in entries {
        let line = entry_line(alloc, entry)?;
        lines.push_str(&line)?;
    }
    Ok(lines)
}

/// The line of an import that is left open.
fn left_line(alloc: Global, name: &Text) -> Result<String, AllocError>
    ensures { IfOk result (λ line. string_bytes line ≡ spec.left_line name.now) }
{
    format!(in alloc; "left {name}\n")
}

/// The lines of what is left open, one for each name.
fn left_lines(alloc: Global, names: &[Text]) -> Result<String, AllocError>
    ensures { IfOk result (λ lines. string_bytes lines ≡ flat_map spec.left_line names.now) }
{
    let mut lines = String::new(alloc);
    for name in names {
        let line = left_line(alloc, name)?;
        lines.push_str(&line)?;
    }
    Ok(lines)
}

/// The lines of a lock and of a component.
fn made_lines(alloc: Global, lock: &[u8], bundle: &[u8]) -> Result<String, AllocError>
    ensures { IfOk result (λ lines. string_bytes lines ≡ spec.made_lines lock.now bundle.now) }
{
    let locked = digest_of(alloc, lock)?;
    let bundled = digest_of(alloc, bundle)?;
    let mut lines = String::from_str(alloc, "lock ")?;
    lines.push_str(&locked)?;
    lines.push_str("bundle ")?;
    lines.push_str(&bundled)?;
    Ok(lines)
}

/// The lines of an assembly: one for each entry of its plan, one for each import that is left open, and those of the lock
/// and of the component.
pub fn assembly_lines(
    alloc: Global,
    plan: &Plan,
    lock: &Lock,
    bundle: &[u8],
) -> Result<String, AllocError>
    ensures { IfOk result (λ lines. string_bytes lines
        ≡ spec.assembly_lines (plan_view plan.now) lock.now.left.items lock.now.bytes.items bundle.now) }
{
    let mut lines = entry_lines(alloc, plan.entries.as_slice())?;
    let left = left_lines(alloc, lock.left.as_slice())?;
    let made = made_lines(alloc, lock.bytes.as_slice(), bundle)?;
    lines.push_str(&left)?;
    lines.push_str(&made)?;
    Ok(lines)
}

/// The lines of the demo world: how many entries its plan has, and how many imports it leaves open; and those of the lock and
/// of the component.
pub fn demo_lines(
    alloc: Global,
    plan: &Plan,
    lock: &Lock,
    bundle: &[u8],
) -> Result<String, AllocError>
    ensures { IfOk result (λ lines. string_bytes lines
        ≡ spec.demo_lines (plan_view plan.now) lock.now.left.items lock.now.bytes.items bundle.now) }
{
    let entries = plan.entries.len();
    let left = lock.left.len();
    let mut lines = format!(in alloc; "entries {entries} left {left}\n")?;
    let made = made_lines(alloc, lock.bytes.as_slice(), bundle)?;
    lines.push_str(&made)?;
    Ok(lines)
}

/// The line of a stop.
fn line_of(alloc: Global, stop: &Stop<'_>) -> Result<String, AllocError>
    ensures { IfOk result (λ line. string_bytes line ≡ line_of stop.now) }
{
    match stop {
        Stop::Usage => String::from_str(alloc, "usage\n"),
        Stop::Missing { path } => format!(in alloc; "missing {path}\n"),
        Stop::Fault(_) => String::from_str(alloc, "fault\n"),
        Stop::Bad { path, .. } => format!(in alloc; "bad {path}\n"),
        Stop::BadComponent { .. } => String::from_str(alloc, "refused BadComponent\n"),
        Stop::Incompatible { .. } => String::from_str(alloc, "refused Incompatible\n"),
        Stop::TooLarge { .. } => String::from_str(alloc, "refused TooLarge\n"),
        Stop::BadConfig { refusal, .. } => {
            let name = config_variant(&refusal.error);
            format!(in alloc; "refused {name}\n")
        }
        Stop::NotComposed(error) => {
            let name = composer_variant(error);
            format!(in alloc; "refused {name}\n")
        }
        Stop::Unread(_) => String::from_str(alloc, "fault\n"),
        Stop::Refused(error) => {
            let name = variant(error);
            format!(in alloc; "refused {name}\n")
        }
        Stop::Memory => String::from_str(alloc, "memory\n"),
    }
}

/// Prints the line of a stop, where the output takes it. A line that it doesn't take changes nothing else.
pub fn refuse<O: Out>(alloc: Global, out: &mut O, stop: &Stop<'_>)
    ensures never_falls { O.faults out.old ≤ O.faults out.new }
    ensures printed { LeavesPartlyAdded (O.told out.old) (O.told out.new) (line_of stop.now) }
{
    if let Ok(line) = line_of(alloc, stop) {
        let _ = out.write_all(alloc, line.as_bytes());
    }
}
