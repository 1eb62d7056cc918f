//! The entry of a key, before its arguments have places.

ghost use Rattle.std.specs.Prelude.{◌≡◌, None};
ghost use Rattle.warg_values.specs.Answers.{Gives};
ghost use Rattle.warg_names.specs.Import.{import_of};
ghost use Rattle.warg_names.specs.View.{import_tree};
ghost use Rattle.compose_config.specs.Arguments.{arguments_view};
ghost use Rattle.compose_config.specs.View.{settings_of};
ghost use Rattle.warg_plan.specs.Keys.{of_package};
ghost use Rattle.warg_plan.specs.Walk as spec;
ghost use Rattle.warg_plan.specs.View.{key_view, facts_view, stop_view};
ghost use Rattle.warg_plan.specs.Steps.{wire_view, wires_view, node_view, wire_at, package_at, node_from};

use crate::choice::chosen;
use crate::facts::{Content, Facts};
use crate::key::PlanKey;
use crate::stop::Stop;
use compose_config::{Config, InstantiationArg, argument_for, stray_argument};
use indexmap::IndexMap;
use semver::Version;
use std::alloc::Global;
use warg_hash::{AnyHash, NameError, PackageName};
use warg_names::{DependencyImportParser, Import, ImportKind, ImportNameError};
use warg_values::{Memory, Text};

/// What an import is wired to.
#[derive(Debug, Drop)]
pub enum Wire {
    /// Nothing: it is left open.
    Open,
    /// The entry of a key.
    To(PlanKey),
}

/// An entry, before its arguments have places.
#[derive(Debug, Drop)]
pub struct Node<'a> {
    /// The package.
    pub package: PackageName,
    /// The version of its release.
    pub version: &'a Version,
    /// The digest of the release's content.
    pub digest: AnyHash,
    /// The bytes of the content.
    pub content: &'a [u8],
    /// For each import of the content, in order, its name and what it is wired to.
    pub wires: Vec<(&'a Text, Wire)>,
}

/// What a walk is asked, and what is known.
#[derive(Clone, Copy)]
pub struct Question<'a> {
    /// The text.
    pub config: &'a Config,
    /// What is known.
    pub facts: &'a Facts,
}

/// The arguments that the text gives to a key.
fn given<'a>(config: &'a Config, key: &PlanKey) -> Option<&'a IndexMap<Text, InstantiationArg>>
    ensures { arguments_view result ≡ spec.given (settings_of config.now) (key_view key.now) }
{
    match key {
        PlanKey::Named(name) => config.arguments_of(name),
        PlanKey::Parsed(_) => None,
    }
}

/// What the name of an import asks for.
fn read_name(alloc: Global, name: &Text) -> Result<Import, Stop>
    ensures { Gives stop_view import_tree result (spec.or_stop (spec.BadImportName name.now) (import_of name.now)) }
{
    let mut parser = DependencyImportParser {
        next: name.as_str(),
        offset: 0,
    };
    match parser.parse(alloc) {
        Ok(import) => Ok(import),
        Err(ImportNameError::Memory) => Err(Stop::Memory),
        Err(_) => Err(Stop::BadImportName(name.try_clone(alloc)?)),
    }
}

/// What an import is wired to that the text gives no argument.
fn wire_of_import(import: Import) -> Wire
    ensures { wire_view result ≡ spec.wire_by (import_tree import) None }
{
    let is_interface = matches!(import.kind, ImportKind::Interface(_));
    if is_interface {
        Wire::Open
    } else {
        Wire::To(PlanKey::Parsed(import))
    }
}

/// What an import is wired to.
fn wire_of(
    alloc: Global,
    arguments: Option<&IndexMap<Text, InstantiationArg>>,
    name: &Text,
) -> Result<Wire, Stop>
    ensures { Gives stop_view wire_view result (wire_at (arguments_view arguments.entry) name.now) }
{
    let import = read_name(alloc, name)?;
    match argument_for(arguments, name) {
        Some(argument) => Ok(Wire::To(PlanKey::Named(argument.instance.try_clone(alloc)?))),
        None => Ok(wire_of_import(import)),
    }
}

/// What imports are wired to, in order.
#[tactic(auto, unfolding(crate::specs::Walk::wires_of))]
fn wires_of<'a>(
    alloc: Global,
    arguments: Option<&IndexMap<Text, InstantiationArg>>,
    imports: &'a [Text],
) -> Result<Vec<(&'a Text, Wire)>, Stop>
    ensures { Gives stop_view (λ wires. wires_view wires.items) result
        (spec.wires_of (arguments_view arguments.entry) imports.now) }
{
    let mut wires = Vec::new(alloc);
    for name in imports {
        match wire_of(alloc, arguments, name) {
            Ok(wire) => wires.push((name, wire))?,
            Err(stop) => return Err(stop),
        }
    }
    Ok(wires)
}

/// The package that an import asks for, as the import of a key.
fn package_of(alloc: Global, key: &PlanKey, import: &Import) -> Result<PackageName, Stop>
    ensures { Gives stop_view (λ name. name) result
        (package_at (key_view key.now) (import_tree import.now)) }
{
    match PackageName::new(alloc, import.name.as_str()) {
        Ok(package) => Ok(package),
        Err(NameError::Form) => Err(Stop::NoPackage(key.try_clone(alloc)?)),
        Err(NameError::Memory) => Err(Stop::Memory),
    }
}

/// What the imports of a key's content are wired to, where each argument in the text names one of them.
#[tactic(auto, unfolding(crate::specs::Walk::wires_at))]
fn wires_at<'a>(
    alloc: Global,
    config: &Config,
    key: &PlanKey,
    imports: &'a [Text],
) -> Result<Vec<(&'a Text, Wire)>, Stop>
    ensures { Gives stop_view (λ wires. wires_view wires.items) result
        (spec.wires_at (settings_of config.now) (key_view key.now) imports.now) }
{
    let arguments = given(config, key);
    let wires = wires_of(alloc, arguments, imports)?;
    match stray_argument(alloc, arguments, imports)? {
        Some(name) => Err(Stop::NoSuchImport(key.try_clone(alloc)?, name.try_clone(alloc)?)),
        None => Ok(wires),
    }
}

/// The entry of a key that asks for what an import asks for.
fn node_by<'a>(
    alloc: Global,
    question: &Question<'a>,
    key: &PlanKey,
    import: &Import,
) -> Result<Node<'a>, Stop>
    ensures { Gives stop_view node_view result (node_from (settings_of question.now.config.now)
        (facts_view question.now.facts.now) (key_view key.now) (of_package (import_tree import.now))) }
{
    let package = package_of(alloc, key, import)?;
    let Some(releases) = question.facts.log(&package) else {
        return Err(Stop::NeedsLog(package));
    };
    let Some((version, digest)) = chosen(alloc, import, releases) else {
        return Err(Stop::NoRelease(package));
    };
    let Some(content) = question.facts.content(&digest) else {
        return Err(Stop::NeedsContent(package, digest));
    };
    let wires = wires_at(alloc, question.config, key, &content.imports)?;
    Ok(Node {
        package,
        version,
        digest,
        content: &content.bytes,
        wires,
    })
}

/// The entry of a key.
#[tactic(auto, unfolding(crate::specs::Walk::node_of, crate::specs::Keys::asked))]
pub fn node_of<'a>(alloc: Global, question: &Question<'a>, key: &PlanKey) -> Result<Node<'a>, Stop>
    ensures { Gives stop_view node_view result (spec.node_of (settings_of question.now.config.now)
        (facts_view question.now.facts.now) (key_view key.now)) }
{
    let name = match key {
        PlanKey::Named(name) => name,
        PlanKey::Parsed(import) => return node_by(alloc, question, key, import),
    };
    match Import::from_dependency(alloc, question.config.dependency_of(name).as_str()) {
        Ok(import) => node_by(alloc, question, key, &import),
        Err(ImportNameError::Memory) => Err(Stop::Memory),
        Err(_) => Err(Stop::NoPackage(key.try_clone(alloc)?)),
    }
}
