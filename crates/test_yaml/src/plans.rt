//! Configurations read from text.

use compose_config::{Config, Dependency, Instantiation, InstantiationArg};
use std::alloc::Global;
use std::test::Fail;
use test_check::{holds, is_row, is_text};
use warg_values::Text;
use yaml_read::DeError;

/// A plan with each form of dependency and argument.
const PLAN: &str = "\
# Nests two components, and passes the second's instance to the first.
search-paths:
- components
dependencies:
  backend: store.wasm
  frontend:
    path: web/front.wasm
instantiations:
  root:
    dependency: frontend
    arguments:
      store: data
      clock: {instance: time, export: monotonic}
  data: {dependency: backend}
";

/// The text of `examples/plan.yaml` at the repository's top.
const EXAMPLE: &str = "\
# Which packages are put together, and what is passed to them.
#
# `root` is the instance whose exports the composed component is to have. An instance is made of the package that its
# `dependency` names; where it names none, its own name is that of the package. `Config::from_text` reads this file;
# no command composes by it yet.
instantiations:
  root:
    dependency: demo:app
    # Each import of demo:app that is given here, and the instance that is to be passed for it.
    arguments:
      demo:log/sink@1.0.0: log
  log:
    dependency: demo:log
";

/// A plan in which an argument stands twice.
const REPEATED: &str = "\
instantiations:
  root:
    arguments:
      a: b
      a: {instance: c}
";

/// The configuration of a text.
fn config_of(alloc: Global, text: &str) -> Result<Config, Fail> {
    Ok(Config::from_text(alloc, text)?)
}

/// A copy of the configuration of a text.
fn copy_of(alloc: Global, text: &str) -> Result<Config, Fail> {
    let config = config_of(alloc, text)?;
    Ok(config.try_clone(alloc)?)
}

/// What is looked for in a configuration.
#[derive(Clone, Copy)]
enum Part {
    /// How many search paths, dependencies and instantiations it has, and whether validation is skipped.
    Counts,
    /// The name of the dependency that an instance is made of.
    DependencyName,
    /// The path of a dependency.
    Path,
    /// An argument of the instance `root`: the instance that is passed, a slash, and the export of it.
    Argument,
}

/// A configuration's counts, as a text.
fn counts(alloc: Global, config: &Config) -> Result<String, Fail> {
    let paths = config.search_paths.len();
    let dependencies = config.dependencies.len();
    let instantiations = config.instantiations.len();
    let skips = config.skip_validation;
    Ok(format!(in alloc; "{paths} {dependencies} {instantiations} {skips}")?)
}

/// The path of a dependency.
fn path(alloc: Global, config: &Config, name: &Text) -> Result<String, Fail> {
    let found = config.dependencies.get(name).ok_or("no dependency")?;
    Ok(String::from_str(alloc, found.path.as_str())?)
}

/// The instance `root`.
fn root(alloc: Global, config: &Config) -> Result<&Instantiation, Fail> {
    let root = Text::copy_of(alloc, "root")?;
    Ok(config.instantiations.get(&root).ok_or("no root")?)
}

/// An argument of the instance `root`.
fn argument(alloc: Global, config: &Config, name: &Text) -> Result<String, Fail> {
    let root = root(alloc, config)?;
    let argument = root.arguments.get(name).ok_or("no argument")?;
    let export = match &argument.export {
        Some(export) => export.as_str(),
        None => "",
    };
    let instance = argument.instance.as_str();
    Ok(format!(in alloc; "{instance}/{export}")?)
}

/// A part of a configuration, as a text.
fn shown(alloc: Global, config: &Config, part: Part, name: &str) -> Result<String, Fail> {
    let key = Text::copy_of(alloc, name)?;
    match part {
        Part::Counts => counts(alloc, config),
        Part::DependencyName => Ok(String::from_str(alloc, config.dependency_name(name))?),
        Part::Path => path(alloc, config, &key),
        Part::Argument => argument(alloc, config, &key),
    }
}

/// Fails at the first part that is something else.
fn has_parts(alloc: Global, config: &Config, table: &[(Part, &str, &str)]) -> Result<(), Fail> {
    for (part, name, want) in table {
        is_row(name, &shown(alloc, config, *part, name)?, want)?;
    }
    Ok(())
}

/// Fails at the first part of a text's configuration that is something else.
fn are_parts(alloc: Global, plan: &str, table: &[(Part, &str, &str)]) -> Result<(), Fail> {
    let config = config_of(alloc, plan)?;
    has_parts(alloc, &config, table)
}

#[test]
fn plans_have_their_parts(rt: HostRuntime) -> Result<(), Fail> {
    are_parts(rt.alloc(), PLAN, PARTS)?;
    are_parts(rt.alloc(), EXAMPLE, EXAMPLE_PARTS)?;
    are_parts(rt.alloc(), REPEATED, REPEATED_PARTS)
}

/// Fails at the first part of a copy of a text's configuration that is something else.
fn are_copied_parts(alloc: Global, plan: &str, table: &[(Part, &str, &str)]) -> Result<(), Fail> {
    let config = copy_of(alloc, plan)?;
    has_parts(alloc, &config, table)
}

#[test]
fn copies_of_plans_have_the_same_parts(rt: HostRuntime) -> Result<(), Fail> {
    are_copied_parts(rt.alloc(), PLAN, PARTS)?;
    are_copied_parts(rt.alloc(), EXAMPLE, EXAMPLE_PARTS)?;
    are_copied_parts(rt.alloc(), REPEATED, REPEATED_PARTS)
}

/// Why a text is refused, as `Debug` prints it.
fn refusal(alloc: Global, answer: &Result<Config, DeError>) -> Result<String, Fail> {
    match answer {
        Ok(_) => Ok(String::from_str(alloc, "read")?),
        Err(error) => Ok(format!(in alloc; "{error:?}")?),
    }
}

/// Why a text is refused, as `Debug` prints it. It holds the answer alone, which is dropped here, since each way out of
/// a function that holds an error is proved for each kind of error.
fn refused(alloc: Global, text: &str) -> Result<String, Fail> {
    refusal(alloc, &Config::from_text(alloc, text))
}

/// Fails at the first text that is refused otherwise.
fn are_refused(alloc: Global, table: &[(&str, &str)]) -> Result<(), Fail> {
    for (text, want) in table {
        is_row(text, &refused(alloc, text)?, want)?;
    }
    Ok(())
}

#[test]
fn what_is_no_plan_is_refused(rt: HostRuntime) -> Result<(), Fail> {
    are_refused(rt.alloc(), REFUSED)
}

/// Fails where a dependency is not made of a path.
fn is_dependency(alloc: Global, path: &str) -> Result<(), Fail> {
    let dependency = Dependency::new(Text::copy_of(alloc, path)?);
    is_text(dependency.path.as_str(), path)
}

/// Fails where an argument is not made of an instance.
fn is_argument(alloc: Global, instance: &str) -> Result<(), Fail> {
    let argument = InstantiationArg::new(Text::copy_of(alloc, instance)?, None);
    is_text(argument.instance.as_str(), instance)
}

/// How many arguments a new instance has.
fn new_arguments(alloc: Global) -> usize {
    Instantiation::new(alloc).arguments.len()
}

#[test]
fn parts_are_made(rt: HostRuntime) -> Result<(), Fail> {
    is_dependency(rt.alloc(), "a.wasm")?;
    is_argument(rt.alloc(), "b")?;
    holds(new_arguments(rt.alloc()) == 0, "there are no arguments")
}

/// The parts of a plan with each form of dependency and argument.
const PARTS: &[(Part, &str, &str)] = &[
    (Part::Counts, "", "1 2 2 false"),
    (Part::DependencyName, "root", "frontend"),
    (Part::DependencyName, "time", "time"),
    (Part::Path, "frontend", "web/front.wasm"),
    (Part::Path, "backend", "store.wasm"),
    (Part::Argument, "clock", "time/monotonic"),
    (Part::Argument, "store", "data/"),
];

/// The parts of the example.
const EXAMPLE_PARTS: &[(Part, &str, &str)] = &[
    (Part::Counts, "", "0 0 2 false"),
    (Part::DependencyName, "root", "demo:app"),
    (Part::DependencyName, "log", "demo:log"),
    (Part::Argument, "demo:log/sink@1.0.0", "log/"),
];

/// The parts of a plan in which an argument stands twice: the last value counts.
const REPEATED_PARTS: &[(Part, &str, &str)] = &[
    (Part::Counts, "", "0 0 1 false"),
    (Part::Argument, "a", "c/"),
];

/// Texts that are no plan, and why.
const REFUSED: &[(&str, &str)] = &[
    (
        "instantiations:\n  root:\n    arguments:\n      a: 12\n",
        "UnexpectedScalar(Text { text: \"a text or a map\" }, Text { text: \"12\" }, \
Marker { line: 4, col: 9, index: 48 })",
    ),
    ("colour: 1\n", "UnknownField(Text { text: \"colour\" })"),
    (
        "instantiations:\n  root:\n    arguments:\n      a: {export: e}\n",
        "MissingField(Text { text: \"instance\" })",
    ),
    (
        "dependencies: {a: {}}",
        "MissingField(Text { text: \"path\" })",
    ),
    (
        "",
        "UnexpectedEvent(Text { text: \"a map\" }, StreamEnd, Marker { line: 1, col: 0, index: 0 })",
    ),
];
