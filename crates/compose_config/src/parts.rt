//! Dependencies, instantiations and their arguments.

ghost use Rattle.std.specs.Prelude.{◌≡◌, ℕ, List, Option, Some, IfOk};
ghost use Rattle.yaml_read.specs.Answers.{source_of, ReadGives, ReadTakes};
ghost use Rattle.yaml_read.specs.Collections as collections;
ghost use Rattle.yaml_read.specs.Scalar as scalar;
ghost use Rattle.compose_config.specs.Plan as plan;
ghost use Rattle.compose_config.specs.View.{path_of, argument_of, instance_of};
ghost use Rattle.compose_config.specs.PlanLaws as laws;

use crate::copy::{Copied, copied_map, copied_name};
use crate::index::{FromText, index_map};
use indexmap::IndexMap;
use std::alloc::Global;
use warg_values::{Memory, Text};
use yaml_read::{DeError, MapFill, ReadYaml, YamlDeserializer};

/// A component that a composition depends on.
#[derive(Debug, Drop)]
pub struct Dependency {
    /// The path of the component's file.
    pub path: Text,
}

/// An argument of an instantiation.
#[derive(Debug, Drop)]
pub struct InstantiationArg {
    /// The name of the instance that is passed.
    pub instance: Text,
    /// The name of the instance's export that is passed in its place.
    pub export: Option<Text>,
}

/// An instantiation of a dependency.
#[derive(Debug, Drop)]
pub struct Instantiation {
    /// The name of the dependency; where it is missing, that of the instantiation.
    pub dependency: Option<Text>,
    /// The arguments that are passed, by name.
    pub arguments: IndexMap<Text, InstantiationArg>,
}

impl Dependency {
    /// The dependency whose file has this path.
    pub fn new(path: Text) -> Self
        ensures { path_of result ≡ path }
    {
        Dependency { path }
    }

    /// A dependency of the same path.
    pub fn try_clone(&self, alloc: Global) -> Result<Self, Memory>
        ensures { IfOk result (λ copy. path_of copy ≡ path_of self.now) }
    {
        Ok(Dependency {
            path: Text::copy_of(alloc, self.path.as_str())?,
        })
    }
}

impl Copied for Dependency {
    ghost Seen = { List ℕ };

    ghost seen = { path_of };

    fn copied(&self, alloc: Global) -> Result<Self, Memory> {
        self.try_clone(alloc)
    }
}

impl InstantiationArg {
    /// The argument that passes an instance, or an export of it.
    pub fn new(instance: Text, export: Option<Text>) -> Self
        ensures { argument_of result ≡ record { instance = instance; export = export } }
    {
        InstantiationArg { instance, export }
    }

    /// An argument that passes the same.
    pub fn try_clone(&self, alloc: Global) -> Result<Self, Memory>
        ensures { IfOk result (λ copy. argument_of copy ≡ argument_of self.now) }
    {
        Ok(InstantiationArg {
            instance: Text::copy_of(alloc, self.instance.as_str())?,
            export: copied_name(alloc, &self.export)?,
        })
    }
}

impl Copied for InstantiationArg {
    ghost use Rattle.compose_config.specs.Plan.{Argument};

    ghost Seen = { Argument };

    ghost seen = { argument_of };

    fn copied(&self, alloc: Global) -> Result<Self, Memory> {
        self.try_clone(alloc)
    }
}

impl Instantiation {
    /// An instantiation of the dependency of its own name, without arguments.
    pub fn new(alloc: Global) -> Self
        ensures { instance_of result ≡ plan.no_instance }
    {
        Instantiation {
            dependency: None,
            arguments: IndexMap::new(alloc),
        }
    }

    /// An instantiation of the same dependency with the same arguments.
    pub fn try_clone(&self, alloc: Global) -> Result<Self, Memory>
        ensures { IfOk result (λ copy. instance_of copy ≡ instance_of self.now) }
    {
        Ok(Instantiation {
            dependency: copied_name(alloc, &self.dependency)?,
            arguments: copied_map(alloc, &self.arguments)?,
        })
    }
}

impl Copied for Instantiation {
    ghost use Rattle.compose_config.specs.Plan.{Instance};

    ghost Seen = { Instance };

    ghost seen = { instance_of };

    fn copied(&self, alloc: Global) -> Result<Self, Memory> {
        self.try_clone(alloc)
    }
}

/// The fields of a dependency so far.
#[derive(Drop)]
struct PathFill {
    path: Option<Text>,
}

impl MapFill for PathFill {
    ghost Seen = { Option (List ℕ) };

    ghost seen = { λ fill. fill.path };

    ghost takes = { plan.path_takes };

    ghost fills = { plan.path_fills };

    fn entry(
        &mut self,
        alloc: Global,
        key: Text,
        de: &mut YamlDeserializer<'_>,
    ) -> Result<(), DeError> {
        if key.as_str() == "path" {
            self.path = Some(de.read_text(alloc)?);
            Ok(())
        } else {
            Err(DeError::UnknownField(key))
        }
    }

    ghost reads = { laws.path_reads };
}

/// The field that a map has to have.
fn required(alloc: Global, name: &str, field: Option<Text>) -> Result<Text, DeError>
    ensures { ReadGives (λ found. found) result (plan.required name.now field) }
{
    match field {
        Some(found) => Ok(found),
        None => Err(DeError::MissingField(Text::copy_of(alloc, name)?)),
    }
}

impl ReadYaml for Dependency {
    ghost Seen = { List ℕ };

    ghost seen = { λ d. d.path };

    ghost of_node = { plan.dependency_node };

    ghost read_at = { plan.dependency_at };

    fn read_yaml(alloc: Global, de: &mut YamlDeserializer<'_>) -> Result<Self, DeError> {
        let mut fill = PathFill { path: None };
        de.read_map(alloc, &mut fill)?;
        let PathFill { path } = fill;
        let path = required(alloc, "path", path)?;
        Ok(Dependency { path })
    }

    ghost reads = { laws.dependency_reads };
}

/// A text is short for a dependency's path.
impl FromText for Dependency {
    ghost node = { plan.short_dependency };

    fn from_text(alloc: Global, text: &str) -> Result<Self, Memory> {
        let path = Text::copy_of(alloc, text)?;
        Ok(Dependency { path })
    }
}

/// The fields of an argument so far.
#[derive(Drop)]
struct ArgumentFill {
    instance: Option<Text>,
    export: Option<Text>,
}

impl MapFill for ArgumentFill {
    ghost use Rattle.compose_config.specs.Plan.{Parts};

    ghost Seen = { Parts };

    ghost seen = { λ fill. record { instance = fill.instance; export = fill.export } };

    ghost takes = { plan.part_takes };

    ghost fills = { plan.part_fills };

    fn entry(
        &mut self,
        alloc: Global,
        key: Text,
        de: &mut YamlDeserializer<'_>,
    ) -> Result<(), DeError> {
        if key.as_str() == "instance" {
            self.instance = Some(de.read_text(alloc)?);
            Ok(())
        } else if key.as_str() == "export" {
            self.export = read_name(alloc, de)?;
            Ok(())
        } else {
            Err(DeError::UnknownField(key))
        }
    }

    ghost reads = { laws.part_reads };
}

/// A name that may be missing.
#[tactic(auto, using(crate::proofs::Same::option_same))]
pub fn read_name(alloc: Global, de: &mut YamlDeserializer<'_>) -> Result<Option<Text>, DeError>
    ensures { ReadTakes (λ read. (read, source_of de.new)) (source_of de.new) result
        (collections.option_at scalar.any_at (source_of de.old)) }
{
    de.read_option::<Text>(alloc)
}

impl ReadYaml for InstantiationArg {
    ghost use Rattle.compose_config.specs.Plan.{Argument};

    ghost Seen = { Argument };

    ghost seen = { λ a. record { instance = a.instance; export = a.export } };

    ghost of_node = { plan.argument_node };

    ghost read_at = { plan.argument_at };

    fn read_yaml(alloc: Global, de: &mut YamlDeserializer<'_>) -> Result<Self, DeError> {
        let mut fill = ArgumentFill {
            instance: None,
            export: None,
        };
        de.read_map(alloc, &mut fill)?;
        let ArgumentFill { instance, export } = fill;
        let instance = required(alloc, "instance", instance)?;
        Ok(InstantiationArg { instance, export })
    }

    ghost reads = { laws.argument_reads };
}

/// A text is short for an argument's instance, without an export.
impl FromText for InstantiationArg {
    ghost node = { plan.short_argument };

    fn from_text(alloc: Global, text: &str) -> Result<Self, Memory> {
        let instance = Text::copy_of(alloc, text)?;
        Ok(InstantiationArg {
            instance,
            export: None,
        })
    }
}

impl ReadYaml for Instantiation {
    ghost use Rattle.compose_config.specs.Plan.{Instance};

    ghost Seen = { Instance };

    ghost seen = { instance_of };

    ghost of_node = { plan.instance_node };

    ghost read_at = { plan.instance_at };

    fn read_yaml(alloc: Global, de: &mut YamlDeserializer<'_>) -> Result<Self, DeError> {
        let mut fill = InstanceFill {
            instance: Instantiation {
                dependency: None,
                arguments: IndexMap::new(alloc),
            },
        };
        match de.read_map(alloc, &mut fill) {
            Ok(()) => {
                let InstanceFill { instance } = fill;
                Ok(instance)
            }
            Err(error) => Err(error),
        }
    }

    ghost reads = { laws.instance_reads };
}

/// The fields of an instantiation so far.
#[derive(Drop)]
struct InstanceFill {
    instance: Instantiation,
}

impl MapFill for InstanceFill {
    ghost use Rattle.compose_config.specs.Plan.{Instance};

    ghost Seen = { Instance };

    ghost seen = { λ fill. instance_of fill.instance };

    ghost takes = { plan.instance_takes };

    ghost fills = { plan.instance_fills };

    fn entry(
        &mut self,
        alloc: Global,
        key: Text,
        de: &mut YamlDeserializer<'_>,
    ) -> Result<(), DeError> {
        if key.as_str() == "dependency" {
            self.instance.dependency = read_name(alloc, de)?;
            Ok(())
        } else if key.as_str() == "arguments" {
            self.instance.arguments = index_map(alloc, de)?;
            Ok(())
        } else {
            Err(DeError::UnknownField(key))
        }
    }

    ghost reads = { laws.instance_entry };
}
