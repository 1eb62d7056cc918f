//! The errors of a composer and of a configuration, by the names of their variants.

ghost use Rattle.std.specs.Prelude.{◌≡◌};
ghost use Rattle.warg_program.specs.ComposerVariants as spec;

use wasm_compose::CheckError;
use wasm_compose::composer::{ComposerError, ConfigError};
use wasm_compose::graph::{ComposeError, GraphError};

/// The name of an error of a call of a graph.
fn graph_variant(error: &GraphError) -> &'static str
    ensures { result.now ≡ spec.graph_variant error.now }
{
    match error {
        GraphError::NameExists(_) => "NameExists",
        GraphError::IdLimit => "IdLimit",
        GraphError::NoComponent => "NoComponent",
        GraphError::SelfConnection => "SelfConnection",
        GraphError::NoSource => "NoSource",
        GraphError::NoTarget => "NoTarget",
        GraphError::BadImportIndex => "BadImportIndex",
        GraphError::AlreadyConnected => "AlreadyConnected",
        GraphError::BadExportIndex => "BadExportIndex",
        GraphError::NotCompatible => "NotCompatible",
        GraphError::Memory => "Memory",
    }
}

/// The name of an error of what a graph joins, or leaves open.
fn check_variant(error: &CheckError) -> &'static str
    ensures { result.now ≡ spec.check_variant error.now }
{
    match error {
        CheckError::Cycle(..) => "Cycle",
        CheckError::Incompatible(_) => "Incompatible",
        CheckError::Memory => "Memory",
    }
}

/// The name of an error of a graph that is written.
fn encode_variant(error: &ComposeError) -> &'static str
    ensures { result.now ≡ spec.encode_variant error.now }
{
    match error {
        ComposeError::NoExportInstance => "NoExportInstance",
        ComposeError::Check(error) => check_variant(error),
        ComposeError::ImportNameClash(_) => "ImportNameClash",
        ComposeError::TooLarge(_) => "TooLarge",
        ComposeError::InvalidOutput(_) => "InvalidOutput",
        ComposeError::Memory => "Memory",
    }
}

/// The name of an error of a composer; where it is that of a call of the graph, the name of this one.
pub fn composer_variant(error: &ComposerError) -> &'static str
    ensures { result.now ≡ spec.composer_variant error.now }
{
    match error {
        ComposerError::NotFound(_) => "NotFound",
        ComposerError::NoInstanceImports => "NoInstanceImports",
        ComposerError::NoDependencies => "NoDependencies",
        ComposerError::NoSuchImport(_) => "NoSuchImport",
        ComposerError::NoSuchExport(_) => "NoSuchExport",
        ComposerError::ExportOnImported(_) => "ExportOnImported",
        ComposerError::BadDefinitionPath(_) => "BadDefinitionPath",
        ComposerError::File(..) => "File",
        ComposerError::BadComponent(..) => "BadComponent",
        ComposerError::Graph(error) => graph_variant(error),
        ComposerError::Connect(_, _, error) => graph_variant(error),
        ComposerError::Encode(error) => encode_variant(error),
        ComposerError::Memory => "Memory",
    }
}

/// The name of an error of a configuration's file.
pub fn config_variant(error: &ConfigError) -> &'static str
    ensures { result.now ≡ spec.config_variant error.now }
{
    match error {
        ConfigError::File(_) => "File",
        ConfigError::NotUtf8 => "NotUtf8",
        ConfigError::Yaml(_) => "Yaml",
        ConfigError::Memory => "Memory",
    }
}
