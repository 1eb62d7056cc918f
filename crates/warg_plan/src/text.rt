//! Texts of which a plan is made.

ghost use Rattle.std.specs.Prelude.{◌≡◌, ℕ, List, Some, IfErr, OnOk, map, option_map, option_copied};
ghost use Rattle.yaml_read.specs.Entries.{seen_entry};
ghost use Rattle.compose_config.specs.View.{argument_of, instance_of, settings_of};
ghost use Rattle.warg_plan.specs.Form as form;
ghost use Rattle.warg_plan.specs.FormView.{misfit_view};

use compose_config::{Config, Instantiation, InstantiationArg};
use indexmap::IndexMap;
use thiserror::Error;
use warg_values::Text;

/// What a text sets that has no place in a plan.
#[derive(Debug, Drop, Error)]
pub enum TextError<'a> {
    /// Definitions, which are files.
    #[error("`definitions` are files, of which no plan is made: leave them out")]
    Definitions,
    /// Folders of dependencies.
    #[error("`search-paths` are folders, of which no plan is made: leave them out")]
    SearchPaths,
    /// Dependencies, which are files.
    #[error("`dependencies` are files, of which no plan is made: name packages in `instantiations`")]
    Dependencies,
    /// That components are imported.
    #[error("`import-components` has no place in a plan: leave it out")]
    ImportComponents,
    /// An argument of an instance that is an export, by its name.
    #[error("an argument is an `export` of an instance, which is not supported: pass the whole instance")]
    Export {
        /// The instance that is given the argument.
        instance: &'a Text,
        /// The name of the argument.
        argument: &'a Text,
    },
}

/// The first argument that is an export.
fn export_in(arguments: &IndexMap<Text, InstantiationArg>) -> Option<&Text>
    ensures { (instance : List ℕ) → option_map (form.Export instance) (option_copied result)
        ≡ form.export_in instance (map (seen_entry argument_of) arguments.now.entries) }
{
    for index in 0..arguments.len() {
        if let Some((name, argument)) = arguments.get_index(index) {
            if argument.export.is_some() {
                return Some(name);
            }
        }
    }
    None
}

/// The first instance that is given an export, and the argument's name.
fn export_of(instantiations: &IndexMap<Text, Instantiation>) -> Option<(&Text, &Text)>
    ensures { option_map (λ e. form.Export e.0.now e.1.now) result
        ≡ form.export_of (map (seen_entry instance_of) instantiations.now.entries) }
{
    for index in 0..instantiations.len() {
        if let Some((instance, instantiation)) = instantiations.get_index(index) {
            if let Some(argument) = export_in(&instantiation.arguments) {
                return Some((instance, argument));
            }
        }
    }
    None
}

/// The first thing that a text sets and that has no place in a plan.
#[tactic(auto, unfolding(crate::specs::Form::misfit_of))]
fn misfit_of(config: &Config) -> Option<TextError<'_>>
    ensures { option_map misfit_view result ≡ form.misfit_of (settings_of config.now) }
{
    if !config.definitions.is_empty() {
        return Some(TextError::Definitions);
    }
    if !config.search_paths.is_empty() {
        return Some(TextError::SearchPaths);
    }
    if !config.dependencies.is_empty() {
        return Some(TextError::Dependencies);
    }
    if config.import_components {
        return Some(TextError::ImportComponents);
    }
    match export_of(&config.instantiations) {
        Some((instance, argument)) => Some(TextError::Export { instance, argument }),
        None => None,
    }
}

/// Whether a plan is made of a text: it names no files, imports no components, and gives each argument as a whole
/// instance. A refusal says the first of these that it sets. No memory is taken.
pub fn check_text(config: &Config) -> Result<(), TextError<'_>>
    ensures ok { OnOk result (form.IsPlanText (settings_of config.now)) }
    ensures refused { IfErr result (λ e. form.misfit_of (settings_of config.now) ≡ Some (misfit_view e)) }
{
    match misfit_of(config) {
        Some(misfit) => Err(misfit),
        None => Ok(()),
    }
}
