//! Definitions, which are added before all other components but the root.

ghost use Rattle.std.specs.Prelude.{◌≡◌, ◌≤◌, List, ℕ, true, length, IfErr, OnOk, bytes_eq, Some};
ghost use Rattle.std.specs.Map.{lookup};
ghost use Rattle.std.specs.Option.{option_or};
ghost use Rattle.warg_values.specs.Faults.{Rose};
ghost use Rattle.warg_base.specs.Files.{FileMap};
ghost use Rattle.compose_component.specs.Component.{shape_of};
ghost use Rattle.compose_config.specs.View.{settings_of};
ghost use Rattle.compose_files.specs.Built.{AfterSteps, DefinesAt, IsDefined, offer};
ghost use Rattle.compose_files.specs.Refusals.{IsDefinitionRefusal, is_failure};
ghost use Rattle.compose_files.specs.Refused.{StopsAtDefinition};
ghost use Rattle.compose_files.specs.View.{built_of, sources};

use crate::builder::Builder;
use crate::choice::is_instance;
use crate::error::ComposerError;
use crate::find::{add, read_file};
use crate::offer::Offer;
use crate::paths::{joined, stem};
use compose_component::Component;
use compose_config::Config;
use compose_graph::ComponentId;
use indexmap::IndexMap;
use std::alloc::Global;
use warg_base::{Files, Memory, Text};

/// Adds what a definition has for imports of names for which nothing is there.
fn add_offers(
    offers: &mut IndexMap<Text, Offer>,
    alloc: Global,
    id: ComponentId,
    component: &Component<'_>,
) -> Result<(), Memory>
    ensures { OnOk result ((name : List ℕ) → lookup (bytes_eq name) offers.new.entries
        ≡ option_or (lookup (bytes_eq name) offers.old.entries) (offer id.0 (shape_of component.now) name)) }
{
    let exports = &component.types().exports;
    for place in 0..exports.len() {
        let (name, entity) = &exports[place];
        if is_instance(entity) && !offers.contains_key(name) {
            let offer = Offer {
                component: id.0,
                export: place,
            };
            offers.insert(name.try_clone(alloc)?, offer)?;
        }
    }
    Ok(())
}

/// Adds a definition, by its path.
fn define<F: Files>(
    builder: &mut Builder<'_>,
    alloc: Global,
    files: &mut F,
    config: &Config,
    path: &Text,
) -> Result<(), ComposerError>
    ensures never_falls { F.faults files.old ≤ F.faults files.new }
    ensures kept { F.told files.new ≡ F.told files.old }
    ensures defined { OnOk result ((held : FileMap) → F.told files.old ≡ Some held
        → IsDefined (sources config.now held) path.now (built_of builder.old) (built_of builder.new)) }
    ensures named { OnOk result ((built_of builder.new).named ≡ (built_of builder.old).named) }
    ensures refused { IfErr result (λ e. (held : FileMap) → F.told files.old ≡ Some held
        → IsDefinitionRefusal (sources config.now held) path.now (built_of builder.old).graph e) }
    ensures failed { IfErr result
        (λ e. is_failure e ≡ true → Rose (F.faults files.old) (F.faults files.new)) }
{
    let Some(name) = stem(path.as_str()) else {
        return Err(ComposerError::BadDefinitionPath(path.try_clone(alloc)?));
    };
    let file = joined(alloc, config.dir.as_str(), path.as_str())?;
    let component = read_file(alloc, files, name, file.as_str())?;
    let id = add(&mut builder.graph, alloc, component)?;
    let Some(added) = builder.graph.get_component(id) else {
        unreachable!()
    };
    add_offers(&mut builder.offers, alloc, id, added)?;
    Ok(())
}

/// Adds the definitions of a configuration, in their order.
pub fn define_all<F: Files>(
    builder: &mut Builder<'_>,
    alloc: Global,
    files: &mut F,
    config: &Config,
) -> Result<(), ComposerError>
    ensures never_falls { F.faults files.old ≤ F.faults files.new }
    ensures kept { F.told files.new ≡ F.told files.old }
    ensures defined { OnOk result ((held : FileMap) → F.told files.old ≡ Some held
        → AfterSteps (DefinesAt (sources config.now held)) (built_of builder.old)
        (length (settings_of config.now).definitions) (built_of builder.new)) }
    ensures named { OnOk result ((built_of builder.new).named ≡ (built_of builder.old).named) }
    ensures refused { IfErr result (λ e. (held : FileMap) → F.told files.old ≡ Some held
        → StopsAtDefinition (sources config.now held) (built_of builder.old) e) }
    ensures failed { IfErr result
        (λ e. is_failure e ≡ true → Rose (F.faults files.old) (F.faults files.new)) }
{
    for path in &config.definitions {
        define(builder, alloc, files, config, path)?;
    }
    Ok(())
}
