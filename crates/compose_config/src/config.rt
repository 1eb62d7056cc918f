//! The configuration of a composition.

ghost use Rattle.std.specs.Prelude.{◌≡◌, [], IfOk, Ok, map, option_map, option_copied};
ghost use Rattle.yaml_read.specs.Answers.{source_of, ReadGives, ReadTakes};
ghost use Rattle.yaml_read.specs.Entries.{seen_entry};
ghost use Rattle.yaml_read.specs.Whole.{Holds, whole_at};
ghost use Rattle.compose_config.specs.Plan as plan;
ghost use Rattle.compose_config.specs.Arguments.{arguments_of, arguments_view};
ghost use Rattle.compose_config.specs.View.{settings_of, instance_of};
ghost use Rattle.compose_config.specs.PlanLaws as laws;

use crate::copy::{copied_map, copied_names};
use crate::index::index_map;
use crate::parts::{Dependency, Instantiation, InstantiationArg};
use indexmap::IndexMap;
use std::alloc::Global;
use warg_values::{Memory, Text};
use yaml_read::{DeError, MapFill, Marker, ReadYaml, YamlDeserializer, from_str};

/// How a component is composed of others.
///
/// In YAML each field has its name with hyphens, as `search-paths`; a field that is missing is empty or false.
#[derive(Debug, Drop)]
pub struct Config {
    /// The folder that paths are relative to. It is not read from the text.
    pub dir: Text,
    /// Paths of components whose exports stand for instances.
    pub definitions: Vec<Text>,
    /// Folders in which dependencies are looked for.
    pub search_paths: Vec<Text>,
    /// Whether the composed component is not validated.
    pub skip_validation: bool,
    /// Whether components are imported and not nested.
    pub import_components: bool,
    /// Whether the composed component may have no imports.
    pub disallow_imports: bool,
    /// Dependencies by name.
    pub dependencies: IndexMap<Text, Dependency>,
    /// Instantiations by the instance's name.
    pub instantiations: IndexMap<Text, Instantiation>,
}

impl Config {
    /// An empty configuration.
    pub fn new(alloc: Global) -> Self
        ensures settings { settings_of result ≡ plan.no_settings }
        ensures dir { result.dir ≡ [] }
    {
        Config {
            dir: Text::new(String::new(alloc)),
            definitions: Vec::new(alloc),
            search_paths: Vec::new(alloc),
            skip_validation: false,
            import_components: false,
            disallow_imports: false,
            dependencies: IndexMap::new(alloc),
            instantiations: IndexMap::new(alloc),
        }
    }

    /// A configuration of the same settings and folder.
    pub fn try_clone(&self, alloc: Global) -> Result<Self, Memory>
        ensures settings { IfOk result (λ copy. settings_of copy ≡ settings_of self.now) }
        ensures dir { IfOk result (λ copy. copy.dir ≡ self.now.dir) }
    {
        Ok(Config {
            dir: Text::copy_of(alloc, self.dir.as_str())?,
            definitions: copied_names(alloc, &self.definitions)?,
            search_paths: copied_names(alloc, &self.search_paths)?,
            skip_validation: self.skip_validation,
            import_components: self.import_components,
            disallow_imports: self.disallow_imports,
            dependencies: copied_map(alloc, &self.dependencies)?,
            instantiations: copied_map(alloc, &self.instantiations)?,
        })
    }

    /// The configuration that a text holds: one YAML document, a map of the fields.
    ///
    /// Another field is `UnknownField`, an argument without `instance` or a dependency without `path`
    /// `MissingField`. Of a repeated key the last value counts, at the key's first place.
    pub fn from_text(alloc: Global, text: &str) -> Result<Self, DeError>
        // What is read stands in a carried document.
        ensures found { IfOk result (λ config. Holds plan.settings_node text.now (settings_of config)) }
        // What stands in a carried document is read, unless memory runs out.
        ensures only { (settings : plan.Settings)
            → Holds plan.settings_node text.now settings
            → ReadGives settings_of result (Ok settings) }
        // Which error it is.
        ensures exact { ReadGives settings_of result (whole_at plan.settings_at text.now) }
        // The folder stays empty, whatever the text holds.
        ensures dir { IfOk result (λ config. config.dir ≡ []) }
    {
        let mut config = from_str::<Config>(alloc, text)?;
        // The clauses of a read say nothing of the folder, since no settings hold it.
        config.dir = Text::new(String::new(alloc));
        Ok(config)
    }

    /// Where in a text reading ends that [`Config::from_text`] refuses: the place of the event that was taken last. For an
    /// `UnknownField` that is the field's name, and for a `MissingField` the end of the map that lacks it.
    ///
    /// It reads the text once more, for the errors that tell no place. `None` where the value is read, and where no
    /// document begins. Where memory runs out the place is that of the last event before.
    pub fn refused_place(alloc: Global, text: &str) -> Option<Marker> {
        let mut de = YamlDeserializer::from_str(alloc, text).ok()?;
        match Config::read_yaml(alloc, &mut de) {
            Ok(_) => None,
            Err(_) => Some(de.place()),
        }
    }

    /// The name of the dependency that an instance is made of: what its instantiation says, or the instance's own
    /// name. It takes no memory.
    pub fn dependency_name<'a>(&'a self, instance: &'a str) -> &'a str
        ensures { result.now ≡ plan.dependency_name (settings_of self.now) instance.now }
    {
        match instance_named(&self.instantiations, instance) {
            Some(instantiation) => match &instantiation.dependency {
                Some(name) => name.as_str(),
                None => instance,
            },
            None => instance,
        }
    }

    /// The instantiation of a name. It takes no memory.
    pub fn instantiation(&self, name: &Text) -> Option<&Instantiation>
        ensures { option_map instance_of (option_copied result)
            ≡ plan.instance_named (settings_of self.now).instantiations name.now }
    {
        self.instantiations.get(name)
    }

    /// The name of the dependency that an instance is made of, as [`Config::dependency_name`] gives it, by one look-up.
    pub fn dependency_of<'a>(&'a self, instance: &'a Text) -> &'a Text
        ensures { result.now ≡ plan.dependency_name (settings_of self.now) instance.now }
    {
        match self.instantiation(instance) {
            Some(instantiation) => match &instantiation.dependency {
                Some(name) => name,
                None => instance,
            },
            None => instance,
        }
    }

    /// The arguments of an instance, where there is an instantiation of its name. It takes no memory.
    pub fn arguments_of(&self, instance: &Text) -> Option<&IndexMap<Text, InstantiationArg>>
        ensures { arguments_view result ≡ arguments_of (settings_of self.now) instance.now }
    {
        Some(&self.instantiation(instance)?.arguments)
    }
}

/// The instantiation of a name.
#[tactic(auto, using(crate::proofs::Named::at_end))]
fn instance_named<'a>(
    all: &'a IndexMap<Text, Instantiation>,
    name: &str,
) -> Option<&'a Instantiation>
    ensures { option_map instance_of (option_copied result) ≡ plan.instance_named
        (map (seen_entry instance_of) all.now.entries) name.now }
{
    for index in 0..all.len() {
        if let Some((key, instantiation)) = all.get_index(index) {
            if key.as_str() == name {
                return Some(instantiation);
            }
        }
    }
    None
}

/// The fields of a configuration so far.
#[derive(Drop)]
struct ConfigFill {
    config: Config,
}

/// A list of names.
#[tactic(auto, using(crate::proofs::Same::list_same))]
fn read_names(alloc: Global, de: &mut YamlDeserializer<'_>) -> Result<Vec<Text>, DeError>
    ensures { ReadTakes (λ read. (read.items, source_of de.new)) (source_of de.new) result
        (plan.names_at (source_of de.old)) }
{
    Vec::<Text>::read_yaml(alloc, de)
}

impl MapFill for ConfigFill {
    ghost use Rattle.compose_config.specs.Plan.{Settings};

    ghost Seen = { Settings };

    ghost seen = { λ fill. settings_of fill.config };

    ghost takes = { plan.setting_takes };

    ghost fills = { plan.setting_fills };

    fn entry(
        &mut self,
        alloc: Global,
        key: Text,
        de: &mut YamlDeserializer<'_>,
    ) -> Result<(), DeError> {
        match key.as_str() {
            "definitions" => {
                self.config.definitions = read_names(alloc, de)?;
                Ok(())
            }
            "search-paths" => {
                self.config.search_paths = read_names(alloc, de)?;
                Ok(())
            }
            "skip-validation" => {
                self.config.skip_validation = de.read_bool(alloc)?;
                Ok(())
            }
            "import-components" => {
                self.config.import_components = de.read_bool(alloc)?;
                Ok(())
            }
            "disallow-imports" => {
                self.config.disallow_imports = de.read_bool(alloc)?;
                Ok(())
            }
            "dependencies" => {
                self.config.dependencies = index_map(alloc, de)?;
                Ok(())
            }
            "instantiations" => {
                self.config.instantiations = IndexMap::read_yaml(alloc, de)?;
                Ok(())
            }
            _ => Err(DeError::UnknownField(key)),
        }
    }

    ghost reads = { laws.setting_reads };
}

impl ReadYaml for Config {
    ghost use Rattle.compose_config.specs.Plan.{Settings};

    ghost Seen = { Settings };

    ghost seen = { settings_of };

    ghost of_node = { plan.settings_node };

    ghost read_at = { plan.settings_at };

    fn read_yaml(alloc: Global, de: &mut YamlDeserializer<'_>) -> Result<Self, DeError> {
        let mut fill = ConfigFill {
            config: Config::new(alloc),
        };
        match de.read_map(alloc, &mut fill) {
            Ok(()) => {
                let ConfigFill { config } = fill;
                Ok(config)
            }
            Err(error) => Err(error),
        }
    }

    ghost reads = { laws.settings_reads };
}
