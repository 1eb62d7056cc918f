//! Values of any kind, as types that are read and written.

ghost use Rattle.std.specs.Cmp.{partial_equiv_from_equiv, on_equiv};
ghost use Rattle.std.specs.Hash.{on_Alike};
ghost use Rattle.yaml_small.specs.Data.{Data};
ghost use Rattle.yaml_small.specs.View.{view};
ghost use Rattle.yaml_read.specs.declared.wrapper.YamlNodeWrapper.{YamlNodeWrapper};
ghost use Rattle.yaml_read.specs.Any as any;
ghost use Rattle.yaml_read.specs.AnyLaws as laws;
ghost use Rattle.yaml_read.specs.Same.{same_data};
ghost use Rattle.yaml_read.specs.SameLaws as same;
ghost use Rattle.yaml_read.specs.Fed.{fed_data};

use crate::deserializer::YamlDeserializer;
use crate::error::DeError;
use crate::read::ReadYaml;
use crate::same::{feed, is_same};
use std::alloc::Global;
use std::hash::{Hash, Hasher};
use yaml_small::Yaml;

/// A value of any kind that YAML has here. Two are equal, and hash alike, where they hold the same value.
#[derive(Debug, Drop)]
pub struct YamlNodeWrapper {
    node: Yaml,
}

impl YamlNodeWrapper {
    ghost use Rattle.std.specs.Prelude.{◌≡◌};
    ghost use Rattle.yaml_read.specs.Wrapped.{wrapped};

    /// The wrapper of a value.
    pub fn new(value: Yaml) -> Self
        ensures { wrapped result ≡ value }
    {
        YamlNodeWrapper { node: value }
    }

    /// The value, which is lent.
    pub fn as_yaml(&self) -> &Yaml
        ensures { result.now ≡ wrapped self.now }
    {
        &self.node
    }

    /// The value.
    pub fn get(self) -> Yaml
        ensures { result ≡ wrapped self }
    {
        let YamlNodeWrapper { node } = self;
        node
    }
}

/// Two are equal where they hold the same value.
impl PartialEq for YamlNodeWrapper {
    ghost eq = { λ a b. same_data (view a.node) (view b.node) };

    ghost laws = { partial_equiv_from_equiv (on_equiv (λ (w : YamlNodeWrapper). view w.node) same.data_equiv) };

    fn eq(&self, other: &YamlNodeWrapper) -> bool {
        is_same(&self.node, &other.node)
    }
}

impl Eq for YamlNodeWrapper {
    ghost laws = { on_equiv (λ (w : YamlNodeWrapper). view w.node) same.data_equiv };
}

/// A hasher is fed the value, so equal ones hash alike.
impl Hash for YamlNodeWrapper {
    ghost hash_input = { λ w. fed_data (view w.node) };

    ghost respects_eq = { (on_Alike (λ (w : YamlNodeWrapper). view w.node) same.fed_alike).fed };

    fn hash<H: Hasher>(&self, state: &mut H) {
        feed(state, &self.node)
    }
}

impl ReadYaml for YamlNodeWrapper {
    ghost Seen = { Data };

    ghost seen = { λ w. view w.node };

    ghost of_node = { any.data_node };

    ghost read_at = { any.data_at 65 };

    fn read_yaml(alloc: Global, de: &mut YamlDeserializer<'_>) -> Result<Self, DeError> {
        let node = de.read_any(alloc)?;
        Ok(YamlNodeWrapper { node })
    }

    ghost reads = { laws.data_reads 65 };
}
