//! A caller of `yaml_causes`.

ghost use Rattle.std.specs.Prelude.{◌≡◌, ℕ, List, Option, Err};
ghost use Rattle.yaml_small.specs.Trees.{Tree};
ghost use Rattle.yaml_small.specs.Grammar.{Carried};
ghost use Rattle.yaml_read.specs.Source.{UnknownField};
ghost use Rattle.yaml_causes.specs.PlanCauses.{RefusesSettings};

use compose_config::Config;
use std::alloc::Global;
use yaml_causes::laws::a_refused_configuration_says_why;
use yaml_read::DeError;

/// The configuration of a text. A field that the error calls unknown stands in the document, in a map that has no such
/// field.
#[tactic(auto, using(crate::proofs::Unknown::unknown))]
pub fn settings_of_text(alloc: Global, text: &str) -> Result<Config, DeError>
    ensures { (node : Option Tree) (name : List ℕ) → Carried text.now node
        → result ≡ Err (DeError.UnknownField name)
        → RefusesSettings node (UnknownField name) }
{
    a_refused_configuration_says_why();
    Config::from_text(alloc, text)
}
