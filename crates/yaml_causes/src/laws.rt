//! The law of refused configurations. It is a function that does nothing, and is proved of all texts.

ghost use Rattle.std.specs.Prelude.{◌≡◌, ℕ, List, Option, Err};
ghost use Rattle.yaml_small.specs.Trees.{Tree};
ghost use Rattle.yaml_small.specs.Grammar.{Carried};
ghost use Rattle.yaml_read.specs.Source.{Refusal};
ghost use Rattle.yaml_read.specs.Whole.{whole_at};
ghost use Rattle.compose_config.specs.Plan.{settings_at};
ghost use Rattle.yaml_causes.specs.Causes.{OrUncounted};
ghost use Rattle.yaml_causes.specs.PlanCauses.{RefusesSettings};

use yaml_small::laws::carried_is_emitted;

/// A carried document that is refused as a configuration has a node that is none, for the cause that is told: a field
/// that there is not, a field that is missing, a scalar that is not taken, or a node of another kind; what stands in
/// front of it is read.
pub fn a_refused_configuration_says_why()
    ensures { (text : List ℕ) (node : Option Tree) (refusal : Refusal) → Carried text node
        → whole_at settings_at text ≡ Err refusal
        → OrUncounted (RefusesSettings node) refusal }
{
    carried_is_emitted();
}
