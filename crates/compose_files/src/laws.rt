//! What is known of compositions from files. Each law is the contract of a function that does nothing.

ghost use Rattle.std.specs.Prelude.{◌≡◌, ℕ, List, false};
ghost use Rattle.compose_graph.specs.Graph.{GraphTree};
ghost use Rattle.compose_files.specs.Built.{Built, Sources};
ghost use Rattle.compose_files.specs.Composed.{HaveOneGraph, IsBuilt, IsComposed};
ghost use Rattle.compose_files.specs.Graph.{IsGraphOf};
ghost use Rattle.compose_files.specs.Refusals.{is_failure};
ghost use Rattle.compose_files.specs.Refused.{HasNumbers, IsEndRefusal, IsRefused};
ghost use Rattle.compose_files.specs.declared.error.ComposerError.{ComposerError as AnyComposerError};

use comp_shape::laws::{one_shape, shapes_are_read};

/// A configuration and its files have at most one graph, and what is composed of them is that graph.
pub fn a_configuration_has_one_graph()
    ensures one { (root : List ℕ) (s : Sources) (g h : GraphTree) → IsGraphOf root s g → IsGraphOf root s h → g ≡ h }
    ensures graph { (root : List ℕ) (s : Sources) (a b : Built) → IsBuilt root s a → IsBuilt root s b
        → a.graph ≡ b.graph }
    ensures composed { (root : List ℕ) (s : Sources) (a b : List ℕ) → IsComposed root s a → IsComposed root s b
        → HaveOneGraph root s a b }
{
    one_shape();
}

/// What is built of a configuration and files is their graph, and it is built wherever they have one.
pub fn what_is_built_is_the_graph()
    ensures built { (root : List ℕ) (s : Sources) (b : Built) → IsBuilt root s b → IsGraphOf root s b.graph }
    ensures found { (root : List ℕ) (s : Sources) (g : GraphTree) → IsGraphOf root s g
        → (b : Built) × IsBuilt root s b × (b.graph ≡ g) }
{}

/// What can be built is refused for want of memory, where the outside fails, or in the end: where it has no instance
/// beside the root's, or is not written. That holds where a `usize` holds the numbers of what is built.
pub fn what_can_be_built_is_refused_in_the_end()
    ensures { (root : List ℕ) (s : Sources) (b : Built) (e : AnyComposerError) → IsBuilt root s b
        → HasNumbers b.graph → is_failure e ≡ false → IsRefused root s e → IsEndRefusal s.settings b.graph e }
{
    one_shape();
    shapes_are_read();
}
