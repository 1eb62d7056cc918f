//! Laws of compositions and of graphs that can be encoded. Each is the contract of a function that does nothing.

ghost use Rattle.std.specs.Prelude.{◌≡◌, Bool, List, None, Option, false, true, ℕ};
ghost use Rattle.compose_check.specs.Checked.{IsSound};
ghost use Rattle.compose_check.specs.Composition.{CompositionTree, IsComposition};
ghost use Rattle.compose_complete.specs.Unwritten.{IsExported, IsUnwritten, IsUnwrittenGraph};
ghost use Rattle.compose_encode.specs.Whole.{CanBeEncoded, IsEncodeRefusal};
ghost use Rattle.compose_encode.specs.declared.refused.CompositionError.{CompositionError as Refusal};
ghost use Rattle.compose_graph.specs.Composed.{composed};
ghost use Rattle.compose_graph.specs.Encoding.{IsComposeRefusal, export_place};
ghost use Rattle.compose_graph.specs.Graph.{GraphTree, connect_fault};
ghost use Rattle.compose_graph.specs.Kept.{IsGraph};
ghost use Rattle.compose_graph.specs.Refusal.{IsConnectRefusal};
ghost use Rattle.compose_graph.specs.declared.compose_error.ComposeError.{ComposeError as Unencoded};
ghost use Rattle.compose_graph.specs.declared.connection.Connection.{Connection};
ghost use Rattle.compose_graph.specs.declared.error.GraphError.{GraphError as Unconnected};
ghost use Rattle.compose_graph.specs.declared.error.GraphError.TheVariants.{Memory as no_memory};
ghost use Rattle.compose_graph.specs.declared.options.EncodeOptions.{EncodeOptions as Options};
ghost use Rattle.compose_order.specs.Needs.{LeftTree};

use compose_agree::laws::one_order;
use compose_check::laws::what_can_be_written_is_not_refused;
use compose_graph::laws::a_graph_is_a_composition;
use compose_order::laws::outcomes_are_one;

/// A composition that can be written has one order of its instances, and one of what they leave open.
pub fn a_sound_composition_has_one_order()
    ensures order { (c : CompositionTree) (xs ys : List ℕ) (ls ms : List LeftTree)
        → IsSound c xs ls → IsSound c ys ms → xs ≡ ys }
    ensures lefts { (c : CompositionTree) (xs ys : List ℕ) (ls ms : List LeftTree)
        → IsSound c xs ls → IsSound c ys ms → ls ≡ ms }
{
    one_order();
    outcomes_are_one();
}

/// A composition that can be encoded with its components imported can be encoded with them defined.
pub fn what_can_be_locked_can_be_bundled()
    ensures { (c : CompositionTree) (export : Option ℕ) (order : List ℕ) (lefts : List LeftTree)
        → CanBeEncoded c false export order lefts → CanBeEncoded c true export order lefts }
{}

/// A composition that can be encoded is refused for a number that can't be written, or for want of memory, alone.
pub fn what_can_be_encoded_is_refused_for_its_numbers()
    ensures { (c : CompositionTree) (define : Bool) (export : Option ℕ) (order : List ℕ) (lefts : List LeftTree)
        (e : Refusal)
        → IsComposition c → CanBeEncoded c define export order lefts → IsEncodeRefusal c define export e
        → IsUnwritten c define export order lefts e }
{
    a_sound_composition_has_one_order();
    what_can_be_written_is_not_refused();
}

/// So is a graph whose composition can be encoded, where the instance that is to be exported is there and the output is not
/// read again.
pub fn graphs_that_can_be_encoded_are_refused_for_their_numbers()
    ensures { (g : GraphTree) (o : Options) (order : List ℕ) (lefts : List LeftTree) (e : Unencoded)
        → IsGraph g → IsExported g o → o.validate ≡ false
        → CanBeEncoded (composed g) o.define_components (export_place g o) order lefts → IsComposeRefusal g o e
        → IsUnwrittenGraph g o order lefts e }
{
    a_graph_is_a_composition();
    a_sound_composition_has_one_order();
    what_can_be_written_is_not_refused();
}

/// A connection without a fault is refused for want of memory alone.
pub fn what_can_be_connected_is_connected()
    ensures { (g : GraphTree) (c : Connection) (e : Unconnected)
        → connect_fault g c ≡ None → IsConnectRefusal (connect_fault g c) e → e ≡ no_memory }
{}
