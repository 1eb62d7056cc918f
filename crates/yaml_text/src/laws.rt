//! The law of what is written: it reads back. It is a function that does nothing, and is proved of all values.
//!
//! What is written is `written` of `specs/Written.antt`, and a document is carried where its text stands in the
//! relation of the crate `yaml_small` to a tree.

ghost use Rattle.std.specs.Prelude.{◌≤◌, Some};
ghost use Rattle.yaml_small.specs.Trees.{depth};
ghost use Rattle.yaml_small.specs.Grammar.{Carried};
ghost use Rattle.yaml_text.specs.Written.{Written, written, tree_of, ReadsBack};

/// The text of a value at level 0 is a carried document for the value's tree, where its numbers have 64 bits, its
/// texts are UTF-8, its variants have names of ASCII letters, digits and `_` with a letter first, and its lists
/// and maps are at most 64 deep.
pub fn written_is_carried()
    ensures { (value : Written)
        → ReadsBack value
        → depth (tree_of value) ≤ 64
        → Carried (written 0 value) (Some (tree_of value)) }
{}
