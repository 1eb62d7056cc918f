//! Trees of texts, as lists of packages are shown.

ghost use Rattle.std.specs.Prelude.{◌≡◌, ◌++◌, codes, string_bytes, IfOk};
ghost use Rattle.semver.specs.Identifiers.{version_text};
ghost use Rattle.warg_names.specs.Texts.{versioned_name};
ghost use Rattle.warg_names.specs.Tree.{Node, none, tree_view};

use crate::texts::versioned;
use semver::Version;
use std::alloc::Global;
use warg_values::{Memory, Text};

/// A node of a tree of texts.
#[derive(Debug, Drop)]
pub struct TreeBuilder {
    /// The text of the node.
    pub text: Text,
    /// The nodes below it, in order.
    pub children: Vec<TreeBuilder>,
}

impl TreeBuilder {
    /// A node with nothing below it.
    fn leaf(alloc: Global, text: String) -> Self
        ensures { tree_view result ≡ Node (string_bytes text) none }
    {
        TreeBuilder {
            text: Text::new(text),
            children: Vec::new(alloc),
        }
    }
}

/// The root of a package's tree: its text is `NAMESPACE:NAME@VERSION`.
pub fn new_tree(
    alloc: Global,
    namespace: &str,
    name: &str,
    version: &Version,
) -> Result<TreeBuilder, Memory>
    ensures { IfOk result (λ tree. tree_view tree
        ≡ Node (namespace.now ++ (codes ":" ++ versioned_name name.now (version_text version.now))) none) }
{
    let name = versioned(alloc, name, version)?;
    let text = format!(in alloc; "{namespace}:{name}")?;
    Ok(TreeBuilder::leaf(alloc, text))
}

/// Adds a node as the last one below another: its text is `NAME@VERSION`, and nothing stands below it.
pub fn create_child_node<'a>(
    alloc: Global,
    node: &'a mut TreeBuilder,
    name: &str,
    version: &str,
) -> Result<&'a mut TreeBuilder, Memory>
    ensures { IfOk result (λ child. tree_view child.now ≡ Node (versioned_name name.now version.now) none) }
{
    let text = format!(in alloc; "{name}@{version}")?;
    node.children.push(TreeBuilder::leaf(alloc, text))?;
    Ok(node.children.last_mut().unwrap())
}
