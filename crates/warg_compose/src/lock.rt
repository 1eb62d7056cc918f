//! What a lock leaves open.

ghost use Rattle.std.specs.Prelude.{◌≡◌, List, IfOk, map};
ghost use Rattle.comp_format.specs.Items.{ItemTree, item_tree};
ghost use Rattle.comp_format.specs.Sections.{Reads};
ghost use Rattle.warg_compose.specs.Left.{is_release, open_names};

use comp_reader::{Item, read_items};
use std::alloc::Global;
use warg_values::{Memory, Text};

/// What a name begins with that stands for a release.
const RELEASE: &[u8] = b"locked-dep=";

/// A plan's lock: the component that the plan makes, but that it imports those of the releases, each under the name of its
/// release.
#[derive(Debug, Drop)]
pub struct Lock {
    /// Its bytes.
    pub bytes: Vec<u8>,
    /// The names of the imports that the plan leaves open, in the order in which the lock has them.
    pub left: Vec<Text>,
}

/// Whether a name begins as that of a release does.
fn is_release(name: &str) -> bool
    ensures { result ≡ is_release name.now }
{
    name.as_bytes().starts_with(RELEASE)
}

/// The names of the imports among items that stand for no release.
fn names_among(alloc: Global, items: &[Item<'_>]) -> Result<Vec<Text>, Memory>
    ensures { IfOk result (λ names. names.items ≡ open_names (map item_tree items.now)) }
{
    let mut names = Vec::new(alloc);
    for item in items {
        if let Item::Import { name, .. } = item {
            if !is_release(name.as_str()) {
                names.push(name.try_clone(alloc)?)?;
            }
        }
    }
    Ok(names)
}

/// The names of the imports of a lock that stand for no release.
pub fn left_names(alloc: Global, lock: &[u8]) -> Result<Vec<Text>, Memory>
    requires { (items : List ItemTree) × Reads lock.now items }
    ensures { (items : List ItemTree) → Reads lock.now items
        → IfOk result (λ names. names.items ≡ open_names items) }
{
    match read_items(alloc, lock) {
        Ok(items) => names_among(alloc, &items),
        // The lock is read but for want of memory.
        Err(_) => Err(Memory),
    }
}
