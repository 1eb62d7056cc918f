//! Copies of a configuration and its parts.

ghost use Rattle.std.specs.Prelude.{◌≡◌, ℕ, List, map, IfOk};
ghost use Rattle.yaml_read.specs.Entries.{seen_entry};

use indexmap::IndexMap;
use std::alloc::Global;
use warg_values::{Memory, Text};

/// A part of a configuration that is copied.
pub trait Copied: Sized + Drop {
    /// What a clause sees of a part.
    ghost Seen: { Type 0 };

    /// What a clause sees of this part.
    ghost seen: { Self → Seen };

    /// A part that says the same.
    fn copied(&self, alloc: Global) -> Result<Self, Memory>
        ensures { IfOk result (λ copy. seen copy ≡ seen self.now) };
}

/// A map of copies, under the same names in the same order.
#[tactic(auto, using(crate::proofs::Copies::copied_map))]
pub fn copied_map<V: Copied>(
    alloc: Global,
    source: &IndexMap<Text, V>,
) -> Result<IndexMap<Text, V>, Memory>
    ensures { IfOk result (λ copy. map (seen_entry V.seen) copy.entries ≡ map (seen_entry V.seen) source.now.entries) }
{
    let mut copy = IndexMap::<Text, V>::new(alloc);
    for index in 0..source.len() {
        if let Some((key, value)) = source.get_index(index) {
            let key = Text::copy_of(alloc, key.as_str())?;
            let value = value.copied(alloc)?;
            let _ = copy.insert(key, value)?;
        }
    }
    Ok(copy)
}

/// A copy of a name that may be missing.
pub fn copied_name(alloc: Global, name: &Option<Text>) -> Result<Option<Text>, Memory>
    ensures { IfOk result (λ copy. copy ≡ name.now) }
{
    match name {
        Some(name) => Ok(Some(Text::copy_of(alloc, name.as_str())?)),
        None => Ok(None),
    }
}

/// A copy of a list of names.
pub fn copied_names(alloc: Global, names: &Vec<Text>) -> Result<Vec<Text>, Memory>
    ensures { IfOk result (λ copy. copy.items ≡ names.now.items) }
{
    let mut copy = Vec::with_capacity(alloc, names.len())?;
    for name in names.as_slice() {
        copy.push(Text::copy_of(alloc, name.as_str())?)?;
    }
    Ok(copy)
}
