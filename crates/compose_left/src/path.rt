//! Paths of names.

ghost use Rattle.std.specs.Prelude.{◌≡◌, ◌++◌, ◌∷◌, [], Some, refl, bytes_eq, IfOk};
ghost use Rattle.std.specs.Cmp.{partial_equiv_from_equiv, po};
ghost use Rattle.std.specs.Cmp.Lexicographic.{pointwise, slice_cmp, lists_equiv, lists_total, lists_ties, nat_list_eq_equiv, nat_list_cmp_total, texts_ties};
ghost use Rattle.std.specs.Ordering.{nat_cmp};

use std::alloc::Global;
use std::cmp::Ordering;
use std::marker::Model;
use warg_values::{Memory, Text};

/// A path of names, from an import or an export inwards.
///
/// A clause sees it as the list of its names, each as its bytes. Paths are ordered by their names.
#[derive(Debug, Drop)]
pub struct Path {
    /// The names, the outermost first.
    names: Vec<Text>,
}

impl Model for Path {
    ghost use Rattle.std.specs.Prelude.{ℕ, List};

    ghost Value = { List (List ℕ) };

    ghost view = { λ p. p.names.items };
}

impl Path {
    /// The path of no names.
    pub fn new(alloc: Global) -> Self
        ensures { result ≡ [] }
    {
        Path {
            names: Vec::new(alloc),
        }
    }

    /// The names, the outermost first.
    pub fn names(&self) -> &[Text]
        ensures { result.now ≡ self.now }
    {
        self.names.as_slice()
    }

    /// A copy.
    pub fn try_clone(&self, alloc: Global) -> Result<Self, Memory>
        ensures { IfOk result (λ path. path ≡ self.now) }
    {
        let mut names = Vec::new(alloc);
        push_all(alloc, &mut names, &self.names)?;
        Ok(Path { names })
    }

    /// The path of this one's names and one more.
    pub fn below(&self, alloc: Global, name: &Text) -> Result<Self, Memory>
        ensures { IfOk result (λ path. path ≡ self.now ++ name.now ∷ []) }
    {
        let mut names = Vec::new(alloc);
        push_all(alloc, &mut names, &self.names)?;
        names.push(name.try_clone(alloc)?)?;
        Ok(Path { names })
    }

    /// The path of one name and then this one's.
    pub fn within(&self, alloc: Global, name: &Text) -> Result<Self, Memory>
        ensures { IfOk result (λ path. path ≡ name.now ∷ self.now) }
    {
        let mut names = Vec::new(alloc);
        names.push(name.try_clone(alloc)?)?;
        push_all(alloc, &mut names, &self.names)?;
        Ok(Path { names })
    }
}

/// Adds copies of names at the end.
fn push_all(alloc: Global, names: &mut Vec<Text>, more: &[Text]) -> Result<(), Memory>
    ensures { IfOk result (λ done. names.new.items ≡ names.old.items ++ more.now) }
{
    for name in more {
        names.push(name.try_clone(alloc)?)?;
    }
    Ok(())
}

impl PartialEq for Path {
    ghost eq = { λ a b. pointwise bytes_eq a b };

    ghost laws = { partial_equiv_from_equiv (lists_equiv nat_list_eq_equiv) };

    fn eq(&self, other: &Path) -> bool {
        self.names() == other.names()
    }
}

impl Eq for Path {
    ghost laws = { lists_equiv nat_list_eq_equiv };
}

impl PartialOrd for Path {
    ghost partial_cmp = { λ a b. Some (slice_cmp (slice_cmp nat_cmp) a b) };

    ghost laws = { po (lists_total nat_list_cmp_total) (lists_ties (slice_cmp nat_cmp) texts_ties) };

    fn partial_cmp(&self, other: &Path) -> Option<Ordering> {
        Some(self.cmp(other))
    }
}

impl Ord for Path {
    ghost cmp = { λ a b. slice_cmp (slice_cmp nat_cmp) a b };

    ghost total = { lists_total nat_list_cmp_total };

    ghost matches_partial_cmp = { λ a b. refl };

    ghost matches_eq = { lists_ties (slice_cmp nat_cmp) texts_ties };

    fn cmp(&self, other: &Path) -> Ordering {
        self.names().cmp(other.names())
    }
}
