//! What the indices of a component stand for, as an image has it.

ghost use Rattle.std.specs.Prelude.{◌≡◌, ◌<◌, ◌++◌, ◌∷◌, [], IfOk, List, OnOk, length, option_map};
ghost use Rattle.comp_format.specs.Spaces.{core_space, space_of};
ghost use Rattle.comp_image.specs.Numbered.{IsEntry, NumberAll, indexed_in, indexed_of, items_of};

use comp_format::{CoreSort, Sort};
use std::alloc::Global;
use warg_values::Memory;

/// What an index stands for. Names are lent by the items.
#[derive(Clone, Copy, Debug)]
pub enum Indexed<'a> {
    /// What has no part in an image.
    Own,
    /// The component of this number.
    Component(usize),
    /// The instance of this number.
    Made(usize),
    /// The export of this name of the instance of this number.
    Part(usize, &'a str),
    /// The import of this name.
    Left(&'a str),
}

/// How many index spaces there are.
const SPACES: usize = 11;

/// The index spaces, each at its number.
#[derive(Debug, Drop)]
pub struct Numbered<'a> {
    /// What the indices of each stand for.
    pub spaces: Vec<Vec<Indexed<'a>>>,
    ghost eleven: { length spaces.items ≡ 11 },
}

/// The number of the index space of a core sort.
fn core_space(sort: CoreSort) -> usize
    ensures number { result ≡ core_space sort }
    ensures below { result < 11 }
{
    match sort {
        CoreSort::Func => 0,
        CoreSort::Table => 1,
        CoreSort::Memory => 2,
        CoreSort::Global => 3,
        CoreSort::Ty => 4,
        CoreSort::Module => 5,
        CoreSort::Instance => 6,
    }
}

/// The number of the index space of a sort.
fn space_of(sort: Sort) -> usize
    ensures number { result ≡ space_of sort }
    ensures below { result < 11 }
{
    match sort {
        Sort::Core(core) => core_space(core),
        Sort::Func => 7,
        Sort::Ty => 8,
        Sort::Component => 9,
        Sort::Instance => 10,
    }
}

impl<'a> Numbered<'a> {
    /// Empty index spaces.
    pub fn new(alloc: Global) -> Result<Self, Memory>
        ensures { IfOk result (λ n. NumberAll (items_of n.spaces.items) []) }
    {
        let mut spaces = Vec::new(alloc);
        for _ in 0..SPACES {
            spaces.push(Vec::new(alloc))?;
        }
        Ok(Numbered { spaces })
    }

    /// What an index of the index space of a sort stands for, where it is there.
    pub fn get(&self, sort: Sort, index: u32) -> Option<Indexed<'a>>
        ensures { (es : List IsEntry) → NumberAll (items_of self.now.spaces.items) es
            → option_map indexed_of result ≡ indexed_in es sort index }
    {
        let space = &self.spaces[space_of(sort)];
        space.get(index as usize).copied()
    }

    /// Gives the next index of the index space of a sort to what it stands for. A refusal changes nothing.
    pub fn push(&mut self, sort: Sort, of: Indexed<'a>) -> Result<(), Memory>
        ensures { (es : List IsEntry) → NumberAll (items_of self.old.spaces.items) es
            → OnOk result (NumberAll (items_of self.new.spaces.items) (es ++ (sort, indexed_of of.entry) ∷ [])) }
    {
        let space = &mut self.spaces[space_of(sort)];
        space.push(of)?;
        Ok(())
    }
}
