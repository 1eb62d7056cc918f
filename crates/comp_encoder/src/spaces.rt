//! What items are, and which index space numbers them.

ghost use Rattle.std.specs.Prelude.{◌≡◌, ◌<◌};
ghost use Rattle.comp_format.specs.Items.{item_tree};
ghost use Rattle.comp_encoder.specs.Writing.{described_sort, aliased_sort, canonical_sort, item_sort};
ghost use Rattle.comp_format.specs.Spaces.{core_space, space_of};

use comp_format::{Alias, Canon, CoreSort, Item, Sort, TypeRef};

/// The number of a core index space.
fn core_space(sort: CoreSort) -> usize
    ensures value { result ≡ core_space sort }
    ensures bound { result < 11 }
{
    match sort {
        CoreSort::Func => 0,
        CoreSort::Table => 1,
        CoreSort::Memory => 2,
        CoreSort::Global => 3,
        CoreSort::Ty => 4,
        CoreSort::Module => 5,
        CoreSort::Instance => 6,
    }
}

/// The number of the index space of a sort.
pub fn space_of(sort: Sort) -> usize
    ensures value { result ≡ space_of sort }
    ensures bound { result < 11 }
{
    match sort {
        Sort::Core(core) => core_space(core),
        Sort::Func => 7,
        Sort::Ty => 8,
        Sort::Component => 9,
        Sort::Instance => 10,
    }
}

/// The sort of what a description brings.
pub fn described_sort(ty: TypeRef) -> Sort
    ensures { result ≡ described_sort ty }
{
    match ty {
        TypeRef::Module(_) => Sort::Core(CoreSort::Module),
        TypeRef::Func(_) => Sort::Func,
        TypeRef::TyEqual(_) => Sort::Ty,
        TypeRef::TyFresh => Sort::Ty,
        TypeRef::Component(_) => Sort::Component,
        TypeRef::Instance(_) => Sort::Instance,
    }
}

/// The sort of what an alias stands for.
fn aliased_sort(alias: &Alias) -> Sort
    ensures { result ≡ aliased_sort alias.now }
{
    match alias {
        Alias::Export { sort, .. } => *sort,
        Alias::CoreExport { sort, .. } => Sort::Core(*sort),
        Alias::Outer { sort, .. } => *sort,
    }
}

/// The sort of the function that a canonical definition makes.
fn canonical_sort(canon: &Canon) -> Sort
    ensures { result ≡ canonical_sort canon.now }
{
    match canon {
        Canon::Lift { .. } => Sort::Func,
        _ => Sort::Core(CoreSort::Func),
    }
}

/// The sort of an item. A custom section has none.
pub fn sort_of(item: &Item<'_>) -> Option<Sort>
    ensures { result ≡ item_sort (item_tree item.now) }
{
    match item {
        Item::Custom { .. } => None,
        Item::CoreModule { .. } => Some(Sort::Core(CoreSort::Module)),
        Item::CoreInstance(_) => Some(Sort::Core(CoreSort::Instance)),
        Item::CoreTy(_) => Some(Sort::Core(CoreSort::Ty)),
        Item::Component { .. } => Some(Sort::Component),
        Item::Instance(_) => Some(Sort::Instance),
        Item::Alias(alias) => Some(aliased_sort(alias)),
        Item::Ty(_) => Some(Sort::Ty),
        Item::Canon(canon) => Some(canonical_sort(canon)),
        Item::Import { ty, .. } => Some(described_sort(*ty)),
        Item::Export { sort, .. } => Some(*sort),
    }
}
