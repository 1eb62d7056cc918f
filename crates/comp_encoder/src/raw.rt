//! Sections that are given as their bytes.

ghost use Rattle.std.specs.Prelude.{◌≡◌, ◌<◌, ◌≤◌, ◌+◌, ◌^◌, ◌++◌, ◌∷◌, ◌⊎◌, ℕ, length, List, map, slice_index, Some, [], OnOk, IfOk, IfErr, Err};
ghost use Rattle.comp_format.specs.declared.types.Sort.{Sort as sort};
ghost use Rattle.comp_format.specs.Numbers.{number_text};
ghost use Rattle.comp_format.specs.Items.{ItemTree, item_tree};
ghost use Rattle.comp_format.specs.Sections.{Reads, header};
ghost use Rattle.comp_format.specs.Fits.{IsComponent};
ghost use Rattle.comp_encoder.specs.Builder.{IsContent, IsContentOf};
ghost use Rattle.comp_encoder.specs.Writing.{item_sort, numbered, numbers};
ghost use Rattle.comp_format.specs.Spaces.{space_of};

use crate::sections::write_section;
use crate::spaces::{sort_of, space_of};
use comp_format::section::HEADER;
use comp_format::{EncodeError, Item, Sort};
use comp_reader::read_items;
use std::alloc::Global;

/// The component of one section.
fn component_of(alloc: Global, id: u8, content: &[u8]) -> Result<Vec<u8>, EncodeError>
    ensures text { IfOk result
        (λ bytes. bytes.items ≡ header ++ (id ∷ (number_text (length content.now) ++ content.now))) }
    ensures fits { OnOk result (length content.now < 2 ^ 32) }
    ensures too_large { (n : ℕ) → result ≡ Err (EncodeError.TooLarge n) → (n ≡ length content.now) × (2 ^ 32 ≤ n) }
{
    let mut out = Vec::with_capacity(alloc, content.len().saturating_add(HEADER.len() + 6))?;
    out.extend_from_slice(&HEADER)?;
    write_section(&mut out, id, &[], content)?;
    Ok(out)
}

/// The items of a component.
fn items_of(alloc: Global, bytes: &[u8]) -> Result<Vec<Item<'_>>, EncodeError>
    requires { IsComponent bytes.now }
    ensures reads { IfOk result (λ items. Reads bytes.now (map item_tree items.items)) }
    ensures err { IfErr result (λ e. e ≡ EncodeError.Memory) }
{
    match read_items(alloc, bytes) {
        Ok(items) => Ok(items),
        Err(_) => Err(EncodeError::Memory),
    }
}

/// The sizes of the index spaces once an item is added to them.
pub fn count_item(counts: [u32; 11], item: &Item<'_>) -> Result<[u32; 11], EncodeError>
    requires { (kind : sort) → slice_index counts (space_of kind) < 2 ^ 32 }
    ensures counted { IfOk result
        (λ sizes.
        (kind : sort)
        → slice_index sizes (space_of kind)
        ≡ slice_index counts (space_of kind) + numbered kind (item_tree item.now ∷ [])) }
    ensures small { IfOk result (λ sizes. (kind : sort) → slice_index sizes (space_of kind) < 2 ^ 32) }
    ensures too_large { (n : ℕ) → result ≡ Err (EncodeError.TooLarge n)
        → (2 ^ 32 ≤ n)
        × ((kind : sort)
        × (item_sort (item_tree item.now) ≡ Some kind)
        × (n ≡ slice_index counts (space_of kind) + 1)) }
{
    let mut sizes = counts;
    if let Some(sort) = sort_of(item) {
        let space = space_of(sort);
        match sizes[space].checked_add(1) {
            Some(size) => sizes[space] = size,
            None => return Err(EncodeError::TooLarge(counts[space] as u64 + 1)),
        }
    }
    Ok(sizes)
}

/// Whether the index space of a sort numbers an item.
fn is_numbered(sort: Sort, item: &Item<'_>) -> bool
    ensures { result ≡ numbers (space_of sort) (item_sort (item_tree item.now)) }
{
    match sort_of(item) {
        Some(other) => space_of(other) == space_of(sort),
        None => false,
    }
}

/// The size of the index space of a sort, which has so many items, once these are added to it.
fn size_with(size: u32, sort: Sort, items: &[Item<'_>]) -> u64
    ensures { result ≡ size + numbered sort (map item_tree items.now) }
{
    let mut total = size as u64;
    for item in items {
        total += is_numbered(sort, item) as u64;
    }
    total
}

/// The sizes of the index spaces once these items are added to them.
fn count_items(counts: [u32; 11], items: &[Item<'_>]) -> Result<[u32; 11], EncodeError>
    requires { (kind : sort) → slice_index counts (space_of kind) < 2 ^ 32 }
    ensures counted { IfOk result
        (λ sizes.
        (kind : sort)
        → slice_index sizes (space_of kind)
        ≡ slice_index counts (space_of kind) + numbered kind (map item_tree items.now)) }
    ensures small { IfOk result (λ sizes. (kind : sort) → slice_index sizes (space_of kind) < 2 ^ 32) }
    ensures too_large { (n : ℕ) → result ≡ Err (EncodeError.TooLarge n)
        → (2 ^ 32 ≤ n)
        × ((kind : sort) × (n ≡ slice_index counts (space_of kind) + numbered kind (map item_tree items.now))) }
    ensures err { IfErr result (λ e. (n : ℕ) × (e ≡ EncodeError.TooLarge n)) }
{
    let mut sizes = counts;
    for item in items {
        if let Some(sort) = sort_of(item) {
            let space = space_of(sort);
            match sizes[space].checked_add(1) {
                Some(size) => sizes[space] = size,
                None => return Err(EncodeError::TooLarge(size_with(counts[space], sort, items))),
            }
        }
    }
    Ok(sizes)
}

/// The sizes of the index spaces once the items of a section are added to them.
pub fn count_section(
    alloc: Global,
    counts: [u32; 11],
    id: u8,
    content: &[u8],
) -> Result<[u32; 11], EncodeError>
    requires content { IsContent id content.now }
    requires small { (kind : sort) → slice_index counts (space_of kind) < 2 ^ 32 }
    ensures counted { (items : List ItemTree) → IsContentOf items id content.now
        → IfOk result
        (λ sizes.
        (kind : sort)
        → slice_index sizes (space_of kind) ≡ slice_index counts (space_of kind) + numbered kind items) }
    ensures small { IfOk result (λ sizes. (kind : sort) → slice_index sizes (space_of kind) < 2 ^ 32) }
    ensures short { OnOk result (length content.now < 2 ^ 32) }
    ensures too_large { (items : List ItemTree) → IsContentOf items id content.now
        → (n : ℕ)
        → result ≡ Err (EncodeError.TooLarge n)
        → (2 ^ 32 ≤ n)
        × ((n ≡ length content.now)
        ⊎ ((kind : sort) × (n ≡ slice_index counts (space_of kind) + numbered kind items))) }
{
    let component = component_of(alloc, id, content)?;
    let items = items_of(alloc, &component)?;
    count_items(counts, &items)
}
