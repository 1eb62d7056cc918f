//! The sections of a component, before they are read, and the places of items, for those who refuse one. Places are
//! looked up anew, so that items need not keep them.

ghost use Rattle.std.specs.Prelude.{◌≡◌, ◌≤◌, ◌<◌, ℕ, List, Result, length, Ok, IfOk, IfErr, MatchResult, MatchOption};
ghost use Rattle.warg_values.specs.Answers as answers;
ghost use Rattle.comp_format.specs.Items.{ItemTree};
ghost use Rattle.comp_format.specs.Sections.{Section, Sections, Framed, ContentForm, SectionsForm, Reads, section_id, section_items, items_in, frame_at};
ghost use Rattle.comp_reader.specs.Refusal.{Gives, error_fault};
ghost use Rattle.comp_reader.specs.Places.{SectionForm, InSection, ItemFirst, StandsAt, is_one_item, count_at, behind_many_at, behind_items_at, items_from_at};

use crate::error::ReadError;
use crate::items::{SCOPES, frame_of, no_header};
use crate::parts::{ReadExport, ReadImport};
use crate::read::{Field, number_of};
use crate::refusal::Refusal;
use comp_format::section::{self, HEADER};
use comp_format::{Alias, Canon, CoreInstance, CoreType, DefType, InstanceItem};
use std::alloc::Global;

/// A section that is not read yet: its id, its content, and the bytes behind it.
#[derive(Clone, Copy, Debug)]
pub struct RawSection<'a> {
    /// The id of the section.
    pub id: u8,
    /// Its content.
    pub content: &'a [u8],
    /// The bytes behind it.
    pub behind: &'a [u8],
}

/// Where an item stands: the place of its section's id, and its own, in bytes from the component's start. Custom
/// sections, core modules and nested components have the place of their section.
#[derive(Clone, Copy, Debug, PartialEq, Eq)]
pub struct ItemPlace {
    /// The place of the section's id.
    pub section: usize,
    /// The place of the item.
    pub item: usize,
}

/// The section at the front of some bytes, whatever it holds (`Binary.md`, "Component Definitions").
///
/// `Form` is answered exactly where there are no bytes, or its length is no number or passes the end, with the place of
/// the length. No other error is answered.
pub fn read_section(bytes: &[u8]) -> Result<RawSection<'_>, ReadError>
    ensures exact { answers.Gives error_fault (λ s. ((s.id, s.content.now), s.behind.now)) result (frame_at bytes.now) }
    ensures form { IfErr result (λ e. (at : ℕ) × (e ≡ ReadError.Form at)) }
{
    match frame_of(bytes) {
        Ok(((id, content), behind)) => Ok(RawSection {
            id,
            content,
            behind,
        }),
        Err(error) => Err(error.placed(bytes.len())),
    }
}

/// Whether the section of an id is one item, and no vector of items.
fn is_one_item(id: u8) -> bool
    ensures { result ≡ is_one_item id }
{
    id == section::CUSTOM || id == section::CORE_MODULE || id == section::COMPONENT
}

/// How many items a section has.
#[tactic(auto, unfolding(crate::specs::Places::count_at))]
fn count_of(id: u8, content: &[u8]) -> Result<usize, Refusal>
    ensures { Gives (λ count. count) result (count_at id content.now) }
{
    if is_one_item(id) {
        return Ok(1);
    }
    let (count, _) = number_of(content)?;
    Ok(count as usize)
}

/// The section that has the item of this number among the items of sections: the item's number in it, and the bytes
/// from its id on.
fn section_of(sections: &[u8], number: usize) -> Result<Option<(usize, &[u8])>, Refusal>
    ensures found { (this : Section) (within : ℕ) (section behind : List ℕ)
        → InSection number sections.now this within section
        → SectionForm this section behind
        → MatchResult result (λ found. MatchOption found ⊥ (λ x. (x.0 ≡ within) × (x.1.now ≡ section)))
        (λ e. e ≡ Refusal.Memory) }
    ensures behind { (ss : Sections) → SectionsForm ss sections.now
        → length (items_in ss) ≤ number
        → MatchResult result (λ found. MatchOption found (Unit {0}) (λ x. ⊥)) (λ e. e ≡ Refusal.Memory) }
{
    let mut rest = sections;
    let mut left = number;
    while !rest.is_empty() {
        let ((id, content), after) = frame_of(rest)?;
        let count = match count_of(id, content) {
            Ok(count) => count,
            Err(error) => return Err(error.before(after.len())),
        };
        if left < count {
            return Ok(Some((left, rest)));
        }
        left -= count;
        rest = after;
    }
    Ok(None)
}

/// The bytes behind so many values.
fn behind_many<T: Field>(alloc: Global, count: usize, bytes: &[u8]) -> Result<&[u8], Refusal>
    ensures { Gives (λ rest. rest.now) result (behind_many_at (T.tree_at 200) count bytes.now) }
{
    let mut rest = bytes;
    for _ in 0..count {
        let (_, after) = T::read(alloc, SCOPES, rest)?;
        rest = after;
    }
    Ok(rest)
}

/// The bytes behind so many items of the kind that sections of an id hold.
#[tactic(auto, unfolding(crate::specs::Places::behind_items_at))]
fn behind_items(alloc: Global, id: u8, count: usize, bytes: &[u8]) -> Result<&[u8], Refusal>
    ensures { Gives (λ rest. rest.now) result (behind_items_at 200 id count bytes.now) }
{
    match id {
        section::CORE_INSTANCE => behind_many::<CoreInstance>(alloc, count, bytes),
        section::CORE_TYPE => behind_many::<CoreType>(alloc, count, bytes),
        section::INSTANCE => behind_many::<InstanceItem>(alloc, count, bytes),
        section::ALIAS => behind_many::<Alias>(alloc, count, bytes),
        section::TYPE => behind_many::<DefType>(alloc, count, bytes),
        section::CANON => behind_many::<Canon>(alloc, count, bytes),
        section::IMPORT => behind_many::<ReadImport>(alloc, count, bytes),
        section::EXPORT => behind_many::<ReadExport>(alloc, count, bytes),
        _ => Err(Refusal::Form(bytes.len())),
    }
}

/// The bytes from an item on, in the content of a section that is a vector of items.
#[tactic(auto, unfolding(crate::specs::Places::items_from_at))]
fn items_from(alloc: Global, id: u8, number: usize, content: &[u8]) -> Result<&[u8], Refusal>
    ensures { Gives (λ items. items.now) result (items_from_at 200 id number content.now) }
{
    let (_, items) = number_of(content)?;
    behind_items(alloc, id, number, items)
}

/// How many bytes are left from an item on, in the section at the front.
fn left_from(alloc: Global, number: usize, section: &[u8]) -> Result<usize, Refusal>
    ensures { (s : Section) (content behind item : List ℕ) → number < length (section_items s)
        → Framed (section_id s) content section.now behind
        → ItemFirst s number section.now content behind item
        → MatchResult result (λ left. left ≡ length item) (λ e. e ≡ Refusal.Memory) }
{
    let ((id, content), behind) = frame_of(section)?;
    if is_one_item(id) {
        return Ok(section.len());
    }
    match items_from(alloc, id, number, content) {
        Ok(items) => Ok(items.len().saturating_add(behind.len())),
        Err(error) => Err(error.before(behind.len())),
    }
}

/// How many bytes are left from the section of an item on, and from the item on. Behind the last item it is none.
fn left_at(alloc: Global, sections: &[u8], number: usize) -> Result<(usize, usize), Refusal>
    ensures found { (this : Section) (within : ℕ) (section content behind item : List ℕ)
        → InSection number sections.now this within section
        → Framed (section_id this) content section behind
        → ContentForm this content
        → ItemFirst this within section content behind item
        → MatchResult result (λ left. (left.0 ≡ length section) × (left.1 ≡ length item)) (λ e. e ≡ Refusal.Memory) }
    ensures behind { (ss : Sections) → SectionsForm ss sections.now
        → length (items_in ss) ≤ number
        → MatchResult result (λ left. (left.0 ≡ 0) × (left.1 ≡ 0)) (λ e. e ≡ Refusal.Memory) }
{
    match section_of(sections, number)? {
        Some((within, section)) => Ok((section.len(), left_from(alloc, within, section)?)),
        None => Ok((0, 0)),
    }
}

/// The place of the item of this number, counted from 0, in a component. Behind its last item it is the end.
///
/// A component is refused for want of memory alone, which is answered too where more than 200 scopes are open at one
/// place, as by [`read_items`](crate::read_items).
pub fn item_place(alloc: Global, bytes: &[u8], number: usize) -> Result<ItemPlace, ReadError>
    ensures found { (items : List ItemTree) → Reads bytes.now items
        → number < length items
        → IfOk result (StandsAt number bytes.now) }
    ensures once { (place : ItemPlace) → StandsAt number bytes.now place → IfOk result (λ p. p ≡ place) }
    ensures behind { (items : List ItemTree) → Reads bytes.now items
        → length items ≤ number
        → IfOk result (λ p. (p.section ≡ length bytes.now) × (p.item ≡ length bytes.now)) }
    ensures only { (items : List ItemTree) → Reads bytes.now items → IfErr result (λ e. e ≡ ReadError.Memory) }
    ensures section { IfOk result (λ p. p.section ≤ length bytes.now) }
    ensures item { IfOk result (λ p. p.item ≤ length bytes.now) }
{
    let Some(sections) = bytes.strip_prefix(&HEADER) else {
        return Err(no_header(bytes).placed(bytes.len()));
    };
    match left_at(alloc, sections, number) {
        Ok((section, item)) => Ok(ItemPlace {
            section: bytes.len().saturating_sub(section),
            item: bytes.len().saturating_sub(item),
        }),
        Err(error) => Err(error.placed(bytes.len())),
    }
}
