//! The items of a component.

ghost use Rattle.std.specs.Prelude.{◌≡◌, ◌≢◌, ◌++◌, ℕ, List, Result, map, OnOk, IfOk, IfErr, MatchResult, Ok, Err};
ghost use Rattle.comp_format.specs.declared.types.Alias.{Alias as alias_item};
ghost use Rattle.comp_format.specs.declared.types.Canon.{Canon as canonical};
ghost use Rattle.comp_format.specs.declared.types.CoreInstance.{CoreInstance as core_instance};
ghost use Rattle.comp_format.specs.declared.types.InstanceItem.{InstanceItem as instance_item};
ghost use Rattle.comp_format.specs.Fault.{Form as no_form, NotCarried as not_carried};
ghost use Rattle.comp_format.specs.CoreTypes.{CoreTree};
ghost use Rattle.comp_format.specs.Definitions.{TypeTree};
ghost use Rattle.comp_format.specs.Items.{ImportTree, ExportTree, ItemTree, CoreMade, CoreTy, Instance, Aliased, Ty, Canonical, Import, Export, item_tree};
ghost use Rattle.comp_format.specs.Sections.{Reads, carried_id, frame_at, section_at, content_at, component_at};
ghost use Rattle.comp_format.specs.Views.{core_tree, type_tree};
ghost use Rattle.comp_reader.specs.Nested.{sections_items, component_items};
ghost use Rattle.comp_reader.specs.Refusal.{Gives, Adds, IsForm};
ghost use Rattle.comp_reader.specs.Views.{import_tree, export_tree};

use crate::error::ReadError;
use crate::parts::{ReadExport, ReadImport};
use crate::read::{any_name_of, front_of, number_of, whole_of};
use crate::refusal::Refusal;
use comp_format::section::{self, CORE_HEADER, HEADER, MAGIC};
use comp_format::{Alias, Canon, CoreInstance, CoreType, DefType, InstanceItem, Item};
use std::alloc::Global;

/// How many scopes are followed at one place: components, and types of components, instances and modules.
pub const SCOPES: u8 = 200;

/// What a section is a vector of.
trait Listed: Drop {
    /// The value, wherever it lies in memory.
    ghost Tree: { Type 0 };

    ghost tree: { Self → Tree };

    /// The item that it is.
    ghost item: { Tree → ItemTree };

    /// The value as an item.
    fn into_item<'a>(self) -> Item<'a>
        ensures { item_tree result ≡ item (tree self) };
}

impl Listed for CoreInstance {
    ghost Tree = { core_instance };

    ghost tree = { λ i. i };

    ghost item = { CoreMade };

    fn into_item<'a>(self) -> Item<'a> {
        Item::CoreInstance(self)
    }
}

impl Listed for CoreType {
    ghost Tree = { CoreTree };

    ghost tree = { core_tree };

    ghost item = { CoreTy };

    fn into_item<'a>(self) -> Item<'a> {
        Item::CoreTy(self)
    }
}

impl Listed for InstanceItem {
    ghost Tree = { instance_item };

    ghost tree = { λ i. i };

    ghost item = { Instance };

    fn into_item<'a>(self) -> Item<'a> {
        Item::Instance(self)
    }
}

impl Listed for Alias {
    ghost Tree = { alias_item };

    ghost tree = { λ a. a };

    ghost item = { Aliased };

    fn into_item<'a>(self) -> Item<'a> {
        Item::Alias(self)
    }
}

impl Listed for DefType {
    ghost Tree = { TypeTree };

    ghost tree = { type_tree };

    ghost item = { Ty };

    fn into_item<'a>(self) -> Item<'a> {
        Item::Ty(self)
    }
}

impl Listed for Canon {
    ghost Tree = { canonical };

    ghost tree = { λ c. c };

    ghost item = { Canonical };

    fn into_item<'a>(self) -> Item<'a> {
        Item::Canon(self)
    }
}

impl Listed for ReadImport {
    ghost Tree = { ImportTree };

    ghost tree = { import_tree };

    ghost item = { Import };

    fn into_item<'a>(self) -> Item<'a> {
        let ReadImport { name, ty } = self;
        Item::Import { name, ty }
    }
}

impl Listed for ReadExport {
    ghost Tree = { ExportTree };

    ghost tree = { export_tree };

    ghost item = { Export };

    fn into_item<'a>(self) -> Item<'a> {
        let ReadExport {
            name,
            sort,
            index,
            ty,
        } = self;
        Item::Export {
            name,
            sort,
            index,
            ty,
        }
    }
}

/// Adds values to items.
fn push_all<T: Listed>(items: &mut Vec<Item<'_>>, values: Vec<T>) -> Result<(), Refusal>
    ensures added { OnOk result
        (map item_tree items.new.items ≡ map item_tree items.old.items ++ map T.item (map T.tree values.items)) }
    ensures err { IfErr result (λ e. e ≡ Refusal.Memory) }
{
    for value in values {
        items.push(value.into_item())?;
    }
    Ok(())
}

/// A section's id and content, and the bytes behind it, whatever the id is.
#[tactic(auto, unfolding(comp_format::specs::Sections::frame_at))]
pub fn frame_of(bytes: &[u8]) -> Result<((u8, &[u8]), &[u8]), Refusal>
    ensures exact { Gives (λ x. ((x.0.0, x.0.1.now), x.1.now)) result (frame_at bytes.now) }
    ensures form { IfErr result IsForm }
{
    match bytes {
        [] => Err(Refusal::Form(0)),
        [id, counted @ ..] => {
            let (count, rest) = number_of(counted)?;
            match front_of(count, rest) {
                Ok((content, behind)) => Ok(((*id, content), behind)),
                // The fault is that of the length, which passes the end.
                Err(_) => Err(Refusal::Form(counted.len())),
            }
        }
    }
}

/// An id of which sections are carried. So many bytes are left from it on.
#[tactic(auto, unfolding(comp_format::specs::Sections::carried_id))]
fn carried_id(id: u8, left: usize) -> Result<u8, Refusal>
    ensures { Gives (λ id. id) result (carried_id id) }
{
    match id {
        section::START => Err(Refusal::NotCarried(left)),
        section::VALUE => Err(Refusal::NotCarried(left)),
        _ => {
            if id > section::VALUE {
                return Err(Refusal::Form(left));
            }
            Ok(id)
        }
    }
}

/// The section at the front, of which the id is the first field.
#[tactic(auto, unfolding(comp_format::specs::Sections::section_at))]
fn section_of(bytes: &[u8]) -> Result<((u8, &[u8]), &[u8]), Refusal>
    ensures { Gives (λ x. ((x.0.0, x.0.1.now), x.1.now)) result (section_at bytes.now) }
{
    match bytes {
        [] => Err(Refusal::Form(0)),
        [id, ..] => {
            let _carried = carried_id(*id, bytes.len())?;
            frame_of(bytes)
        }
    }
}

/// Adds the items of a section that holds no component. `at` bytes are left where the section begins.
#[tactic(auto, unfolding(comp_format::specs::Sections::content_at, comp_format::specs::Sections::content_with, comp_format::specs::Sections::behind_at))]
fn push_section<'a>(
    alloc: Global,
    scopes: u8,
    at: usize,
    id: u8,
    content: &'a [u8],
    items: &mut Vec<Item<'a>>,
) -> Result<(), Refusal>
    requires { id ≢ 4 }
    ensures { Adds result (content_at scopes id content.now) (map item_tree items.old.items)
        (map item_tree items.new.items) }
{
    match id {
        section::CUSTOM => {
            let (name, bytes) = any_name_of(alloc, content)?;
            items.push(Item::Custom { name, bytes })?;
        }
        section::CORE_MODULE => {
            if !content.starts_with(&CORE_HEADER) {
                return Err(Refusal::Form(content.len()));
            }
            items.push(Item::CoreModule { bytes: content })?;
        }
        section::CORE_INSTANCE => push_all(
            items,
            whole_of::<CoreInstance>(alloc, scopes, content)?,
        )?,
        section::CORE_TYPE => push_all(items, whole_of::<CoreType>(alloc, scopes, content)?)?,
        section::INSTANCE => push_all(items, whole_of::<InstanceItem>(alloc, scopes, content)?)?,
        section::ALIAS => push_all(items, whole_of::<Alias>(alloc, scopes, content)?)?,
        section::TYPE => push_all(items, whole_of::<DefType>(alloc, scopes, content)?)?,
        section::CANON => push_all(items, whole_of::<Canon>(alloc, scopes, content)?)?,
        section::START => return Err(Refusal::NotCarried(at)),
        section::IMPORT => push_all(items, whole_of::<ReadImport>(alloc, scopes, content)?)?,
        section::EXPORT => push_all(items, whole_of::<ReadExport>(alloc, scopes, content)?)?,
        section::VALUE => return Err(Refusal::NotCarried(at)),
        _ => return Err(Refusal::Form(at)),
    }
    Ok(())
}

/// The refusal of bytes that do not begin with the header of a component.
pub fn no_header(bytes: &[u8]) -> Refusal
    ensures { (left : ℕ) × (result ≡ Refusal.Form left) }
{
    let magic = bytes.starts_with(&MAGIC);
    let left = bytes.len();
    Refusal::Form(if magic {
        left.saturating_sub(MAGIC.len())
    } else {
        left
    })
}

/// The items of a component in which at most so many scopes are open at one place, itself among them.
#[cycle(reading_items)]
#[tactic(auto, using(crate::proofs::ItemLaws::component_is), unfolding(comp_format::specs::Sections::headed_at, comp_format::specs::Sections::behind_at))]
fn items_of(alloc: Global, scopes: u8, bytes: &[u8]) -> Result<Vec<Item<'_>>, Refusal>
    ensures { Gives (λ items. map item_tree items.items) result (component_items scopes bytes.now) }
{
    if scopes == 0 {
        return Err(Refusal::Memory);
    }
    if !bytes.starts_with(&HEADER) {
        return Err(no_header(bytes));
    }
    sections_of(alloc, scopes - 1, &bytes[HEADER.len()..])
}

/// The items of sections, to the end of the bytes.
#[cycle(reading_items)]
fn sections_of(alloc: Global, scopes: u8, bytes: &[u8]) -> Result<Vec<Item<'_>>, Refusal>
    ensures { Gives (λ items. map item_tree items.items) result (sections_items scopes bytes.now) }
{
    let mut items = Vec::new(alloc);
    let mut rest = bytes;
    while !rest.is_empty() {
        let ((id, content), after) = section_of(rest)?;
        let at = rest.len().saturating_sub(after.len());
        match any_section(alloc, scopes, at, id, content, &mut items) {
            Ok(()) => {}
            Err(error) => return Err(error.before(after.len())),
        }
        rest = after;
    }
    Ok(items)
}

/// Adds the items of a section. `at` bytes are left where the section begins.
#[cycle(reading_items)]
#[tactic(auto, using(crate::proofs::ItemLaws::nested_adds, crate::proofs::ItemLaws::nested_fails))]
fn any_section<'a>(
    alloc: Global,
    scopes: u8,
    at: usize,
    id: u8,
    content: &'a [u8],
    items: &mut Vec<Item<'a>>,
) -> Result<(), Refusal>
    ensures { Adds result (content_at scopes id content.now) (map item_tree items.old.items)
        (map item_tree items.new.items) }
{
    if id != section::COMPONENT {
        return push_section(alloc, scopes, at, id, content, items);
    }
    let _inner = items_of(alloc, scopes, content)?;
    items.push(Item::Component { bytes: content })?;
    Ok(())
}

/// The items of a component, in the order of its bytes. A custom section's bytes, a core module and a nested component
/// are slices of `bytes`; nested components are read too, to any depth (`Binary.md`, "Component Definitions").
///
/// `NotCarried` is answered where the first field in reading order that has no form here is of a form that is not
/// carried, and `Form` where it is of no form at all, each with the place of that field in bytes from the start. The id
/// of a section is its first field. At most 200 scopes are followed at one place: components, and types of components,
/// instances and modules. Where more are open, `Memory` is answered: each takes some of the machine's stack.
pub fn read_items(alloc: Global, bytes: &[u8]) -> Result<Vec<Item<'_>>, ReadError>
    ensures found { IfOk result (λ items. Reads bytes.now (map item_tree items.items)) }
    ensures only { (items : List ItemTree) → Reads bytes.now items
        → MatchResult result (λ v. map item_tree v.items ≡ items) (λ e. e ≡ ReadError.Memory) }
    ensures form { (at : ℕ) → result ≡ Err (ReadError.Form at) → component_at 200 bytes.now ≡ Err no_form }
    ensures not_carried { (at : ℕ) → result ≡ Err (ReadError.NotCarried at)
        → component_at 200 bytes.now ≡ Err not_carried }
{
    match items_of(alloc, SCOPES, bytes) {
        Ok(items) => Ok(items),
        Err(error) => Err(error.placed(bytes.len())),
    }
}
