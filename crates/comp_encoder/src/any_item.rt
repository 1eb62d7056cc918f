//! Any item as its bytes, whatever its kind: what was read is written again.

ghost use Rattle.std.specs.Prelude.{◌≡◌, ◌++◌, ◌<◌, ℕ, [], length, max, true, OnOk, IfOk, MatchOption};
ghost use Rattle.std.specs.Str.{IsUtf8};
ghost use Rattle.comp_format.specs.Vectors.{vector_text};
ghost use Rattle.comp_format.specs.Parts.{core_arg_text, core_member_text, core_instance_text, member_text, instance_text};
ghost use Rattle.comp_format.specs.Canons.{option_text, canon_text};
ghost use Rattle.comp_format.specs.Items.{item_tree, import_text, export_text};
ghost use Rattle.comp_format.specs.Fits.{FitsItem};
ghost use Rattle.comp_encoder.specs.Largest.{option_largest};
ghost use Rattle.comp_encoder.specs.Writing.{is_shared, is_plain, item_id, item_text};
ghost use Rattle.comp_encoder.specs.Builder.{IsBytesOf};

use crate::core_types::write_core;
use crate::definitions::{write_alias, write_type};
use crate::parts::{
    Encode, code_of, write_description, write_marked, write_optional, write_sort, write_vector,
};
use crate::sink::Sink;
use comp_format::{
    Arg, Canon, CanonOption, CoreInstance, CoreSort, InstanceItem, Item, Sort, TypeRef, section,
};
use warg_values::{Memory, Text};

impl Encode for (Text, u32) {
    ghost text = { core_arg_text };

    ghost largest = { λ arg. max (length arg.0) arg.1 };

    ghost texts = { λ arg. IsUtf8 arg.0 };

    fn encode(&self, out: &mut Sink) -> Result<(), Memory> {
        out.write_name(self.0.as_str())?;
        write_marked(out, &[0x12], self.1)?;
        Ok(())
    }
}

impl Encode for (Text, CoreSort, u32) {
    ghost text = { core_member_text };

    ghost largest = { λ member. max (length member.0) member.2 };

    ghost texts = { λ member. IsUtf8 member.0 };

    fn encode(&self, out: &mut Sink) -> Result<(), Memory> {
        out.write_name(self.0.as_str())?;
        write_marked(out, &[code_of(self.1)], self.2)?;
        Ok(())
    }
}

impl Encode for CanonOption {
    ghost text = { option_text };

    ghost largest = { option_largest };

    ghost texts = { λ option. Unit {0} };

    fn encode(&self, out: &mut Sink) -> Result<(), Memory> {
        match *self {
            CanonOption::Encoding(code) => out.write(&[code])?,
            CanonOption::Memory(index) => write_marked(out, &[3], index)?,
            CanonOption::Realloc(index) => write_marked(out, &[4], index)?,
            CanonOption::PostReturn(index) => write_marked(out, &[5], index)?,
        }
        Ok(())
    }
}

/// How many items stand under names of exports, and the items.
fn write_members(out: &mut Sink, members: &[Arg]) -> Result<(), Memory>
    ensures { OnOk result (out.new.bytes.items ≡ out.old.bytes.items ++ vector_text member_text members.now) }
{
    out.write_number(members.len() as u64)?;
    for member in members {
        out.write(&[0])?;
        member.encode(out)?;
    }
    Ok(())
}

/// A core instance.
fn write_core_instance(out: &mut Sink, instance: &CoreInstance) -> Result<(), Memory>
    ensures { OnOk result (out.new.bytes.items ≡ out.old.bytes.items ++ core_instance_text instance.now) }
{
    match instance {
        CoreInstance::Instantiate { module, args } => {
            write_marked(out, &[0], *module)?;
            write_vector(out, args.as_slice())?;
        }
        CoreInstance::Exports(members) => {
            out.write(&[1])?;
            write_vector(out, members.as_slice())?;
        }
    }
    Ok(())
}

/// An instance.
fn write_instance(out: &mut Sink, instance: &InstanceItem) -> Result<(), Memory>
    ensures { OnOk result (out.new.bytes.items ≡ out.old.bytes.items ++ instance_text instance.now) }
{
    match instance {
        InstanceItem::Instantiate { component, args } => {
            write_marked(out, &[0], *component)?;
            write_vector(out, args.as_slice())?;
        }
        InstanceItem::Exports(members) => {
            out.write(&[1])?;
            write_members(out, members.as_slice())?;
        }
    }
    Ok(())
}

/// A function between core and component functions, or one on resources.
fn write_canon(out: &mut Sink, canon: &Canon) -> Result<(), Memory>
    ensures { OnOk result (out.new.bytes.items ≡ out.old.bytes.items ++ canon_text canon.now) }
{
    match canon {
        Canon::Lift { func, options, ty } => {
            write_marked(out, &[0, 0], *func)?;
            write_vector(out, options.as_slice())?;
            out.write_number(*ty as u64)?;
        }
        Canon::Lower { func, options } => {
            write_marked(out, &[1, 0], *func)?;
            write_vector(out, options.as_slice())?;
        }
        Canon::ResourceNew(ty) => write_marked(out, &[2], *ty)?,
        Canon::ResourceDrop(ty) => write_marked(out, &[3], *ty)?,
        Canon::ResourceRep(ty) => write_marked(out, &[4], *ty)?,
    }
    Ok(())
}

/// An import.
fn write_import(out: &mut Sink, name: &Text, ty: TypeRef) -> Result<(), Memory>
    ensures { OnOk result
        (out.new.bytes.items ≡ out.old.bytes.items ++ import_text (record { name = name.now; ty = ty })) }
{
    out.write(&[0])?;
    out.write_name(name.as_str())?;
    write_description(out, ty)?;
    Ok(())
}

/// An export.
fn write_export(
    out: &mut Sink,
    name: &Text,
    sort: Sort,
    index: u32,
    ty: Option<TypeRef>,
) -> Result<(), Memory>
    ensures { OnOk result
        (out.new.bytes.items
        ≡ out.old.bytes.items ++ export_text (record { name = name.now; sort = sort; index = index; ty = ty })) }
{
    out.write(&[0])?;
    out.write_name(name.as_str())?;
    write_sort(out, sort)?;
    out.write_number(index as u64)?;
    write_optional(out, ty)?;
    Ok(())
}

/// Writes an item that shares its section. Of one that has a section of its own it writes what stands in front of the
/// bytes that the item lends, and gives these.
fn write_item<'a>(out: &mut Sink, item: &Item<'a>) -> Result<Option<&'a [u8]>, Memory>
    ensures { IfOk result
        (λ lent.
        MatchOption lent
        ((is_shared (item_id (item_tree item.now)) ≡ true)
        × (out.new.bytes.items ≡ out.old.bytes.items ++ item_text (item_tree item.now)))
        (λ bytes.
        (is_plain (item_id (item_tree item.now)) ≡ true)
        × (out.new.bytes.items ++ bytes.now ≡ out.old.bytes.items ++ item_text (item_tree item.now)))) }
{
    match item {
        Item::Custom { name, bytes } => {
            out.write_name(name.as_str())?;
            return Ok(Some(*bytes));
        }
        Item::CoreModule { bytes } => return Ok(Some(*bytes)),
        Item::CoreInstance(instance) => write_core_instance(out, instance)?,
        Item::CoreTy(ty) => write_core(out, ty)?,
        Item::Component { bytes } => return Ok(Some(*bytes)),
        Item::Instance(instance) => write_instance(out, instance)?,
        Item::Alias(alias) => write_alias(out, alias)?,
        Item::Ty(ty) => write_type(out, ty)?,
        Item::Canon(canon) => write_canon(out, canon)?,
        Item::Import { name, ty } => write_import(out, name, *ty)?,
        Item::Export {
            name,
            sort,
            index,
            ty,
        } => write_export(out, name, *sort, *index, *ty)?,
    }
    Ok(None)
}

/// The id of the section that holds an item.
pub fn section_of(item: &Item<'_>) -> u8
    ensures { result ≡ item_id (item_tree item.now) }
{
    match item {
        Item::Custom { .. } => section::CUSTOM,
        Item::CoreModule { .. } => section::CORE_MODULE,
        Item::CoreInstance(_) => section::CORE_INSTANCE,
        Item::CoreTy(_) => section::CORE_TYPE,
        Item::Component { .. } => section::COMPONENT,
        Item::Instance(_) => section::INSTANCE,
        Item::Alias(_) => section::ALIAS,
        Item::Ty(_) => section::TYPE,
        Item::Canon(_) => section::CANON,
        Item::Import { .. } => section::IMPORT,
        Item::Export { .. } => section::EXPORT,
    }
}

/// An item in a buffer that is given, where it shares its section. Of one that has a section of its own, what stands in
/// front of the bytes that the item lends, and these.
pub fn encode_item<'a>(
    buffer: Vec<u8>,
    item: &Item<'a>,
) -> Result<(Vec<u8>, Option<&'a [u8]>), Memory>
    requires { FitsItem (item_tree item.now) }
    ensures { IfOk result
        (λ written.
        MatchOption written.1
        ((is_shared (item_id (item_tree item.now)) ≡ true)
        × IsBytesOf (item_tree item.now) (item_id (item_tree item.now)) written.0.items)
        (λ lent.
        (is_plain (item_id (item_tree item.now)) ≡ true)
        × IsBytesOf (item_tree item.now) (item_id (item_tree item.now)) (written.0.items ++ lent.now))) }
{
    let mut out = Sink::new(buffer);
    let lent = write_item(&mut out, item)?;
    let Sink { bytes, .. } = out;
    Ok((bytes, lent))
}
