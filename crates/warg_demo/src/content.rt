//! The contents of releases.

ghost use Rattle.std.specs.Prelude.{◌≡◌, ◌<◌, ◌++◌, length, map, IfOk, OnOk, string_bytes};
ghost use Rattle.comp_format.specs.declared.types.Sort.TheVariants as sort;
ghost use Rattle.comp_format.specs.Views.{instance_type_tree};
ghost use Rattle.comp_encoder.specs.Builder.{entries_of};
ghost use Rattle.comp_encoder.specs.Writing.{Single, next_index};
ghost use Rattle.warg_demo.specs.Content.{content_of, exporting, import_items, need_items, need_name, package_name, rest_items, version_text};

use comp_encoder::ComponentBuilder;
use comp_format::{
    DefType, EncodeError, FuncType, InstanceType, Item, Primitive, Sort, TypeRef, ValType,
};
use std::alloc::{AllocError, Global};
use warg_values::{Sequence, Text};

/// The name of the package with this number.
pub fn package_name(alloc: Global, number: u64) -> Result<String, AllocError>
    ensures { IfOk result (λ name. string_bytes name ≡ package_name number) }
{
    format!(in alloc; "demo:p{number}")
}

/// The version that so many others of its package precede.
pub fn version_text(alloc: Global, minor: u64) -> Result<String, AllocError>
    ensures { IfOk result (λ text. string_bytes text ≡ version_text minor) }
{
    format!(in alloc; "1.{minor}.0")
}

/// The name of an import of any release of a package.
fn need_name(alloc: Global, number: u64) -> Result<String, AllocError>
    ensures { IfOk result (λ name. string_bytes name ≡ need_name number) }
{
    format!(in alloc; "unlocked-dep=<demo:p{number}@{{>=1.0.0}}>")
}

/// The type of instances that export a function of this name, which has no parameters and gives a `u64`.
fn exporting(alloc: Global, name: &str) -> Result<InstanceType, EncodeError>
    ensures { IfOk result (λ ty. instance_type_tree ty ≡ exporting name.now) }
{
    let function = FuncType {
        params: Sequence::new(alloc),
        result: Some(ValType::Primitive(Primitive::U64)),
    };
    let mut ty = InstanceType::new(alloc);
    ty.ty(alloc, DefType::Func(function))?;
    ty.export(alloc, name, TypeRef::Func(0))?;
    Ok(ty)
}

/// Adds an import of an instance that exports such a function, behind its type.
fn add_import(
    alloc: Global,
    builder: &mut ComponentBuilder,
    name: &str,
    function: &str,
) -> Result<(), EncodeError>
    requires name { 0 < length name.now }
    requires function { 0 < length function.now }
    ensures { OnOk result (entries_of builder.new ≡ entries_of builder.old
        ++ map Single (import_items (next_index sort.Ty (entries_of builder.old)) name.now function.now)) }
{
    let ty = exporting(alloc, function)?;
    let index = builder.type_instance(alloc, &ty)?;
    builder.import(alloc, name, &TypeRef::Instance(index))?;
    Ok(())
}

/// Adds the imports of what is needed.
fn add_needs(
    alloc: Global,
    builder: &mut ComponentBuilder,
    needs: &[u64],
) -> Result<(), EncodeError>
    ensures { OnOk result (entries_of builder.new ≡ entries_of builder.old
        ++ map Single (need_items (next_index sort.Ty (entries_of builder.old)) needs.now)) }
{
    for need in needs {
        let name = need_name(alloc, *need)?;
        add_import(alloc, builder, &name, "get")?;
    }
    Ok(())
}

/// Adds the clock's function under another name, and a version.
fn add_rest(alloc: Global, builder: &mut ComponentBuilder, version: &str) -> Result<(), EncodeError>
    ensures { OnOk result (entries_of builder.new ≡ entries_of builder.old ++ map Single (rest_items version.now)) }
{
    builder.alias_export(alloc, 0, "now", Sort::Func)?;
    builder.export(alloc, "get", Sort::Func, 0, None)?;
    let name = Text::copy_of(alloc, "version")?;
    let bytes = version.as_bytes();
    builder.push_item(alloc, &Item::Custom { name, bytes })?;
    Ok(())
}

/// The content of a release of this version, whose package needs these others.
pub fn content_of(alloc: Global, needs: &[u64], version: &str) -> Result<Vec<u8>, EncodeError>
    ensures { IfOk result (λ bytes. bytes.items ≡ content_of needs.now version.now) }
{
    let mut builder = ComponentBuilder::new(alloc);
    add_import(alloc, &mut builder, "demo:env/clock@1.0.0", "now")?;
    add_needs(alloc, &mut builder, needs)?;
    add_rest(alloc, &mut builder, version)?;
    builder.finish(alloc)
}
