//! What the builder writes, against bytes that were written out by hand from the tables of the Component Model's
//! `Binary.md`.

ghost use Rattle.std.specs.Prelude.{IfOk, true, false};
ghost use Rattle.comp_format.specs.Views.{module_tree, instance_type_tree, component_type_tree};
ghost use Rattle.comp_format.specs.Forms.{IsDefined, IsFunc, AreDecls, AreModuleDecls};

use crate::reader::READ;
use comp_encoder::ComponentBuilder;
use comp_encoder::laws::what_is_read_can_be_written;
use comp_format::section::{self, HEADER};
use comp_format::{
    Alias, Arg, ComponentType, CoreDesc, CoreSort, CoreType, CoreVal, DefType, DefinedType,
    EncodeError, FuncType, InstanceType, Limits, ModuleType, Primitive, Sort, TypeRef, ValType,
};
use comp_reader::read_items;
use std::alloc::Global;
use std::test::Fail;
use warg_values::{Memory, Sequence, Text};

/// Adds a component without sections.
fn add_empty(alloc: Global, builder: &mut ComponentBuilder) -> Result<u32, EncodeError> {
    builder.component_raw(alloc, &HEADER)
}

/// A function of one parameter.
fn one_parameter(alloc: Global) -> Result<FuncType, Memory>
    ensures { IfOk result IsFunc }
{
    let mut params = Sequence::new(alloc);
    params.push((Text::copy_of(alloc, "p")?, ValType::Index(64)))?;
    let result = Some(ValType::Primitive(Primitive::Bool));
    Ok(FuncType { params, result })
}

/// A record of two fields.
fn two_fields(alloc: Global) -> Result<DefinedType, Memory>
    ensures { IfOk result IsDefined }
{
    let mut fields = Sequence::new(alloc);
    fields.push((
        Text::copy_of(alloc, "a")?,
        ValType::Primitive(Primitive::U32),
    ))?;
    fields.push((Text::copy_of(alloc, "b")?, ValType::Index(3)))?;
    Ok(DefinedType::RecordOf(fields))
}

/// A tuple of one part.
fn one_part(alloc: Global) -> Result<DefinedType, Memory>
    ensures { IfOk result IsDefined }
{
    let mut parts = Sequence::new(alloc);
    parts.push(ValType::Primitive(Primitive::S8))?;
    Ok(DefinedType::TupleOf(parts))
}

/// A type of instances with a declaration of each kind.
fn instance_type(alloc: Global) -> Result<InstanceType, EncodeError>
    ensures { IfOk result (λ ty. AreDecls false (instance_type_tree ty)) }
{
    let mut ty = InstanceType::new(alloc);
    ty.ty(
        alloc,
        DefType::Defined(DefinedType::Primitive(Primitive::U8)),
    )?;
    let (sort, count, index) = (Sort::Ty, 1, 2);
    ty.alias(alloc, Alias::Outer { sort, count, index })?;
    let (params, results) = (Sequence::new(alloc), Sequence::new(alloc));
    ty.core_ty(alloc, CoreType::Func { params, results })?;
    ty.export(alloc, "t", TypeRef::TyEqual(0))?;
    Ok(ty)
}

/// A type of components with a declaration of each kind.
fn component_type(alloc: Global) -> Result<ComponentType, EncodeError>
    ensures { IfOk result (λ ty. AreDecls true (component_type_tree ty)) }
{
    let mut ty = ComponentType::new(alloc);
    ty.import(alloc, "i", TypeRef::TyFresh)?;
    ty.ty(alloc, DefType::Defined(DefinedType::Borrow(0)))?;
    ty.core_ty(alloc, CoreType::Module(ModuleType::new(alloc)))?;
    let (sort, count, index) = (Sort::Core(CoreSort::Ty), 0, 0);
    ty.alias(alloc, Alias::Outer { sort, count, index })?;
    ty.export(alloc, "e", TypeRef::Instance(4))?;
    Ok(ty)
}

/// A type of core modules with a declaration of each kind.
fn module_type(alloc: Global) -> Result<ModuleType, EncodeError>
    ensures { IfOk result (λ ty. AreModuleDecls (module_tree ty)) }
{
    let mut ty = ModuleType::new(alloc);
    let mut params = Sequence::new(alloc);
    params.push(CoreVal::V7f)?;
    let results = Sequence::new(alloc);
    ty.core_ty(alloc, CoreType::Func { params, results })?;
    ty.alias(alloc, 1, 5)?;
    ty.import(alloc, "m", "n", CoreDesc::Func(0))?;
    let (value, mutable) = (CoreVal::V7e, true);
    ty.export(alloc, "", CoreDesc::Global { value, mutable })?;
    Ok(ty)
}

/// Adds a section of two types, in a padded spelling.
fn add_padded(alloc: Global, builder: &mut ComponentBuilder) -> Result<(), EncodeError> {
    builder.raw_section(alloc, section::TYPE, &[0x82, 0x00, 0x7f, 0x7e])
}

/// What a builder writes behind the header, in hexadecimal digits.
fn sections(alloc: Global, builder: ComponentBuilder) -> Result<String, Fail> {
    let bytes = builder.finish(alloc)?;
    let digits = hex::encode(alloc, bytes.get(HEADER.len()..).unwrap_or(&[]))?;
    Ok(digits)
}

/// Fails where a builder writes other sections than these, in hexadecimal digits.
fn writes(alloc: Global, builder: ComponentBuilder, want: &str) -> Result<(), Fail> {
    let written = sections(alloc, builder)?;
    if written.as_str() != want {
        return Err(Fail::new(format_args!("{written} is written")));
    }
    Ok(())
}

/// Adds a type of values, which it takes, since a caller that keeps one drops it on each way out.
fn add_type(
    alloc: Global,
    builder: &mut ComponentBuilder,
    ty: DefinedType,
) -> Result<u32, EncodeError>
    requires { IsDefined ty }
{
    builder.type_defined(alloc, &ty)
}

/// Adds a type of instances.
fn add_instance_type(
    alloc: Global,
    builder: &mut ComponentBuilder,
    ty: InstanceType,
) -> Result<u32, EncodeError>
    requires { AreDecls false (instance_type_tree ty) }
{
    builder.type_instance(alloc, &ty)
}

/// Adds a type of components.
fn add_component_type(
    alloc: Global,
    builder: &mut ComponentBuilder,
    ty: ComponentType,
) -> Result<u32, EncodeError>
    requires { AreDecls true (component_type_tree ty) }
{
    builder.type_component(alloc, &ty)
}

/// Adds a type of core modules.
fn add_module_type(
    alloc: Global,
    builder: &mut ComponentBuilder,
    ty: ModuleType,
) -> Result<u32, EncodeError>
    requires { AreModuleDecls (module_tree ty) }
{
    builder.core_type_module(alloc, &ty)
}

#[test]
fn nested_components_have_sections_of_their_own(rt: HostRuntime) -> Result<(), Fail> {
    let mut builder = ComponentBuilder::new(rt.alloc());
    let numbers = [
        add_empty(rt.alloc(), &mut builder)?,
        add_empty(rt.alloc(), &mut builder)?,
    ];
    assert!(rt; numbers == [0, 1]);
    writes(
        rt.alloc(),
        builder,
        "04080061736d0d00010004080061736d0d000100",
    )
}

/// Adds an instance with an argument and one without; gives their numbers and how many there are.
fn add_instances(alloc: Global, builder: &mut ComponentBuilder) -> Result<[u32; 3], EncodeError> {
    let (name, sort, index) = (Text::copy_of(alloc, "a")?, Sort::Func, 2);
    let args = [Arg { name, sort, index }];
    let first = builder.instantiate(alloc, 1, &args)?;
    let second = builder.instantiate(alloc, 200, &[])?;
    Ok([first, second, builder.instance_count()])
}

#[test]
fn neighbouring_instances_share_a_section(rt: HostRuntime) -> Result<(), Fail> {
    let mut builder = ComponentBuilder::new(rt.alloc());
    assert!(rt; add_instances(rt.alloc(), &mut builder)? == [0, 1, 2]);
    writes(rt.alloc(), builder, "050c020001010161010200c80100")
}

/// Adds an alias of an export and an outer one; gives their numbers and how many types there are.
fn add_aliases(alloc: Global, builder: &mut ComponentBuilder) -> Result<[u32; 3], EncodeError> {
    let module = builder.alias_export(alloc, 3, "ab", Sort::Core(CoreSort::Module))?;
    let ty = builder.alias_outer(alloc, 1, 2, Sort::Ty)?;
    Ok([module, ty, builder.type_count()])
}

#[test]
fn aliases_share_a_section(rt: HostRuntime) -> Result<(), Fail> {
    let mut builder = ComponentBuilder::new(rt.alloc());
    assert!(rt; add_aliases(rt.alloc(), &mut builder)? == [0, 0, 1]);
    writes(rt.alloc(), builder, "060c020011000302616203020102")
}

/// Adds two imports and two exports; gives their numbers.
fn add_externs(alloc: Global, builder: &mut ComponentBuilder) -> Result<[u32; 4], EncodeError> {
    Ok([
        builder.import(alloc, "a", &TypeRef::TyFresh)?,
        builder.import(alloc, "b", &TypeRef::Module(1))?,
        builder.export(alloc, "c", Sort::Ty, 0, None)?,
        builder.export(alloc, "d", Sort::Ty, 0, Some(&TypeRef::TyEqual(0)))?,
    ])
}

#[test]
fn imports_and_exports_share_with_their_own_kind(rt: HostRuntime) -> Result<(), Fail> {
    let mut builder = ComponentBuilder::new(rt.alloc());
    assert!(rt; add_externs(rt.alloc(), &mut builder)? == [0, 0, 1, 2]);
    writes(
        rt.alloc(),
        builder,
        "0a0c0200016103010001620011010b1002000163030000000164030001030000",
    )
}

/// Adds types about an import; gives their numbers and how many types there are.
fn add_types_about_an_import(
    alloc: Global,
    builder: &mut ComponentBuilder,
) -> Result<[u32; 5], EncodeError> {
    let char = add_type(alloc, builder, DefinedType::Primitive(Primitive::Char))?;
    let resource = builder.type_resource(alloc)?;
    let import = builder.import(alloc, "a", &TypeRef::TyEqual(0))?;
    let handle = add_type(alloc, builder, DefinedType::Own(1))?;
    Ok([char, resource, import, handle, builder.type_count()])
}

#[test]
fn types_share_a_section_until_another_kind_comes(rt: HostRuntime) -> Result<(), Fail> {
    let mut builder = ComponentBuilder::new(rt.alloc());
    assert!(rt; add_types_about_an_import(rt.alloc(), &mut builder)? == [0, 1, 2, 3, 4]);
    writes(
        rt.alloc(),
        builder,
        "070502743f7f000a07010001610300000703016901",
    )
}

/// Adds a function.
fn add_function(alloc: Global, builder: &mut ComponentBuilder) -> Result<u32, EncodeError> {
    let ty = one_parameter(alloc)?;
    builder.type_function(alloc, &ty)
}

/// Adds a function, a record and a tuple; gives their numbers.
fn add_types(alloc: Global, builder: &mut ComponentBuilder) -> Result<[u32; 3], EncodeError> {
    let function = add_function(alloc, builder)?;
    let record = add_type(alloc, builder, two_fields(alloc)?)?;
    let tuple = add_type(alloc, builder, one_part(alloc)?)?;
    Ok([function, record, tuple])
}

#[test]
fn functions_records_and_tuples_are_types(rt: HostRuntime) -> Result<(), Fail> {
    let mut builder = ComponentBuilder::new(rt.alloc());
    assert!(rt; add_types(rt.alloc(), &mut builder)? == [0, 1, 2]);
    writes(
        rt.alloc(),
        builder,
        "07140340010170c000007f72020161790162036f017e",
    )
}

/// Adds types of instances, of components and of core modules; gives their numbers.
fn add_built(alloc: Global, builder: &mut ComponentBuilder) -> Result<[u32; 3], EncodeError> {
    let instance = add_instance_type(alloc, builder, instance_type(alloc)?)?;
    let component = add_component_type(alloc, builder, component_type(alloc)?)?;
    let module = add_module_type(alloc, builder, module_type(alloc)?)?;
    Ok([instance, component, module])
}

#[test]
fn types_are_built_by_their_declarations(rt: HostRuntime) -> Result<(), Fail> {
    let mut builder = ComponentBuilder::new(rt.alloc());
    assert!(rt; add_built(rt.alloc(), &mut builder)? == [0, 1, 0]);
    writes(
        rt.alloc(),
        builder,
        "072f024204017d02030201020060000004000174030000410503000169030101680000500002001002000004000165050403190150040160017f00021001010500016d016e00000300037e01",
    )
}

/// Adds a type, a section of two types and another type; gives how many types there are behind the section, and the
/// numbers of the types about it.
fn add_about_a_section(
    alloc: Global,
    builder: &mut ComponentBuilder,
) -> Result<[u32; 3], EncodeError> {
    let before = add_type(alloc, builder, DefinedType::ListOf(ValType::Index(0)))?;
    add_padded(alloc, builder)?;
    let count = builder.type_count();
    let behind = add_type(alloc, builder, DefinedType::OptionOf(ValType::Index(1)))?;
    Ok([before, count, behind])
}

#[test]
fn a_raw_section_keeps_its_spelling_and_counts(rt: HostRuntime) -> Result<(), Fail> {
    let mut builder = ComponentBuilder::new(rt.alloc());
    assert!(rt; add_about_a_section(rt.alloc(), &mut builder)? == [0, 3, 3]);
    writes(rt.alloc(), builder, "0703017000070482007f7e0703016b01")
}

/// A variant of a case with a value and a case without one.
fn two_cases(alloc: Global) -> Result<DefinedType, Memory>
    ensures { IfOk result IsDefined }
{
    let mut cases = Sequence::new(alloc);
    cases.push((
        Text::copy_of(alloc, "a")?,
        Some(ValType::Primitive(Primitive::U8)),
    ))?;
    cases.push((Text::copy_of(alloc, "b")?, None))?;
    Ok(DefinedType::VariantOf(cases))
}

/// Two flags.
fn two_flags(alloc: Global) -> Result<DefinedType, Memory>
    ensures { IfOk result IsDefined }
{
    let mut labels = Sequence::new(alloc);
    labels.push(Text::copy_of(alloc, "a")?)?;
    labels.push(Text::copy_of(alloc, "b")?)?;
    Ok(DefinedType::FlagsOf(labels))
}

/// An enumeration of two cases.
fn two_names(alloc: Global) -> Result<DefinedType, Memory>
    ensures { IfOk result IsDefined }
{
    let mut labels = Sequence::new(alloc);
    labels.push(Text::copy_of(alloc, "a")?)?;
    labels.push(Text::copy_of(alloc, "b")?)?;
    Ok(DefinedType::EnumOf(labels))
}

/// A type of instances with an alias of what an instance exports.
fn alias_type(alloc: Global) -> Result<InstanceType, EncodeError>
    ensures { IfOk result (λ ty. AreDecls false (instance_type_tree ty)) }
{
    let mut ty = InstanceType::new(alloc);
    let (sort, instance, name) = (Sort::Ty, 2, Text::copy_of(alloc, "t")?);
    ty.alias(
        alloc,
        Alias::Export {
            sort,
            instance,
            name,
        },
    )?;
    Ok(ty)
}

/// A type of core modules with a memory, a table and a global that does not change.
fn memory_type(alloc: Global) -> Result<ModuleType, EncodeError>
    ensures { IfOk result (λ ty. AreModuleDecls (module_tree ty)) }
{
    let mut ty = ModuleType::new(alloc);
    let (min, max) = (1, Some(2));
    ty.export(alloc, "m", CoreDesc::Memory(Limits { min, max }))?;
    let (element, limits) = (CoreVal::V70, Limits { min, max: None });
    ty.import(alloc, "a", "b", CoreDesc::Table { element, limits })?;
    let (value, mutable) = (CoreVal::V7c, false);
    ty.export(alloc, "g", CoreDesc::Global { value, mutable })?;
    Ok(ty)
}

/// Adds types without parts, a list and handles.
fn add_values(alloc: Global, builder: &mut ComponentBuilder) -> Result<(), EncodeError> {
    add_type(alloc, builder, DefinedType::Primitive(Primitive::Bool))?;
    add_type(alloc, builder, DefinedType::Primitive(Primitive::Text))?;
    add_type(alloc, builder, DefinedType::ListOf(ValType::Index(64)))?;
    add_type(alloc, builder, DefinedType::Own(128))?;
    add_type(alloc, builder, DefinedType::Borrow(5))?;
    Ok(())
}

#[test]
fn types_of_values_are_written_by_their_bytes(rt: HostRuntime) -> Result<(), Fail> {
    let mut builder = ComponentBuilder::new(rt.alloc());
    add_values(rt.alloc(), &mut builder)?;
    writes(rt.alloc(), builder, "070b057f7370c0006980016805")
}

/// Adds an option, and results with a value and with an error.
fn add_results(alloc: Global, builder: &mut ComponentBuilder) -> Result<(), EncodeError> {
    let (s32, u64) = (
        ValType::Primitive(Primitive::S32),
        ValType::Primitive(Primitive::U64),
    );
    add_type(alloc, builder, DefinedType::OptionOf(s32))?;
    let (ok, err) = (Some(s32), None);
    add_type(alloc, builder, DefinedType::ResultOf { ok, err })?;
    let (ok, err) = (None, Some(u64));
    add_type(alloc, builder, DefinedType::ResultOf { ok, err })?;
    Ok(())
}

#[test]
fn options_and_results_are_written_with_their_flags(rt: HostRuntime) -> Result<(), Fail> {
    let mut builder = ComponentBuilder::new(rt.alloc());
    add_results(rt.alloc(), &mut builder)?;
    writes(rt.alloc(), builder, "070b036b7a6a017a006a000177")
}

/// Adds a variant, flags and an enumeration.
fn add_labelled(alloc: Global, builder: &mut ComponentBuilder) -> Result<(), EncodeError> {
    add_type(alloc, builder, two_cases(alloc)?)?;
    add_type(alloc, builder, two_flags(alloc)?)?;
    add_type(alloc, builder, two_names(alloc)?)?;
    Ok(())
}

#[test]
fn labels_are_written_with_what_stands_behind_them(rt: HostRuntime) -> Result<(), Fail> {
    let mut builder = ComponentBuilder::new(rt.alloc());
    add_labelled(rt.alloc(), &mut builder)?;
    writes(
        rt.alloc(),
        builder,
        "07180371020161017d00016200006e02016101626d0201610162",
    )
}

/// Adds types without declarations, a type with an alias and a type of core modules.
fn add_small(alloc: Global, builder: &mut ComponentBuilder) -> Result<(), EncodeError> {
    add_component_type(alloc, builder, ComponentType::new(alloc))?;
    add_instance_type(alloc, builder, InstanceType::new(alloc))?;
    add_instance_type(alloc, builder, alias_type(alloc)?)?;
    add_module_type(alloc, builder, memory_type(alloc)?)?;
    Ok(())
}

#[test]
fn types_without_declarations_and_aliases_are_written(rt: HostRuntime) -> Result<(), Fail> {
    let mut builder = ComponentBuilder::new(rt.alloc());
    add_small(rt.alloc(), &mut builder)?;
    writes(
        rt.alloc(),
        builder,
        "070d03410042004201020300020174031901500303016d02010102000161016201700001030167037c00",
    )
}

/// Sections in hexadecimal digits, and the sections that hold the same items where each is added again.
const JOINED: &[&str] = &[
    "08030102070803010308 = 08050202070308",
    "02030101000203010100 = 02050201000100",
    "0702017f0003016100070201730702017d = 0702017f0003016100070302737d",
    "0004016e01020004016e0102 = 0004016e01020004016e0102",
];

/// A component written again from its items.
fn written_again(alloc: Global, bytes: &[u8]) -> Result<ComponentBuilder, Fail> {
    what_is_read_can_be_written();
    let items = read_items(alloc, bytes)?;
    let mut builder = ComponentBuilder::new(alloc);
    for item in &items {
        builder.push_item(alloc, item)?;
    }
    Ok(builder)
}

/// Fails where the items of sections are written again as other sections than these, in hexadecimal digits.
fn writes_again(alloc: Global, given: &str, want: &str) -> Result<(), Fail> {
    let mut bytes = Vec::from_slice(alloc, &HEADER)?;
    bytes.extend_from_slice(&hex::decode(alloc, given)?)?;
    writes(alloc, written_again(alloc, &bytes)?, want)
}

/// Fails at the first spelling that is not written again as the first of them.
fn writes_the_first(alloc: Global, spellings: &str) -> Result<(), Fail> {
    let (first, _) = spellings.split_once(' ').unwrap_or((spellings, ""));
    for given in spellings.split(' ') {
        writes_again(alloc, given, first)?;
    }
    Ok(())
}

/// Fails at the first row of which a spelling is not written again in the shortest.
fn are_written_shortest(alloc: Global, rows: &[&str]) -> Result<(), Fail> {
    for row in rows {
        let (spellings, _) = row.split_once(" = ").unwrap_or((row, ""));
        writes_the_first(alloc, spellings)?;
    }
    Ok(())
}

#[test]
fn writes_each_item_that_was_read_in_its_shortest_spelling(rt: HostRuntime) -> Result<(), Fail> {
    are_written_shortest(rt.alloc(), READ)
}

/// Fails at the first row whose items are not written again as it says.
fn are_joined(alloc: Global, rows: &[&str]) -> Result<(), Fail> {
    for row in rows {
        let (given, want) = row.split_once(" = ").unwrap_or((row, ""));
        writes_again(alloc, given, want)?;
    }
    Ok(())
}

#[test]
fn items_that_were_read_join_their_neighbours(rt: HostRuntime) -> Result<(), Fail> {
    are_joined(rt.alloc(), JOINED)
}
