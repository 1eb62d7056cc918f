//! Shapes and link images of components, and why others have none, with the place. The rows were written by hand from the
//! tables of the Component Model's `Binary.md` and the rules of its `Explainer.md`.

use comp_format::section::HEADER;
use comp_shape::{Entity, Shape, read_image, read_shape};
use indexmap::IndexSet;
use std::alloc::Global;
use std::test::Fail;
use warg_values::Text;

/// Sections in hexadecimal digits, and the shape of the component written out.
const SHAPES: &[(&str, &str)] = &[
    ("", "Shape { imports: [], exports: [] }"),
    // Two numbers, exported as a tuple.
    (
        "0705016f0279790b0701000174030000",
        "Shape { imports: [], exports: [(Text { text: \"t\" }, Ty(Value(TupleOf([Primitive(U32), Primitive(U32)]))))] }",
    ),
    // One truth value under two names.
    (
        "0702017f0b0d02000161030000000162030100",
        "Shape { imports: [], exports: [(Text { text: \"a\" }, Ty(Value(Primitive(Bool)))), (Text { text: \"b\" }, Ty(Value(Primitive(Bool))))] }",
    ),
    // A function without parameters that gives a text.
    (
        "070501400000730a06010001660100",
        "Shape { imports: [(Text { text: \"f\" }, Func(FuncShape { params: [], result: Some(Primitive(Text)) }))], exports: [] }",
    ),
    // A core module that exports a memory of one page or more.
    (
        "030901500103016d0200010a070100016d001100",
        "Shape { imports: [(Text { text: \"m\" }, Module(ModuleShape { imports: Sequence { items: [] }, exports: Sequence { items: [(Text { text: \"m\" }, Memory(Limits { min: 1, max: None }))] } }))], exports: [] }",
    ),
    // A component that is nested.
    (
        "04080061736d0d0001000b0701000163040000",
        "Shape { imports: [], exports: [(Text { text: \"c\" }, Component(ComponentShape { imports: [], exports: [] }))] }",
    ),
];

/// Sections in hexadecimal digits, and the names of what the component imports, then of what it exports; or the error.
const NAMES: &[(&str, &str)] = &[
    // A function mentions a record that has no name; then the record is imported first.
    ("070a027201016179400000000a06010001660101", "Index(23)"),
    (
        "07060172010161790a0701000172030000070501400000010a06010001660102",
        "r f ->",
    ),
    // A tuple without parts, a start section, values, an unknown section, and lengths that pass the end.
    ("0702016d", "Form(12)"),
    ("090100", "NotCarried(8)"),
    ("0c05", "NotCarried(8)"),
    ("0d00", "Form(8)"),
    ("09010007ff", "NotCarried(8)"),
    ("07ff090100", "Form(9)"),
    // A custom section adds nothing.
    ("0004016e0102", "->"),
    // A core instance takes another one under the empty name, and two under one name; its exports may have any names.
    ("01080061736d010000000209020100000001001200", "->"),
    (
        "020301010001080061736d01000000020c010000020161120001611200",
        "->",
    ),
    ("0203010100060701000001000166", "->"),
    // A record of an enum without a name is exported.
    ("070a026d01016572010161000b0701000174030100", "-> t"),
    // A type that makes a resource of its own enters a type of components by an outer alias.
    ("071002420104000172030141010203020100", "Index(19)"),
    // A function is exported under a description, after the enum that it gives.
    (
        "0709026d0101654000000001080061736d0100000002040100000006070100000100016608060100000000010b0701000165030000070501400000020b09010001660100010103",
        "-> e f",
    ),
    // A type is exported as a function.
    ("0706027f400001000b09010001740300010101", "DoesNotFit(19)"),
    // An instance of a type is exported.
    ("0703014200050801010100017403000b0701000169050000", "-> i"),
    // An imported resource is dropped; a type that is none can't be.
    ("0a060100017203010803010200", "r ->"),
    ("0702017f0803010200", "Index(15)"),
    // A component's own core module has no type.
    ("01080061736d010000000b080100016d00110000", "Index(21)"),
    (
        "01080061736d0100000004160061736d0d00010003030150000a070100016d001100050901000001016d001100",
        "DoesNotFit(45)",
    ),
    // An imported one has.
    (
        "03030150000a070100016e00110004160061736d0d00010003030150000a070100016d001100050901000001016d001100",
        "n ->",
    ),
    // An instance is not given what its component imports, is given it twice, and is given it.
    (
        "04170061736d0d000100070501400001000a06010001660100050401000000",
        "DoesNotFit(36)",
    ),
    (
        "070501400001000a0601000167010004170061736d0d000100070501400001000a06010001660100050c010000020166010001660100",
        "Index(51)",
    ),
    (
        "070501400001000a0601000167010004170061736d0d000100070501400001000a0601000166010005080100000101660100",
        "g ->",
    ),
    // Names differ, letter case set aside, among imports and among exports.
    ("0702017f0b0d02000161030000000141030000", "Index(21)"),
    ("0a0b0200017203010001520301", "Index(16)"),
    ("0a060100017203010b0701000172030000", "r -> r"),
    // A type that is not there, also in a component that is nested; and a fault in the bytes behind it.
    ("0b0701000174030000", "Index(11)"),
    ("04110061736d0d0001000b0701000174030000", "Index(8)"),
    ("0b0701000174030000040100", "Form(19)"),
    // An instance of a type that exports a resource is imported and exported.
    (
        "07090142010400017203010a060100016905000b0701000169050000",
        "i -> i",
    ),
    // An outer alias leaves the component.
    ("06050103020100", "Index(11)"),
    // A component that asks for one that exports an instance of x and y is given one; and one with the two in the other
    // order.
    (
        "042e0061736d0d000100071c014102014203017d04000178030000040001790300000400016905000a0601000163040004240061736d0d0001000702017d050d010102000178030000017903000b070100016905000005080100000101630401",
        "->",
    ),
    (
        "042e0061736d0d000100071c014102014203017d04000178030000040001790300000400016905000a0601000163040004240061736d0d0001000702017d050d010102000179030000017803000b070100016905000005080100000101630401",
        "DoesNotFit(97)",
    ),
    // Tuples of two of the one before, and one of a million nodes, and of one more.
    (
        "0755147d6f0200006f0201016f0202026f0203036f0204046f0205056f0206066f0207076f0208086f0209096f020a0a6f020b0b6f020c0c6f020d0d6f020e0e6f020f0f6f0210106f0211116f091211100f0d08050101",
        "->",
    ),
    (
        "0756147d6f0200006f0201016f0202026f0203036f0204046f0205056f0206066f0207076f0208086f0209096f020a0a6f020b0b6f020c0c6f020d0d6f020e0e6f020f0f6f0210106f0211116f0a1211100f0d0805010100",
        "TooBig",
    ),
];

/// Names of imported components, sections in hexadecimal digits, and the link image of the component written out, or the
/// error.
const IMAGES: &[(&[&str], &str, &str)] = &[
    (
        &[],
        "",
        "Image { components: [], instances: [], imports: [], exports: [] }",
    ),
    // An instance of a nested component.
    (
        &[],
        "04080061736d0d000100050401000000",
        "Image { components: [Defined([0, 97, 115, 109, 13, 0, 1, 0])], instances: [MadeInstance { component: 0, arguments: [] }], imports: [], exports: [] }",
    ),
    // One of an imported component, where its name is among the names, and where it is not.
    (
        &["c"],
        "07030141000a06010001630400050401000000",
        "Image { components: [Imported(Text { text: \"c\" })], instances: [MadeInstance { component: 0, arguments: [] }], imports: [(Text { text: \"c\" }, Component(ComponentShape { imports: [], exports: [] }))], exports: [] }",
    ),
    (
        &["d"],
        "07030141000a06010001630400050401000000",
        "NotCarried(24)",
    ),
    // A custom section has no part in an image; but the shape is judged first.
    (&[], "0004016e0102", "NotCarried(8)"),
    (&[], "0004016e01020b0701000174030000", "Index(17)"),
];

/// The component of sections in hexadecimal digits.
fn component(alloc: Global, sections: &str) -> Result<Vec<u8>, Fail> {
    let mut bytes = Vec::from_slice(alloc, &HEADER)?;
    bytes.extend_from_slice(&hex::decode(alloc, sections)?)?;
    Ok(bytes)
}

/// The shape of a component, or the error, written out.
fn shape_text(alloc: Global, bytes: &[u8]) -> Result<String, Fail> {
    match read_shape(alloc, bytes) {
        Ok(shape) => Ok(format!(in alloc; "{shape:?}")?),
        Err(error) => Ok(format!(in alloc; "{error:?}")?),
    }
}

/// Adds names, each with a space behind it.
fn add_names(text: &mut String, entries: &[(Text, Entity)]) -> Result<(), Fail> {
    for (name, _) in entries {
        text.push_str(name.as_str())?;
        text.push(' ')?;
    }
    Ok(())
}

/// The names of what is imported and of what is exported.
fn names_text(alloc: Global, shape: &Shape) -> Result<String, Fail> {
    let mut text = String::new(alloc);
    add_names(&mut text, &shape.imports)?;
    text.push_str("-> ")?;
    add_names(&mut text, &shape.exports)?;
    Ok(text)
}

/// The names of what a component imports and exports, or the error.
fn names_or_error(alloc: Global, bytes: &[u8]) -> Result<String, Fail> {
    match read_shape(alloc, bytes) {
        Ok(shape) => names_text(alloc, &shape),
        Err(error) => Ok(format!(in alloc; "{error:?}")?),
    }
}

/// A set of these names.
fn set_of(alloc: Global, names: &[&str]) -> Result<IndexSet<Text>, Fail> {
    let mut set = IndexSet::new(alloc);
    for name in names {
        set.insert(Text::copy_of(alloc, name)?)?;
    }
    Ok(set)
}

/// The link image of a component, or the error, written out.
fn image_text(alloc: Global, names: &IndexSet<Text>, bytes: &[u8]) -> Result<String, Fail> {
    match read_image(alloc, names, bytes) {
        Ok(image) => Ok(format!(in alloc; "{image:?}")?),
        Err(error) => Ok(format!(in alloc; "{error:?}")?),
    }
}

/// A number below 16384 in two bytes of LEB128.
fn two_bytes(number: usize) -> [u8; 2] {
    [(number % 128 + 128) as u8, (number / 128 % 64) as u8]
}

/// Components that are nested in each other, so many with the outermost.
fn nested(alloc: Global, levels: usize) -> Result<Vec<u8>, Fail> {
    let mut bytes = Vec::from_slice(alloc, &HEADER)?;
    for _ in 1..levels {
        let mut outer = Vec::from_slice(alloc, &HEADER)?;
        outer.push(4)?;
        outer.extend_from_slice(&two_bytes(bytes.len()))?;
        outer.extend_from_slice(&bytes)?;
        bytes = outer;
    }
    Ok(bytes)
}

/// A component of so many types: a number, and lists of the one before.
fn lists(alloc: Global, count: u8) -> Result<Vec<u8>, Fail> {
    let mut bytes = Vec::from_slice(alloc, &HEADER)?;
    bytes.push(7)?;
    bytes.extend_from_slice(&two_bytes(3 * count as usize))?;
    bytes.extend_from_slice(&two_bytes(count as usize))?;
    bytes.push(0x7d)?;
    for before in 1..count {
        bytes.push(0x70)?;
        bytes.extend_from_slice(&two_bytes(before as usize - 1))?;
    }
    Ok(bytes)
}

/// A component of so many types of instances, each of which exports an instance of the one before.
fn chained(alloc: Global, count: u8) -> Result<Vec<u8>, Fail> {
    let mut bytes = Vec::from_slice(alloc, &HEADER)?;
    bytes.push(7)?;
    bytes.extend_from_slice(&two_bytes((13 * count as usize).saturating_sub(9)))?;
    bytes.extend_from_slice(&two_bytes(count as usize))?;
    bytes.extend_from_slice(&[0x42, 0])?;
    for before in 1..count {
        bytes.extend_from_slice(&[0x42, 2, 2, 3, 2, 1, before - 1])?;
        bytes.extend_from_slice(&[4, 0, 1, 0x69, 5, 0])?;
    }
    Ok(bytes)
}

/// Fails at the first component whose shape, or the error, is another one.
fn are_shaped(alloc: Global, rows: &[(&str, &str)]) -> Result<(), Fail> {
    for (sections, want) in rows {
        let bytes = component(alloc, sections)?;
        let text = shape_text(alloc, &bytes)?;
        if text.as_str() != *want {
            return Err(Fail::new(format_args!("{sections}: {text}")));
        }
    }
    Ok(())
}

#[test]
fn shapes_have_all_indices_followed(rt: HostRuntime) -> Result<(), Fail> {
    are_shaped(rt.alloc(), SHAPES)
}

/// Whether a component imports and exports these names, or has this error.
fn is_named(alloc: Global, bytes: &[u8], want: &str) -> Result<bool, Fail> {
    let text = names_or_error(alloc, bytes)?;
    Ok(text.as_str().trim_end() == want)
}

/// Fails at the first component that imports and exports other names, or has another error.
fn are_named(alloc: Global, rows: &[(&str, &str)]) -> Result<(), Fail> {
    for (sections, want) in rows {
        let bytes = component(alloc, sections)?;
        if !is_named(alloc, &bytes, want)? {
            return Err(Fail::new(format_args!("{sections} is not {want}")));
        }
    }
    Ok(())
}

#[test]
fn components_import_and_export_by_the_rules(rt: HostRuntime) -> Result<(), Fail> {
    are_named(rt.alloc(), NAMES)
}

/// The link image of the component of these sections, or the error, written out.
fn image_of(alloc: Global, names: &[&str], sections: &str) -> Result<String, Fail> {
    let bytes = component(alloc, sections)?;
    let names = set_of(alloc, names)?;
    image_text(alloc, &names, &bytes)
}

/// Fails at the first component whose link image, or the error, is another one.
fn are_imaged(alloc: Global, rows: &[(&[&str], &str, &str)]) -> Result<(), Fail> {
    for (names, sections, want) in rows {
        let text = image_of(alloc, names, sections)?;
        if text.as_str() != *want {
            return Err(Fail::new(format_args!("{sections}: {text}")));
        }
    }
    Ok(())
}

#[test]
fn images_are_those_of_nested_and_imported_components(rt: HostRuntime) -> Result<(), Fail> {
    are_imaged(rt.alloc(), IMAGES)
}

#[test]
fn what_lies_in_scopes_that_are_closed_nests_without_bounds(rt: HostRuntime) -> Result<(), Fail> {
    let bytes = chained(rt.alloc(), 40)?;
    assert!(rt; is_named(rt.alloc(), &bytes, "->")?);
    Ok(())
}

/// Whether so many nested components have these names, or this error.
fn nest(alloc: Global, levels: usize, want: &str) -> Result<bool, Fail> {
    let bytes = nested(alloc, levels)?;
    is_named(alloc, &bytes, want)
}

/// Whether a component of so many types, of which each is a list of the one before, has these names, or this error.
fn list(alloc: Global, count: u8, want: &str) -> Result<bool, Fail> {
    let bytes = lists(alloc, count)?;
    is_named(alloc, &bytes, want)
}

#[test]
fn scopes_and_value_types_nest_up_to_their_bounds(rt: HostRuntime) -> Result<(), Fail> {
    assert!(rt; nest(rt.alloc(), 32, "->")?);
    assert!(rt; nest(rt.alloc(), 33, "TooDeep")?);
    assert!(rt; list(rt.alloc(), 100, "->")?);
    assert!(rt; list(rt.alloc(), 101, "TooDeep")?);
    Ok(())
}
