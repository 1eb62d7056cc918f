//! Imports of every form of the grammar, up to three scopes deep: they are written into a new state, and what was written
//! reads as the same imports. The rows were written by hand from the tables of the Component Model's `Binary.md`.

use crate::write::{are, shape, shape_of, write_all};
use comp_shape::equal;
use compose_types::{Entity, Shape, TypeEncoder, TypeState};
use std::alloc::Global;
use std::test::Fail;
use warg_values::Text;

/// Sections in hexadecimal digits: a component whose imports are written as they stand.
const SAME: &[&str] = &[
    // Nothing.
    "",
    // A truth value as a type.
    "0702017f 0a0701000174030000",
    // A tuple of each primitive type.
    "0710016f0d7f7e7d7c7b7a79787776757473 0a0701000174030000",
    // A record, a variant, flags and an enum, each named.
    "0709017202016179016273 0a0701000172030000 07110171030161017d00016200000163010100 0a0701000176030002 0707016e0201610162 0a0701000177030004 0707016d0201610162 0a0701000178030006",
    // A function that takes a list of options of pairs, and gives a result.
    "0715056f027d736b0070016a017d017340010178020003 0a06010001660104",
    // Results that hold one thing, the other, and nothing, as parts of a tuple.
    "0711046a0174006a0001756a00006f03000102 0a0701000174030003",
    // Two lists alike, each written for itself.
    "070f03707d707d40020161000162010100 0a06010001660102",
    // A record that is named, and a function that gives it.
    "0706017201016179 0a0701000172030000 07050140000001 0a06010001660102",
    // A record of an enum, both named, and one name more for the record.
    "0705016d010165 0a0701000165030000 0706017201016101 0a0d02000172030002000173030003",
    // A resource, one name more for it, handles as types, and a function of handles.
    "0a0c020001720301000173030000 0703016900 0a070100016f030002 070f036900680040020178040179050100 0a06010001660106",
    // Two resources.
    "0a0b0200017203010001730301 070c036800690140010178020003 0a06010001660104",
    // A type of functions, of instances, and of components.
    "07080140010178730100 0a0701000174030000 071a0142040400017203010168000140010178010100040001660102 0a0701000175030002 071001410203000172030104000173030000 0a0701000176030004",
    // An instance that exports a resource and a function that borrows it, and one that takes the same resource.
    "071a0142040400017203010168000140010178010100040001660102 0a06010001690500 0606010300000172 071901420402030201010169000140010178010100040001670102 0a060100016a0502",
    // An instance within an instance, whose resource a later import borrows.
    "07120142020142010400017203010400016e0500 0a06010001690500 060b02050000016e0300010172 071901420402030201010168000140010178010100040001670102 0a060100016a0502",
    // An instance within an instance, whose resource a function beside it borrows.
    "07290142060142010400017203010400016e05000203000001720168010140010178020100040001670103 0a06010001690500",
    // A component of one resource under two names.
    "071001410203000172030104000173030000 0a06010001630400",
    // A component of a resource of its own, which a function beside the instance borrows.
    "073a01410601420404000172030101690001400101780101000400016601020400016905000203000001720168010140010178020100040001670103 0a06010001630400",
    // A component that imports an instance, and exports a function of its resource.
    "07260141060142010400017203010300016905000203000001720169010140000002040001670103 0a06010001630400",
    // A named type three scopes further in, and one scope further in behind it.
    "071001420201720101617904000172030000 0a060100016d0500 060b0203000001720300000172 0735014105014202014203020302030101400000000400016601010400016e050003000169050002030201020140000001040001670102 0a06010001630403",
    // A component within a component within an instance, and what each of them names.
    "0705016d010165 0a0701000165030000 075101420301410401410702030203010140010178000100030001660101016d010166040001740300020140000003040001670104030001640400020302020104000175030001040001630400040001720301 0a06010001690502",
    // An instance that exports another one's type again.
    "070f014202016d01016504000174030000 0a060100016d0500 0606010300000174 070f014202020302010104000174030000 0a060100016e0502",
    // One that exports it under two names, and gives it.
    "070f014202016d01016504000174030000 0a060100016d0500 0606010300000174 0721014205020302010104000174030000040001750300010140000001040001660103 0a060100016e0502",
    // A nested instance that exports it again: it is taken from the one that named it.
    "070f014202016d01016504000174030000 0a060100016d0500 0606010300000174 0718014202014202020302020104000174030000040001690500 0a060100016e0502 0606010300000174 07050140000003 0a06010001660104",
    // A core module without items, and one with each kind of item.
    "0303015000 0a070100016d001100 034c01500b0160017f017e00016d0161000000016d01740170000100016d0175016f01010200016d016d020001000000037c00016000000301620001030167037f01030002010102030168037b00 0a070100016e001101",
];

/// Sections in hexadecimal digits: a component, and what is written for its imports.
const OTHER: &[(&str, &str)] = &[
    // Two functions of one core type have one each.
    (
        "03110150030160000003016100000301620000 0a070100016d001100",
        "0315015004016000000301610000016000000301620001 0a070100016d001100",
    ),
    // Each need of a resource has an alias of its own.
    (
        "0709014201040001720301 0a060100016d0500 0606010300000172 070d02690140020178020179020100 0a06010001660103",
        "0709014201040001720301 0a060100016d0500 0606010300000172 0703016901 0606010300000172 070d02690340020178020179040100 0a06010001660105",
    ),
    // So has each need of a named type.
    (
        "070f014202016d01016504000174030000 0a060100016d0500 0606010300000174 071a0142040203020101014000000004000166010104000174030000 0a060100016e0502",
        "070f014202016d01016504000174030000 0a060100016d0500 060b0203000001740300000174 071f01420502030201010140000000040001660101020302010204000174030002 0a060100016e0503",
    ),
    // A type of components has its imports first.
    (
        "0713014103017f0400016103000003000162030000 0a06010001630400",
        "0715014104017f03000162030000017f04000161030002 0a06010001630400",
    ),
    // What is not imported is not written, and unnamed parts are written at each need.
    (
        "07100473707d700140020161010162020100 0a06010001660103",
        "071104707d707d700140020161000162020100 0a06010001660103",
    ),
];

/// A component with the imports of a shape.
fn rewritten(alloc: Global, shape: &Shape) -> Result<Vec<u8>, Fail> {
    let encoder = TypeEncoder::new(shape);
    let mut state = TypeState::new(alloc);
    let written = write_all(alloc, &encoder, &mut state, &shape.imports);
    let bytes = state.into_builder().finish(alloc);
    written?;
    Ok(bytes?)
}

/// Whether two imports have one name, and are equal.
fn alike(a: &(Text, Entity), b: &(Text, Entity)) -> bool {
    a.0 == b.0 && equal(&a.1, &b.1)
}

/// Fails where imports are not alike, in order.
fn are_alike(found: &[(Text, Entity)], wanted: &[(Text, Entity)]) -> Result<(), Fail> {
    if found.len() != wanted.len() {
        return Err(Fail::new("there are more imports, or fewer"));
    }
    for (a, b) in found.iter().zip(wanted) {
        if !alike(a, b) {
            return Err(Fail::new(format_args!("{b:?} reads as {a:?}")));
        }
    }
    Ok(())
}

/// Fails where the imports of a component are others than these.
fn imports_are(alloc: Global, bytes: &[u8], wanted: &[(Text, Entity)]) -> Result<(), Fail> {
    let found = shape(alloc, bytes)?;
    are_alike(&found.imports, wanted)
}

/// Fails where other sections are written for the imports of a component, or they read as other imports.
fn is_written(alloc: Global, given: &str, written: &str) -> Result<(), Fail> {
    let shape = shape_of(alloc, given)?;
    let bytes = rewritten(alloc, &shape)?;
    are(alloc, &bytes, written)?;
    imports_are(alloc, &bytes, &shape.imports)
}

/// Fails at the first row whose imports are written otherwise than they stand.
fn stand_as_written(alloc: Global, rows: &[&str]) -> Result<(), Fail> {
    for row in rows {
        is_written(alloc, row, row)?;
    }
    Ok(())
}

#[test]
fn imports_are_written_as_they_stand(rt: HostRuntime) -> Result<(), Fail> {
    stand_as_written(rt.alloc(), SAME)
}

/// Fails at the first row whose imports are written otherwise than it says.
fn are_written(alloc: Global, rows: &[(&str, &str)]) -> Result<(), Fail> {
    for (given, written) in rows {
        is_written(alloc, given, written)?;
    }
    Ok(())
}

#[test]
fn imports_are_written_in_one_spelling(rt: HostRuntime) -> Result<(), Fail> {
    are_written(rt.alloc(), OTHER)
}
