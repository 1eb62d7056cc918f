//! Bytes behind the header of a component, and the items that they read as. The rows were written from the tables of the
//! Component Model's `Binary.md`, apart from the readers.

use comp_format::section::HEADER;
use comp_reader::{ItemPlace, ReadError, item_place, read_items};
use std::alloc::Global;
use std::test::Fail;

/// Sections in hexadecimal digits, each in its shortest spelling and in a padded one, and the items that they read as.
pub const READ: &[&str] = &[
    "0702017f 07830081007f = [Ty(Defined(Primitive(Bool)))]",
    "07020173 078300810073 = [Ty(Defined(Primitive(Text)))]",
    "0703017074 07840081007074 = [Ty(Defined(ListOf(Primitive(Char))))]",
    "0705016f027e78 07870081006f82007e78 = [Ty(Defined(TupleOf(Sequence { items: [Primitive(S8), Primitive(S64)] })))]",
    "0703016b76 07840081006b76 = [Ty(Defined(OptionOf(Primitive(F32))))]",
    "0705016a017c00 07860081006a017c00 = [Ty(Defined(ResultOf { ok: Some(Primitive(S16)), err: None }))]",
    "0703016905 0785008100698500 = [Ty(Defined(Own(5)))]",
    "07040168c801 078500810068c801 = [Ty(Defined(Borrow(200)))]",
    "0709017202016179016203 078e008100728200810061798100628300 = [Ty(Defined(RecordOf(Sequence { items: [(Text { text: \"a\" }, Primitive(U32)), (Text { text: \"b\" }, Index(3))] })))]",
    "070c0171020161017d0001620000 0790008100718200810061017d008100620000 = [Ty(Defined(VariantOf(Sequence { items: [(Text { text: \"a\" }, Some(Primitive(U8))), (Text { text: \"b\" }, None)] })))]",
    "0707016e0201610162 078b0081006e8200810061810062 = [Ty(Defined(FlagsOf(Sequence { items: [Text { text: \"a\" }, Text { text: \"b\" }] })))]",
    "0705016d010161 07880081006d8100810061 = [Ty(Defined(EnumOf(Sequence { items: [Text { text: \"a\" }] })))]",
    "0708014001017877007b 078b00810040810081007877007b = [Ty(Func(FuncType { params: Sequence { items: [(Text { text: \"x\" }, Primitive(U64))] }, result: Some(Primitive(U16)) }))]",
    "07050140000100 07870081004080000100 = [Ty(Func(FuncType { params: Sequence { items: [] }, result: None }))]",
    "03070160027f70016f 038a0081006082007f7081006f = [CoreTy(Func { params: Sequence { items: [V7f, V70] }, results: Sequence { items: [V6f] } })]",
    "031001500200016d00000103017401700009 03970081005082000081006d8000008100038100740170008900 = [CoreTy(Module(ModuleType { decls: [Import { module: Text { text: \"m\" }, name: Text { text: \"\" }, desc: Func(1) }, Export { name: Text { text: \"t\" }, desc: Table { element: V70, limits: Limits { min: 9, max: None } } }] }))]",
    "0319015004016000000210010100030167037e0103017502010102 03a1008100508400016000000210018100800003810067037e0103810075020181008200 = [CoreTy(Module(ModuleType { decls: [CoreTy(Func { params: Sequence { items: [] }, results: Sequence { items: [] } }), OuterAlias { count: 1, index: 0 }, Export { name: Text { text: \"g\" }, desc: Global { value: V7e, mutable: true } }, Export { name: Text { text: \"u\" }, desc: Memory(Limits { min: 1, max: Some(2) }) }] }))]",
    "0004016e0102 00850081006e0102 = [Custom { name: Text { text: \"n\" }, bytes: [1, 2] }]",
    "01080061736d01000000 0188000061736d01000000 = [CoreModule { bytes: [0, 97, 115, 109, 1, 0, 0, 0] }]",
    "04080061736d0d000100 0488000061736d0d000100 = [Component { bytes: [0, 97, 115, 109, 13, 0, 1, 0] }]",
    "020701000301001201 028c00810000830081008000128100 = [CoreInstance(Instantiate { module: 3, args: Sequence { items: [(Text { text: \"\" }, 1)] } })]",
    "020701010101610201 028b008100018100810061028100 = [CoreInstance(Exports(Sequence { items: [(Text { text: \"a\" }, Memory, 1)] }))]",
    "05080100020101610501 058d0081000082008100810061058100 = [Instance(Instantiate { component: 2, args: Sequence { items: [Arg { name: Text { text: \"a\" }, sort: Instance, index: 1 }] } })]",
    "0509010101000161001101 058d0081000181000181006100118100 = [Instance(Exports(Sequence { items: [Arg { name: Text { text: \"a\" }, sort: Core(Module), index: 1 }] }))]",
    "060f030100020166000101030004020100 06960083000100820081006600010183008000040281008000 = [Alias(Export { sort: Func, instance: 2, name: Text { text: \"f\" } }), Alias(CoreExport { sort: Table, instance: 3, name: Text { text: \"\" } }), Alias(Outer { sort: Component, count: 1, index: 0 })]",
    "08170500000102000304020100030204010502020703080409 08a3008500000081008200000384008200010083008200048100058200028700038800048900 = [Canon(Lift { func: 1, options: Sequence { items: [Encoding(0), Memory(4)] }, ty: 2 }), Canon(Lower { func: 3, options: Sequence { items: [Realloc(1), PostReturn(2)] } }), Canon(ResourceNew(7)), Canon(ResourceDrop(8)), Canon(ResourceRep(9))]",
    "0a110300016900110600016a010200016b0403 0a9800830001810069001186000181006a0182000181006b048300 = [Import { name: Text { text: \"i\" }, ty: Module(6) }, Import { name: Text { text: \"j\" }, ty: Func(2) }, Import { name: Text { text: \"k\" }, ty: Component(3) }]",
    "0b0f020001780301000001790500010502 0b9500820001810078038100000181007905800001058200 = [Export { name: Text { text: \"x\" }, sort: Ty, index: 1, ty: None }, Export { name: Text { text: \"y\" }, sort: Instance, index: 0, ty: Some(Instance(2)) }]",
    "01080061736d010000000209020100000001001200 = [CoreModule { bytes: [0, 97, 115, 109, 1, 0, 0, 0] }, CoreInstance(Exports(Sequence { items: [] })), CoreInstance(Instantiate { module: 0, args: Sequence { items: [(Text { text: \"\" }, 0)] } })]",
    "0704013f7f00 07850081003f7f00 = [Ty(Resource { destructor: None })]",
    "0705013f7f0107 07870081003f7f018700 = [Ty(Resource { destructor: Some(7) })]",
    "0717014204017f020302010002030002017404000165030000 079f008100428400017f020302810080000203008200810074040181006503008000 = [Ty(Instance(InstanceType { decls: [Ty(Defined(Primitive(Bool))), Alias(Outer { sort: Ty, count: 1, index: 0 }), Alias(Export { sort: Ty, instance: 2, name: Text { text: \"t\" } }), Export { name: Text { text: \"e\" }, ty: TyEqual(0) }] }))]",
    "071301410303000169050000600000040001720301 079800810041830003018100690580000060000004018100720301 = [Ty(Component(ComponentType { decls: [Import { name: Text { text: \"i\" }, ty: Instance(0) }, CoreTy(Func { params: Sequence { items: [] }, results: Sequence { items: [] } }), Export { name: Text { text: \"r\" }, ty: TyFresh }] }))]",
];

/// Damaged sections in hexadecimal digits, and how their refusal begins, with the place where it is told apart.
const REFUSED: &[&str] = &[
    "09 = NotCarried(8)",
    "0c05 = NotCarried(8)",
    "0d = Form(8)",
    "0dff = Form(8)",
    "0005 = Form(9)",
    "0703016e21 = Form(12)",
    "0703016e00 = Form(12)",
    "090100 = NotCarried(8)",
    "0c0100 = NotCarried(8)",
    "0d0100 = Form(8)",
    "09010007ff = NotCarried(8)",
    "000180 = Form(10)",
    "01080061736d02000000 = Form",
    "04080061736d0d000200 = Form",
    "040b0061736d0d000100090100 = NotCarried",
    "000302fffe = Form",
    "0702016d = Form(12)",
    "07ff090100 = Form",
    "07020100 = NotCarried(11)",
    "0703017064 = NotCarried(12)",
    "0703017065 = Form(12)",
    "0703017040 = Form(12)",
    "0703017200 = Form",
    "0709017202016179016179 = Form(16)",
    "0709017202016179016164 = Form(16)",
    "0709017202016164016179 = NotCarried(15)",
    "0707016d0201610161 = Form(15)",
    "0745016e210130013101320133013401350136013701380139013a013b013c013d013e013f0140014101420143014401450146014701480149014a014b014c014d014e014f0150 = Form",
    "0703017f00 = Form(12)",
    "0703013f7e = Form(12)",
    "0707014201013f7f00 = Form",
    "0709014201030001610301 = Form(13)",
    "0709014201020100000161 = Form",
    "070401420105 = Form(13)",
    "0303015f00 = NotCarried(11)",
    "03050160016e00 = NotCarried(13)",
    "0303016001 = Form(13)",
    "030401500104 = NotCarried(13)",
    "03090150010300017f0000 = NotCarried",
    "03080150010300020200 = NotCarried",
    "0803010001 = Form(12)",
    "0803010500 = NotCarried(11)",
    "0806010100000106 = NotCarried(15)",
    "0806010100000108 = Form(15)",
    "0a06010201610100 = Form(11)",
    "0a06010001610200 = NotCarried(14)",
    "0a0701000161030200 = Form(15)",
    "0a050100000100 = Form",
    "0b0701000161020000 = NotCarried(14)",
    "060701000400000161 = Form(12)",
    "06050101020000 = Form(12)",
    "06050101010000 = Form(12)",
    "06050101030000 = Form(12)",
];

/// Two types, a section without items, a custom section and an export. The length of the first section is padded.
const PLACED: &[u8] =
    b"\0asm\r\0\x01\0\x07\x83\0\x02\x7f\x73\x07\x01\0\0\x02\x01a\x0b\x07\x01\0\x01a\x03\0\0";

/// The number of an item, and the places of its section and of itself.
const PLACES: [(usize, usize, usize); 6] = [
    (0, 8, 12),
    (1, 8, 13),
    (2, 17, 17),
    (3, 21, 24),
    (4, 30, 30),
    (9, 30, 30),
];

/// What sections in hexadecimal digits read as behind a header, written out.
fn outcome(alloc: Global, sections: &str) -> Result<String, Fail> {
    let mut bytes = Vec::from_slice(alloc, &HEADER)?;
    bytes.extend_from_slice(&hex::decode(alloc, sections)?)?;
    let text = match read_items(alloc, &bytes) {
        Ok(items) => format!(in alloc; "{items:?}")?,
        Err(error) => format!(in alloc; "{error:?}")?,
    };
    Ok(text)
}

/// Fails at the first spelling that reads as other items.
fn read_as(alloc: Global, spellings: &str, want: &str) -> Result<(), Fail> {
    for sections in spellings.split(' ') {
        let text = outcome(alloc, sections)?;
        if text.as_str() != want {
            return Err(Fail::new(format_args!("{sections}: {text}")));
        }
    }
    Ok(())
}

/// Fails at the first row of which a spelling reads as other items.
fn are_read(alloc: Global, rows: &[&str]) -> Result<(), Fail> {
    for row in rows {
        let (spellings, want) = row.split_once(" = ").unwrap_or((row, ""));
        read_as(alloc, spellings, want)?;
    }
    Ok(())
}

#[test]
fn reads_each_form_in_each_spelling(rt: HostRuntime) -> Result<(), Fail> {
    are_read(rt.alloc(), READ)
}

/// Fails at the first row whose sections are not refused as it says.
fn are_refused(alloc: Global, rows: &[&str]) -> Result<(), Fail> {
    for row in rows {
        let (sections, want) = row.split_once(" = ").unwrap_or((row, ""));
        let text = outcome(alloc, sections)?;
        if !text.as_str().starts_with(want) {
            return Err(Fail::new(format_args!("{row}: {text}")));
        }
    }
    Ok(())
}

#[test]
fn refuses_damaged_sections(rt: HostRuntime) -> Result<(), Fail> {
    are_refused(rt.alloc(), REFUSED)
}

#[test]
fn finds_where_items_stand(rt: HostRuntime) -> Result<(), Fail> {
    for (number, section, item) in PLACES {
        let place = item_place(rt.alloc(), PLACED, number);
        assert_eq!(rt; place, Ok(ItemPlace { section, item }));
    }
    let cut = item_place(rt.alloc(), &PLACED[..29], 3);
    assert_eq!(rt; cut, Err(ReadError::Form(22)));
    Ok(())
}
