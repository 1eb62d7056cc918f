//! What is composed of small folders, and by what others are refused.

use crate::world::{
    CALLS_D, CALLS_E, EMPTY, FUNCTION, GIVES, GIVES_BOTH, GIVES_X, OF_DEFINITION, OF_EXPORT,
    OF_FITTING, OF_FOUR, OF_ONE, OF_WHOLE, TAKES, TAKES_E, TAKES_ROOT, TAKES_TWO,
};
use compose_files::{ComponentComposer, Files, read_config};
use hex::{decode, encode};
use std::alloc::Global;
use std::test::Fail;
use test_check::is_row;
use warg_base::MemoryFiles;

/// Files below the folder `d` beside the configuration `d/c`, of which `root` is the root, each in hex; the configuration's
/// text; and what comes of it: the composed component in hex, or the error.
type Row = (
    &'static [(&'static str, &'static str)],
    &'static str,
    &'static str,
);

/// The files of a row, with its configuration.
fn files_of(alloc: Global, files: &[(&str, &str)], text: &str) -> Result<MemoryFiles, Fail> {
    let mut held = MemoryFiles::new(alloc);
    for (path, digits) in files {
        held.write(alloc, path, &decode(alloc, *digits)?)?;
    }
    held.write(alloc, "d/c", text.as_bytes())?;
    Ok(held)
}

/// What comes of a row.
fn outcome(
    alloc: Global,
    files: &[(&'static str, &'static str)],
    text: &str,
) -> Result<String, Fail> {
    let mut held = files_of(alloc, files, text)?;
    let config = match read_config(alloc, &mut held, "d/c") {
        Ok(config) => config,
        Err(refusal) => return Ok(format!(in alloc; "{refusal}")?),
    };
    match ComponentComposer::new("d/root", &config).compose(alloc, &mut held) {
        Ok(bytes) => Ok(encode(alloc, &bytes)?),
        Err(error) => Ok(format!(in alloc; "{error}")?),
    }
}

/// Fails at the first row of which something else comes.
fn come_out(alloc: Global, rows: &[Row]) -> Result<(), Fail> {
    for (files, text, want) in rows {
        let found = outcome(alloc, files, text)?;
        is_row(text, found.as_str(), want)?;
    }
    Ok(())
}

/// The component of the instance `b` that the root takes stands beside the configuration, in a search path, where the
/// configuration says, or under another name.
const FOUND: &[Row] = &[
    (
        &[("d/root", TAKES), ("d/b.wasm", GIVES)],
        "search-paths: []\n",
        OF_ONE,
    ),
    (
        &[("d/root", TAKES), ("d/s/b.wasm", GIVES)],
        "search-paths: [r, s]\n",
        OF_ONE,
    ),
    (
        &[
            ("d/root", TAKES),
            ("d/s/b.wasm", EMPTY),
            ("d/b.wasm", GIVES),
        ],
        "search-paths: [s]\n",
        OF_ONE,
    ),
    (
        &[("d/root", TAKES), ("d/x", GIVES)],
        "dependencies: {b: x}\n",
        OF_ONE,
    ),
    (
        &[("d/root", TAKES), ("d/o.wasm", GIVES)],
        "instantiations: {b: {dependency: o}}\n",
        OF_ONE,
    ),
    (
        &[("d/root", TAKES), ("d/o.wasm", GIVES)],
        "instantiations: {root: {arguments: {b: o}}}\n",
        OF_ONE,
    ),
    (
        &[("d/root", TAKES), ("/o.wasm", GIVES)],
        "instantiations: {root: {arguments: {b: /o}}}\n",
        OF_ONE,
    ),
];

#[test]
fn a_component_is_found_by_the_rules_in_their_order(rt: HostRuntime) -> Result<(), Fail> {
    come_out(rt.alloc(), FOUND)
}

/// What of an instance is given to an import, and in which order imports are served.
const SERVED: &[Row] = &[
    (
        &[
            ("d/root", TAKES),
            ("d/defs/o.w", TAKES),
            ("d/p.wasm", TAKES_E),
        ],
        "definitions: [defs/o.w, p.wasm]\n",
        OF_DEFINITION,
    ),
    (
        &[("d/root", TAKES), ("d/b.wasm", TAKES), ("d/o.wasm", GIVES)],
        "instantiations: {root: {arguments: {b: {instance: b, export: b}}}, b: {arguments: {b: o}}}\n",
        OF_EXPORT,
    ),
    (
        &[
            ("d/root", TAKES_TWO),
            ("d/b.wasm", CALLS_D),
            ("d/c.wasm", CALLS_E),
            ("d/d.wasm", GIVES),
            ("d/e.wasm", GIVES),
        ],
        "{}\n",
        OF_FOUR,
    ),
    (
        &[("d/root", TAKES), ("d/b.wasm", GIVES_BOTH)],
        "skip-validation: true\n",
        OF_WHOLE,
    ),
    (
        &[("d/root", TAKES), ("d/b.wasm", GIVES_X)],
        "{}\n",
        OF_FITTING,
    ),
];

#[test]
fn an_import_is_given_what_the_rules_choose_in_their_order(rt: HostRuntime) -> Result<(), Fail> {
    come_out(rt.alloc(), SERVED)
}

/// What is not found, and what is asked for and not there.
const NOT_THERE: &[Row] = &[
    (
        &[("d/root", TAKES)],
        "search-paths: []\n",
        "no component is found for what the root imports: put it beside the configuration or into one of its `search-paths`, as NAME.wasm, or name its file under `dependencies`",
    ),
    (
        &[("d/root", EMPTY)],
        "{}\n",
        "the root imports nothing that could be given to it: compose a component that has imports",
    ),
    (
        &[("d/root", EMPTY)],
        "instantiations: {root: {arguments: {q: b}}}\n",
        "there is no import `q` for the argument of this name: correct or remove the argument",
    ),
    (
        &[("d/root", TAKES)],
        "disallow-imports: true\n",
        "no component `b` is found, and imports are disallowed: put `b.wasm` beside the configuration or into one of its `search-paths`, name its file under `dependencies`, or allow imports",
    ),
    (
        &[("d/root", FUNCTION)],
        "disallow-imports: true\ninstantiations: {root: {arguments: {x: {instance: y, export: z}}}}\n",
        "no component `y` is found, and imports are disallowed: put `y.wasm` beside the configuration or into one of its `search-paths`, name its file under `dependencies`, or allow imports",
    ),
    (
        &[("d/root", TAKES)],
        "instantiations: {root: {arguments: {b: {instance: y, export: z}}}}\n",
        "the export `z` can't be taken, since no component is found for its instance: name its file under `dependencies`",
    ),
    (
        &[("d/root", TAKES), ("d/b.wasm", GIVES)],
        "instantiations: {root: {arguments: {b: {instance: b, export: f}}}}\n",
        "no instance `f` is exported there: correct the argument's `export`, or leave it out",
    ),
    (
        &[("d/root", TAKES), ("d/b.wasm", GIVES)],
        "instantiations: {b: {arguments: {q: y}}}\n",
        "there is no import `q` for the argument of this name: correct or remove the argument",
    ),
];

#[test]
fn refuses_what_is_not_there(rt: HostRuntime) -> Result<(), Fail> {
    come_out(rt.alloc(), NOT_THERE)
}

/// What is found and can't be taken.
const NOT_TAKEN: &[Row] = &[
    (
        &[("d/root", TAKES), ("d/b.wasm", EMPTY)],
        "{}\n",
        "the import `b` of the instance `root` is not given what was found for it: what is given does not fit the import: give something else, or take releases that fit",
    ),
    (
        &[("d/root", TAKES_ROOT)],
        "{}\n",
        "the import `root` of the instance `root` is not given what was found for it: what is given does not fit the import: give something else, or take releases that fit",
    ),
    (
        &[("d/root", TAKES)],
        "instantiations: {root: {arguments: {b: root}}}\n",
        "the import `b` of the instance `root` is not given what was found for it: an instance can't be connected to itself: make another one, and connect that",
    ),
    (
        &[("d/root", TAKES)],
        "definitions: [..]\n",
        "the definition `..` names no file: give the path of a component",
    ),
    (
        &[("d/root", TAKES)],
        "definitions: [o.w, ..]\n",
        "`d/o.w`: there is no such file: check the path",
    ),
    (
        &[("d/root", TAKES), ("d/root.w", GIVES)],
        "definitions: [root.w]\n",
        "a component named `root` is there already: give this one another name, or remove that one",
    ),
    (
        &[("d/root", TAKES), ("d/x", EMPTY)],
        "dependencies: {b: y}\n",
        "`d/y`: there is no such file: check the path",
    ),
];

#[test]
fn refuses_what_can_not_be_taken(rt: HostRuntime) -> Result<(), Fail> {
    come_out(rt.alloc(), NOT_TAKEN)
}

/// Fields that are not there, and one that is missing: the place is that of the field, or of the end of its map.
const NO_FIELDS: &[Row] = &[
    (
        &[],
        "colour: red\n",
        "line 1, column 1: the configuration: there is no field `colour`; correct its name or remove it",
    ),
    (
        &[],
        "search-paths: []\ndependencies:\n  b:\n    way: x\n",
        "line 4, column 5: the configuration: there is no field `way`; correct its name or remove it",
    ),
    (
        &[],
        "instantiations: {root: {arguments: {b: {export: e}}}}\n",
        "line 1, column 50: the configuration: the field `instance` is missing; add it",
    ),
];

#[test]
fn tells_the_line_and_the_column_of_a_field(rt: HostRuntime) -> Result<(), Fail> {
    come_out(rt.alloc(), NO_FIELDS)
}
