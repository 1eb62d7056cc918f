//! Names of imports, with the answers that the grammar gives by hand, and the texts that are written.

use semver::{Version, VersionReq};
use std::alloc::Global;
use std::test::Fail;
use test_check::{holds, is_text};
use warg_hash::AnyHash;
use warg_log::Release;
use warg_names::{
    DependencyImportParser, Import, ImportKind, ImportNameError, TreeBuilder, create_child_node,
    kindless_name, locked_package, marked, new_tree, version_string, versioned_package,
};

/// Names, each with what it asks for, a line each.
const GOOD: &str = "\
unlocked-dep=<foo:bar@{>=1.0.0 <2.0.0}> -> foo:bar {>=1.0.0 <2.0.0} unlocked
unlocked-dep=<foo:bar@*> -> foo:bar * unlocked
unlocked-dep=<foo:bar> -> foo:bar * unlocked
unlocked-dep=<a-b:c1-d@{<2.0.0}> -> a-b:c1-d {<2.0.0} unlocked
unlocked-dep=<a:b@{>=1.0.0+x}> -> a:b {>=1.0.0} unlocked
unlocked-dep=<a:b@{>=1.0.0-rc.1+x.01 <1.0.0+y}> -> a:b {>=1.0.0-rc.1 <1.0.0} unlocked
locked-dep=<foo:bar@1.0.0-rc.1>,integrity=<sha256-abc> -> foo:bar =1.0.0-rc.1 locked sha256-abc exact 1.0.0-rc.1
locked-dep=<foo:bar> -> foo:bar * locked
locked-dep=<foo:bar>,integrity=<x<y,> -> foo:bar * locked x<y,
locked-dep=<a:b@1.0.0+build.5> -> a:b =1.0.0 locked exact 1.0.0+build.5
wasi:io/poll@0.2.0 -> wasi:io/poll =0.2.0 interface 0.2.0
i1 -> i1 * interface
@1.0.0 ->  =1.0.0 interface 1.0.0
i@1.0.0-99999999999999999999 -> i =1.0.0-99999999999999999999 interface 1.0.0-99999999999999999999
i@18446744073709551615.0.0 -> i =18446744073709551615.0.0 interface 18446744073709551615.0.0
i@1.0.0+a -> i =1.0.0 interface 1.0.0+a
unlocked-dep -> unlocked-dep * interface
Locked-dep=<a:b> -> Locked-dep=<a:b> * interface
 locked-dep=<a:b> ->  locked-dep=<a:b> * interface
A <b> -> A <b> * interface
";

/// Names of dependencies whose package is not well written, each with what is wanted, and where.
const PACKAGES: &str = "\
unlocked-dep= -> `<` at 13
unlocked-dep=a:b -> `<` at 13
unlocked-dep=< -> label at 14
unlocked-dep=<> -> label at 14
unlocked-dep=<a -> `:` at 15
unlocked-dep=<a> -> `:` at 15
unlocked-dep=<a: -> label at 16
unlocked-dep=<a:> -> label at 16
unlocked-dep=<:b> -> label at 14
unlocked-dep=<a:b -> `>` at 17
unlocked-dep=<a:b>x -> end at 18
unlocked-dep=<a:b>> -> end at 18
unlocked-dep=<<a:b>> -> label at 14
unlocked-dep=<a:b>,integrity=<x> -> end at 18
unlocked-dep=<a_b:c> -> `:` at 15
unlocked-dep=<A:b> -> label at 14
unlocked-dep=<aB:b> -> `:` at 15
unlocked-dep=<a-:b> -> `:` at 15
unlocked-dep=<a--b:c> -> `:` at 15
unlocked-dep=<a-1:b> -> `:` at 15
unlocked-dep=<1a:b> -> label at 14
unlocked-dep=<a:b:c> -> `>` at 17
unlocked-dep=<a:b/c> -> `>` at 17
 -> label at 0
";

/// Names of dependencies whose requirement is not well written.
const REQUIREMENTS: &str = "\
unlocked-dep=<a:b@ -> `{` at 18
unlocked-dep=<foo:bar@1.0.0> -> `{` at 22
unlocked-dep=<a:b@* -> `>` at 19
unlocked-dep=<a:b@**> -> `>` at 19
unlocked-dep=<a:b@*@*> -> `>` at 19
unlocked-dep=<a:b@{> -> `>=` at 19
unlocked-dep=<a:b@{x}> -> `>=` at 19
unlocked-dep=<a:b@{}> -> `>=` at 19
unlocked-dep=<a:b@{=1.0.0}> -> `>=` at 19
unlocked-dep=<a:b@{>=}> -> version at 21
unlocked-dep=<a:b@{>=1.0}> -> version at 21
unlocked-dep=<a:b@{>=01.0.0}> -> version at 21
unlocked-dep=<a:b@{<}> -> version at 20
unlocked-dep=<a:b@{>=1.0.0x}> -> `}` at 26
unlocked-dep=<a:b@{>=1.0.00}> -> `}` at 26
unlocked-dep=<a:b@{>=1.0.18446744073709551616}> -> `}` at 44
unlocked-dep=<a:b@{>=1.0.0-}> -> `}` at 26
unlocked-dep=<a:b@{>=1.0.0-01}> -> `}` at 28
unlocked-dep=<a:b@{>=1.0.0-a..b}> -> `}` at 28
unlocked-dep=<a:b@{>=1.0.0+}> -> `}` at 26
unlocked-dep=<a:b@{>=1.0.0 }> -> `<` at 27
unlocked-dep=<a:b@{>=1.0.0  <2.0.0}> -> `<` at 27
unlocked-dep=<a:b@{>=1.0.0 <2.0.0> -> `}` at 33
unlocked-dep=<a:b@{<2.0.0 >=1.0.0}> -> `}` at 25
unlocked-dep=<a:b@{>=1.0.0} -> `>` at 27
";

/// Names of locked packages and of interfaces that are not well written.
const OTHERS: &str = "\
locked-dep= -> `<` at 11
locked-dep=<a:b -> `>` at 15
locked-dep=<a:b@> -> version at 16
locked-dep=<a:b@*> -> version at 16
locked-dep=<a:b@1.0.0 -> `>` at 21
locked-dep=<a:b@1.0.0@2.0.0> -> `>` at 21
locked-dep=<a:b@1.0.0>x -> end at 22
locked-dep=<a:b>,x -> end at 16
locked-dep=<a:b>,integrity=<> -> end at 16
locked-dep=<a:b>,integrity=<x -> `>` at 29
locked-dep=<a:b>,integrity=< -> `>` at 28
locked-dep=<a:b>,integrity=<x>> -> end at 30
i@ -> version at 2
i@v1.0.0 -> version at 2
i@@1.0.0 -> version at 2
@ -> version at 1
i@18446744073709551616.0.0 -> version at 2
i@1.0.0x -> end at 7
i@1.0.0@2.0.0 -> end at 7
i@1.0.0  -> end at 7
";

/// The digest of `abc`.
const DIGITS: &str = "ba7816bf8f01cfea414140de5dae2223b00361a396177a9cb410ff61f20015ad";

/// The kind of an import, and its text where it has one.
fn kind_of(alloc: Global, kind: &ImportKind) -> Result<String, Fail> {
    Ok(match kind {
        ImportKind::Locked(Some(integrity)) => format!(in alloc; "locked {integrity}")?,
        ImportKind::Locked(None) => String::from_str(alloc, "locked")?,
        ImportKind::Unlocked => String::from_str(alloc, "unlocked")?,
        ImportKind::Interface(Some(version)) => format!(in alloc; "interface {version}")?,
        ImportKind::Interface(None) => String::from_str(alloc, "interface")?,
    })
}

/// What an import asks for.
fn shown(alloc: Global, import: &Import) -> Result<String, Fail> {
    let name = import.name.as_str();
    let req = version_string(alloc, &import.req)?;
    let kind = kind_of(alloc, &import.kind)?;
    Ok(match &import.exact {
        Some(version) => format!(in alloc; "{name} {req} {kind} exact {version}")?,
        None => format!(in alloc; "{name} {req} {kind}")?,
    })
}

/// What a refusal wants, and where.
fn refusal(alloc: Global, error: &ImportNameError) -> Result<String, Fail> {
    Ok(match error {
        ImportNameError::Expected(mark, place) => format!(in alloc; "`{mark}` at {place}")?,
        ImportNameError::NotKebab(place) => format!(in alloc; "label at {place}")?,
        ImportNameError::NotVersion(place) => format!(in alloc; "version at {place}")?,
        ImportNameError::Trailing(place) => format!(in alloc; "end at {place}")?,
        ImportNameError::Memory => String::from_str(alloc, "memory")?,
    })
}

/// Fails where an answer is another one.
fn is_answer(
    alloc: Global,
    answer: &Result<Import, ImportNameError>,
    want: &str,
) -> Result<(), Fail> {
    match answer {
        Ok(import) => is_text(&shown(alloc, import)?, want),
        Err(error) => is_text(&refusal(alloc, error)?, want),
    }
}

/// What a parser answers to a name. It stands alone, since a call brings its whole contract with it.
fn parsed(alloc: Global, name: &str) -> Result<Import, ImportNameError> {
    let mut parser = DependencyImportParser {
        next: name,
        offset: 0,
    };
    parser.parse(alloc)
}

/// Fails where something else is answered to a name. It holds the answer alone, which is dropped here.
fn is_answered(alloc: Global, name: &str, want: &str) -> Result<(), Fail> {
    is_answer(alloc, &parsed(alloc, name), want)
}

/// What is answered to the inside of `unlocked-dep=<>`.
fn dependency(alloc: Global, text: &str) -> Result<Import, ImportNameError> {
    Import::from_dependency(alloc, text)
}

/// Fails where something else is answered to the inside of `unlocked-dep=<>`.
fn is_dependency(alloc: Global, text: &str, want: &str) -> Result<(), Fail> {
    is_answer(alloc, &dependency(alloc, text), want)
}

/// Fails at the first line of a table whose name has another answer.
fn are_lines(alloc: Global, table: &str) -> Result<(), Fail> {
    for line in table.lines() {
        let (name, want) = line.split_once(" -> ").ok_or("a line of a table")?;
        is_answered(alloc, name, want)?;
    }
    Ok(())
}

#[test]
fn names_ask_for_what_the_grammar_says(rt: HostRuntime) -> Result<(), Fail> {
    are_lines(rt.alloc(), GOOD)
}

#[test]
fn refusals_tell_where_a_name_ends(rt: HostRuntime) -> Result<(), Fail> {
    are_lines(rt.alloc(), PACKAGES)?;
    are_lines(rt.alloc(), REQUIREMENTS)?;
    are_lines(rt.alloc(), OTHERS)
}

/// Whether a parser reads a name.
fn reads(alloc: Global, parser: &mut DependencyImportParser<'_>) -> bool {
    parser.parse(alloc).is_ok()
}

/// Whether a parser finds no version at this place.
fn finds_no_version(alloc: Global, parser: &mut DependencyImportParser<'_>, place: usize) -> bool {
    match parser.parse(alloc) {
        Err(ImportNameError::NotVersion(found)) => found == place,
        _ => false,
    }
}

/// Fails where a parser is not left with this text at this place.
fn is_left(parser: &DependencyImportParser<'_>, next: &str, offset: usize) -> Result<(), Fail> {
    holds(parser.offset == offset, "a parser counts on")?;
    is_text(parser.next, next)
}

/// Fails where a parser does not move over a name.
fn moves_over(alloc: Global) -> Result<(), Fail> {
    let mut parser = DependencyImportParser {
        next: "i@1.0.0",
        offset: 5,
    };
    holds(reads(alloc, &mut parser), "a name is read")?;
    is_left(&parser, "", 12)
}

/// Fails where a parser moves over what is no name.
fn stays(alloc: Global) -> Result<(), Fail> {
    let mut parser = DependencyImportParser {
        next: "i@x",
        offset: 5,
    };
    holds(
        finds_no_version(alloc, &mut parser, 7),
        "there is no version",
    )?;
    is_left(&parser, "i@x", 5)
}

#[test]
fn a_parser_moves_over_a_name_alone(rt: HostRuntime) -> Result<(), Fail> {
    moves_over(rt.alloc())?;
    stays(rt.alloc())
}

/// Insides of `unlocked-dep=<>`, and the answers to them.
const DEPENDENCIES: &[(&str, &str)] = &[
    ("demo:app", "demo:app * unlocked"),
    ("demo:app@{>=1.0.0}", "demo:app {>=1.0.0} unlocked"),
    ("demo:app>", "end at 8"),
    ("demo", "`:` at 4"),
    ("", "label at 0"),
];

/// Fails at the first text to which something else is answered.
fn are_dependencies(alloc: Global, rows: &[(&str, &str)]) -> Result<(), Fail> {
    for (text, want) in rows {
        is_dependency(alloc, text, want)?;
    }
    Ok(())
}

#[test]
fn dependencies_are_read_without_their_mark(rt: HostRuntime) -> Result<(), Fail> {
    are_dependencies(rt.alloc(), DEPENDENCIES)
}

/// Names, and what is left of them without their kind.
const KINDLESS: &[(&str, &str)] = &[
    (
        "unlocked-dep=<foo:bar@{>=1.0.0 <2.0.0}>",
        "foo:bar@{>=1.0.0 <2.0.0}",
    ),
    ("unlocked-dep=<a:b>x", "a:b"),
    ("unlocked-dep=<a:b", "unlocked-dep=<a:b"),
    ("locked-dep=<a:b@1.0.0>,integrity=<x>", "a:b@1.0.0"),
    ("locked-dep=<a:b", "locked-dep=<a:b"),
    ("wasi:io/poll@0.2.0", "wasi:io/poll@0.2.0"),
    ("unlocked-dep=", "unlocked-dep="),
    ("", ""),
];

/// Fails at the first name that loses something else.
fn are_kindless(rows: &[(&str, &str)]) -> Result<(), Fail> {
    for (name, inside) in rows {
        is_text(kindless_name(name), inside)?;
    }
    Ok(())
}

#[test]
fn names_lose_their_kind(_rt: HostRuntime) -> Result<(), Fail> {
    are_kindless(KINDLESS)
}

/// Fails where a requirement stands otherwise behind a package, or alone.
fn is_written(alloc: Global, req: &VersionReq, want: &str) -> Result<(), Fail> {
    let package = versioned_package(alloc, "a:b", req)?;
    let alone = version_string(alloc, req)?;
    is_text(&format!(in alloc; "{package} {alone}")?, want)
}

/// Requirements, and how they are written.
const WRITTEN: &[(&str, &str)] = &[
    ("*", "a:b *"),
    ("=1.0.0-rc.1", "a:b@{=1.0.0-rc.1} =1.0.0-rc.1"),
    (">=1.0.0, <2.0.0", "a:b@{>=1.0.0 <2.0.0} {>=1.0.0 <2.0.0}"),
    ("^1.2", "a:b@{^1.2} {^1.2}"),
    ("1.*", "a:b@{1.*} {1.*}"),
    (
        "~1, <=1.9.0, >1.1",
        "a:b@{~1 <=1.9.0 >1.1} {~1 <=1.9.0 >1.1}",
    ),
];

/// Fails at the first requirement that is written otherwise.
fn are_written(alloc: Global, rows: &[(&str, &str)]) -> Result<(), Fail> {
    for (req, want) in rows {
        let req = VersionReq::parse(alloc, req)?;
        is_written(alloc, &req, want)?;
    }
    Ok(())
}

#[test]
fn requirements_are_written_as_cargo_writes_them(rt: HostRuntime) -> Result<(), Fail> {
    are_written(rt.alloc(), WRITTEN)
}

/// The name of a locked package of the content `abc`.
fn locked_name(alloc: Global, version: &str) -> Result<String, Fail> {
    let digest = AnyHash::sha256_of(b"abc");
    let release = Release {
        version: Version::parse(alloc, version)?,
        content: Some(digest),
    };
    Ok(locked_package(alloc, "a:b", &release, &digest)?.into_string())
}

/// Fails where a name is not the wanted one of the content `abc`.
fn is_locked_name(alloc: Global, name: &str) -> Result<(), Fail> {
    let wanted = format!(in alloc; "locked-dep=<a:b@1.2.3-rc.1+x>,integrity=<sha256-{DIGITS}>")?;
    is_text(name, &wanted)
}

/// Fails where the answer to a name is not the wanted one of the content `abc`.
fn reads_back(alloc: Global, name: &str) -> Result<(), Fail> {
    let wanted = format!(in alloc; "a:b =1.2.3-rc.1 locked sha256-{DIGITS} exact 1.2.3-rc.1+x")?;
    is_answered(alloc, name, &wanted)
}

#[test]
fn locked_packages_read_back(rt: HostRuntime) -> Result<(), Fail> {
    let name = locked_name(rt.alloc(), "1.2.3-rc.1+x")?;
    is_locked_name(rt.alloc(), &name)?;
    reads_back(rt.alloc(), &name)
}

/// Fails where the digits of `abc` name something else between these texts.
fn are_marked(alloc: Global, front: &str, end: &str, want: Option<AnyHash>) -> Result<(), Fail> {
    let mark = format!(in alloc; "{front}{DIGITS}{end}")?;
    holds(marked(alloc, &mark) == want, &mark)
}

/// Fails at the first text that names a digest.
fn are_no_marks(alloc: Global, marks: &[&str]) -> Result<(), Fail> {
    for mark in marks {
        holds(marked(alloc, mark).is_none(), mark)?;
    }
    Ok(())
}

#[test]
fn marks_name_digests(rt: HostRuntime) -> Result<(), Fail> {
    let alloc = rt.alloc();
    are_marked(alloc, "sha256-", "", Some(AnyHash::sha256_of(b"abc")))?;
    are_marked(alloc, "sha256-", "0", None)?;
    are_marked(alloc, "sha256:", "", None)?;
    are_no_marks(alloc, &["sha256-abc", "sha256-", ""])
}

/// The tree of a package of this version.
fn tree(alloc: Global, version: &str) -> Result<TreeBuilder, Fail> {
    let version = Version::parse(alloc, version)?;
    Ok(new_tree(alloc, "demo", "app", &version)?)
}

/// Whether a node has this text, and none below it.
fn is_alone(node: &TreeBuilder, text: &str) -> bool {
    node.text.as_str() == text && node.children.is_empty()
}

#[test]
fn trees_begin_with_a_package(rt: HostRuntime) -> Result<(), Fail> {
    let tree = tree(rt.alloc(), "1.0.0+x")?;
    holds(
        is_alone(&tree, "demo:app@1.0.0+x"),
        "the package stands alone",
    )
}

/// The texts of the nodes below one, with a comma behind each.
fn texts_below(alloc: Global, node: &TreeBuilder) -> Result<String, Fail> {
    let mut texts = String::new(alloc);
    for child in node.children.as_slice() {
        texts.push_str(child.text.as_str())?;
        texts.push_str(",")?;
    }
    Ok(texts)
}

/// Fails where the nodes below one have other texts.
fn has_below(alloc: Global, node: &TreeBuilder, texts: &str) -> Result<(), Fail> {
    is_text(&texts_below(alloc, node)?, texts)
}

/// The first node below one.
fn first_below(node: &TreeBuilder) -> Result<&TreeBuilder, Fail> {
    Ok(node.children.as_slice().first().ok_or("a node")?)
}

/// Adds a node, one below it and another.
fn grow(alloc: Global, tree: &mut TreeBuilder) -> Result<(), Fail> {
    let first = create_child_node(alloc, tree, "a:b", "1.0.0")?;
    create_child_node(alloc, first, "c:d", "*")?;
    create_child_node(alloc, tree, "e:f", "{>=1.0.0}")?;
    Ok(())
}

#[test]
fn nodes_are_added_last(rt: HostRuntime) -> Result<(), Fail> {
    let mut tree = new_tree(rt.alloc(), "demo", "app", &Version::new(1, 0, 0))?;
    grow(rt.alloc(), &mut tree)?;
    has_below(rt.alloc(), &tree, "a:b@1.0.0,e:f@{>=1.0.0},")?;
    has_below(rt.alloc(), first_below(&tree)?, "c:d@*,")
}

/// The import of a name.
fn import(alloc: Global, name: &str) -> Result<Import, Fail> {
    Ok(parsed(alloc, name)?)
}

/// Whether imports ask for the same, where they are to, and otherwise whether they do not.
fn are_compared(first: &Import, second: &Import, same: bool) -> bool {
    if same {
        first.is_same(second) && first == second
    } else {
        !first.is_same(second) && first != second
    }
}

/// Fails where the imports of two names do not ask for the same, where they are to, or otherwise do.
fn ask(alloc: Global, first: &str, second: &str, same: bool) -> Result<(), Fail> {
    let first = import(alloc, first)?;
    let second = import(alloc, second)?;
    holds(are_compared(&first, &second, same), "imports are compared")
}

/// Fails where a copy of a name's import asks for something else.
fn is_copied(alloc: Global, name: &str) -> Result<(), Fail> {
    let import = import(alloc, name)?;
    let copy = import.try_clone(alloc)?;
    holds(are_compared(&copy, &import, true), "a copy is the same")
}

#[test]
fn imports_are_compared_by_what_they_ask_for(rt: HostRuntime) -> Result<(), Fail> {
    let alloc = rt.alloc();
    ask(alloc, "unlocked-dep=<a:b>", "unlocked-dep=<a:b@*>", true)?;
    let locked = "locked-dep=<a:b@1.0.0+x>";
    ask(alloc, locked, "locked-dep=<a:b@1.0.0+y>", false)?;
    is_copied(alloc, locked)
}
