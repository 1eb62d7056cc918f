//! What becomes of plans over recorded replies, by `assemble PLAN REPLIES CHECKED OUT` over files and an output in memory.

use crate::world::{
    CHECKED, GREATEST_PRINTED, NOTHING_CONTENT, NOTHING_LINKED, NOTHING_PRINTED, NOTHING_SOURCES,
    OLDER_SOURCES, OPEN_CHECKPOINT, OPEN_CONTENT, OPEN_INCLUSION, OPEN_LINKED, OPEN_PAGE,
    OPEN_PRINTED, OPEN_SOURCES, TEXT_CHECKPOINT, TEXT_CONTENT, TEXT_INCLUSION, TEXT_PAGE,
    TEXT_SOURCES, TYPES_CHECKPOINT, TYPES_CONTENT, TYPES_INCLUSION, TYPES_LINKED, TYPES_NO_PROOF,
    TYPES_PAGE, TYPES_PRINTED, TYPES_SOURCES, UNFIT_CHECKPOINT, UNFIT_INCLUSION, UNFIT_PAGE,
    WIRED_CHECKPOINT, WIRED_CONTENT, WIRED_INCLUSION, WIRED_LINKED, WIRED_PAGE, WIRED_PRINTED,
    WIRED_SOURCES, YANKED_CHECKPOINT, YANKED_INCLUSION, YANKED_PAGE,
};
use hex::encode;
use std::alloc::Global;
use std::rt::HostRuntime;
use std::test::Fail;
use test_check::replies_file;
use warg_base::{Files, MemoryFiles, MemoryOut};
use warg_program::{Stop, outcome};

/// The words of the command.
const WORDS: &[&str] = &["assemble", "plan", "replies", "checked", "out"];

/// The text of a plan of one package.
pub const TEXT: &str = "instantiations:\n  root:\n    dependency: demo:app\n";

/// What is given, and how it ends.
struct Row {
    /// The text of the plan.
    text: &'static str,
    /// The bodies of the replies, in the order in which they come.
    bodies: &'static [&'static str],
    /// What is printed.
    printed: &'static str,
    /// The component, in hex, or the status and the beginning of the cause.
    ended: &'static str,
}

/// Which release a plan of one package gets.
const RELEASES: &[Row] = &[
    Row {
        text: TEXT,
        bodies: &[
            TYPES_CHECKPOINT,
            TYPES_PAGE,
            TYPES_INCLUSION,
            TYPES_SOURCES,
            TYPES_CONTENT,
        ],
        printed: TYPES_PRINTED,
        ended: TYPES_LINKED,
    },
    // A release below a version, and a reply more than is asked for.
    Row {
        text: "instantiations:\n  root:\n    dependency: demo:app@{<1.1.0}\n",
        bodies: &[
            TYPES_CHECKPOINT,
            TYPES_PAGE,
            TYPES_INCLUSION,
            NOTHING_SOURCES,
            NOTHING_CONTENT,
            NOTHING_CONTENT,
        ],
        printed: NOTHING_PRINTED,
        ended: NOTHING_LINKED,
    },
    Row {
        text: "instantiations:\n  root:\n    dependency: demo:app@{>=2.0.0}\n",
        bodies: &[TYPES_CHECKPOINT, TYPES_PAGE, TYPES_INCLUSION],
        printed: "refused PackageVersionRequirementDoesNotExist\n",
        ended: "6 no release of demo:app is what is asked for",
    },
    // The greatest release that is neither yanked nor a pre-release, and where all that match are yanked.
    Row {
        text: "instantiations:\n  root:\n    dependency: demo:app@{>=1.0.0}\n",
        bodies: &[
            YANKED_CHECKPOINT,
            YANKED_PAGE,
            YANKED_INCLUSION,
            NOTHING_SOURCES,
            NOTHING_CONTENT,
        ],
        printed: GREATEST_PRINTED,
        ended: NOTHING_LINKED,
    },
    Row {
        text: "instantiations:\n  root:\n    dependency: demo:app@{>=1.11.0 <2.0.0}\n",
        bodies: &[YANKED_CHECKPOINT, YANKED_PAGE, YANKED_INCLUSION],
        printed: "refused PackageVersionRequirementDoesNotExist\n",
        ended: "6 no release of demo:app is what is asked for",
    },
];

/// Replies that lack something, or give something else.
const REPLIES: &[Row] = &[
    Row {
        text: TEXT,
        bodies: &[TYPES_CHECKPOINT, TYPES_PAGE, TYPES_NO_PROOF],
        printed: "refused Api/Proof\n",
        ended: "6 the bundle does not hold the proofs",
    },
    Row {
        text: TEXT,
        bodies: &[
            TYPES_CHECKPOINT,
            TYPES_PAGE,
            TYPES_INCLUSION,
            TYPES_SOURCES,
            NOTHING_CONTENT,
        ],
        printed: "refused IncorrectContent\n",
        ended: "6 a content has the digest",
    },
    Row {
        text: TEXT,
        bodies: &[
            TYPES_CHECKPOINT,
            TYPES_PAGE,
            TYPES_INCLUSION,
            NOTHING_SOURCES,
        ],
        printed: "refused Api/AllSourcesFailed\n",
        ended: "6 no source gave the content",
    },
    Row {
        text: TEXT,
        bodies: &[TYPES_CHECKPOINT, TYPES_PAGE, TYPES_INCLUSION, TYPES_SOURCES],
        printed: "refused LinkFault\n",
        ended: "6 the registry could not be reached",
    },
    Row {
        text: TEXT,
        bodies: &[
            TEXT_CHECKPOINT,
            TEXT_PAGE,
            TEXT_INCLUSION,
            TEXT_SOURCES,
            TEXT_CONTENT,
        ],
        printed: "refused BadComponent\n",
        ended: "6 a package's content is no component",
    },
];

/// What the imports of an instance get, or are left to.
const IMPORTS: &[Row] = &[
    Row {
        text: TEXT,
        bodies: &[
            OPEN_CHECKPOINT,
            OPEN_PAGE,
            OPEN_INCLUSION,
            OPEN_SOURCES,
            OPEN_CONTENT,
        ],
        printed: OPEN_PRINTED,
        ended: OPEN_LINKED,
    },
    Row {
        text: "disallow-imports: true\ninstantiations:\n  root:\n    dependency: demo:app\n",
        bodies: &[
            OPEN_CHECKPOINT,
            OPEN_PAGE,
            OPEN_INCLUSION,
            OPEN_SOURCES,
            OPEN_CONTENT,
        ],
        printed: "refused ImportsDisallowed\n",
        ended: "6 `f` is left open, and the plan disallows imports",
    },
    // The root is given to itself.
    Row {
        text: "instantiations:\n  root:\n    dependency: demo:app\n    arguments:\n      f: root\n",
        bodies: &[
            OPEN_CHECKPOINT,
            OPEN_PAGE,
            OPEN_INCLUSION,
            OPEN_SOURCES,
            OPEN_CONTENT,
        ],
        printed: "refused DependencyCycle\n",
        ended: "6 an instance needs itself",
    },
    // A package that imports an instance of its older release, which exports what is asked for, or nothing.
    Row {
        text: TEXT,
        bodies: &[
            WIRED_CHECKPOINT,
            WIRED_PAGE,
            WIRED_INCLUSION,
            WIRED_SOURCES,
            WIRED_CONTENT,
            OLDER_SOURCES,
            TYPES_CONTENT,
        ],
        printed: WIRED_PRINTED,
        ended: WIRED_LINKED,
    },
    Row {
        text: TEXT,
        bodies: &[
            UNFIT_CHECKPOINT,
            UNFIT_PAGE,
            UNFIT_INCLUSION,
            WIRED_SOURCES,
            WIRED_CONTENT,
            NOTHING_SOURCES,
            NOTHING_CONTENT,
        ],
        printed: "refused Incompatible\n",
        ended: "6 the plan: the export `t` does not fit the import `unlocked-dep=<demo:app@{<1.1.0}>`",
    },
];

/// Texts that are no plan.
const NO_PLANS: &[Row] = &[
    Row {
        text: "a: 1\n",
        bodies: &[],
        printed: "refused BadPlan\n",
        ended: "6 the plan: there is no field `a`",
    },
    Row {
        text: "search-paths: [x]\ninstantiations:\n  root:\n    dependency: demo:app\n",
        bodies: &[],
        printed: "refused BadPlan\n",
        ended: "6 the plan: `search-paths` are folders",
    },
    Row {
        text: "instantiations:\n  root:\n    dependency: demo\n",
        bodies: &[],
        printed: "refused BadPlan\n",
        ended: "6 the plan: an instance has a dependency that is no package",
    },
];

/// How a run ended: the bytes of OUT in hex, or the status and the cause.
fn told(
    alloc: Global,
    files: &mut MemoryFiles,
    ended: &Result<(), Stop<'_>>,
) -> Result<String, Fail> {
    match ended {
        Ok(()) => Ok(encode(alloc, files.read(alloc, "out")?)?),
        Err(stop) => Ok(format!(in alloc; "{} {stop}", stop.status())?),
    }
}

/// How a run of these words ends.
fn ended_by(
    alloc: Global,
    words: &[String],
    files: &mut MemoryFiles,
    out: &mut MemoryOut,
) -> Result<String, Fail> {
    let ended = outcome(alloc, words, files, out);
    let told = told(alloc, files, &ended);
    drop(ended);
    told
}

/// What a run over files prints, and how it ends.
fn ended(alloc: Global, files: &mut MemoryFiles) -> Result<(String, String), Fail> {
    let mut words = Vec::new(alloc);
    for word in WORDS {
        words.push(String::from_str(alloc, word)?)?;
    }
    let mut out = MemoryOut::new(alloc);
    let told = ended_by(alloc, &words, files, &mut out)?;
    Ok((String::from_utf8_lossy(alloc, out.bytes())?, told))
}

/// The files of a row.
fn files_of(alloc: Global, row: &Row) -> Result<MemoryFiles, Fail> {
    let mut files = MemoryFiles::new(alloc);
    files.write(alloc, "plan", row.text.as_bytes())?;
    files.write(
        alloc,
        "replies",
        replies_file(alloc, row.bodies)?.as_bytes(),
    )?;
    files.write(alloc, "checked", CHECKED.as_bytes())?;
    Ok(files)
}

/// Fails at the first row that ends otherwise.
fn end_so(alloc: Global, rows: &[Row]) -> Result<(), Fail> {
    for row in rows {
        let (printed, told) = ended(alloc, &mut files_of(alloc, row)?)?;
        if printed.as_str() != row.printed || !told.starts_with(row.ended) {
            return Err(Fail::new(format_args!("{printed}{told} where {} was to come", row.ended)));
        }
    }
    Ok(())
}

#[test]
fn the_greatest_release_that_is_asked_for_is_linked(rt: HostRuntime) -> Result<(), Fail> {
    end_so(rt.alloc(), RELEASES)
}

#[test]
fn what_replies_lack_is_told(rt: HostRuntime) -> Result<(), Fail> {
    end_so(rt.alloc(), REPLIES)
}

#[test]
fn imports_get_what_the_plan_gives_them(rt: HostRuntime) -> Result<(), Fail> {
    end_so(rt.alloc(), IMPORTS)
}

#[test]
fn a_text_that_is_no_plan_is_refused(rt: HostRuntime) -> Result<(), Fail> {
    end_so(rt.alloc(), NO_PLANS)
}

/// The bytes of PLAN, REPLIES and CHECKED, where these files are there, and the line that is printed and the beginning of
/// the status and the cause.
const FILES: &[(&[Option<&[u8]>; 3], &str, &str)] = &[
    (
        &[None, None, None],
        "missing plan\n",
        "3 plan: there is no such file",
    ),
    (
        &[Some(b"\xff"), None, None],
        "bad plan\n",
        "5 plan: the plan is no UTF-8 text",
    ),
    (
        &[Some(b"a: 1\n"), None, None],
        "missing replies\n",
        "3 replies: there is no such file",
    ),
    (
        &[Some(b"a: 1\n"), Some(b"{}"), None],
        "bad replies\n",
        "5 replies: no recorded replies",
    ),
    (
        &[Some(b"a: 1\n"), Some(b"[]"), None],
        "missing checked\n",
        "3 checked: there is no such file",
    ),
    (
        &[Some(b"a: 1\n"), Some(b"[]"), Some(b"[1]")],
        "bad checked\n",
        "5 checked: no checked signatures",
    ),
    (
        &[Some(b"a: 1\n"), Some(b"[]"), Some(b"[]")],
        "refused BadPlan\n",
        "6 the plan: there is no field `a`",
    ),
];

/// Fails at the first row of files that are judged otherwise.
fn are_judged_so(alloc: Global, rows: &[(&[Option<&[u8]>; 3], &str, &str)]) -> Result<(), Fail> {
    for (given, line, cause) in rows {
        let mut files = MemoryFiles::new(alloc);
        for (path, bytes) in ["plan", "replies", "checked"].iter().zip(given.iter()) {
            if let Some(bytes) = bytes {
                files.write(alloc, path, bytes)?;
            }
        }
        let (printed, told) = ended(alloc, &mut files)?;
        if printed.as_str() != *line || !told.starts_with(*cause) {
            return Err(Fail::new(format_args!("{printed}{told} where {cause} was to come")));
        }
    }
    Ok(())
}

#[test]
fn files_are_judged_one_by_one_in_the_order_of_the_words(rt: HostRuntime) -> Result<(), Fail> {
    are_judged_so(rt.alloc(), FILES)
}
