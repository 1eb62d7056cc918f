//! What registries answer to a client.

use crate::registries::{client, filled, other, told, words};
use crate::world::{CHECKPOINT, LATER, LATER_ROOT, OTHER, RECORD, ROOT};
use indexmap::IndexMap;
use std::alloc::{AllocError, Global};
use std::rt::HostRuntime;
use std::test::Fail;
use test_check::is_row;
use warg_api::{Client, ClientError};
use warg_exchange::{
    ConsistencyRequest, FetchLogsRequest, FetchLogsResponse, InclusionRequest, SignedCheckpoint,
};
use warg_hash::{AnyHash, LogId, PackageName, RecordId};
use warg_proof::LogLeaf;
use warg_url::RegistryDomain;
use warg_values::{Sequence, Text};
use warg_vectors::ModelRegistry;

/// What is asked, and what is answered.
type Row = (&'static str, &'static str);

/// Of a checkpoint of four records, behind which there is a fifth; the other registry has not grown.
const ROWS: &[Row] = &[
    ("checkpoint", CHECKPOINT),
    (
        "checkpoint of the other",
        "the registry has no checkpoint of length 0: ask for its latest one",
    ),
    ("logs", "1 and 3, more false"),
    ("logs below 3", "1 and 2, more false"),
    (
        "another log",
        "the registry has no log `sha256:10941f803aab8577585e1d97624a693a1e320321f117ddfe457c568b0c5d2d0e`: check the package's name and the registry",
    ),
    (
        "logs behind another record",
        "the registry does not know the fetch token `1`: reset the stored state of this registry",
    ),
    ("inclusion of 3", "shown"),
    ("inclusion of 4", "the registry's log has no entry 4"),
    ("content", "2.0.0"),
];

/// Once both have grown.
const GROWN: &[Row] = &[
    ("checkpoint", LATER),
    ("checkpoint of the other", OTHER),
    ("logs", "1 and 4, more false"),
    ("consistency with 5", "shown"),
    (
        "consistency with 6",
        "the registry has no checkpoint of length 6: ask for its latest one",
    ),
    (
        "another content",
        "the registry has no content `sha256:c9163ff21f1f2b0390dc48bdda47179718f772f507a7cebceca59ce1a7129029`",
    ),
];

/// A checkpoint in words.
fn checkpoint_text(alloc: Global, told: &SignedCheckpoint) -> Result<String, AllocError> {
    format!(in alloc;
        "{} {} {} {} {}",
        told.contents.log_length,
        told.contents.log_root,
        told.contents.map_root,
        told.contents.timestamp,
        told.signature.as_str()
    )
}

/// The latest checkpoint of a registry.
fn checkpoint(
    alloc: Global,
    client: &Client,
    link: &mut ModelRegistry,
    registry: Option<&RegistryDomain>,
) -> Result<String, ClientError> {
    let told = client.latest_checkpoint(alloc, link, registry)?;
    words(checkpoint_text(alloc, &told))
}

/// A request for the logs of the operator behind a token and of a package, below a length.
fn request(
    alloc: Global,
    length: u64,
    package: &str,
    operator: Option<Text>,
) -> Result<FetchLogsRequest, Fail> {
    let name = PackageName::new(alloc, package)?;
    let mut packages = IndexMap::new(alloc);
    packages.insert(LogId::package_log(&name), None)?;
    Ok(FetchLogsRequest {
        log_length: length,
        operator,
        packages,
    })
}

/// How many records a page has of the operator's log and of the one package's.
fn page_text(alloc: Global, page: &FetchLogsResponse) -> Result<String, AllocError> {
    let count = match page.packages.values().next() {
        Some(records) => records.len(),
        None => 0,
    };
    format!(in alloc; "{} and {count}, more {}", page.operator.len(), page.more)
}

/// A page of logs.
fn page(
    alloc: Global,
    client: &Client,
    link: &mut ModelRegistry,
    request: &FetchLogsRequest,
) -> Result<String, ClientError> {
    let page = client.fetch_logs(alloc, link, None, request)?;
    words(page_text(alloc, &page))
}

/// The logs of a package, and of the operator behind a token, below a length.
fn logs(
    alloc: Global,
    client: &Client,
    link: &mut ModelRegistry,
    length: u64,
    package: &str,
    operator: Option<Text>,
) -> Result<String, Fail> {
    let request = request(alloc, length, package, operator)?;
    told(alloc, page(alloc, client, link, &request))
}

/// The record of the release 1.1.0, as an entry of the log.
fn leaf(alloc: Global) -> Result<LogLeaf, Fail> {
    let name = PackageName::new(alloc, "a:b")?;
    Ok(LogLeaf {
        log_id: LogId::package_log(&name),
        record_id: RecordId::from(AnyHash::from_text(alloc, RECORD)?),
    })
}

/// Whether records are in the log and the map of the home registry's checkpoint.
fn shown(
    alloc: Global,
    client: &Client,
    link: &mut ModelRegistry,
    request: &InclusionRequest,
    leaf: LogLeaf,
) -> Result<String, ClientError> {
    let told = client.latest_checkpoint(alloc, link, None)?;
    client.prove_inclusion(alloc, link, None, request, &told.contents, &[leaf])?;
    words(String::from_str(alloc, "shown"))
}

/// Whether that record stands at a place of the log of four.
fn inclusion(
    alloc: Global,
    client: &Client,
    link: &mut ModelRegistry,
    place: u64,
) -> Result<String, Fail> {
    let mut leafs = Sequence::new(alloc);
    leafs.push(place)?;
    let request = InclusionRequest {
        log_length: 4,
        leafs,
    };
    let leaf = leaf(alloc)?;
    told(alloc, shown(alloc, client, link, &request, leaf))
}

/// Whether a log of as many records continues that of four.
fn continues(
    alloc: Global,
    client: &Client,
    link: &mut ModelRegistry,
    to: u64,
    roots: &(AnyHash, AnyHash),
) -> Result<String, ClientError> {
    let lengths = ConsistencyRequest { from: 4, to };
    client.prove_log_consistency(alloc, link, None, &lengths, &roots.0, &roots.1)?;
    words(String::from_str(alloc, "shown"))
}

/// Whether the log of the second checkpoint continues that of the first.
fn consistency(
    alloc: Global,
    client: &Client,
    link: &mut ModelRegistry,
    to: u64,
) -> Result<String, Fail> {
    let roots = (
        AnyHash::from_text(alloc, ROOT)?,
        AnyHash::from_text(alloc, LATER_ROOT)?,
    );
    told(alloc, continues(alloc, client, link, to, &roots))
}

/// The text that is the content with the digest of a text.
fn content(
    alloc: Global,
    client: &Client,
    link: &mut ModelRegistry,
    text: &str,
) -> Result<String, ClientError> {
    let digest = AnyHash::sha256_of(text.as_bytes());
    let bytes = client.download_whole(alloc, link, None, &digest)?;
    if bytes.as_slice() == text.as_bytes() {
        words(String::from_str(alloc, text))
    } else {
        words(String::from_str(alloc, "other bytes"))
    }
}

/// What the home registry answers of its logs, or the other one of its checkpoint.
fn of_logs(
    alloc: Global,
    client: &Client,
    link: &mut ModelRegistry,
    asked: &str,
) -> Result<String, Fail> {
    match asked {
        "logs" => logs(alloc, client, link, 9, "a:b", None),
        "logs below 3" => logs(alloc, client, link, 3, "a:b", None),
        "another log" => logs(alloc, client, link, 9, "a:c", None),
        "logs behind another record" => {
            let token = Text::copy_of(alloc, "1")?;
            logs(alloc, client, link, 9, "a:b", Some(token))
        }
        _ => {
            let other = other(alloc)?;
            told(alloc, checkpoint(alloc, client, link, Some(&other)))
        }
    }
}

/// What is answered.
fn answer(
    alloc: Global,
    client: &Client,
    link: &mut ModelRegistry,
    asked: &str,
) -> Result<String, Fail> {
    match asked {
        "checkpoint" => told(alloc, checkpoint(alloc, client, link, None)),
        "inclusion of 3" => inclusion(alloc, client, link, 3),
        "inclusion of 4" => inclusion(alloc, client, link, 4),
        "consistency with 5" => consistency(alloc, client, link, 5),
        "consistency with 6" => consistency(alloc, client, link, 6),
        "content" => told(alloc, content(alloc, client, link, "2.0.0")),
        "another content" => told(alloc, content(alloc, client, link, "3.0.0")),
        _ => of_logs(alloc, client, link, asked),
    }
}

/// Fails where something else is answered than a row says.
fn all_so(alloc: Global, link: &mut ModelRegistry, rows: &[Row]) -> Result<(), Fail> {
    let client = client(alloc)?;
    for (asked, wanted) in rows {
        let found = answer(alloc, &client, link, asked)?;
        is_row(asked, &found, wanted)?;
    }
    Ok(())
}

#[test]
fn registries_answer_below_the_last_checkpoint(rt: HostRuntime) -> Result<(), Fail> {
    let alloc = rt.alloc();
    let mut link = filled(alloc)?;
    all_so(alloc, &mut link, ROWS)
}

#[test]
fn registries_answer_what_they_have_grown_to(rt: HostRuntime) -> Result<(), Fail> {
    let alloc = rt.alloc();
    let mut link = filled(alloc)?;
    link.grow(alloc)?;
    all_so(alloc, &mut link, GROWN)
}
