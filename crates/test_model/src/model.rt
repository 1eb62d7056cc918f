//! A registry of seven records. `model.py` makes its roots from the formats alone.

use indexmap::IndexMap;
use semver::Version;
use std::alloc::Global;
use std::test::Fail;
use warg_exchange::{
    Checkpoint, ConsistencyRequest, FetchLogsRequest, FetchLogsResponse, PublishedRecord,
};
use warg_hash::{AnyHash, LogId, PackageName, RecordId};
use warg_model::{LogsError, ModelError, ModelRegistry};
use warg_proof::LogLeaf;
use warg_record::{PublicKey, Signature};
use warg_values::Text;
use warg_verify::{verify_consistency, verify_inclusion};

/// The roots of the log and of the map of the first record.
const FIRST: (&str, &str) = (
    "sha256:87952972f59270f05482df5605ee5ea14b98cafb470d141457371b789ccb7603",
    "sha256:03c2fa152399f0ad7a8c14eb484db76f0c6b8a9142f929fb2b2546339e19643a",
);

/// Those of all seven records.
const LAST: (&str, &str) = (
    "sha256:04cf2a0862fcc2753532e22f3ba880d1253062b14fe706bf83626b6548655291",
    "sha256:e0b786436aafde7f3a7d0849a4c5fe57ff03254bb2c411a0bf9170cb8724d8c3",
);

/// The last record of each log: its place, the log's id and the digest of its contents.
const HEADS: [(u64, &str, &str); 3] = [
    (
        0,
        "sha256:0db9178aabc877b42f03a038bf453ee53f08e3c8c55fab916043428078596bfb",
        "sha256:5097dbc0ab8f020c7e5733d612affb6ef4e967edf8614c18d18ef2d6c43f03d8",
    ),
    (
        6,
        "sha256:3e789e3544c128ac72101b45dd3086b369ffe156bdfda2290de8469abdba57c1",
        "sha256:7d632b9bee195583124065064eea75243a8a66430911154f17404e4cfcff2b0e",
    ),
    (
        4,
        "sha256:10941f803aab8577585e1d97624a693a1e320321f117ddfe457c568b0c5d2d0e",
        "sha256:0ece1f3aad3a6e5c50e6351c9f571eb808ce7afcd0dea1656d3900b9c08ce256",
    ),
];

/// What becomes of publishing a version of a package, of which the content is the version's text.
fn published(
    alloc: Global,
    registry: &mut ModelRegistry,
    name: &str,
    version: &str,
) -> Result<Result<(), ModelError>, Fail> {
    let name = PackageName::new(alloc, name)?;
    let content = AnyHash::sha256_of(version.as_bytes());
    let version = Version::parse(alloc, version)?;
    Ok(registry.publish(alloc, &name, &version, &content))
}

/// What becomes of yanking a version of a package.
fn yanked(
    alloc: Global,
    registry: &mut ModelRegistry,
    name: &str,
    version: &str,
) -> Result<Result<(), ModelError>, Fail> {
    let name = PackageName::new(alloc, name)?;
    let version = Version::parse(alloc, version)?;
    Ok(registry.yank(alloc, &name, &version))
}

/// The registry of the one record of its operator, with a checkpoint of it.
fn opened(alloc: Global) -> Result<ModelRegistry, Fail> {
    let key = PublicKey::new(alloc, "k:AA==")?;
    let signature = Signature::new(alloc, "s:AA==")?;
    let mut registry = ModelRegistry::new(alloc, key, signature)?;
    registry.grow(alloc)?;
    Ok(registry)
}

/// Adds three releases and a yank, and makes a checkpoint of them.
fn fill(alloc: Global, registry: &mut ModelRegistry) -> Result<(), Fail> {
    published(alloc, registry, "a:b", "1.0.0")??;
    published(alloc, registry, "a:c", "1.0.0")??;
    published(alloc, registry, "a:b", "1.1.0")??;
    yanked(alloc, registry, "a:b", "1.0.0")??;
    registry.grow(alloc)?;
    Ok(())
}

/// The registry of seven records.
fn filled(alloc: Global) -> Result<ModelRegistry, Fail> {
    let mut registry = opened(alloc)?;
    fill(alloc, &mut registry)?;
    Ok(registry)
}

/// The contents of the last checkpoint.
fn latest(registry: &ModelRegistry) -> Result<&Checkpoint, Fail> {
    let checkpoint = registry.checkpoint().ok_or("a checkpoint")?;
    Ok(&checkpoint.contents)
}

/// Fails where the last checkpoint is of another length, or has other roots.
fn is_checkpoint(
    alloc: Global,
    registry: &ModelRegistry,
    length: u64,
    roots: (&str, &str),
) -> Result<(), Fail> {
    let found = latest(registry)?;
    if found.log_length != length || found.timestamp != length {
        return Err(Fail::new(format_args!("length {}", found.log_length)));
    }
    if found.log_root != AnyHash::from_text(alloc, roots.0)? {
        return Err(Fail::new(format_args!("log root {:?}", found.log_root)));
    }
    if found.map_root != AnyHash::from_text(alloc, roots.1)? {
        return Err(Fail::new(format_args!("map root {:?}", found.map_root)));
    }
    Ok(())
}

#[test]
fn checkpoints_have_the_roots_that_python_computes(rt: HostRuntime) -> Result<(), Fail> {
    let mut registry = opened(rt.alloc())?;
    is_checkpoint(rt.alloc(), &registry, 1, FIRST)?;
    fill(rt.alloc(), &mut registry)?;
    is_checkpoint(rt.alloc(), &registry, 7, LAST)
}

#[test]
fn releases_and_yanks_are_refused_once_they_are_made(rt: HostRuntime) -> Result<(), Fail> {
    let alloc = rt.alloc();
    let mut registry = filled(alloc)?;
    let again = published(alloc, &mut registry, "a:c", "1.0.0")?;
    assert!(rt; again == Err(ModelError::ReleaseAgain));
    let yanked_again = published(alloc, &mut registry, "a:b", "1.0.0")?;
    assert!(rt; yanked_again == Err(ModelError::ReleaseAgain));
    let twice = yanked(alloc, &mut registry, "a:b", "1.0.0")?;
    assert!(rt; twice == Err(ModelError::NotReleased));
    let unknown = yanked(alloc, &mut registry, "a:d", "1.0.0")?;
    assert!(rt; unknown == Err(ModelError::NotReleased));
    registry.grow(alloc)?;
    is_checkpoint(alloc, &registry, 7, LAST)
}

/// The page of seven records behind tokens: of the operator's log, and of packages' logs.
fn page(
    alloc: Global,
    registry: &ModelRegistry,
    operator: Option<&str>,
    packages: &[(&str, Option<&str>)],
) -> Result<Result<FetchLogsResponse, LogsError>, Fail> {
    let mut asked = IndexMap::new(alloc);
    for (name, token) in packages {
        let name = PackageName::new(alloc, name)?;
        asked.insert(LogId::package_log(&name), text_of(alloc, *token)?)?;
    }
    let request = FetchLogsRequest {
        log_length: 7,
        operator: text_of(alloc, operator)?,
        packages: asked,
    };
    Ok(registry.page(alloc, &request))
}

/// A text of its own, where there is one.
fn text_of(alloc: Global, text: Option<&str>) -> Result<Option<Text>, Fail> {
    match text {
        Some(text) => Ok(Some(Text::copy_of(alloc, text)?)),
        None => Ok(None),
    }
}

/// Whether records stand at these places.
fn are_at(records: &[PublishedRecord], places: &[u64]) -> bool {
    if records.len() != places.len() {
        return false;
    }
    for (record, place) in records.iter().zip(places.iter()) {
        if record.registry_index != *place {
            return false;
        }
    }
    true
}

/// Whether a page lists just records at these places for the log at an index of it.
fn lists(page: &FetchLogsResponse, index: usize, places: &[u64]) -> bool {
    match page.packages.get_index(index) {
        Some((_, records)) => are_at(records.as_slice(), places),
        None => false,
    }
}

#[test]
fn a_page_has_what_is_behind_the_tokens(rt: HostRuntime) -> Result<(), Fail> {
    let alloc = rt.alloc();
    let registry = filled(alloc)?;
    let whole = page(alloc, &registry, None, &[("a:b", None), ("a:c", None)])??;
    assert!(rt; !whole.more && are_at(whole.operator.as_slice(), &[0]));
    assert!(rt;
        whole.packages.len() == 2 && lists(&whole, 0, &[1, 2, 5, 6]) && lists(&whole, 1, &[3, 4])
    );
    let behind = page(
        alloc,
        &registry,
        Some("0"),
        &[("a:b", Some("2")), ("a:c", Some("4"))],
    )??;
    assert!(rt;
        behind.operator.is_empty() && behind.packages.len() == 1 && lists(&behind, 0, &[5, 6])
    );
    Ok(())
}

/// Whether a page is refused for want of a log.
fn wants_log(page: &Result<FetchLogsResponse, LogsError>) -> bool {
    matches!(page, Err(LogsError::LogNotFound(_)))
}

/// Whether a page is refused for a token.
fn wants_token(page: &Result<FetchLogsResponse, LogsError>, token: &str) -> bool {
    match page {
        Err(LogsError::FetchTokenNotFound(found)) => found.as_str() == token,
        _ => false,
    }
}

#[test]
fn a_page_is_refused_for_a_log_or_a_token_that_is_not_there(rt: HostRuntime) -> Result<(), Fail> {
    let alloc = rt.alloc();
    let registry = filled(alloc)?;
    assert!(rt; wants_log(&page(alloc, &registry, None, &[("a:d", None)])?));
    for token in ["07", "3", "7", "x"].as_slice() {
        let refused = page(alloc, &registry, None, &[("a:b", Some(*token))])?;
        assert!(rt; wants_token(&refused, token), "{token}");
    }
    Ok(())
}

#[test]
fn the_last_records_are_included(rt: HostRuntime) -> Result<(), Fail> {
    let alloc = rt.alloc();
    let registry = filled(alloc)?;
    let mut indices = Vec::new(alloc);
    let mut leafs = Vec::new(alloc);
    for (place, log, record) in HEADS.as_slice() {
        indices.push(*place)?;
        leafs.push(LogLeaf {
            log_id: LogId::from_text(alloc, log)?,
            record_id: RecordId::from_text(alloc, record)?,
        })?;
    }
    let bundles = registry
        .hashes(alloc, 7)?
        .inclusion(alloc, indices.as_slice())?;
    let checkpoint = latest(&registry)?;
    verify_inclusion(
        alloc,
        &bundles,
        checkpoint,
        indices.as_slice(),
        leafs.as_slice(),
    )?;
    Ok(())
}

#[test]
fn the_log_continues_its_beginning(rt: HostRuntime) -> Result<(), Fail> {
    let alloc = rt.alloc();
    let registry = filled(alloc)?;
    let bundle = registry.hashes(alloc, 7)?.consistency(alloc, 1, 7)?;
    let lengths = ConsistencyRequest { from: 1, to: 7 };
    let from_root = AnyHash::from_text(alloc, FIRST.0)?;
    let to_root = AnyHash::from_text(alloc, LAST.0)?;
    verify_consistency(alloc, &bundle, &lengths, &from_root, &to_root)?;
    Ok(())
}
