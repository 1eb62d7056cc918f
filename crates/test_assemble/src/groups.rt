//! What a client answers of several packages, over registries in memory.

use semver::Version;
use std::alloc::{AllocError, Global};
use std::fmt::Display;
use std::rt::HostRuntime;
use std::test::Fail;
use warg_client::{Client, ClientError, Settings};
use warg_hash::PackageName;
use warg_hint::AlwaysDecide;
use warg_info::PackageInfo;
use warg_log::ListedVerifier;
use warg_store::{MemoryContent, MemoryNamespaces, MemoryRegistry, NamespaceMapStorage};
use warg_url::RegistryDomain;
use warg_values::Text;
use warg_vectors::ModelRegistry;

/// A client of registries in memory, with stores in memory.
type TestClient = Client<
    ModelRegistry,
    MemoryRegistry,
    MemoryContent,
    MemoryNamespaces,
    ListedVerifier,
    AlwaysDecide,
>;

/// The packages of the home registry, and of the registry that has the namespace `other`.
const AT_HOME: &[&str] = &["demo:first", "demo:second", "demo:third"];

const ELSEWHERE: &[&str] = &["other:first", "other:second"];

/// Names that are asked for in one call, and what is told of it: the names of the logs that are answered, and how many
/// exchanges there were. An update asks for a checkpoint, for a page of its logs, and for their inclusion.
const ASKED: &[(&[&str], &str)] = &[
    (&[], "0 exchanges"),
    (&["demo:second"], "demo:second, 3 exchanges"),
    (
        &["demo:second", "demo:first", "demo:third"],
        "demo:second, demo:first, demo:third, 3 exchanges",
    ),
    (
        &["demo:second", "other:first", "demo:first", "other:second"],
        "demo:second, other:first, demo:first, other:second, 6 exchanges",
    ),
    // A group that is refused: the one made last comes first, and nothing is asked for the other one.
    (
        &["demo:first", "other:third"],
        "the registry has no package other:third: check the package's name and the registry, 2 exchanges",
    ),
    (
        &["other:third", "demo:first"],
        "the registry has no package other:third: check the package's name and the registry, 5 exchanges",
    ),
    // One log can't be asked for twice.
    (
        &["demo:first", "demo:first"],
        "out of memory: free some, or give the program more, and try again, 0 exchanges",
    ),
];

/// The name of the registry that has the namespace `other`.
fn other(alloc: Global) -> Result<RegistryDomain, Fail> {
    Ok(RegistryDomain::new(Text::copy_of(alloc, "b.test")?))
}

/// Publishes a release of each of these packages.
fn publish(
    alloc: Global,
    registries: &mut ModelRegistry,
    registry: Option<&RegistryDomain>,
    names: &[&str],
) -> Result<(), Fail> {
    for name in names {
        let name = PackageName::new(alloc, name)?;
        registries.publish_contents(alloc, registry, &name, &Version::new(1, 0, 0), b"")?;
    }
    Ok(())
}

/// Registries with the packages.
fn registries(alloc: Global) -> Result<ModelRegistry, Fail> {
    let other = other(alloc)?;
    let mut registries = ModelRegistry::new(alloc);
    publish(alloc, &mut registries, None, AT_HOME)?;
    publish(alloc, &mut registries, Some(&other), ELSEWHERE)?;
    registries.grow(alloc)?;
    Ok(registries)
}

/// Names, of which the other registry has the namespace `other`.
fn namespaces(alloc: Global) -> Result<MemoryNamespaces, Fail> {
    let mut namespaces = MemoryNamespaces::new(alloc);
    namespaces.store_namespace(alloc, "other", &other(alloc)?)?;
    Ok(namespaces)
}

/// A client over a link, by this verifier and these namespaces.
fn client_over(
    alloc: Global,
    registries: ModelRegistry,
    verifier: ListedVerifier,
    namespaces: MemoryNamespaces,
) -> Result<TestClient, ClientError> {
    let settings = Settings {
        ignore_federation_hints: false,
        disable_auto_accept_federation_hints: false,
        disable_auto_package_init: false,
        disable_interactive: false,
        round_limit: 10,
        polls: 1,
    };
    Client::new(
        alloc,
        "https://home.test",
        registries,
        MemoryRegistry::new(alloc),
        MemoryContent::new(alloc),
        namespaces,
        verifier,
        AlwaysDecide { answer: true },
        None,
        settings,
    )
}

/// A client of the registries.
fn client(alloc: Global) -> Result<TestClient, Fail> {
    let namespaces = namespaces(alloc)?;
    let registries = registries(alloc)?;
    let verifier = registries.verifier(alloc)?;
    Ok(client_over(alloc, registries, verifier, namespaces)?)
}

/// These names of packages.
fn package_names(alloc: Global, names: &[&str]) -> Result<Vec<PackageName>, Fail> {
    let mut all = Vec::new(alloc);
    for name in names {
        all.push(PackageName::new(alloc, name)?)?;
    }
    Ok(all)
}

/// The names of logs, each with a comma behind it.
fn named(alloc: Global, infos: &[PackageInfo]) -> Result<String, AllocError> {
    let mut line = String::new(alloc);
    for info in infos {
        line.push_str(info.name.as_str())?;
        line.push_str(", ")?;
    }
    Ok(line)
}

/// An error in words. It takes an error of any type, since one of a known type is dropped by a proof for each kind of
/// it.
fn error_text<E: Display + Drop>(alloc: Global, error: E) -> Result<String, AllocError> {
    format!(in alloc; "{error}, ")
}

/// What is told of an answer.
fn answer_text(
    alloc: Global,
    answer: Result<Vec<PackageInfo>, ClientError>,
) -> Result<String, AllocError> {
    match answer {
        Ok(infos) => named(alloc, &infos),
        Err(error) => error_text(alloc, error),
    }
}

/// What a client tells of these packages.
fn asked(
    alloc: Global,
    client: &mut TestClient,
    names: &[PackageName],
) -> Result<String, AllocError> {
    let text = answer_text(alloc, client.fetch_packages(alloc, names))?;
    let exchanges = client.transcript().len();
    format!(in alloc; "{text}{exchanges} exchanges")
}

/// What a new client tells of these packages.
fn told(alloc: Global, names: &[&str]) -> Result<String, Fail> {
    let names = package_names(alloc, names)?;
    let mut client = client(alloc)?;
    Ok(asked(alloc, &mut client, &names)?)
}

#[test]
fn packages_of_one_registry_are_updated_together(rt: HostRuntime) -> Result<(), Fail> {
    for (names, expected) in ASKED {
        let found = told(rt.alloc(), names)?;
        if found.as_str() != *expected {
            return Err(Fail::new(format_args!("{found} in place of {expected}")));
        }
    }
    Ok(())
}
