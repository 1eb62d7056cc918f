//! The home registry and another one, and a client of both.

use semver::Version;
use std::alloc::{AllocError, Global};
use std::fmt::Display;
use std::test::Fail;
use warg_api::{Client, ClientError};
use warg_hash::PackageName;
use warg_url::RegistryDomain;
use warg_values::Text;
use warg_vectors::{ModelError, ModelRegistry};

/// A client of the registries.
pub fn client(alloc: Global) -> Result<Client, Fail> {
    Ok(Client::new(alloc, "https://home.test/", None)?)
}

/// The name of the other registry.
pub fn other(alloc: Global) -> Result<RegistryDomain, Fail> {
    Ok(RegistryDomain::new(Text::copy_of(alloc, "b.test")?))
}

/// What becomes of publishing a version of a package, of which the content is the version's text.
pub fn published(
    alloc: Global,
    registries: &mut ModelRegistry,
    registry: Option<&RegistryDomain>,
    package: &str,
    version: &str,
) -> Result<Result<(), ModelError>, Fail> {
    let package = PackageName::new(alloc, package)?;
    let content = version.as_bytes();
    let version = Version::parse(alloc, version)?;
    Ok(registries.publish_contents(alloc, registry, &package, &version, content))
}

/// What becomes of yanking a version of a package of the home registry.
pub fn yanked(
    alloc: Global,
    registries: &mut ModelRegistry,
    package: &str,
    version: &str,
) -> Result<Result<(), ModelError>, Fail> {
    let package = PackageName::new(alloc, package)?;
    let version = Version::parse(alloc, version)?;
    Ok(registries.yank(alloc, None, &package, &version))
}

/// Publishes two releases to the home registry, and has it grow.
fn fill_home(alloc: Global, registries: &mut ModelRegistry) -> Result<(), Fail> {
    published(alloc, registries, None, "a:b", "1.0.0")??;
    published(alloc, registries, None, "a:b", "1.1.0")??;
    registries.grow(alloc)?;
    Ok(())
}

/// Publishes a release to the other registry.
fn fill_other(alloc: Global, registries: &mut ModelRegistry) -> Result<(), Fail> {
    let other = other(alloc)?;
    published(alloc, registries, Some(&other), "a:c", "2.0.0")??;
    Ok(())
}

/// The home registry with two releases and a checkpoint, and behind it a yank and a release of the other registry.
pub fn filled(alloc: Global) -> Result<ModelRegistry, Fail> {
    let mut registries = ModelRegistry::new(alloc);
    fill_home(alloc, &mut registries)?;
    yanked(alloc, &mut registries, "a:b", "1.0.0")??;
    fill_other(alloc, &mut registries)?;
    Ok(registries)
}

/// An answer in words, where there was memory for them.
pub fn words(text: Result<String, AllocError>) -> Result<String, ClientError> {
    text.map_err(|_| ClientError::Memory)
}

/// An error in words. It takes an error of any type, since one of a known type is dropped by a proof for each kind of
/// it.
fn error_text<E: Display + Drop>(alloc: Global, error: E) -> Result<String, Fail> {
    Ok(format!(in alloc; "{error}")?)
}

/// What is answered, with an error as it is told.
pub fn told(alloc: Global, answer: Result<String, ClientError>) -> Result<String, Fail> {
    match answer {
        Ok(words) => Ok(words),
        Err(error) => error_text(alloc, error),
    }
}
