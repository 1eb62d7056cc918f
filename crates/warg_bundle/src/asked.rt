//! The releases that the imports of a component ask for.

ghost use Rattle.std.specs.Prelude.{◌≡◌, IfOk, map, option_map};
ghost use Rattle.comp_format.specs.Items.{item_tree};
ghost use Rattle.warg_names.specs.View.{import_tree, kind_tree};
ghost use Rattle.semver.specs.Identifiers.{parts_of};
ghost use Rattle.warg_bundle.specs.Asked.{asked_by, is_release, release_asked, releases_asked};
ghost use Rattle.warg_bundle.specs.View.{asked_view, one_asked};

use comp_format::{Item, TypeRef};
use std::alloc::Global;
use warg_names::{DependencyImportParser, Import, ImportKind, ImportNameError};
use warg_values::{Memory, Text};

/// An import of a component whose name asks for a release.
#[derive(Debug, Drop)]
pub struct Asked<'a> {
    /// The name of the import.
    pub name: &'a Text,
    /// What it asks for.
    pub import: Import,
}

/// Whether an import asks for a release: for one version, by the digest of its content.
fn is_release(import: &Import) -> bool
    ensures { result ≡ is_release (kind_tree import.now.kind) (option_map parts_of import.now.exact) }
{
    match (&import.kind, &import.exact) {
        (ImportKind::Locked(Some(_)), Some(_)) => true,
        _ => false,
    }
}

/// What a name asks for, where it asks for a release.
#[tactic(auto, unfolding(crate::specs::Asked::release_asked))]
fn release_asked(alloc: Global, name: &str) -> Result<Option<Import>, Memory>
    ensures { IfOk result (λ asked. option_map import_tree asked ≡ release_asked name.now) }
{
    let mut parser = DependencyImportParser {
        next: name,
        offset: 0,
    };
    match parser.parse(alloc) {
        Ok(import) => {
            if is_release(&import) {
                Ok(Some(import))
            } else {
                Ok(None)
            }
        }
        Err(ImportNameError::Memory) => Err(Memory),
        Err(_) => Ok(None),
    }
}

/// The release that an item asks for, where it is an import of a component whose name asks for one.
fn asked_by<'a>(alloc: Global, item: &'a Item<'_>) -> Result<Option<Asked<'a>>, Memory>
    ensures { IfOk result (λ asked. asked_by (item_tree item.now) ≡ one_asked asked) }
{
    match item {
        Item::Import {
            name,
            ty: TypeRef::Component(_),
        } => match release_asked(alloc, name.as_str())? {
            Some(import) => Ok(Some(Asked { name, import })),
            None => Ok(None),
        },
        _ => Ok(None),
    }
}

/// The releases that items ask for, in order.
pub fn releases_asked<'a>(alloc: Global, items: &'a [Item<'_>]) -> Result<Vec<Asked<'a>>, Memory>
    ensures { IfOk result (λ asked. map asked_view asked.items ≡ releases_asked (map item_tree items.now)) }
{
    let mut asked = Vec::new(alloc);
    for item in items {
        if let Some(release) = asked_by(alloc, item)? {
            asked.push(release)?;
        }
    }
    Ok(asked)
}
